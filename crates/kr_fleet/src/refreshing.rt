//! Settings that are published anew where a plugin's key has changed.
ghost use Rattle.std.specs.Prelude.{◌≡◌, ◌<◌, ◌≤◌, length, get_or, ℕ, List, [], ◌∷◌, Contains, None, Some, IfOk};
ghost use Rattle.kr_base.specs.Walks.{Talk};
ghost use Rattle.kr_config.specs.Kept.{rows_of};
ghost use Rattle.kr_provider.specs.AskedLinks.{Among, AskedOnly};
ghost use Rattle.kr_provider.specs.BenchKeys.{adoption_of};
ghost use Rattle.kr_provider.specs.Names.{HasLinks, names_of};
ghost use Rattle.kr_rollout.specs.Callers.{holding, reloads_in};
ghost use Rattle.kr_rollout.specs.Openings.{NamesAmong};
ghost use Rattle.kr_history.specs.Calls.{AreServed, IsIdle};
ghost use Rattle.kr_history.specs.Parts.{AddsWithin};
ghost use Rattle.kr_fleet.specs.CallExchanges.{ComparesKeysBy, IsRefreshBy, RefreshesBy};
ghost use Rattle.kr_fleet.specs.LoadCalls.{IsRefresh, Refreshes, plugin_names};
ghost use Rattle.kr_fleet.specs.inner.Stages.{ComparesKeyBy, ComparesKeys};

use crate::loading::{load_done, publish, publish_refusal};
use crate::outcome::Loaded;
use kr_base::{Dice, NoMemory, Shared};
use kr_config::Settings;
use kr_history::{Acts, CallNo, adopt, let_go};
use kr_kms::{Kms, SeedRow};
use kr_provider::{Bench, Published};
use std::alloc::Global;

/// Publishes the replica's current settings anew, where the key id of one of their plugins isn't
/// that of the published seed any more. The seat holds the current generation meanwhile, and the
/// replica is given the new one only where it hasn't moved on. It is never refused.
pub fn refresh<A: Acts, L: Kms, D: Dice>(
    alloc: Global,
    acts: &mut A,
    replica: u32,
    bench: &mut Bench<L, D>,
) -> Result<Loaded, CallNo>
    requires replica { replica < length (A.caller acts.old).opening.replicas }
    requires idle { holding (A.caller acts.old).mine ≡ None }
    requires room { reloads_in (A.caller acts.old).mine
        < get_or (A.caller acts.old).opening.reloads (A.caller acts.old).seat 0 }
    requires links { AreServed (A.caller acts.old).opening.names (names_of L.link bench.old.links) }
    ensures refreshes { IsRefresh L.link D.left D.count replica
        (A.caller acts.old) bench.old.links bench.old.dice result (A.caller acts.new)
        bench.new.links bench.new.dice }
    ensures exchanged { Talk (Among L.step) bench.old.links bench.new.links (IsRefreshBy D.left
        D.count replica (A.caller acts.old) bench.old.dice result (A.caller acts.new)
        bench.new.dice) }
    ensures idle { IsIdle result (A.caller acts.new) }
    ensures asked { AskedOnly L.link (names_of L.link bench.old.links) bench.old.links
        bench.new.links }
    ensures later { D.count bench.old.dice ≤ D.count bench.new.dice }
    ensures kept { bench.new
        ≡ record bench.old { links = bench.new.links; dice = bench.new.dice } }
    ensures keys { adoption_of bench.new ≡ adoption_of bench.old }
    ensures adds { AddsWithin 3 1 [] (A.caller acts.old) (A.caller acts.new) }
    ensures place { A.place acts.new ≡ A.place acts.old }
{
    let (generation, published) = match adopt(acts, replica) {
        Ok(held) => held,
        Err(why) => return Err(why),
    };
    let done = renew(alloc, acts, replica, bench, generation, published.get());
    let_go(acts, done)
}

/// Publishes the held generation's settings anew, where a key has changed.
fn renew<A: Acts, L: Kms, D: Dice>(
    alloc: Global,
    acts: &mut A,
    replica: u32,
    bench: &mut Bench<L, D>,
    generation: u32,
    published: &Published,
) -> Result<Loaded, CallNo>
    requires replica { replica < length (A.caller acts.old).opening.replicas }
    requires held { holding (A.caller acts.old).mine ≡ Some (generation, published.now) }
    requires names { NamesAmong (A.caller acts.old).opening.names published.now.rows }
    requires room { reloads_in (A.caller acts.old).mine
        < get_or (A.caller acts.old).opening.reloads (A.caller acts.old).seat 0 }
    requires links { HasLinks (names_of L.link bench.old.links) published.now.rows }
    ensures refreshes { Refreshes L.link D.left D.count replica generation published.now
        (A.caller acts.old) bench.old.links bench.old.dice result (A.caller acts.new)
        bench.new.links bench.new.dice }
    ensures exchanged { Talk (Among L.step) bench.old.links bench.new.links (RefreshesBy D.left
        D.count replica generation published.now (A.caller acts.old) bench.old.dice result
        (A.caller acts.new) bench.new.dice) }
    ensures holds { holding (A.caller acts.new).mine ≡ holding (A.caller acts.old).mine }
    ensures asked { AskedOnly L.link (plugin_names published.now.seeds) bench.old.links
        bench.new.links }
    ensures later { D.count bench.old.dice ≤ D.count bench.new.dice }
    ensures kept { bench.new
        ≡ record bench.old { links = bench.new.links; dice = bench.new.dice } }
    ensures adds { AddsWithin 1 1 [] (A.caller acts.old) (A.caller acts.new) }
    ensures place { A.place acts.new ≡ A.place acts.old }
{
    published.known();
    let changed = match has_changed(alloc, bench, published_seeds(published)) {
        Ok(changed) => changed,
        Err(why) => return Err(why),
    };
    if !changed {
        return Ok(Loaded::Unchanged(generation));
    }
    let Ok(settings) = share_published_settings(published) else {
        return Err(CallNo::NoMemory);
    };
    let anew = match publish(alloc, bench, settings) {
        Ok(anew) => anew,
        Err(why) => return Err(why),
    };
    acts.known();
    load_done(kr_history::reload(acts, replica, anew, Some(generation)))
}

/// The seeds of the configuration.
fn published_seeds(published: &Published) -> &[SeedRow]
    ensures { result.now ≡ published.now.seeds }
{
    published.seeds.as_slice()
}

/// One more owner of the configuration's settings.
fn share_published_settings(published: &Published) -> Result<Shared<Settings>, NoMemory>
    ensures { IfOk result (λ settings. rows_of settings.entries.0 ≡ published.now.rows) }
{
    published.settings.share()
}

/// Whether a plugin tells another key id than that of its seed. The first that does ends it.
fn has_changed<L: Kms, D: Dice>(
    alloc: Global,
    bench: &mut Bench<L, D>,
    seeds: &[SeedRow],
) -> Result<bool, CallNo>
    requires links { (name : List ℕ) → Contains (plugin_names seeds.now) name
        → Contains (names_of L.link bench.old.links) name }
    ensures compares { ComparesKeys L.link seeds.now bench.old.links result bench.new.links }
    ensures exchanged { Talk (Among L.step) bench.old.links bench.new.links
        (ComparesKeysBy seeds.now result) }
    ensures asked { AskedOnly L.link (plugin_names seeds.now) bench.old.links
        bench.new.links }
    ensures kept { bench.new ≡ record bench.old { links = bench.new.links } }
{
    for row in seeds {
        let changed = match is_changed(alloc, bench, row) {
            Ok(changed) => changed,
            Err(why) => return Err(why),
        };
        if changed {
            return Ok(true);
        }
    }
    Ok(false)
}

/// Whether the seed's plugin tells another key id.
fn is_changed<L: Kms, D: Dice>(
    alloc: Global,
    bench: &mut Bench<L, D>,
    row: &SeedRow,
) -> Result<bool, CallNo>
    requires link { Contains (names_of L.link bench.old.links) row.now.name }
    ensures compares { ComparesKeys L.link (row.now ∷ []) bench.old.links result
        bench.new.links }
    ensures exchanged { Talk (Among L.step) bench.old.links bench.new.links
        (ComparesKeyBy row.now result) }
    ensures asked { AskedOnly L.link (row.now.name ∷ []) bench.old.links bench.new.links }
    ensures kept { bench.new ≡ record bench.old { links = bench.new.links } }
{
    match bench.key_id(alloc, row.name.as_str()) {
        Ok(key_id) => Ok(key_id.as_str() != row.key_id.as_str()),
        Err(why) => Err(publish_refusal(why)),
    }
}
