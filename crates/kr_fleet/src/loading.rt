//! Configurations that are published and brought.
ghost use Rattle.std.specs.Prelude.{◌≡◌, ◌<◌, ◌≤◌, [], length, get_or, None};
ghost use Rattle.kr_base.specs.Walks.{Talk};
ghost use Rattle.kr_config.specs.Kept.{plugins_in, rows_of};
ghost use Rattle.kr_provider.specs.AskedLinks.{Among, AskedOnly};
ghost use Rattle.kr_provider.specs.Names.{HasLinks, names_of};
ghost use Rattle.kr_rollout.specs.Callers.{holding, reloads_in};
ghost use Rattle.kr_rollout.specs.Openings.{NamesAmong};
ghost use Rattle.kr_history.specs.Calls.{AreServed};
ghost use Rattle.kr_history.specs.Parts.{AddsWithin};
ghost use Rattle.kr_fleet.specs.CallExchanges.{IsJoinBy, IsReloadBy};
ghost use Rattle.kr_fleet.specs.CallForms.{publish_refusal};
ghost use Rattle.kr_fleet.specs.LoadCalls.{IsJoin, IsReload};
ghost use Rattle.kr_fleet.specs.inner.Stages.{SharesPublished, SharesPublishedBy, load_done};

use crate::outcome::Loaded;
use kr_base::{Dice, Shared};
use kr_config::Settings;
use kr_history::{Acts, CallNo, Joining, Reloading};
use kr_kms::Kms;
use kr_provider::{Bench, PublishNo, Published};
use std::alloc::Global;

/// Publishes the settings, and gives them to the replica, which is in, in place of its current
/// generation, whichever that is.
pub fn reload<A: Acts, L: Kms, D: Dice>(
    alloc: Global,
    acts: &mut A,
    bench: &mut Bench<L, D>,
    replica: u32,
    settings: Shared<Settings>,
) -> Result<Loaded, CallNo>
    requires replica { replica < length (A.caller acts.old).opening.replicas }
    requires idle { holding (A.caller acts.old).mine ≡ None }
    requires names { NamesAmong (A.caller acts.old).opening.names (rows_of settings.entries.0) }
    requires room { reloads_in (A.caller acts.old).mine
        < get_or (A.caller acts.old).opening.reloads (A.caller acts.old).seat 0 }
    requires links { AreServed (A.caller acts.old).opening.names (names_of L.link bench.old.links) }
    ensures reloads { IsReload L.link D.left D.count (rows_of settings.entries.0) replica
        (A.caller acts.old) bench.old.links bench.old.dice result (A.caller acts.new)
        bench.new.links bench.new.dice }
    ensures exchanged { Talk (Among L.step) bench.old.links bench.new.links (IsReloadBy D.left
        D.count (rows_of settings.entries.0) replica (A.caller acts.old) bench.old.dice result
        (A.caller acts.new) bench.new.dice) }
    ensures idle { holding (A.caller acts.new).mine ≡ None }
    ensures asked { AskedOnly L.link (plugins_in (rows_of settings.entries.0)) bench.old.links
        bench.new.links }
    ensures later { D.count bench.old.dice ≤ D.count bench.new.dice }
    ensures kept { bench.new
        ≡ record bench.old { links = bench.new.links; dice = bench.new.dice } }
    ensures adds { AddsWithin 1 1 [] (A.caller acts.old) (A.caller acts.new) }
    ensures place { A.place acts.new ≡ A.place acts.old }
{
    let published = match publish(alloc, bench, settings) {
        Ok(published) => published,
        Err(why) => return Err(why),
    };
    load_done(kr_history::reload(acts, replica, published, None))
}

/// Publishes the settings, and gives them to the replica, which isn't in.
pub fn join<A: Acts, L: Kms, D: Dice>(
    alloc: Global,
    acts: &mut A,
    bench: &mut Bench<L, D>,
    replica: u32,
    settings: Shared<Settings>,
) -> Result<Joining, CallNo>
    requires replica { replica < length (A.caller acts.old).opening.replicas }
    requires idle { holding (A.caller acts.old).mine ≡ None }
    requires names { NamesAmong (A.caller acts.old).opening.names (rows_of settings.entries.0) }
    requires room { reloads_in (A.caller acts.old).mine
        < get_or (A.caller acts.old).opening.reloads (A.caller acts.old).seat 0 }
    requires links { AreServed (A.caller acts.old).opening.names (names_of L.link bench.old.links) }
    ensures joins { IsJoin L.link D.left D.count (rows_of settings.entries.0) replica
        (A.caller acts.old) bench.old.links bench.old.dice result (A.caller acts.new)
        bench.new.links bench.new.dice }
    ensures exchanged { Talk (Among L.step) bench.old.links bench.new.links (IsJoinBy D.left
        D.count (rows_of settings.entries.0) replica (A.caller acts.old) bench.old.dice result
        (A.caller acts.new) bench.new.dice) }
    ensures idle { holding (A.caller acts.new).mine ≡ None }
    ensures asked { AskedOnly L.link (plugins_in (rows_of settings.entries.0)) bench.old.links
        bench.new.links }
    ensures later { D.count bench.old.dice ≤ D.count bench.new.dice }
    ensures kept { bench.new
        ≡ record bench.old { links = bench.new.links; dice = bench.new.dice } }
    ensures adds { AddsWithin 1 1 [] (A.caller acts.old) (A.caller acts.new) }
    ensures place { A.place acts.new ≡ A.place acts.old }
{
    let published = match publish(alloc, bench, settings) {
        Ok(published) => published,
        Err(why) => return Err(why),
    };
    kr_history::join(acts, replica, published)
}

/// Publishes the settings to be shared.
pub(crate) fn publish<L: Kms, D: Dice>(
    alloc: Global,
    bench: &mut Bench<L, D>,
    settings: Shared<Settings>,
) -> Result<Shared<Published>, CallNo>
    requires links { HasLinks (names_of L.link bench.old.links) (rows_of settings.entries.0) }
    ensures published { SharesPublished L.link D.left D.count (rows_of settings.entries.0)
        bench.old.links bench.old.dice result bench.new.links bench.new.dice }
    ensures exchanged { Talk (Among L.step) bench.old.links bench.new.links (SharesPublishedBy
        D.left D.count (rows_of settings.entries.0) bench.old.dice result bench.new.dice) }
    ensures asked { AskedOnly L.link (plugins_in (rows_of settings.entries.0)) bench.old.links
        bench.new.links }
    ensures later { D.count bench.old.dice ≤ D.count bench.new.dice }
    ensures kept { bench.new
        ≡ record bench.old { links = bench.new.links; dice = bench.new.dice } }
{
    let published = match bench.publish(alloc, settings) {
        Ok(published) => published,
        Err(why) => return Err(publish_refusal(why)),
    };
    match Shared::new(alloc, published) {
        Ok(shared) => Ok(shared),
        Err(_refused) => Err(CallNo::NoMemory),
    }
}

/// Why settings aren't published.
pub(crate) fn publish_refusal(why: PublishNo) -> CallNo
    ensures { result ≡ publish_refusal why }
{
    match why {
        PublishNo::PluginFailed { name } => CallNo::PluginFailed { name },
        PublishNo::DiceFailed => CallNo::DiceFailed,
        PublishNo::Unhealthy { name, field, text } => CallNo::Unhealthy { name, field, text },
        PublishNo::NoMemory => CallNo::NoMemory,
    }
}

/// What the replica has now, by what its Reload did.
pub(crate) fn load_done(done: Result<Reloading, CallNo>) -> Result<Loaded, CallNo>
    ensures { result ≡ load_done done }
{
    match done {
        Ok(Reloading::Generation(generation)) => Ok(Loaded::Generation(generation)),
        Ok(Reloading::Refused(verdict)) => Ok(Loaded::Refused(verdict)),
        Ok(Reloading::Moved(generation)) => Ok(Loaded::Moved(generation)),
        Err(why) => Err(why),
    }
}
