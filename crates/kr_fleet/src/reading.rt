//! The data at a path.
ghost use Rattle.std.specs.Prelude.{◌≡◌, ◌<◌, ◌≤◌, [], length, None, IfSome};
ghost use Rattle.kr_base.specs.Rules.{IsPath};
ghost use Rattle.kr_base.specs.Walks.{Talk, Walk};
ghost use Rattle.kr_provider.specs.AskedLinks.{Among, AskedOnly};
ghost use Rattle.kr_provider.specs.BenchKeys.{LeavesKeys, adoption_of};
ghost use Rattle.kr_provider.specs.KeyPages.{size_of};
ghost use Rattle.kr_provider.specs.Names.{names_of};
ghost use Rattle.kr_rollout.specs.Callers.{holding};
ghost use Rattle.kr_history.specs.Calls.{AreServed, HoldsAdopted, IsIdle, KeepsHonesty};
ghost use Rattle.kr_history.specs.KeyMoments.{Happens, call_moments, has_adopted};
ghost use Rattle.kr_history.specs.Parts.{AddsWithin};
ghost use Rattle.kr_fleet.specs.CallExchanges.{FindsBy, IsReadBy};
ghost use Rattle.kr_fleet.specs.ReadCalls.{Finds, IsRead};
ghost use Rattle.kr_fleet.specs.inner.Stages.{row_value};

use crate::outcome::Read;
use kr_base::{Dice, Text};
use kr_history::{Acts, CallNo, fetch, hand_back, take_up, unseal};
use kr_kms::Kms;
use kr_provider::{Bench, Opened, UnsealNo};
use std::alloc::Global;

/// Reads the data at the path by the replica's current generation, which the seat holds meanwhile.
/// Where plugins unwrap what they wrapped, or none is named, `Refused` comes only for a row with
/// which the core was started.
pub fn read<A: Acts, L: Kms, D: Dice>(
    alloc: Global,
    acts: &mut A,
    replica: u32,
    bench: &mut Bench<L, D>,
    path: &str,
) -> Result<Read, CallNo>
    requires replica { replica < length (A.caller acts.old).opening.replicas }
    requires idle { holding (A.caller acts.old).mine ≡ None }
    requires path { IsPath path.now }
    requires links { AreServed (A.caller acts.old).opening.names (names_of L.link bench.old.links) }
    requires pages { 64 ≤ size_of bench.old.pages }
    ensures reads { IsRead L.link path.now replica (A.caller acts.old) bench.old.links
        result (A.caller acts.new) bench.new.links }
    ensures exchanged { Talk (Among L.step) bench.old.links bench.new.links (IsReadBy path.now
        replica (A.caller acts.old) bench.old.cache result (A.caller acts.new) bench.new.cache) }
    ensures adds { AddsWithin 3 0 [] (A.caller acts.old) (A.caller acts.new) }
    ensures honest { KeepsHonesty (A.caller acts.old) (A.caller acts.new) }
    ensures idle { IsIdle result (A.caller acts.new) }
    ensures asked { AskedOnly L.link (names_of L.link bench.old.links) bench.old.links
        bench.new.links }
    ensures dice { bench.new.dice ≡ bench.old.dice }
    ensures keys { LeavesKeys (has_adopted (A.caller acts.old) (A.caller acts.new))
        (adoption_of bench.old) (adoption_of bench.new) }
    ensures moments { Walk Happens (adoption_of bench.old)
        (call_moments (A.caller acts.old) (A.caller acts.new)) (adoption_of bench.new) }
    ensures pages { size_of bench.new.pages ≡ size_of bench.old.pages }
    ensures place { A.place acts.new ≡ A.place acts.old }
{
    let Ok(copy) = Text::copy(alloc, path) else {
        return Err(CallNo::NoMemory);
    };
    match take_up(acts, replica, bench) {
        Ok(()) => {}
        Err(why) => return Err(why),
    }
    let found = find(alloc, acts, bench, copy);
    hand_back(acts, bench, found)
}

/// What the path's live row holds, by the configuration that the bench adopted.
fn find<A: Acts, L: Kms, D: Dice>(
    alloc: Global,
    acts: &mut A,
    bench: &mut Bench<L, D>,
    path: Text,
) -> Result<Read, CallNo>
    requires path { IsPath path }
    requires held { HoldsAdopted bench.old.published (A.caller acts.old).mine }
    ensures finds { IfSome bench.old.published (λ p. Finds L.link path p
        (A.caller acts.old) bench.old.links result (A.caller acts.new) bench.new.links) }
    ensures exchanged { IfSome bench.old.published (λ p. Talk (Among L.step) bench.old.links
        bench.new.links (FindsBy path p (A.caller acts.old) bench.old.cache result
        (A.caller acts.new) bench.new.cache)) }
    ensures adds { AddsWithin 1 0 [] (A.caller acts.old) (A.caller acts.new) }
    ensures kept { bench.new
        ≡ record bench.old { links = bench.new.links; cache = bench.new.cache } }
    ensures asked { AskedOnly L.link (names_of L.link bench.old.links) bench.old.links
        bench.new.links }
    ensures honest { KeepsHonesty (A.caller acts.old) (A.caller acts.new) }
    ensures holds { holding (A.caller acts.new).mine ≡ holding (A.caller acts.old).mine }
    ensures place { A.place acts.new ≡ A.place acts.old }
{
    acts.known();
    let found = match fetch(acts, path) {
        Ok(found) => found,
        Err(why) => return Err(why),
    };
    let Some(row) = found else {
        return Ok(Read::Absent);
    };
    let lent = row.get();
    let opened = unseal(alloc, bench, lent);
    row_value(lent.revision, opened)
}

/// What a row of this revision holds.
fn row_value(revision: u64, opened: Result<Opened, UnsealNo>) -> Result<Read, CallNo>
    ensures { result ≡ row_value revision opened }
{
    match opened {
        Ok(Opened { plain, stale }) => Ok(Read::Value {
            revision,
            plain,
            stale,
        }),
        Err(UnsealNo::Refused(why)) => Err(CallNo::Value(why)),
        Err(UnsealNo::PluginFailed { name }) => Err(CallNo::PluginFailed { name }),
        Err(UnsealNo::NoMemory) => Err(CallNo::NoMemory),
    }
}
