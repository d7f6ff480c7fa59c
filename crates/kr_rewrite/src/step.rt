//! One step: the next live row above a path.
ghost use Rattle.std.specs.Prelude.{◌≡◌, ◌⊎◌, ◌<◌, ◌≤◌, length, None, IfOk, IfSome, []};
ghost use Rattle.kr_base.specs.Rules.{IsPath};
ghost use Rattle.kr_base.specs.Walks.{Talk, Walk};
ghost use Rattle.kr_provider.specs.AskedLinks.{Among, AskedOnly};
ghost use Rattle.kr_provider.specs.BenchKeys.{LeavesKeys, adoption_of};
ghost use Rattle.kr_provider.specs.KeyPages.{size_of};
ghost use Rattle.kr_provider.specs.Names.{names_of};
ghost use Rattle.kr_rollout.specs.Callers.{holding};
ghost use Rattle.kr_history.specs.Calls.{AreServed, HoldsAdopted, IsIdle};
ghost use Rattle.kr_history.specs.KeyMoments.{Happens, call_moments, has_adopted};
ghost use Rattle.kr_history.specs.Parts.{AddsWithin};
ghost use Rattle.kr_rewrite.specs.DriveExchanges.{IsStepBy};
ghost use Rattle.kr_rewrite.specs.Rewrites.{IsStep, IsStepTo, Steps};
ghost use Rattle.kr_rewrite.specs.inner.Stages.{StepsBy};

use crate::outcome::Step;
use crate::row::rewrite;
use kr_base::{Dice, Text};
use kr_history::{Acts, CallNo, hand_back, look_above, take_up};
use kr_kms::Kms;
use kr_provider::Bench;
use std::alloc::Global;

/// Rewrites the live row with the least path above this one, which may be empty, where that row is
/// stale, by the replica's current generation, which the seat holds meanwhile. The bench's
/// keys are laid down before the LetGo, so none stands while that waits, nor between calls.
pub fn rewrite_next<A: Acts, L: Kms, D: Dice>(
    alloc: Global,
    acts: &mut A,
    replica: u32,
    bench: &mut Bench<L, D>,
    after: &str,
) -> Result<Step, CallNo>
    requires replica { replica < length (A.caller acts.old).opening.replicas }
    requires idle { holding (A.caller acts.old).mine ≡ None }
    requires path { (after.now ≡ []) ⊎ IsPath after.now }
    requires links { AreServed (A.caller acts.old).opening.names (names_of L.link bench.old.links) }
    requires pages { 64 ≤ size_of bench.old.pages }
    ensures steps { IsStep L.link D.left D.count replica after.now (A.caller acts.old)
        bench.old.links bench.old.dice result (A.caller acts.new) bench.new.links bench.new.dice }
    ensures exchanged { Talk (Among L.step) bench.old.links bench.new.links (IsStepBy D.left
        D.count replica after.now (A.caller acts.old) bench.old.cache bench.old.dice result
        (A.caller acts.new) bench.new.cache bench.new.dice) }
    ensures path { IfOk result IsStepTo }
    ensures adds { AddsWithin 4 0 [] (A.caller acts.old) (A.caller acts.new) }
    ensures idle { IsIdle result (A.caller acts.new) }
    ensures asked { AskedOnly L.link (names_of L.link bench.old.links) bench.old.links
        bench.new.links }
    ensures later { D.count bench.old.dice ≤ D.count bench.new.dice }
    ensures pages { size_of bench.new.pages ≡ size_of bench.old.pages }
    ensures keys { LeavesKeys (has_adopted (A.caller acts.old) (A.caller acts.new))
        (adoption_of bench.old) (adoption_of bench.new) }
    ensures moments { Walk Happens (adoption_of bench.old)
        (call_moments (A.caller acts.old) (A.caller acts.new)) (adoption_of bench.new) }
    ensures place { A.place acts.new ≡ A.place acts.old }
{
    let Ok(copy) = Text::copy(alloc, after) else {
        return Err(CallNo::NoMemory);
    };
    acts.known();
    match take_up(acts, replica, bench) {
        Ok(()) => {}
        Err(why) => return Err(why),
    }
    let done = step(alloc, acts, bench, copy);
    hand_back(acts, bench, done)
}

/// Finds the next row above, and rewrites it by the configuration that the bench adopted.
fn step<A: Acts, L: Kms, D: Dice>(
    alloc: Global,
    acts: &mut A,
    bench: &mut Bench<L, D>,
    above: Text,
) -> Result<Step, CallNo>
    requires path { (above ≡ []) ⊎ IsPath above }
    requires held { HoldsAdopted bench.old.published (A.caller acts.old).mine }
    ensures steps { IfSome bench.old.published (λ p. Steps L.link D.left D.count p above
        (A.caller acts.old) bench.old.links bench.old.dice result (A.caller acts.new)
        bench.new.links bench.new.dice) }
    ensures exchanged { IfSome bench.old.published (λ p. Talk (Among L.step) bench.old.links
        bench.new.links (StepsBy D.left D.count p above (A.caller acts.old) bench.old.cache
        bench.old.dice result (A.caller acts.new) bench.new.cache bench.new.dice)) }
    ensures path { IfOk result IsStepTo }
    ensures adds { AddsWithin 2 0 [] (A.caller acts.old) (A.caller acts.new) }
    ensures holds { holding (A.caller acts.new).mine ≡ holding (A.caller acts.old).mine }
    ensures asked { AskedOnly L.link (names_of L.link bench.old.links) bench.old.links
        bench.new.links }
    ensures later { D.count bench.old.dice ≤ D.count bench.new.dice }
    ensures kept { bench.new
        ≡ record bench.old {
          links = bench.new.links;
          dice = bench.new.dice;
          cache = bench.new.cache;
        } }
    ensures place { A.place acts.new ≡ A.place acts.old }
{
    let found = match look_above(acts, above) {
        Ok(found) => found,
        Err(why) => return Err(why),
    };
    let Some(row) = found else {
        return Ok(Step::End);
    };
    rewrite(alloc, acts, bench, row.get())
}
