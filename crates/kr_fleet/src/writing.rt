//! Data that are put under a path.
ghost use Rattle.std.specs.Prelude.{◌≡◌, ◌<◌, ◌≤◌, [], ◌∷◌, length, None, IfSome};
ghost use Rattle.kr_base.specs.Rules.{IsPath, IsResource};
ghost use Rattle.kr_base.specs.Walks.{Walk};
ghost use Rattle.kr_provider.specs.BenchKeys.{LeavesKeys, adoption_of};
ghost use Rattle.kr_provider.specs.KeyPages.{size_of};
ghost use Rattle.kr_provider.specs.Names.{names_of};
ghost use Rattle.kr_rollout.specs.declared.line.Did.TheVariants.{Put};
ghost use Rattle.kr_rollout.specs.Callers.{holding};
ghost use Rattle.kr_history.specs.Calls.{AreServed, HoldsAdopted, IsIdle, KeepsHonesty};
ghost use Rattle.kr_history.specs.KeyMoments.{Happens, call_moments, has_adopted};
ghost use Rattle.kr_history.specs.Parts.{AddsWithin};
ghost use Rattle.kr_fleet.specs.WriteCalls.{IsWrite, Puts};
ghost use Rattle.kr_fleet.specs.inner.Stages.{seal_refusal};

use kr_base::{Bytes, Dice, Text};
use kr_history::{Acts, CallNo, hand_back, seal, take_up};
use kr_kms::Kms;
use kr_provider::{Bench, SealNo, ValueNo};
use std::alloc::Global;

/// Puts the data under the path, as an object of the resource, sealed by the replica's current
/// generation, which the seat holds meanwhile. It answers the revision of the row that was written.
pub fn write<A: Acts, L: Kms, D: Dice>(
    alloc: Global,
    acts: &mut A,
    replica: u32,
    bench: &mut Bench<L, D>,
    resource: &str,
    path: &str,
    plain: Bytes,
) -> Result<u64, CallNo>
    requires replica { replica < length (A.caller acts.old).opening.replicas }
    requires idle { holding (A.caller acts.old).mine ≡ None }
    requires path { IsPath path.now }
    requires resource { IsResource resource.now }
    requires links { AreServed (A.caller acts.old).opening.names (names_of L.link bench.old.links) }
    requires pages { 64 ≤ size_of bench.old.pages }
    ensures writes { IsWrite D.left D.count resource.now path.now plain replica
        (A.caller acts.old) bench.old.dice result (A.caller acts.new) bench.new.dice }
    ensures adds { AddsWithin 3 0 (Put path.now resource.now plain ∷ [])
        (A.caller acts.old) (A.caller acts.new) }
    ensures honest { KeepsHonesty (A.caller acts.old) (A.caller acts.new) }
    ensures idle { IsIdle result (A.caller acts.new) }
    ensures links { bench.new.links ≡ bench.old.links }
    ensures cache { bench.new.cache ≡ bench.old.cache }
    ensures later { D.count bench.old.dice ≤ D.count bench.new.dice }
    ensures keys { LeavesKeys (has_adopted (A.caller acts.old) (A.caller acts.new))
        (adoption_of bench.old) (adoption_of bench.new) }
    ensures moments { Walk Happens (adoption_of bench.old)
        (call_moments (A.caller acts.old) (A.caller acts.new)) (adoption_of bench.new) }
    ensures pages { size_of bench.new.pages ≡ size_of bench.old.pages }
    ensures place { A.place acts.new ≡ A.place acts.old }
{
    let Ok(resource) = Text::copy(alloc, resource) else {
        return Err(CallNo::NoMemory);
    };
    let Ok(path) = Text::copy(alloc, path) else {
        return Err(CallNo::NoMemory);
    };
    match take_up(acts, replica, bench) {
        Ok(()) => {}
        Err(why) => return Err(why),
    }
    let written = put(alloc, acts, bench, resource, path, plain);
    hand_back(acts, bench, written)
}

/// Seals the data by the configuration that the bench adopted, and puts them.
fn put<A: Acts, L: Kms, D: Dice>(
    alloc: Global,
    acts: &mut A,
    bench: &mut Bench<L, D>,
    resource: Text,
    path: Text,
    plain: Bytes,
) -> Result<u64, CallNo>
    requires path { IsPath path }
    requires resource { IsResource resource }
    requires held { HoldsAdopted bench.old.published (A.caller acts.old).mine }
    ensures puts { IfSome bench.old.published (λ p. Puts D.left D.count resource path plain p
        (A.caller acts.old) bench.old.dice result (A.caller acts.new) bench.new.dice) }
    ensures adds { AddsWithin 1 0 (Put path resource plain ∷ []) (A.caller acts.old)
        (A.caller acts.new) }
    ensures later { D.count bench.old.dice ≤ D.count bench.new.dice }
    ensures kept { bench.new ≡ record bench.old { dice = bench.new.dice } }
    ensures honest { KeepsHonesty (A.caller acts.old) (A.caller acts.new) }
    ensures holds { holding (A.caller acts.new).mine ≡ holding (A.caller acts.old).mine }
    ensures place { A.place acts.new ≡ A.place acts.old }
{
    let stored = match seal(alloc, bench, &resource, &path, &plain) {
        Ok(stored) => stored,
        Err(why) => return Err(seal_refusal(why)),
    };
    acts.known();
    kr_history::put(acts, path, resource, plain, stored)
}

/// Why the data aren't put.
fn seal_refusal(why: SealNo) -> CallNo
    ensures { result ≡ seal_refusal why }
{
    match why {
        SealNo::LooksEncrypted => CallNo::Value(ValueNo::LooksEncrypted),
        SealNo::TooLarge { length: _ } => CallNo::Value(ValueNo::TooLarge),
        SealNo::DiceFailed => CallNo::DiceFailed,
        SealNo::NoMemory => CallNo::NoMemory,
    }
}
