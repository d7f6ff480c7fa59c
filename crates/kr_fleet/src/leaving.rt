//! A replica that leaves.
ghost use Rattle.std.specs.Prelude.{◌≡◌, ◌<◌, [], length, None};
ghost use Rattle.kr_rollout.specs.Callers.{holding};
ghost use Rattle.kr_history.specs.Calls.{KeepsHonesty};
ghost use Rattle.kr_history.specs.Parts.{AddsWithin};
ghost use Rattle.kr_fleet.specs.SingleCalls.{IsLeave};

use kr_history::{Acts, CallNo};

/// Takes the replica's current generation away. It answers the generation, or `None` where the
/// replica had none. It takes no memory.
pub fn leave<A: Acts>(acts: &mut A, replica: u32) -> Result<Option<u32>, CallNo>
    requires replica { replica < length (A.caller acts.old).opening.replicas }
    requires idle { holding (A.caller acts.old).mine ≡ None }
    ensures leaves { IsLeave replica (A.caller acts.old) result (A.caller acts.new) }
    ensures adds { AddsWithin 1 0 [] (A.caller acts.old) (A.caller acts.new) }
    ensures honest { KeepsHonesty (A.caller acts.old) (A.caller acts.new) }
    ensures idle { holding (A.caller acts.new).mine ≡ None }
    ensures place { A.place acts.new ≡ A.place acts.old }
{
    kr_history::leave(acts, replica)
}
