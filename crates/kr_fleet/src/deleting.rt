//! A path that is deleted.
ghost use Rattle.std.specs.Prelude.{◌≡◌, [], None};
ghost use Rattle.kr_base.specs.Rules.{IsPath};
ghost use Rattle.kr_rollout.specs.Callers.{holding};
ghost use Rattle.kr_history.specs.Calls.{KeepsHonesty};
ghost use Rattle.kr_history.specs.Parts.{AddsWithin};
ghost use Rattle.kr_fleet.specs.SingleCalls.{IsDelete};

use kr_base::Text;
use kr_history::{Acts, CallNo};
use std::alloc::Global;

/// Deletes the path's live row. It answers the revision of the row that was written, or `None`
/// where nothing lived at the path.
pub fn delete<A: Acts>(alloc: Global, acts: &mut A, path: &str) -> Result<Option<u64>, CallNo>
    requires path { IsPath path.now }
    requires idle { holding (A.caller acts.old).mine ≡ None }
    ensures deletes { IsDelete path.now (A.caller acts.old) result (A.caller acts.new) }
    ensures adds { AddsWithin 1 0 [] (A.caller acts.old) (A.caller acts.new) }
    ensures honest { KeepsHonesty (A.caller acts.old) (A.caller acts.new) }
    ensures idle { holding (A.caller acts.new).mine ≡ None }
    ensures place { A.place acts.new ≡ A.place acts.old }
{
    let Ok(path) = Text::copy(alloc, path) else {
        return Err(CallNo::NoMemory);
    };
    kr_history::delete(acts, path)
}
