//! All steps, one behind another.
ghost use Rattle.std.specs.Prelude.{◌≡◌, ◌⊎◌, ◌<◌, ◌≤◌, length, None, []};
ghost use Rattle.kr_base.specs.Rules.{IsPath};
ghost use Rattle.kr_base.specs.Walks.{Talk, Walk};
ghost use Rattle.kr_provider.specs.AskedLinks.{Among, AskedOnly};
ghost use Rattle.kr_provider.specs.BenchKeys.{LeavesKeys, adoption_of};
ghost use Rattle.kr_provider.specs.KeyPages.{size_of};
ghost use Rattle.kr_provider.specs.Names.{names_of};
ghost use Rattle.kr_rollout.specs.Callers.{holding};
ghost use Rattle.kr_history.specs.Calls.{AreServed};
ghost use Rattle.kr_history.specs.KeyMoments.{Happens, call_moments, has_adopted};
ghost use Rattle.kr_rewrite.specs.DriveExchanges.{IsDriveBy};
ghost use Rattle.kr_rewrite.specs.Drives.{IsDrive, IsIdleAtEnd, report_at};
ghost use Rattle.kr_rewrite.specs.inner.Stages.{DrivesFrom, DrivesFromBy};

use crate::outcome::Report;
use crate::step::rewrite_next;
use kr_base::{Dice, Text};
use kr_history::{Acts, CallNo};
use kr_kms::Kms;
use kr_provider::Bench;
use std::alloc::Global;

/// Takes steps, the first above this path, which may be empty, and each further one above the path
/// of the row that was found last, until no row is left or a step is cut short.
pub fn drive<A: Acts, L: Kms, D: Dice>(
    alloc: Global,
    acts: &mut A,
    replica: u32,
    bench: &mut Bench<L, D>,
    after: &str,
) -> Result<Report, (Report, CallNo)>
    requires replica { replica < length (A.caller acts.old).opening.replicas }
    requires idle { holding (A.caller acts.old).mine ≡ None }
    requires path { (after.now ≡ []) ⊎ IsPath after.now }
    requires links { AreServed (A.caller acts.old).opening.names (names_of L.link bench.old.links) }
    requires pages { 64 ≤ size_of bench.old.pages }
    ensures drives { IsDrive L.link D.left D.count replica after.now (A.caller acts.old)
        bench.old.links bench.old.dice result (A.caller acts.new) bench.new.links bench.new.dice }
    ensures exchanged { Talk (Among L.step) bench.old.links bench.new.links (IsDriveBy D.left
        D.count replica after.now (A.caller acts.old) bench.old.cache bench.old.dice result
        (A.caller acts.new) bench.new.cache bench.new.dice) }
    ensures idle { IsIdleAtEnd result (A.caller acts.new) }
    ensures asked { AskedOnly L.link (names_of L.link bench.old.links) bench.old.links
        bench.new.links }
    ensures later { D.count bench.old.dice ≤ D.count bench.new.dice }
    ensures pages { size_of bench.new.pages ≡ size_of bench.old.pages }
    ensures keys { LeavesKeys (has_adopted (A.caller acts.old) (A.caller acts.new))
        (adoption_of bench.old) (adoption_of bench.new) }
    ensures moments { Walk Happens (adoption_of bench.old)
        (call_moments (A.caller acts.old) (A.caller acts.new)) (adoption_of bench.new) }
    ensures place { A.place acts.new ≡ A.place acts.old }
{
    let Ok(last) = Text::copy(alloc, after) else {
        return Err((Report::without_steps(Text::new(alloc)), CallNo::NoMemory));
    };
    take_steps(alloc, acts, replica, bench, Report::without_steps(last))
}

/// Takes steps from the report's last path on.
fn take_steps<A: Acts, L: Kms, D: Dice>(
    alloc: Global,
    acts: &mut A,
    replica: u32,
    bench: &mut Bench<L, D>,
    mut report: Report,
) -> Result<Report, (Report, CallNo)>
    requires replica { replica < length (A.caller acts.old).opening.replicas }
    requires idle { holding (A.caller acts.old).mine ≡ None }
    requires path { (report.last ≡ []) ⊎ IsPath report.last }
    requires none { report ≡ report_at report.last }
    requires links { AreServed (A.caller acts.old).opening.names (names_of L.link bench.old.links) }
    requires pages { 64 ≤ size_of bench.old.pages }
    ensures goes_on { DrivesFrom L.link D.left D.count replica report.last
        (A.caller acts.old) bench.old.links bench.old.dice result (A.caller acts.new)
        bench.new.links bench.new.dice }
    ensures exchanged { Talk (Among L.step) bench.old.links bench.new.links (DrivesFromBy D.left
        D.count replica report.last (A.caller acts.old) bench.old.cache bench.old.dice result
        (A.caller acts.new) bench.new.cache bench.new.dice) }
    ensures idle { IsIdleAtEnd result (A.caller acts.new) }
    ensures asked { AskedOnly L.link (names_of L.link bench.old.links) bench.old.links
        bench.new.links }
    ensures later { D.count bench.old.dice ≤ D.count bench.new.dice }
    ensures pages { size_of bench.new.pages ≡ size_of bench.old.pages }
    ensures keys { LeavesKeys (has_adopted (A.caller acts.old) (A.caller acts.new))
        (adoption_of bench.old) (adoption_of bench.new) }
    ensures moments { Walk Happens (adoption_of bench.old)
        (call_moments (A.caller acts.old) (A.caller acts.new)) (adoption_of bench.new) }
    ensures place { A.place acts.new ≡ A.place acts.old }
{
    loop {
        acts.known();
        let step = match rewrite_next(alloc, acts, replica, bench, report.last.as_str()) {
            Ok(step) => step,
            Err(why) => return Err((report, why)),
        };
        let found = report.count(step);
        if !found {
            return Ok(report);
        }
    }
}
