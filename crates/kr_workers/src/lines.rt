//! The lines of a worker, in their order.
ghost use Rattle.std.specs.Prelude.{◌≡◌, ◌≤◌, [], length};
ghost use Rattle.kr_workers.specs.inner.WholeRuns.{AreReady, Runs};

use crate::files::SettingsFile;
use crate::line::serve_line;
use kr_base::{Dice, List, Spent};
use kr_history::Acts;
use kr_kms::Kms;
use kr_provider::Bench;
use kr_script::{ScriptLine, Told};
use std::alloc::Global;

/// Does the lines at the worker's replica one after the other, and tells the reply of each,
/// whatever it is. The first line in whose midst the seat may add no more lines to the journal ends
/// it.
pub(crate) fn serve_lines<A: Acts, L: Kms, D: Dice>(
    alloc: Global,
    acts: &mut A,
    bench: &mut Bench<L, D>,
    files: &[SettingsFile],
    replica: u32,
    lines: &[ScriptLine],
    told: &mut List<Told>,
) -> Result<(), Spent>
    requires ready { AreReady L.link files.now replica lines.now (A.caller acts.old) bench.old }
    requires none_told { told.old.0 ≡ [] }
    requires room { length lines.now ≤ told.old.1 }
    ensures runs { Runs L.link L.step D.left D.count files.now replica lines.now
        (A.caller acts.old) bench.old told.new.0 result (A.caller acts.new) bench.new }
    ensures place { A.place acts.new ≡ A.place acts.old }
{
    for line in lines {
        acts.known();
        match serve_line(alloc, acts, bench, files, replica, line) {
            Ok(reply) => told.push_in_room(reply),
            Err(Spent) => return Err(Spent),
        }
    }
    Ok(())
}
