//! All workers of a fleet, at the same time.
ghost use Rattle.std.specs.Prelude.{◌≡◌, ◌<◌, ℕ, All, length, slice_index_or};
ghost use Rattle.kr_workers.specs.declared.worker.Worker.{Worker};
ghost use Rattle.kr_workers.specs.inner.SeatedWorkers.{IsReadyWorker, HasWorked};

use crate::files::SettingsFile;
use crate::worker::{Worker, work};
use kr_base::{Dice, Tape};
use kr_fleet::Fleet;
use kr_kms::Kms;
use kr_script::Part;
use std::alloc::Global;
use std::sync::Wait;
use std::thread;
use std::thread::Threads;

/// Lets each worker do its lines, in as many threads as there are workers, where these can be
/// started.
pub(crate) fn run_workers<R: Threads + Wait + Sync, T: Tape + Send, L: Kms + Send, D: Dice + Send>(
    rt: &R,
    alloc: Global,
    fleet: &Fleet<T>,
    files: &[SettingsFile],
    parts: &[Part],
    workers: &mut Vec<Worker<T, L, D>>,
)
    requires some { 0 < length workers.old.items }
    requires ready { All (IsReadyWorker fleet.now files.now parts.now L.link) workers.old.items }
    ensures length { length workers.new.items ≡ length workers.old.items }
    ensures worked { (i : ℕ) (d : Worker T L D) → i < length workers.old.items
        → HasWorked fleet.now files.now parts.now L.link L.step D.left D.count
        (slice_index_or workers.old.items i d) (slice_index_or workers.new.items i d) }
{
    let threads = workers.len();
    thread::for_each_mut(
        rt,
        workers,
        threads,
        &|_, worker: &mut Worker<T, L, D>|
            requires { IsReadyWorker fleet.now files.now parts.now L.link worker.old }
            ensures { HasWorked fleet.entry.now files.entry.now parts.entry.now L.link
                L.step D.left D.count worker.entry.now worker.exit.now }
        { work(rt, alloc, fleet, files, parts, worker) },
    );
}
