//! A fleet from its start to its end.
ghost use Rattle.std.specs.Prelude.{◌≡◌, ◌<◌, ◌≤◌, ◌^◌, ℕ, [], length, map, sum, slice_index_or, All, IfOk, IfErr, IsSome, OnErr};
ghost use Rattle.kr_provider.specs.KeyPages.{size_of};
ghost use Rattle.kr_provider.specs.Names.{names_of};
ghost use Rattle.kr_history.specs.Calls.{AreServed};
ghost use Rattle.kr_workers.specs.declared.worker.Worker.{Worker};
ghost use Rattle.kr_workers.specs.Budgets.{AreBudgets, all_reloads};
ghost use Rattle.kr_workers.specs.Histories.{IsOneHistory};
ghost use Rattle.kr_workers.specs.ScriptLines.{MayDo};
ghost use Rattle.kr_workers.specs.Workers.{MayBegin};
ghost use Rattle.kr_workers.specs.inner.SeatedWorkers.{with_seats, without_seat};

use crate::files::SettingsFile;
use crate::worker::Worker;
use crate::workers::run_workers;
use kr_base::{Dice, List, NoMemory, Tape};
use kr_fleet::{Fleet, Seat};
use kr_kms::Kms;
use kr_rollout::Core;
use kr_script::Part;
use std::alloc::Global;
use std::sync::Wait;
use std::thread::Threads;

/// Lets a worker for each part do its lines at the core, all at the same time: worker `i` has seat
/// `i`, and may add as many lines to the journal as the budget at `i`. All memory that this needs
/// itself is there before a worker begins; where it lacks, the core comes back. Afterwards the
/// workers have their replies.
pub fn run_fleet<R: Threads + Wait + Sync, T: Tape + Send, L: Kms + Send, D: Dice + Send>(
    rt: &R,
    alloc: Global,
    core: Core<T>,
    budgets: &[u64],
    files: &[SettingsFile],
    parts: &[Part],
    workers: &mut Vec<Worker<T, L, D>>,
) -> Result<Core<T>, (NoMemory, Core<T>)>
    requires many { (1 ≤ length parts.now) × (length parts.now ≤ 64)
        × (length workers.old.items ≡ length parts.now) }
    requires lines { All (λ part. (part.replica < length core.opening.replicas)
        × All (MayDo core.opening files.now) part.lines.0) parts.now }
    requires begin { (i : ℕ) (part : Part) (worker : Worker T L D) → i < length parts.now
        → MayBegin L.link core.opening.names (slice_index_or parts.now i part)
        (slice_index_or workers.old.items i worker) }
    requires reloads { core.opening.reloads ≡ all_reloads parts.now }
    requires budgets { AreBudgets core.opening.rows parts.now budgets.now }
    requires room { sum budgets.now ≤ core.room }
    requires small { sum budgets.now < 2 ^ 64 }
    requires no_lines { core.history ≡ [] }
    ensures one { IfOk result (λ end. IsOneHistory L.link L.step D.left D.count files.now
        end.history core.opening parts.now budgets.now workers.old.items workers.new.items) }
    ensures kept { IfOk result (λ end. (end.opening ≡ core.opening) × (end.room ≡ core.room)) }
    ensures seats { All (λ worker. worker.seat ≡ None) workers.new.items }
    ensures back { IfErr result (λ refused. refused.1 ≡ core) }
    ensures nothing { OnErr result (workers.new.items ≡ workers.old.items) }
{
    let (fleet, mut seats) = match Fleet::new(alloc, core, budgets) {
        Ok(made) => made,
        Err(refused) => return Err(refused),
    };
    seat_each(&mut seats, workers);
    run_workers(rt, alloc, &fleet, files, parts, workers);
    unseat_each(workers, &mut seats);
    Ok(fleet.close(seats))
}

/// Gives each worker the seat at its place. The seats' room stays.
fn seat_each<T: Tape, L: Kms, D: Dice>(
    seats: &mut List<Seat<T>>,
    workers: &mut Vec<Worker<T, L, D>>,
)
    requires many { length seats.old.0 ≡ length workers.old.items }
    requires none { All (λ worker. worker.seat ≡ None) workers.old.items }
    ensures seated { workers.new.items ≡ with_seats seats.old.0 workers.old.items }
    ensures empty { seats.new.0 ≡ [] }
    ensures room { length workers.old.items ≤ seats.new.1 }
{
    while let Some(seat) = seats.pop() {
        let at = seats.as_slice().len();
        workers[at].sit(seat);
    }
}

/// Takes the seats back, in the order of the workers.
fn unseat_each<T: Tape, L: Kms, D: Dice>(
    workers: &mut Vec<Worker<T, L, D>>,
    seats: &mut List<Seat<T>>,
)
    requires seated { All (λ worker. IsSome worker.seat) workers.old.items }
    requires empty { seats.old.0 ≡ [] }
    requires room { length workers.old.items ≤ seats.old.1 }
    ensures seats { map Some seats.new.0 ≡ map (λ worker. worker.seat) workers.old.items }
    ensures workers { workers.new.items ≡ map without_seat workers.old.items }
{
    for at in 0..workers.len() {
        seats.push_in_room(workers[at].release_seat());
    }
}
