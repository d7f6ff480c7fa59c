//! A worker: a seat of a fleet, a bench, and what it told of its lines.
ghost use Rattle.std.specs.Prelude.{◌≡◌, ◌≤◌, [], length, IfErr, IfOk, IsSome};
ghost use Rattle.kr_fleet.specs.Fleets.{IsFleetSeat, caller_of};
ghost use Rattle.kr_turn.specs.Seats.{number_of};
ghost use Rattle.kr_workers.specs.inner.WholeRuns.{AreReady, Runs};
ghost use Rattle.kr_workers.specs.inner.SeatedWorkers.{IsReadyWorker, HasWorked};

use crate::files::SettingsFile;
use crate::lines::serve_lines;
use kr_base::{Dice, List, NoMemory, Spent, Tape};
use kr_fleet::{Fleet, Seat};
use kr_kms::Kms;
use kr_provider::Bench;
use kr_script::{Part, Told};
use std::alloc::Global;
use std::mem;
use std::sync::Wait;

/// A worker of a fleet. It can't be dropped: its bench goes back, and while it works it has a seat.
pub struct Worker<T: Tape, L: Kms, D: Dice> {
    /// Its number is that of the worker's part of the fleet file.
    seat: Option<Seat<T>>,
    bench: Bench<L, D>,
    /// A reply of each line that was done, with room for those of all lines.
    told: List<Told>,
    /// Whether all its lines were done, or the seat could add no more lines to the journal.
    ended: Result<(), Spent>,
}

impl<T: Tape, L: Kms, D: Dice> Worker<T, L, D> {
    /// A worker without a seat, with room for so many replies. Where there is no memory the bench
    /// comes back.
    pub fn new(
        alloc: Global,
        bench: Bench<L, D>,
        lines: usize,
    ) -> Result<Worker<T, L, D>, (NoMemory, Bench<L, D>)>
        ensures bench { IfOk result (λ worker. worker.bench ≡ bench) }
        ensures idle { IfOk result (λ worker. (worker.seat ≡ None) × (worker.told.0 ≡ [])
            × (worker.ended ≡ Ok tt)) }
        ensures room { IfOk result (λ worker. lines ≤ worker.told.1) }
        ensures returned { IfErr result (λ refused. refused.1 ≡ bench) }
    {
        let mut told = List::new(alloc);
        if told.reserve(lines).is_err() {
            return Err((NoMemory, bench));
        }
        Ok(Worker {
            seat: None,
            bench,
            told,
            ended: Ok(()),
        })
    }

    /// Gives its bench and its replies up.
    pub fn into_parts(self) -> (Bench<L, D>, List<Told>)
        requires { self.seat ≡ None }
        ensures { (result.0 ≡ self.bench) × (result.1 ≡ self.told) }
    {
        let Worker {
            seat,
            bench,
            told,
            ended: _,
        } = self;
        let None = seat else { unreachable!() };
        (bench, told)
    }

    /// Takes a seat.
    pub(crate) fn sit(&mut self, seat: Seat<T>)
        requires { self.old.seat ≡ None }
        ensures { self.new ≡ record self.old { seat = Some seat } }
    {
        let none = mem::replace(&mut self.seat, Some(seat));
        let None = none else { unreachable!() };
    }

    /// Gives its seat up.
    pub(crate) fn release_seat(&mut self) -> Seat<T>
        requires { IsSome self.old.seat }
        ensures seat { self.old.seat ≡ Some result }
        ensures kept { self.new ≡ record self.old { seat = None } }
    {
        let seat = self.seat.take();
        let Some(seat) = seat else { unreachable!() };
        seat
    }
}

/// Does the worker's lines.
pub(crate) fn work<R: Wait, T: Tape, L: Kms, D: Dice>(
    rt: &R,
    alloc: Global,
    fleet: &Fleet<T>,
    files: &[SettingsFile],
    parts: &[Part],
    worker: &mut Worker<T, L, D>,
)
    requires { IsReadyWorker fleet.now files.now parts.now L.link worker.old }
    ensures { HasWorked fleet.now files.now parts.now L.link L.step D.left D.count
        worker.old worker.new }
{
    let seat = worker.release_seat();
    let part = &parts[seat.number() as usize];
    let (seat, ended) = work_at_seat(
        rt,
        alloc,
        fleet,
        files,
        part,
        seat,
        &mut worker.bench,
        &mut worker.told,
    );
    worker.ended = ended;
    worker.sit(seat);
}

/// Does the lines of the part at the seat, which comes back.
fn work_at_seat<R: Wait, T: Tape, L: Kms, D: Dice>(
    rt: &R,
    alloc: Global,
    fleet: &Fleet<T>,
    files: &[SettingsFile],
    part: &Part,
    seat: Seat<T>,
    bench: &mut Bench<L, D>,
    told: &mut List<Told>,
) -> (Seat<T>, Result<(), Spent>)
    requires seat { IsFleetSeat fleet.now seat }
    requires ready { AreReady L.link files.now part.now.replica part.now.lines.0
        (caller_of fleet.now seat) bench.old }
    requires none_told { told.old.0 ≡ [] }
    requires room { length part.now.lines.0 ≤ told.old.1 }
    ensures its { IsFleetSeat fleet.now result.0 }
    ensures same { number_of result.0 ≡ number_of seat }
    ensures runs { Runs L.link L.step D.left D.count files.now part.now.replica
        part.now.lines.0 (caller_of fleet.now seat) bench.old told.new.0 result.1
        (caller_of fleet.now result.0) bench.new }
{
    let mut at = fleet.seat_caller(rt, seat);
    let ended = serve_lines(
        alloc,
        &mut at,
        bench,
        files,
        part.replica,
        part.lines.as_slice(),
        told,
    );
    (at.into_seat(), ended)
}
