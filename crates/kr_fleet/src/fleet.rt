//! A core with several seats.
ghost use Rattle.std.specs.Prelude.{◌≡◌, ◌↔◌, ◌<◌, ◌≤◌, ◌^◌, ℕ, [], length, sum, All, IsErr, IfOk, IfErr, OnErr};
ghost use Rattle.kr_base.specs.Lines.{of_seat, Stands};
ghost use Rattle.kr_turn.specs.Seats.{AreFresh, AreAll, number_of, left_of, lines_seen, mine};
ghost use Rattle.kr_history.specs.Acting.{AddsEntry};
ghost use Rattle.kr_rollout.specs.Callers.{MayAsk};
ghost use Rattle.kr_rollout.specs.Entries.{seat_of};
ghost use Rattle.kr_rollout.specs.Histories.{IsLegal};
ghost use Rattle.kr_fleet.specs.Fleets.{IsFleetSeat, caller_of, AreAdded, HonestIfSeatsAre};

use crate::acting::At;
use crate::shared_core::SharedCore;
use kr_base::{List, NoMemory, Spent, Tape};
use kr_rollout::{Answer, Core, Event};
use kr_turn::Turn;
use std::alloc::Global;
use std::marker::Model;
use std::sync::Wait;

/// A seat of a fleet. It may go to another thread.
pub type Seat<T: Tape> = kr_turn::Seat<SharedCore<T>>;

/// A core that several seats act on, one event at a time. Contracts see which fleet it is, and its
/// terms: the core's opening, the room of its journal, and the budgets of the seats.
#[derive(Drop)]
pub struct Fleet<T: Tape> {
    turn: Turn<SharedCore<T>>,
}

impl<T: Tape> Model for Fleet<T> {
    ghost use Rattle.kr_rollout.specs.declared.opening.Opening.{Opening};
    ghost use Rattle.kr_turn.specs.Keys.{Home};

    ghost Value = { Home Opening };

    ghost view = { λ fleet. fleet.turn };

    ghost invariant = { λ fleet. Unit {0} };
}

impl<T: Tape> Fleet<T> {
    /// Takes up a core whose journal has no line, and makes one seat for each budget: the seat of
    /// number `i` may add as many lines as the budget at `i`. Where there is no memory the core
    /// comes back.
    pub fn new(
        alloc: Global,
        core: Core<T>,
        budgets: &[u64],
    ) -> Result<(Fleet<T>, List<Seat<T>>), (NoMemory, Core<T>)>
        requires count { (1 ≤ length budgets.now) × (length budgets.now ≤ 64) }
        requires seats { length budgets.now ≤ length core.opening.reloads }
        requires room { sum budgets.now ≤ core.room }
        requires small { sum budgets.now < 2 ^ 64 }
        requires no_lines { core.history ≡ [] }
        ensures terms { IfOk result (λ made. made.0.terms
            ≡ record { basis = core.opening; room = core.room; budgets = budgets.now }) }
        ensures fresh { IfOk result (λ made. AreFresh made.0 (length budgets.now) made.1.0) }
        ensures seats { IfOk result (λ made. All (IsFleetSeat made.0) made.1.0) }
        ensures core { IfErr result (λ refused. refused.1 ≡ core) }
    {
        core.known();
        match Turn::new(alloc, SharedCore { core }, budgets) {
            Ok((turn, seats)) => Ok((Fleet { turn }, seats)),
            Err((refused, SharedCore { core })) => Err((refused, core)),
        }
    }

    /// A caller of the core, which acts as this seat and waits by `rt` for its turns.
    pub fn seat_caller<'a, R>(&'a self, rt: &'a R, seat: Seat<T>) -> At<'a, T, R>
        requires { IsFleetSeat self.now seat }
        ensures { result ≡ record { home = self.now; seat = seat } }
    {
        At::new(self, rt, seat)
    }

    /// Makes one event of a seat.
    pub(crate) fn act<R: Wait>(
        &self,
        rt: &R,
        seat: &mut Seat<T>,
        event: Event,
    ) -> Result<Answer, Spent>
        requires seat { IsFleetSeat self.now seat.old }
        requires may { MayAsk self.now.terms.basis (number_of seat.old) (mine seat.old) event }
        ensures spent { IsErr result ↔ (left_of seat.old ≡ 0) }
        ensures nothing { OnErr result (seat.new ≡ seat.old) }
        ensures acted { IfOk result (λ answer. AddsEntry (caller_of self.now seat.old) event answer
            (caller_of self.now seat.new)) }
        ensures seat { IsFleetSeat self.now seat.new }
    {
        self.turn.act(rt, seat, event)
    }

    /// Ends the fleet with all its seats, in any order, and gives the core back. It takes no
    /// memory. What each seat saw begins the core's history, of which its own entries are just
    /// those of its number, and there are no others. So where each seat kept honest what it saw,
    /// and the opening is, the history is honest.
    pub fn close(self, seats: List<Seat<T>>) -> Core<T>
        requires { AreAll self seats.0 }
        ensures kept { (result.opening ≡ self.terms.basis) × (result.room ≡ self.terms.room) }
        ensures legal { IsLegal result.opening result.history }
        ensures stand { All (λ seat.
            Stands seat_of result.history (number_of seat) (lines_seen seat) (mine seat)) seats.0 }
        ensures added { AreAdded seats.0 result.history }
        ensures honest { HonestIfSeatsAre self seats.0 result.history }
    {
        let Fleet { turn } = self;
        let SharedCore { core } = turn.close(seats);
        core.known();
        core
    }
}
