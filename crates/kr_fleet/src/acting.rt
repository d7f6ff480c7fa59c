//! A seat of a fleet as a caller of the core.
ghost use Rattle.std.specs.Prelude.{◌≡◌};
ghost use Rattle.kr_fleet.specs.Fleets.{IsFleetSeat};

use crate::fleet::{Fleet, Seat};
use crate::shared_core::SharedCore;
use kr_base::{Spent, Tape};
use kr_history::Acts;
use kr_rollout::{Answer, Event};
use std::marker::Model;
use std::sync::Wait;

/// A caller of a fleet's core, which owns its seat. Each event may wait for others' turns.
/// Contracts see the fleet and the seat.
pub struct At<'a, T: Tape, R> {
    fleet: &'a Fleet<T>,
    rt: &'a R,
    seat: Seat<T>,
}

impl<'a, T: Tape, R> Model for At<'a, T, R> {
    ghost use Rattle.kr_fleet.specs.Fleets.{IsFleetSeat, FleetSeat};
    ghost use Rattle.kr_fleet.specs.declared.shared_core.SharedCore.{SharedCore};

    ghost Value = { FleetSeat (SharedCore T) };

    ghost view = { λ at. record { home = at.fleet.now; seat = at.seat } };

    ghost invariant = { λ at. IsFleetSeat at.fleet.now at.seat };
}

impl<'a, T: Tape, R> At<'a, T, R> {
    pub(crate) fn new(fleet: &'a Fleet<T>, rt: &'a R, seat: Seat<T>) -> At<'a, T, R>
        requires { IsFleetSeat fleet.now seat }
        ensures { result ≡ record { home = fleet.now; seat = seat } }
    {
        At { fleet, rt, seat }
    }

    /// Gives the seat back.
    pub fn into_seat(self) -> Seat<T>
        ensures same { result ≡ self.entry.seat }
        ensures its { IsFleetSeat self.entry.home result }
    {
        let At {
            fleet: _,
            rt: _,
            seat,
        } = self;
        seat
    }
}

impl<'a, T: Tape, R: Wait> Acts for At<'a, T, R> {
    ghost use Rattle.kr_fleet.specs.Fleets.{FleetSeat, caller_of};
    ghost use Rattle.kr_fleet.specs.declared.shared_core.SharedCore.{SharedCore};

    type Place = Fleet<T>;

    ghost place = { λ (at : FleetSeat (SharedCore T)). at.home };

    ghost caller = { λ (at : FleetSeat (SharedCore T)). caller_of at.home at.seat };

    fn seat(&self) -> u32 {
        self.seat.number()
    }

    fn known(&self) {
        let _seat = &self.seat;
    }

    fn act(&mut self, event: Event) -> Result<Answer, Spent> {
        self.fleet.act(self.rt, &mut self.seat, event)
    }
}
