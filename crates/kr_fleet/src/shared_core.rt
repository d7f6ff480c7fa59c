//! A core as what a lock's seats turn.

use kr_base::Tape;
use kr_rollout::{Answer, Core, Entry, Event, Opening};
use kr_turn::Turned;

/// A core under a lock: a turn of a seat is one event of that seat, and the lines are the core's
/// history.
#[derive(Drop)]
pub struct SharedCore<T: Tape> {
    pub(crate) core: Core<T>,
}

impl<T: Tape> Turned for SharedCore<T> {
    ghost use Rattle.kr_rollout.specs.Callers.{MayAsk};
    ghost use Rattle.kr_rollout.specs.Histories.{IsLegal};
    ghost use Rattle.kr_fleet.specs.Fleets.{IsEntryOf};

    type Event = Event;

    type Answer = Answer;

    type Line = Entry;

    type Ground = Opening;

    ghost lines = { λ shared. shared.core.history };

    ghost room = { λ shared. shared.core.room };

    ghost basis = { λ shared. shared.core.opening };

    ghost seat_of = { λ entry. entry.line.seat };

    ghost may = { MayAsk };

    ghost law = { IsLegal };

    ghost tells = { IsEntryOf };

    fn turn(&mut self, seat: u32, event: Event) -> Answer {
        self.core.known();
        self.core.apply(seat, event)
    }
}
