//! A core, and what its seats have in their hands.
ghost use Rattle.std.specs.Prelude.{◌≡◌, ◌<◌, length, map, IfOk};
ghost use Rattle.kr_base.specs.Lines.{of_seat};
ghost use Rattle.kr_rollout.specs.declared.answer.Answer.{Answer};
ghost use Rattle.kr_rollout.specs.Callers.{MayAsk};
ghost use Rattle.kr_rollout.specs.Cores.{Applies};
ghost use Rattle.kr_rollout.specs.Entries.{seat_of};
ghost use Rattle.test_rollout.specs.Hands.{AreTerms, fresh};

use crate::hand::{Hand, answer_gain, event_effect};
use crate::request::Request;
use crate::terms::{Started, Terms};
use kr_base::{MemTape, NoMemory};
use kr_opening::StartNo;
use kr_rollout::{Core, Event, Line};
use kr_store::{Row, Store};
use std::alloc::Global;
use std::marker::Model;
use test_support::Wrong;

/// A core with a hand for each seat, by which it is known what the seat may ask.
#[derive(Drop)]
pub struct Table {
    core: Core<MemTape>,
    hands: Vec<Hand>,
}

impl Model for Table {
    ghost use Rattle.kr_rollout.specs.Cores.{CoreState};
    ghost use Rattle.test_rollout.specs.Hands.{AreHands};

    ghost Value = { CoreState };

    ghost view = { λ table. table.core };

    ghost invariant = { λ table. AreHands table.core table.hands.items };
}

/// A hand for each seat, with what it may bring.
#[tactic(auto, using(crate::proofs::Starting::fresh_more, crate::proofs::Starting::fresh_begin, crate::proofs::Starting::fresh_end))]
fn fresh_hands(alloc: Global, replicas: u32, reloads: &[u32]) -> Result<Vec<Hand>, NoMemory>
    ensures { IfOk result (λ hands. hands.items ≡ map (fresh replicas) reloads.now) }
{
    let mut hands = Vec::new(alloc);
    for left in reloads {
        hands.push(Hand {
            held: None,
            found: None,
            left: *left,
            replicas,
        })?;
    }
    Ok(hands)
}

impl Table {
    /// A core over the store.
    pub fn start(alloc: Global, store: Store<MemTape>, terms: Terms) -> Started<Table>
        requires { AreTerms terms.replicas.0 terms.reloads.items terms.room }
    {
        let many = terms.count();
        let hands = match fresh_hands(alloc, many, terms.reloads.as_slice()) {
            Ok(hands) => hands,
            Err(NoMemory) => return Err((StartNo::NoMemory, store)),
        };
        match terms.start(alloc, store) {
            Ok(core) => Ok(Table { core, hands }),
            Err(refused) => Err(refused),
        }
    }

    /// Asks this for the seat, if it may ask for it.
    pub fn ask(&mut self, alloc: Global, seat: u32, request: Request) -> Result<(), Wrong> {
        let event = self.permitted_event(alloc, seat, request)?;
        self.act(seat, event);
        Ok(())
    }

    /// The event as which the seat may ask for this now.
    fn permitted_event(&self, alloc: Global, seat: u32, request: Request) -> Result<Event, Wrong>
        ensures { IfOk result (λ event. (length self.now.history < self.now.room)
            × MayAsk self.now.opening seat (of_seat seat_of seat self.now.history) event) }
    {
        let Some(hand) = self.hands.get(seat as usize) else {
            return request.refused();
        };
        if self.core.is_full() {
            return request.refused();
        }
        hand.permitted_event(alloc, request)
    }

    /// Makes the event, and puts what it hands out into the seat's hand.
    fn act(&mut self, seat: u32, event: Event)
        requires room { length self.old.history < self.old.room }
        requires may { MayAsk self.old.opening seat (of_seat seat_of seat self.old.history) event }
        ensures { (answer : Answer) × Applies self.old seat event answer self.new }
    {
        let kind = event_effect(&event);
        let answer = self.core.apply(seat, event);
        self.hands[seat as usize].take(kind, answer_gain(answer));
    }

    /// The journal so far.
    pub fn journal(&self) -> &[Line] {
        self.core.journal()
    }

    /// The numbers of the live generations.
    pub fn live(&self) -> &[u32] {
        self.core.board().live()
    }

    /// The row that the seat has found last.
    pub fn found(&self, seat: u32) -> Result<&Row, Wrong> {
        match self.hands.get(seat as usize) {
            Some(hand) => hand.found(),
            None => Err(Wrong::Form),
        }
    }

    /// Gives the store up.
    pub fn close(self) -> Store<MemTape> {
        let (store, journal) = self.core.close();
        drop(journal);
        store
    }
}
