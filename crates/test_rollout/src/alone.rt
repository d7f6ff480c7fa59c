//! A core whose only caller is seat 0, and what that has in its hand.
ghost use Rattle.std.specs.Prelude.{IfOk};
ghost use Rattle.kr_rollout.specs.Callers.{MayAsk};
ghost use Rattle.test_rollout.specs.Hands.{AreTerms};

use crate::hand::{Hand, answer_gain, event_effect};
use crate::request::Request;
use crate::terms::{Started, Terms};
use kr_base::{List, MemTape};
use kr_history::{Acts, Solo};
use kr_rollout::{Event, Line};
use kr_store::Store;
use std::alloc::Global;
use std::marker::Model;
use test_support::Wrong;

/// The only caller of a core, with its hand.
#[derive(Drop)]
pub struct Alone {
    solo: Solo<MemTape>,
    hand: Hand,
}

impl Model for Alone {
    ghost use Rattle.kr_history.specs.Acting.{Caller};
    ghost use Rattle.test_rollout.specs.Hands.{IsHand};

    ghost Value = { Caller };

    ghost view = { λ alone. alone.solo };

    ghost invariant = { λ alone.
        IsHand alone.solo.opening alone.solo.seat alone.solo.mine alone.hand };
}

impl Alone {
    /// A core over the store, of which one seat is used.
    pub fn start(alloc: Global, store: Store<MemTape>, terms: Terms) -> Started<Alone>
        requires { AreTerms terms.replicas.0 terms.reloads.items terms.room }
    {
        let replicas = terms.count();
        let left = terms.first_budget();
        match terms.start(alloc, store) {
            Ok(core) => Ok(Alone {
                solo: Solo::new(core),
                hand: Hand {
                    held: None,
                    found: None,
                    left,
                    replicas,
                },
            }),
            Err(refused) => Err(refused),
        }
    }

    /// Asks this, if it is seat 0 and may ask for it.
    pub fn ask(&mut self, alloc: Global, seat: u32, request: Request) -> Result<(), Wrong> {
        if seat != 0 {
            return request.refused();
        }
        let event = self.permitted_event(alloc, request)?;
        self.act(event)
    }

    /// The event as which the seat may ask for this now.
    fn permitted_event(&self, alloc: Global, request: Request) -> Result<Event, Wrong>
        ensures { IfOk result (λ event.
            MayAsk self.now.opening self.now.seat self.now.mine event) }
    {
        self.solo.known();
        self.hand.permitted_event(alloc, request)
    }

    /// Makes the event, if the journal isn't full, and puts what it hands out into the hand.
    fn act(&mut self, event: Event) -> Result<(), Wrong>
        requires { MayAsk self.old.opening self.old.seat self.old.mine event }
    {
        let kind = event_effect(&event);
        let answer = self.solo.act(event)?;
        self.hand.take(kind, answer_gain(answer));
        Ok(())
    }

    /// Gives the store and the journal up.
    pub fn close(self) -> (Store<MemTape>, List<Line>) {
        self.solo.into_core().close()
    }
}
