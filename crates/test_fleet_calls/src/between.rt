//! A caller in the midst of whose calls another one makes a call.
ghost use Rattle.std.specs.Prelude.{◌≡◌};

use crate::call::{Call, serve};
use crate::desk::Desk;
use crate::linked::Spelled;
use kr_base::{MemDice, Spent};
use kr_history::Acts;
use kr_provider::Bench;
use kr_rollout::{Answer, Event};
use std::alloc::Global;
use std::mem;
use test_support::Page;

/// A caller with a rival at the same core, which makes a planned call in the midst of its own.
/// Contracts of calls see the caller alone: to it the rival's events are others'.
pub struct Between<A: Acts, B: Acts, L: Spelled> {
    alloc: Global,
    own: A,
    rival: Desk<B, L>,
    next: Option<Call>,
    /// Before which of the caller's next events that call is made, from 1 on; 0 for none.
    number: u32,
    said: Page,
}

impl<A: Acts, B: Acts, L: Spelled> Between<A, B, L> {
    /// A caller whose rival has no call planned.
    pub fn new(alloc: Global, own: A, rival: Desk<B, L>) -> Between<A, B, L>
        ensures { result.own ≡ own }
    {
        Between {
            alloc,
            own,
            rival,
            next: None,
            number: 0,
            said: Page::new(alloc),
        }
    }

    /// Plans the rival's next call, before the event of this number from here, 1 being the next.
    pub fn plan(&mut self, number: u32, call: Call)
        ensures { self.new.own ≡ self.old.own }
    {
        self.number = number;
        drop(mem::replace(&mut self.next, Some(call)));
    }

    /// Adds what the rival's call answered, if it was made.
    pub fn tell(&mut self, page: &mut Page)
        ensures { self.new.own ≡ self.old.own }
    {
        page.add(&self.said);
        drop(mem::replace(&mut self.said, Page::new(self.alloc)));
    }

    /// Gives both callers and the rival's bench up.
    pub fn into_parts(self) -> (A, B, Bench<L, MemDice>) {
        let Between {
            alloc: _,
            own,
            rival,
            next,
            number: _,
            said,
        } = self;
        drop(next);
        drop(said);
        let (acts, bench) = rival.into_parts();
        (own, acts, bench)
    }

    /// Makes the rival's call, if its time has come.
    fn let_rival(&mut self)
        ensures { self.new.own ≡ self.old.own }
    {
        let is_time = self.number == 1;
        self.number = self.number.saturating_sub(1);
        if !is_time {
            return;
        }
        if let Some(call) = &self.next {
            serve(self.alloc, &mut self.rival, call, &mut self.said);
        }
    }
}

impl<A: Acts, B: Acts, L: Spelled> Acts for Between<A, B, L> {
    type Place = A::Place;

    ghost place = { λ between. A.place between.own };

    ghost caller = { λ between. A.caller between.own };

    fn seat(&self) -> u32 {
        self.own.seat()
    }

    fn known(&self) {
        self.own.known();
    }

    fn act(&mut self, event: Event) -> Result<Answer, Spent> {
        self.let_rival();
        self.own.act(event)
    }
}
