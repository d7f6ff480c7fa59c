//! The only caller of a core.
ghost use Rattle.std.specs.Prelude.{◌≡◌, ◌↔◌, ◌<◌, ◌+◌, ◌≤◌, length, IsErr, IfOk, OnErr};
ghost use Rattle.kr_base.specs.Lines.{of_seat};
ghost use Rattle.kr_history.specs.Acting.{Caller, IsCaller, AddsEntry, only_caller};
ghost use Rattle.kr_rollout.specs.Callers.{MayAsk};
ghost use Rattle.kr_rollout.specs.Entries.{seat_of};

use crate::acts::Acts;
use kr_base::{Spent, Tape};
use kr_rollout::{Answer, Core, Event};
use std::marker::Model;

/// A core with seat 0 as its only caller. It may add lines as long as the journal has room.
#[derive(Drop)]
pub struct Solo<T: Tape> {
    core: Core<T>,
}

impl<T: Tape> Model for Solo<T> {
    ghost use Rattle.std.specs.Prelude.{◌≡◌, ◌<◌, length};
    ghost use Rattle.kr_base.specs.Lines.{of_seat};
    ghost use Rattle.kr_history.specs.Acting.{Caller, only_caller};
    ghost use Rattle.kr_rollout.specs.Entries.{seat_of};

    ghost Value = { Caller };

    ghost view = { λ solo. only_caller solo.core };

    ghost invariant = { λ solo. (of_seat seat_of 0 solo.core.history ≡ solo.core.history)
        × (0 < length solo.core.opening.reloads) };
}

impl<T: Tape> Solo<T> {
    /// The only caller of a core in whose journal no other seat has a line.
    pub fn new(core: Core<T>) -> Solo<T>
        requires own { of_seat seat_of 0 core.history ≡ core.history }
        requires seat { 0 < length core.opening.reloads }
        ensures { result ≡ only_caller core }
    {
        Solo { core }
    }

    /// Gives the core up.
    pub fn into_core(self) -> Core<T>
        ensures { only_caller result ≡ self }
    {
        self.core
    }
}

impl<T: Tape> Acts for Solo<T> {
    ghost use Rattle.kr_history.specs.Acting.{Caller};

    type Place = ();

    ghost place = { λ (solo : Caller). tt };

    ghost caller = { λ (solo : Caller). solo };

    fn seat(&self) -> u32 {
        // Read, so that the seat is known.
        let _core = &self.core;
        0
    }

    fn known(&self) {
        self.core.known();
    }

    fn act(&mut self, event: Event) -> Result<Answer, Spent> {
        self.core.known();
        if self.core.is_full() {
            return Err(Spent);
        }
        Ok(self.core.apply(0, event))
    }
}
