//! Random bytes in memory.
ghost use Rattle.std.specs.Prelude.{◌≡◌, ◌<◌, length, take, drop, Some, MatchResult};
ghost use Rattle.std.specs.Io.KnownBytes.{Consumes, Keeps};
ghost use Rattle.kr_base.specs.Faults.{IsCounted};
ghost use Rattle.kr_base.specs.InMemory.{Makes};

use crate::bytes::Bytes;
use crate::errors::Failed;
use crate::input_bytes::InputBytes;
use crate::list::List;
use crate::traits::Dice;
use std::marker::Model;

/// Random bytes that were written down before. Its draws fail by their numbers, the first being 1,
/// and where fewer bytes are left than were asked.
#[derive(Drop)]
pub struct MemDice {
    input: InputBytes,
}

impl Model for MemDice {
    ghost use Rattle.kr_base.specs.InMemory.{InputState};

    ghost Value = { InputState };

    ghost view = { λ dice. dice.input };
}

impl MemDice {
    /// A dice that gives the content; each number in `fails` is that of a draw that fails.
    pub fn new(content: Bytes, fails: List<u64>) -> MemDice
        ensures { result ≡ record {
          bytes = content;
          calls = record { fails = fails.0; made = 0; faults = 0 };
        } }
    {
        MemDice {
            input: InputBytes::new(content, fails),
        }
    }

    /// Lends what is left.
    pub fn bytes(&self) -> &[u8]
        ensures { result.now ≡ self.now.bytes }
    {
        self.input.bytes()
    }
}

impl Dice for MemDice {
    ghost left = { λ dice. Some dice.bytes };

    ghost count = { λ dice. dice.calls.faults };

    fn fill(&mut self, into: &mut [u8]) -> Result<(), Failed>
        ensures calls { Makes self.old.calls self.new.calls
            (length self.old.bytes < length into.old) result }
        ensures drawn { MatchResult result
            (λ _. (into.new ≡ take (length into.old) self.old.bytes)
            × (self.new.bytes ≡ drop (length into.old) self.old.bytes))
            (λ _. self.new.bytes ≡ self.old.bytes) }

        // As the trait says.
        ensures bytes { MatchResult result
            (λ _. Consumes (Some self.old.bytes) (Some self.new.bytes) into.new)
            (λ _. Keeps (Some self.old.bytes) (Some self.new.bytes)) }
        ensures cause { IsCounted self.old.calls.faults self.new.calls.faults result }
    {
        let unserved = self.input.bytes().len() < into.len();
        if self.input.fails(unserved) {
            return Err(Failed);
        }
        self.input.give(into);
        Ok(())
    }

    fn faults(&self) -> u64 {
        self.input.faults()
    }
}
