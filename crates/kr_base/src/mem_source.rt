//! A source in memory.
ghost use Rattle.std.specs.Prelude.{◌≡◌, ◌++◌, min, length, take, drop, Some, MatchResult};
ghost use Rattle.std.specs.Io.{ReadsAtMost};
ghost use Rattle.std.specs.Io.KnownBytes.{ReadConsumes};
ghost use Rattle.kr_base.specs.Faults.{IsCounted};
ghost use Rattle.kr_base.specs.InMemory.{Makes};

use crate::bytes::Bytes;
use crate::errors::Failed;
use crate::input_bytes::InputBytes;
use crate::list::List;
use crate::traits::Source;
use std::marker::Model;

/// A source in memory. Its reads fail by their numbers, the first being 1.
#[derive(Drop)]
pub struct MemSource {
    input: InputBytes,
}

impl Model for MemSource {
    ghost use Rattle.kr_base.specs.InMemory.{InputState};

    ghost Value = { InputState };

    ghost view = { λ source. source.input };
}

impl MemSource {
    /// A source of the content; each number in `fails` is that of a read that fails.
    pub fn new(content: Bytes, fails: List<u64>) -> MemSource
        ensures { result ≡ record {
          bytes = content;
          calls = record { fails = fails.0; made = 0; faults = 0 };
        } }
    {
        MemSource {
            input: InputBytes::new(content, fails),
        }
    }

    /// Lends what is left.
    pub fn bytes(&self) -> &[u8]
        ensures { result.now ≡ self.now.bytes }
    {
        self.input.bytes()
    }
}

impl Source for MemSource {
    ghost left = { λ source. Some source.bytes };

    ghost count = { λ source. source.calls.faults };

    fn read(&mut self, into: &mut [u8]) -> Result<usize, Failed>
        ensures calls { Makes self.old.calls self.new.calls ⊥ result }
        ensures read { MatchResult result
            (λ n. (n ≡ min (length into.old) (length self.old.bytes))
            × (into.new ≡ take n self.old.bytes ++ drop n into.old)
            × (self.new.bytes ≡ drop n self.old.bytes))
            (λ _. (into.new ≡ into.old) × (self.new.bytes ≡ self.old.bytes)) }

        // As the trait says.
        ensures bound { ReadsAtMost result into.new }
        ensures bytes { ReadConsumes (Some self.old.bytes) (Some self.new.bytes) result into.new }
        ensures cause { IsCounted self.old.calls.faults self.new.calls.faults result }
    {
        if self.input.fails(false) {
            return Err(Failed);
        }
        let n = into.len().min(self.input.bytes().len());
        self.input.give(&mut into[..n]);
        Ok(n)
    }

    fn faults(&self) -> u64 {
        self.input.faults()
    }
}
