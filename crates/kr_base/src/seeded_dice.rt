//! Random bytes of a generator.
ghost use Rattle.std.specs.Prelude.{◌≡◌, length, None, IsOk, MatchResult};
ghost use Rattle.std.specs.Io.KnownBytes.{Consumes, Keeps};
ghost use Rattle.kr_base.specs.Faults.{IsCounted};
ghost use Rattle.rand_core.specs.Stream.{fill_bytes};

use crate::errors::Failed;
use crate::traits::Dice;
use rand_core::Rng;

/// A dice that draws from a generator and never fails. It tells no content, since a generator has
/// no end.
#[derive(Drop)]
pub struct SeededDice<R> {
    pub rng: R,
}

impl<R: Rng> SeededDice<R> {
    /// Draws from the generator, from where it stands.
    pub fn new(rng: R) -> SeededDice<R>
        ensures { result.rng ≡ rng }
    {
        SeededDice { rng }
    }
}

impl<R: Rng> Dice for SeededDice<R> {
    ghost left = { λ dice. None };

    ghost count = { λ dice. 0 };

    fn fill(&mut self, into: &mut [u8]) -> Result<(), Failed>
        ensures ok { IsOk result }
        ensures drawn { (into.new, R.stream self.new.rng)
            ≡ fill_bytes (length into.old) (R.stream self.old.rng) }

        // As the trait says.
        ensures bytes { MatchResult result
            (λ _. Consumes None None into.new)
            (λ _. Keeps None None) }
        ensures cause { IsCounted 0 0 result }
    {
        self.rng.fill_bytes(into);
        Ok(())
    }

    fn faults(&self) -> u64 {
        0
    }
}
