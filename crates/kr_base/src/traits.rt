//! The outside as the crates above see it: what is told of its content, and how often it failed.
//! A count of faults rises by one where a call answers `Failed`, and never else.
ghost use Rattle.std.specs.Prelude.{◌≡◌, ℕ, ◌≤◌, List, length, Option, Bool, true, false, IfOk, OnOk, IfSome, MatchResult};
ghost use Rattle.std.specs.Io.{ReadsAtMost, WritesAtMost};
ghost use Rattle.std.specs.Io.KnownBytes.{ReadConsumes, WriteAppends, Consumes, Keeps};
ghost use Rattle.kr_base.specs.Faults.{IsCounted};
ghost use Rattle.kr_base.specs.Tapes.{ReadsAt, PutsAt, Cuts};

use crate::errors::Failed;

/// What is read: a file, standard input, bytes in memory.
pub trait Source {
    // The bytes that are left, where the type tells them.
    ghost left: { Self → Option (List ℕ) };

    ghost count: { Self → ℕ };

    /// Takes the next bytes, at most as many as fit. 0 for a buffer that isn't empty is the end. A
    /// read that fails takes nothing.
    fn read(&mut self, into: &mut [u8]) -> Result<usize, Failed>
        ensures bound { ReadsAtMost result into.new }
        ensures bytes { ReadConsumes (left self.old) (left self.new) result into.new }
        ensures cause { IsCounted (count self.old) (count self.new) result };

    /// How often it failed so far, up to the greatest number.
    fn faults(&self) -> u64
        ensures { result ≡ count self.now };
}

/// What is written to: standard output, bytes in memory.
pub trait Sink {
    // The bytes that were written, where the type tells them.
    ghost held: { Self → Option (List ℕ) };

    ghost count: { Self → ℕ };

    /// Appends a prefix, at least one byte of a piece that isn't empty. A write that fails appends
    /// nothing.
    fn write(&mut self, bytes: &[u8]) -> Result<usize, Failed>
        ensures bound { WritesAtMost result bytes.now }
        ensures bytes { WriteAppends (held self.old) (held self.new) result bytes.now }
        ensures progress { IfOk result (λ n. n ≡ 0 → length bytes.now ≡ 0) }
        ensures cause { IsCounted (count self.old) (count self.new) result };

    /// How often it failed so far, up to the greatest number.
    fn faults(&self) -> u64
        ensures { result ≡ count self.now };
}

/// What random bytes are drawn from.
pub trait Dice {
    // The bytes that will be drawn, where the type tells them.
    ghost left: { Self → Option (List ℕ) };

    ghost count: { Self → ℕ };

    /// Fills the buffer with the next bytes. After a fault the buffer holds any bytes, and what is
    /// told is still to come.
    fn fill(&mut self, into: &mut [u8]) -> Result<(), Failed>
        ensures bytes { MatchResult result
            (λ _. Consumes (left self.old) (left self.new) into.new)
            (λ _. Keeps (left self.old) (left self.new)) }
        ensures cause { IsCounted (count self.old) (count self.new) result };

    /// How often it failed so far, up to the greatest number.
    fn faults(&self) -> u64
        ensures { result ≡ count self.now };
}

/// What is read and written at any place: a file, bytes in memory.
pub trait Tape {
    // The bytes that it holds, where the type tells them.
    ghost told: { Self → Option (List ℕ) };

    // Whether all that it holds stands on the device, so that a loss of power takes none of it.
    ghost settled: { Self → Bool };

    // Whether it may have been cut since it was settled last. What is put behind a cut that isn't on
    // the device may stand there beside what was cut off.
    ghost loose: { Self → Bool };

    ghost count: { Self → ℕ };

    /// How many bytes it holds.
    fn len(&mut self) -> Result<u64, Failed>
        ensures length { IfOk result (λ n. IfSome (told self.old) (λ bytes. n ≡ length bytes)) }
        ensures same { told self.new ≡ told self.old }
        ensures cuts { loose self.new ≡ loose self.old }
        ensures cause { IsCounted (count self.old) (count self.new) result };

    /// Reads the bytes from `at` to the front of the buffer, as many as fit and are there.
    fn read_at(&mut self, at: u64, into: &mut [u8]) -> Result<usize, Failed>
        requires { IfSome (told self.old) (λ bytes. at ≤ length bytes) }
        ensures bound { ReadsAtMost result into.new }
        ensures bytes { IfOk result (λ n. ReadsAt (told self.old) at n into.new) }
        ensures same { told self.new ≡ told self.old }
        ensures cuts { loose self.new ≡ loose self.old }
        ensures cause { IsCounted (count self.old) (count self.new) result };

    /// Puts the bytes at `at`; those behind them stay. After a fault the bytes before `at` are as
    /// before, and the rest is any bytes. Where it was cut, that is settled first.
    fn put_at(&mut self, at: u64, bytes: &[u8]) -> Result<(), Failed>
        requires place { IfSome (told self.old) (λ held. at ≤ length held) }
        requires cuts { loose self.old ≡ false }
        ensures bytes { PutsAt (told self.old) (told self.new) at bytes.now result }
        ensures cuts { loose self.new ≡ false }
        ensures cause { IsCounted (count self.old) (count self.new) result };

    /// Lets the tape end at `len`. After a fault the bytes before it are as before, and the rest is
    /// any bytes.
    fn cut(&mut self, len: u64) -> Result<(), Failed>
        requires { IfSome (told self.old) (λ bytes. len ≤ length bytes) }
        ensures bytes { Cuts (told self.old) (told self.new) len result }
        ensures cause { IsCounted (count self.old) (count self.new) result };

    /// Lets what was put, and where the tape was cut, stand on the device: once this answers, a
    /// loss of power takes none of it. After a fault nothing is known of what stands there.
    fn settle(&mut self) -> Result<(), Failed>
        ensures settled { OnOk result (settled self.new ≡ true) }
        ensures cuts { OnOk result (loose self.new ≡ false) }
        ensures same { told self.new ≡ told self.old }
        ensures cause { IsCounted (count self.old) (count self.new) result };

    /// How often it failed so far, up to the greatest number.
    fn faults(&self) -> u64
        ensures { result ≡ count self.now };
}
