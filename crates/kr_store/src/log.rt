//! The file on its tape, as rows are appended to it.
ghost use Rattle.std.specs.Prelude.{◌≡◌, ◌+◌, ◌^◌, ◌<◌, false, length, IfSome};
ghost use Rattle.kr_base.specs.Faults.{IsCounted};
ghost use Rattle.kr_store.specs.inner.Log.{Extends, Readies};

use kr_base::{Failed, Tape};
use std::marker::Model;

/// The file on its tape, as rows are appended to it.
#[derive(Drop)]
pub(crate) struct Log<T: Tape> {
    tape: T,
    end: u64,
    torn: bool,
}

impl<T: Tape> Model for Log<T> {
    ghost use Rattle.std.specs.Prelude.{◌≡◌, false};
    ghost use Rattle.kr_store.specs.inner.Log.{Tail, HoldsEnd};

    ghost Value = { Tail };

    ghost view = { λ log. record {
      told = T.told log.tape;
      count = T.count log.tape;
      end = log.end;
      torn = log.torn;
    } };

    // What was cut is settled, unless a write has failed.
    ghost invariant = { λ log. HoldsEnd (T.told log.tape) log.end log.torn
        × (log.torn ≡ false → T.loose log.tape ≡ false) };
}

impl<T: Tape> Log<T> {
    /// A tape that ends with its file.
    pub fn new(tape: T, end: u64) -> Log<T>
        requires end { IfSome (T.told tape) (λ bytes. end ≡ length bytes) }
        requires cuts { T.loose tape ≡ false }
        ensures { result ≡ record {
          told = T.told tape;
          count = T.count tape;
          end = end;
          torn = false;
        } }
    {
        Log {
            tape,
            end,
            torn: false,
        }
    }

    /// Lets the tape end with the file, on the device too, before other bytes follow there.
    fn ready(&mut self) -> Result<(), Failed>
        ensures readies { Readies self.old self.new result }
        ensures cause { IsCounted self.old.count self.new.count result }
    {
        if !self.torn {
            return Ok(());
        }
        match self.tape.cut(self.end) {
            Ok(()) => {}
            Err(Failed) => return Err(Failed),
        }
        match self.tape.settle() {
            Ok(()) => {
                self.torn = false;
                Ok(())
            }
            Err(Failed) => Err(Failed),
        }
    }

    /// Appends to the file. Where a write has failed before, the tape is first cut to the file.
    pub fn append(&mut self, bytes: &[u8]) -> Result<(), Failed>
        requires { self.old.end + length bytes.now < 2 ^ 64 }
        ensures extends { Extends self.old self.new bytes.now result }
        ensures cause { IsCounted self.old.count self.new.count result }
    {
        self.ready()?;
        match self.tape.put_at(self.end, bytes) {
            Ok(()) => {
                self.end += bytes.len() as u64;
                Ok(())
            }
            Err(Failed) => {
                self.torn = true;
                Err(Failed)
            }
        }
    }

    /// Where the file ends.
    pub fn end(&self) -> u64
        ensures { result ≡ self.now.end }
    {
        self.end
    }

    /// Whether a write has failed since the last one that was done.
    pub fn torn(&self) -> bool
        ensures { result ≡ self.now.torn }
    {
        self.torn
    }

    /// How often the tape failed.
    pub fn faults(&self) -> u64
        ensures { result ≡ self.now.count }
    {
        self.tape.faults()
    }

    /// Gives the tape back.
    pub fn into_tape(self) -> T
        ensures told { T.told result ≡ self.told }
        ensures count { T.count result ≡ self.count }
    {
        let Log { tape, .. } = self;
        tape
    }
}
