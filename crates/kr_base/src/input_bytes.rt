//! Bytes in memory that are given out from the front, as a source and a dice give them.
ghost use Rattle.std.specs.Prelude.{◌≡◌, ◌≤◌, ◌↔◌, ◌⊎◌, IsTrue, length, take, drop, if◌then◌else◌};
ghost use Rattle.std.specs.Bool.{OnTrue};
ghost use Rattle.kr_base.specs.Faults.{Rose};
ghost use Rattle.kr_base.specs.InMemory.{IsListed};
ghost use Rattle.kr_base.specs.Numbering.{next_number};

use crate::bytes::Bytes;
use crate::call_log::CallLog;
use crate::list::List;
use std::marker::Model;

/// The bytes that are left of a content, and the calls that gave it out.
#[derive(Drop)]
pub struct InputBytes {
    content: Bytes,
    at: usize,
    calls: CallLog,
}

impl Model for InputBytes {
    ghost use Rattle.std.specs.Prelude.{◌≤◌, length, drop};
    ghost use Rattle.kr_base.specs.InMemory.{InputState};

    ghost Value = { InputState };

    ghost view = { λ input. record { bytes = drop input.at input.content; calls = input.calls } };

    ghost invariant = { λ input. input.at ≤ length input.content };
}

impl InputBytes {
    /// The whole content is left; each number in `fails` is that of a call that fails.
    pub fn new(content: Bytes, fails: List<u64>) -> InputBytes
        ensures { result ≡ record {
          bytes = content;
          calls = record { fails = fails.0; made = 0; faults = 0 };
        } }
    {
        InputBytes {
            content,
            at: 0,
            calls: CallLog::new(fails),
        }
    }

    /// Lends what is left.
    pub fn bytes(&self) -> &[u8]
        ensures { result.now ≡ self.now.bytes }
    {
        &self.content.as_slice()[self.at..]
    }

    /// Counts one more call, and answers whether it fails.
    pub fn fails(&mut self, unserved: bool) -> bool
        ensures bytes { self.new.bytes ≡ self.old.bytes }
        ensures fails { self.new.calls.fails ≡ self.old.calls.fails }
        ensures made { self.new.calls.made ≡ next_number self.old.calls.made }
        ensures failed { IsTrue result ↔ (IsListed self.old.calls ⊎ IsTrue unserved) }
        ensures faults { self.new.calls.faults
            ≡ (if result then next_number self.old.calls.faults else self.old.calls.faults) }
        ensures later { self.old.calls.faults ≤ self.new.calls.faults }
        ensures rose { OnTrue result (Rose self.old.calls.faults self.new.calls.faults) }
    {
        self.calls.fails(unserved)
    }

    /// Gives the next bytes, as many as the buffer holds.
    pub fn give(&mut self, into: &mut [u8])
        requires { length into.old ≤ length self.old.bytes }
        ensures given { into.new ≡ take (length into.old) self.old.bytes }
        ensures left { self.new.bytes ≡ drop (length into.old) self.old.bytes }
        ensures calls { self.new.calls ≡ self.old.calls }
    {
        let n = into.len();
        let start = self.at;
        into.copy_from_slice(&self.content.as_slice()[start..start + n]);
        self.at += n;
    }

    /// How many calls failed, up to the greatest number.
    pub fn faults(&self) -> u64
        ensures { result ≡ self.now.calls.faults }
    {
        self.calls.faults()
    }
}
