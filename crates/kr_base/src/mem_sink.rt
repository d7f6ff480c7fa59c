//! A sink in memory.
ghost use Rattle.std.specs.Prelude.{◌≡◌, ◌++◌, ◌+◌, ◌<◌, ◌≤◌, length, Some, IfOk, MatchResult};
ghost use Rattle.std.specs.Io.{WritesAtMost};
ghost use Rattle.std.specs.Io.KnownBytes.{WriteAppends};
ghost use Rattle.kr_base.specs.Faults.{IsCounted};
ghost use Rattle.kr_base.specs.InMemory.{Makes};

use crate::bytes::Bytes;
use crate::call_log::CallLog;
use crate::errors::{Failed, NoMemory};
use crate::list::List;
use crate::traits::Sink;
use std::marker::Model;

/// A sink in memory. Its writes fail by their numbers, the first being 1, and where they would
/// bring it above its room.
#[derive(Drop)]
pub struct MemSink {
    bytes: Vec<u8>,
    room: usize,
    calls: CallLog,
}

impl Model for MemSink {
    ghost use Rattle.std.specs.Prelude.{◌≤◌, vec_len, vec_capacity};
    ghost use Rattle.kr_base.specs.InMemory.{OutputState};

    ghost Value = { OutputState };

    ghost view = { λ sink. record {
      bytes = sink.bytes.items;
      room = sink.room;
      calls = sink.calls;
    } };

    ghost invariant = { λ sink. (vec_len sink.bytes ≤ sink.room)
        × (sink.room ≤ vec_capacity sink.bytes) };
}

impl MemSink {
    /// A sink that holds the content and has room for `room` bytes in all. It reserves them here,
    /// and takes no memory later.
    pub fn new(content: Bytes, room: usize, fails: List<u64>) -> Result<MemSink, NoMemory>
        requires { length content ≤ room }
        ensures { IfOk result (λ sink. sink ≡ record {
          bytes = content;
          room = room;
          calls = record { fails = fails.0; made = 0; faults = 0 };
        }) }
    {
        let mut bytes = content.into_vec();
        bytes.reserve(room - bytes.len())?;
        Ok(MemSink {
            bytes,
            room,
            calls: CallLog::new(fails),
        })
    }

    /// Lends what it holds.
    pub fn bytes(&self) -> &[u8]
        ensures { result.now ≡ self.now.bytes }
    {
        self.bytes.as_slice()
    }
}

impl Sink for MemSink {
    ghost held = { λ sink. Some sink.bytes };

    ghost count = { λ sink. sink.calls.faults };

    fn write(&mut self, bytes: &[u8]) -> Result<usize, Failed>
        ensures calls { Makes self.old.calls self.new.calls
            (self.old.room < length self.old.bytes + length bytes.now) result }
        ensures written { MatchResult result
            (λ n. (n ≡ length bytes.now) × (self.new.bytes ≡ self.old.bytes ++ bytes.now))
            (λ _. self.new.bytes ≡ self.old.bytes) }
        ensures room { self.new.room ≡ self.old.room }

        // As the trait says.
        ensures bound { WritesAtMost result bytes.now }
        ensures bytes { WriteAppends (Some self.old.bytes) (Some self.new.bytes) result bytes.now }
        ensures progress { IfOk result (λ n. n ≡ 0 → length bytes.now ≡ 0) }
        ensures cause { IsCounted self.old.calls.faults self.new.calls.faults result }
    {
        let above = self.room - self.bytes.len() < bytes.len();
        if self.calls.fails(above) {
            return Err(Failed);
        }
        match self.bytes.extend_from_slice(bytes) {
            Ok(()) => Ok(bytes.len()),
            Err(_) => unreachable!(),
        }
    }

    fn faults(&self) -> u64 {
        self.calls.faults()
    }
}
