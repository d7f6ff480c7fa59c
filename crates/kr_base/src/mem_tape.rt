//! A tape in memory.
ghost use Rattle.std.specs.Prelude.{◌≡◌, ◌++◌, ◌+◌, ◌-◌, ◌<◌, ◌≤◌, ◌/◌, min, nat_lt, length, take, drop, true, false, Some, OnOk, IfOk, IfSome, MatchResult};
ghost use Rattle.std.specs.Io.{ReadsAtMost};
ghost use Rattle.kr_base.specs.Faults.{IsCounted};
ghost use Rattle.kr_base.specs.InMemory.{Makes, faults_of, left_by_fault};
ghost use Rattle.kr_base.specs.Tapes.{ReadsAt, PutsAt, Cuts, with_bytes_at};

use crate::bytes::Bytes;
use crate::call_log::CallLog;
use crate::errors::{Failed, NoMemory};
use crate::list::List;
use crate::traits::Tape;
use std::marker::Model;

/// A tape in memory. Its calls fail by their numbers, those that read, those that write and those
/// that settle it each counted from 1, and where a write would bring it above its room. A `put_at`
/// that fails by its number leaves half of its bytes at their place, as a write that was broken off;
/// a `cut` that fails leaves all as before.
#[derive(Drop)]
pub struct MemTape {
    bytes: Vec<u8>,
    room: usize,
    reads: CallLog,
    writes: CallLog,
    settles: CallLog,
}

impl Model for MemTape {
    ghost use Rattle.std.specs.Prelude.{◌≤◌, vec_len, vec_capacity};
    ghost use Rattle.kr_base.specs.InMemory.{TapeState};

    ghost Value = { TapeState };

    ghost view = { λ tape. record {
      bytes = tape.bytes.items;
      room = tape.room;
      reads = tape.reads;
      writes = tape.writes;
      settles = tape.settles;
    } };

    ghost invariant = { λ tape. (vec_len tape.bytes ≤ tape.room)
        × (tape.room ≤ vec_capacity tape.bytes) };
}

impl MemTape {
    /// A tape that holds the content and has room for `room` bytes in all. It reserves them here,
    /// and takes no memory later. `read_fails` numbers the calls of `len` and `read_at`,
    /// `write_fails` those of `put_at` and `cut`, `settle_fails` those of `settle`.
    pub fn new(
        content: Bytes,
        room: usize,
        read_fails: List<u64>,
        write_fails: List<u64>,
        settle_fails: List<u64>,
    ) -> Result<MemTape, NoMemory>
        requires { length content ≤ room }
        ensures { IfOk result (λ tape. tape ≡ record {
          bytes = content;
          room = room;
          reads = record { fails = read_fails.0; made = 0; faults = 0 };
          writes = record { fails = write_fails.0; made = 0; faults = 0 };
          settles = record { fails = settle_fails.0; made = 0; faults = 0 };
        }) }
    {
        let mut bytes = content.into_vec();
        bytes.reserve(room - bytes.len())?;
        Ok(MemTape {
            bytes,
            room,
            reads: CallLog::new(read_fails),
            writes: CallLog::new(write_fails),
            settles: CallLog::new(settle_fails),
        })
    }

    /// Lends what it holds.
    pub fn bytes(&self) -> &[u8]
        ensures { result.now ≡ self.now.bytes }
    {
        self.bytes.as_slice()
    }

    /// Puts bytes that there is room for.
    fn put(&mut self, at: usize, bytes: &[u8])
        requires within { at ≤ length self.old.bytes }
        requires room { at + length bytes.now ≤ self.old.room }
        ensures { self.new ≡ record {
          bytes = with_bytes_at self.old.bytes at bytes.now;
          room = self.old.room;
          reads = self.old.reads;
          writes = self.old.writes;
          settles = self.old.settles;
        } }
    {
        let over = bytes.len().min(self.bytes.len() - at);
        self.bytes[at..at + over].copy_from_slice(&bytes[..over]);
        match self.bytes.extend_from_slice(&bytes[over..]) {
            Ok(()) => {}
            Err(_) => unreachable!(),
        }
    }
}

impl Tape for MemTape {
    ghost use Rattle.kr_base.specs.InMemory.{faults_of};

    ghost told = { λ tape. Some tape.bytes };

    ghost settled = { λ tape. true };

    ghost loose = { λ tape. false };

    ghost count = { faults_of };

    fn len(&mut self) -> Result<u64, Failed>
        ensures calls { Makes self.old.reads self.new.reads ⊥ result }
        ensures kept { self.new ≡ record self.old { reads = self.new.reads } }
        ensures told { IfOk result (λ n. n ≡ length self.old.bytes) }

        // As the trait says.
        ensures length { IfOk result (λ n. n ≡ length self.old.bytes) }
        ensures same { Some self.new.bytes ≡ Some self.old.bytes }
        ensures cuts { false ≡ false }
        ensures cause { IsCounted (faults_of self.old) (faults_of self.new) result }
    {
        if self.reads.fails(false) {
            return Err(Failed);
        }
        Ok(self.bytes.len() as u64)
    }

    fn read_at(&mut self, at: u64, into: &mut [u8]) -> Result<usize, Failed>
        requires { at ≤ length self.old.bytes }
        ensures calls { Makes self.old.reads self.new.reads ⊥ result }
        ensures kept { self.new ≡ record self.old { reads = self.new.reads } }
        ensures read { MatchResult result
            (λ n. (n ≡ min (length into.old) (length self.old.bytes - at))
            × (into.new ≡ take n (drop at self.old.bytes) ++ drop n into.old))
            (λ _. into.new ≡ into.old) }

        // As the trait says.
        ensures bound { ReadsAtMost result into.new }
        ensures bytes { IfOk result (λ n. ReadsAt (Some self.old.bytes) at n into.new) }
        ensures same { Some self.new.bytes ≡ Some self.old.bytes }
        ensures cuts { false ≡ false }
        ensures cause { IsCounted (faults_of self.old) (faults_of self.new) result }
    {
        if self.reads.fails(false) {
            return Err(Failed);
        }
        let left = &self.bytes[at as usize..];
        let n = into.len().min(left.len());
        into[..n].copy_from_slice(&left[..n]);
        Ok(n)
    }

    fn put_at(&mut self, at: u64, bytes: &[u8]) -> Result<(), Failed>
        requires place { at ≤ length self.old.bytes }
        requires cuts { false ≡ false }
        ensures calls { Makes self.old.writes self.new.writes
            (self.old.room < at + length bytes.now) result }
        ensures kept { self.new
            ≡ record self.old { bytes = self.new.bytes; writes = self.new.writes } }
        ensures put { let above = nat_lt self.old.room (at + length bytes.now) in
            MatchResult result
            (λ _. self.new.bytes ≡ with_bytes_at self.old.bytes at bytes.now)
            (λ _. self.new.bytes
            ≡ with_bytes_at self.old.bytes at
            (take (left_by_fault (length bytes.now) above) bytes.now)) }

        // As the trait says.
        ensures bytes { PutsAt (Some self.old.bytes) (Some self.new.bytes) at bytes.now result }
        ensures cuts { false ≡ false }
        ensures cause { IsCounted (faults_of self.old) (faults_of self.new) result }
    {
        let start = at as usize;
        let above = self.room - start < bytes.len();
        if self.writes.fails(above) {
            let left = if above { 0 } else { bytes.len() / 2 };
            self.put(start, &bytes[..left]);
            return Err(Failed);
        }
        self.put(start, bytes);
        Ok(())
    }

    fn cut(&mut self, len: u64) -> Result<(), Failed>
        requires { len ≤ length self.old.bytes }
        ensures calls { Makes self.old.writes self.new.writes ⊥ result }
        ensures kept { self.new
            ≡ record self.old { bytes = self.new.bytes; writes = self.new.writes } }
        ensures cut { MatchResult result
            (λ _. self.new.bytes ≡ take len self.old.bytes)
            (λ _. self.new.bytes ≡ self.old.bytes) }

        // As the trait says.
        ensures bytes { Cuts (Some self.old.bytes) (Some self.new.bytes) len result }
        ensures cause { IsCounted (faults_of self.old) (faults_of self.new) result }
    {
        if self.writes.fails(false) {
            return Err(Failed);
        }
        self.bytes.truncate(len as usize);
        Ok(())
    }

    // What is in memory stands there, also where this fails.
    fn settle(&mut self) -> Result<(), Failed>
        ensures calls { Makes self.old.settles self.new.settles ⊥ result }
        ensures kept { self.new ≡ record self.old { settles = self.new.settles } }

        // As the trait says.
        ensures settled { OnOk result (true ≡ true) }
        ensures same { Some self.new.bytes ≡ Some self.old.bytes }
        ensures cuts { OnOk result (false ≡ false) }
        ensures cause { IsCounted (faults_of self.old) (faults_of self.new) result }
    {
        if self.settles.fails(false) {
            return Err(Failed);
        }
        Ok(())
    }

    fn faults(&self) -> u64 {
        self.reads
            .faults()
            .saturating_add(self.writes.faults())
            .saturating_add(self.settles.faults())
    }
}
