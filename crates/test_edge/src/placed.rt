//! A tape over a file in memory, which tells its bytes.
ghost use Rattle.std.specs.Prelude.{◌≡◌, None, Some, false};

use kr_base::{Bytes, Failed, List, MemTape, Tape};
use kr_edge::{FileTape, PlacedFile, PlacedNo};
use kr_kms::Access;
use std::alloc::Global;

/// A file in memory. It takes and gives two bytes at a time, and interrupts every other call of
/// these.
#[derive(Drop)]
struct MemFile {
    held: MemTape,
    stops: bool,
    synced: bool,
}

impl MemFile {
    /// Whether this call is interrupted.
    fn stops(&mut self) -> bool
        ensures held { self.new.held ≡ self.old.held }
        ensures synced { self.new.synced ≡ self.old.synced }
    {
        self.stops = !self.stops;
        !self.stops
    }
}

impl PlacedFile for MemFile {
    ghost told = { λ file. Some file.held.bytes };

    ghost synced = { λ file. file.synced };

    // It tells no length that it was to have, and not how often it failed.
    ghost lengths = { λ file. None };

    ghost stops = { λ file. None };

    fn len(&mut self) -> Result<u64, Failed> {
        self.held.len()
    }

    fn read_at(&mut self, at: u64, into: &mut [u8]) -> Result<usize, PlacedNo> {
        if at >= self.held.bytes().len() as u64 {
            return Ok(0);
        }
        if self.stops() {
            return Err(PlacedNo::Interrupted);
        }
        let most = into.len().min(2);
        match self.held.read_at(at, &mut into[..most]) {
            Ok(n) => Ok(n),
            Err(_) => Err(PlacedNo::Failed),
        }
    }

    fn write_at(&mut self, at: u64, bytes: &[u8]) -> Result<usize, PlacedNo> {
        self.synced = false;
        if self.stops() {
            return Err(PlacedNo::Interrupted);
        }
        let most = bytes.len().min(2);
        match self.held.put_at(at, &bytes[..most]) {
            Ok(()) => Ok(most),
            Err(_) => Err(PlacedNo::Failed),
        }
    }

    // One that would be longer than it is fails.
    fn set_len(&mut self, len: u64) -> Result<(), Failed> {
        self.synced = false;
        if len > self.held.bytes().len() as u64 {
            return Err(Failed);
        }
        self.held.cut(len)
    }

    fn sync_data(&mut self) -> Result<(), Failed> {
        self.synced = true;
        Ok(())
    }
}

/// Whether what was put, over what stood there, is read from its second byte on.
fn keeps<T: Tape>(tape: &mut T) -> bool
    requires { T.loose tape.old ≡ false }
{
    let mut into = [0u8; 8];
    tape.put_at(0, b"hello!").is_ok()
        && tape.put_at(2, b"yyy").is_ok()
        && tape.cut(5).is_ok()
        && tape.settle().is_ok()
        && tape.read_at(1, &mut into) == Ok(4)
        && &into[..4] == b"eyyy".as_slice()
}

/// The same of a file in memory; one piece more than it has room for fails, once, and brings it back
/// to its length.
fn keeps_in_memory(alloc: Global) -> bool {
    let (reads, writes) = (List::new(alloc), List::new(alloc));
    let Ok(held) = MemTape::new(Bytes::new(alloc), 6, reads, writes, List::new(alloc)) else {
        return false;
    };
    let file = MemFile {
        held,
        stops: true,
        synced: false,
    };
    let mut tape = FileTape::first(file, Access::ToWrite);
    let kept = keeps(&mut tape);
    let failed = tape.put_at(0, b"hello!!").is_err();
    let restored = tape.len() == Ok(5);
    let faults = tape.close();
    kept && failed && restored && faults == 1
}

#[test]
fn a_file_in_memory_keeps_what_was_put(rt: HostRuntime) {
    assert!(rt; keeps_in_memory(rt.alloc()));
}
