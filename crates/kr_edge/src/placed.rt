//! What a tape over a file calls: a file that is read and written at places.
ghost use Rattle.std.specs.Prelude.{◌≡◌, ◌≤◌, ◌↔◌, ℕ, List, length, Option, None, Bool, true, false};
ghost use Rattle.std.specs.Prelude.{Ok, IfOk, OnOk, IfSome, is_ok};
ghost use Rattle.std.specs.Io.{ReadsAtMost, WritesAtMost};
ghost use Rattle.std.specs.IoError.{error_kind};
ghost use Rattle.kr_edge.specs.Placed.{ReadsSome, WritesSome, SetsLength, with_answer, with_end};
ghost use Rattle.kr_edge.specs.Placed.{with_length_call};

use crate::system_error::{failed, io_error_kind};
use kr_base::{Failed, Text};
use std::fs::File;
use std::io::{self, ErrorKind};
use std::os::unix::fs::FileExt;

/// Why a read or a write of a file did nothing, or may not have done all.
#[derive(Clone, Copy)]
pub enum PlacedNo {
    /// It was interrupted before it did anything.
    Interrupted,
    /// It failed.
    Failed,
}

/// A file that is read and written at places, each call one of the system's. A read or a write does
/// a part of what it is asked for, or is interrupted, as the system does.
pub trait PlacedFile {
    ghost use Rattle.kr_edge.specs.Placed.{LengthCall, Stops};

    // The bytes that it holds, where the type tells them.
    ghost told: { Self → Option (List ℕ) };

    // Whether all that it holds was synced.
    ghost synced: { Self → Bool };

    // The lengths that it was to have so far, one behind another, where the type tells them.
    ghost lengths: { Self → Option (List LengthCall) };

    // How many of its calls failed or were interrupted, where the type tells it.
    ghost stops: { Self → Option Stops };

    /// How many bytes it holds.
    fn len(&mut self) -> Result<u64, Failed>
        ensures length { IfOk result (λ n. IfSome (told self.old) (λ bytes. n ≡ length bytes)) }
        ensures stops { stops self.new ≡ with_end result (stops self.old) }
        ensures same { told self.new ≡ told self.old }
        ensures lengths { lengths self.new ≡ lengths self.old };

    /// Reads some of the bytes from `at` on to the front of the buffer.
    fn read_at(&mut self, at: u64, into: &mut [u8]) -> Result<usize, PlacedNo>
        ensures bound { ReadsAtMost result into.new }
        ensures bytes { IfOk result (λ n. ReadsSome (told self.old) at n into.new) }
        ensures stops { stops self.new ≡ with_answer result (stops self.old) }
        ensures same { told self.new ≡ told self.old }
        ensures lengths { lengths self.new ≡ lengths self.old };

    /// Writes some of the bytes at `at`, at least one where there are any. One that would take none
    /// fails.
    fn write_at(&mut self, at: u64, bytes: &[u8]) -> Result<usize, PlacedNo>
        requires { IfSome (told self.old) (λ held. at ≤ length held) }
        ensures bound { WritesAtMost result bytes.now }
        ensures progress { IfOk result (λ n. n ≡ 0 → length bytes.now ≡ 0) }
        ensures bytes { WritesSome (told self.old) (told self.new) at bytes.now result }
        ensures stops { stops self.new ≡ with_answer result (stops self.old) }
        ensures unsynced { synced self.new ≡ false }
        ensures lengths { lengths self.new ≡ lengths self.old };

    /// Lets the file have this length.
    fn set_len(&mut self, len: u64) -> Result<(), Failed>
        ensures stops { stops self.new ≡ with_end result (stops self.old) }
        ensures bytes { SetsLength (told self.old) (told self.new) len result }
        ensures unsynced { synced self.new ≡ false }
        ensures lengths { lengths self.new
            ≡ with_length_call len (is_ok result) (lengths self.old) };

    /// Lets all that it holds stand on the device, and its length too.
    fn sync_data(&mut self) -> Result<(), Failed>
        ensures stops { stops self.new ≡ with_end result (stops self.old) }
        ensures synced { OnOk result (synced self.new ≡ true) }
        ensures same { told self.new ≡ told self.old }
        ensures lengths { lengths self.new ≡ lengths self.old };
}

/// A file of the system, which was opened by its name. It tells nothing of its bytes, since others
/// may write to it.
#[derive(Drop)]
pub struct DiskFile {
    name: Text,
    file: File,
    synced: bool,
}

impl DiskFile {
    /// The file that was opened by this name, of which nothing else is known yet.
    pub fn new(name: Text, file: File) -> DiskFile
        ensures name { result.name ≡ name }
        ensures synced { result.synced ≡ false }
    {
        DiskFile {
            name,
            file,
            synced: false,
        }
    }

    /// The name that it was opened by.
    pub fn name(&self) -> &str
        ensures { result.now ≡ self.now.name }
    {
        self.name.as_str()
    }

    /// The file itself.
    pub(crate) fn file(&self) -> &File {
        &self.file
    }
}

impl PlacedFile for DiskFile {
    ghost told = { λ file. None };

    ghost synced = { λ file. file.synced };

    ghost lengths = { λ file. None };

    ghost stops = { λ file. None };

    fn len(&mut self) -> Result<u64, Failed> {
        match self.file.metadata() {
            Ok(found) => Ok(found.len()),
            Err(error) => Err(failed(error)),
        }
    }

    fn read_at(&mut self, at: u64, into: &mut [u8]) -> Result<usize, PlacedNo> {
        moved(self.file.read_at(into, at))
    }

    fn write_at(&mut self, at: u64, bytes: &[u8]) -> Result<usize, PlacedNo> {
        self.synced = false;
        let n = moved(self.file.write_at(bytes, at))?;
        if n == 0 && !bytes.is_empty() {
            return Err(PlacedNo::Failed);
        }
        Ok(n)
    }

    fn set_len(&mut self, len: u64) -> Result<(), Failed> {
        self.synced = false;
        done(self.file.set_len(len))
    }

    fn sync_data(&mut self) -> Result<(), Failed> {
        done(self.file.sync_data())?;
        self.synced = true;
        Ok(())
    }
}

/// What came of a call that moves no bytes.
fn done(asked: io::Result<()>) -> Result<(), Failed>
    ensures { is_ok result ≡ is_ok asked }
{
    if let Err(error) = asked {
        return Err(failed(error));
    }
    Ok(())
}

/// How many bytes a read or a write moved, or why it moved none.
fn moved(asked: io::Result<usize>) -> Result<usize, PlacedNo>
    ensures count { IfOk result (λ n. asked ≡ Ok n) }
    ensures err { is_ok result ≡ is_ok asked }
{
    match asked {
        Ok(n) => Ok(n),
        Err(error) => Err(placed_refusal(error)),
    }
}

/// Why a read or a write did nothing.
fn placed_refusal(error: io::Error) -> PlacedNo
    ensures { (result ≡ PlacedNo.Interrupted) ↔ (error_kind error ≡ ErrorKind.Interrupted) }
{
    if io_error_kind(error) == ErrorKind::Interrupted {
        PlacedNo::Interrupted
    } else {
        PlacedNo::Failed
    }
}
