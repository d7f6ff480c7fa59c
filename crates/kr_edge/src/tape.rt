//! Files that are read and written at any place, as tapes.
ghost use Rattle.std.specs.Prelude.{◌≡◌, ◌≤◌, ◌⊎◌, length, true, false, Ok, IfOk, IfSome, IsErr, OnOk, OnErr};
ghost use Rattle.std.specs.Io.{ReadsAtMost, WritesAtMost};
ghost use Rattle.kr_base.specs.Faults.{IsCounted};
ghost use Rattle.kr_base.specs.Tapes.{ReadsAt, PutsAt, Cuts, KeepsFront};
ghost use Rattle.kr_edge.specs.Placed.{HasFailed, IsBeyond, NoneFailed, ReadsSome, Restores, WritesSome};
ghost use Rattle.kr_edge.specs.Stores.{only_reads};
ghost use Rattle.kr_edge.specs.inner.Stops.{WasInterrupted};

use crate::opening::only_reads;
use crate::placed::{PlacedFile, PlacedNo};
use kr_base::{Failed, FaultCount, Tape};
use kr_kms::Access;

/// A file that is read at any place, and written where it was asked for that. What the file tells
/// of its bytes is told.
pub struct FileTape<F> {
    file: F,
    access: Access,
    faults: FaultCount,
}

impl<F: PlacedFile> FileTape<F> {
    /// A tape over the file, for what it was asked for, with no fault so far.
    pub fn first(file: F, access: Access) -> FileTape<F>
        ensures file { result.file ≡ file }
        ensures access { result.access ≡ access }
        ensures faults { result.faults ≡ 0 }
    {
        FileTape {
            file,
            access,
            faults: FaultCount::new(),
        }
    }

    /// A tape over the file, for what it was asked for, which failed so often before.
    pub fn new(file: F, access: Access, faults: u64) -> FileTape<F>
        ensures file { result.file ≡ file }
        ensures access { result.access ≡ access }
        ensures faults { result.faults ≡ faults }
    {
        FileTape {
            file,
            access,
            faults: FaultCount::from_count(faults),
        }
    }

    /// Closes the file, and answers how often it failed.
    pub fn close(self) -> u64
    where
        F: Drop,
        ensures { result ≡ self.faults }
    {
        let FileTape {
            file,
            access: _access,
            faults,
        } = self;
        drop(file);
        faults.count()
    }
}

impl<F: PlacedFile> Tape for FileTape<F> {
    ghost told = { λ tape. F.told tape.file };

    ghost count = { λ tape. tape.faults };

    ghost settled = { λ tape. F.synced tape.file };

    ghost loose = { λ tape. false };

    fn len(&mut self) -> Result<u64, Failed>
        // It stays for what it was asked for, and fails where the file does.
        ensures access { self.new.access ≡ self.old.access }
        ensures fault { OnErr result
            (HasFailed (F.stops self.old.file) (F.stops self.new.file)) }
        // One that failed isn't made again.
        ensures once { OnOk result (F.stops self.new.file ≡ F.stops self.old.file) }

        // As the trait says.
        ensures length { IfOk result
            (λ n. IfSome (F.told self.old.file) (λ bytes. n ≡ length bytes)) }
        ensures same { F.told self.new.file ≡ F.told self.old.file }
        ensures cuts { false ≡ false }
        ensures cause { IsCounted self.old.faults self.new.faults result }
    {
        match self.file.len() {
            Ok(n) => Ok(n),
            Err(Failed) => {
                self.faults.rise();
                Err(Failed)
            }
        }
    }

    fn read_at(&mut self, at: u64, into: &mut [u8]) -> Result<usize, Failed>
        requires { IfSome (F.told self.old.file) (λ bytes. at ≤ length bytes) }
        // It stays for what it was asked for, and fails where the file does.
        ensures access { self.new.access ≡ self.old.access }
        ensures fault { OnErr result (IsBeyond at (length into.new)
            ⊎ HasFailed (F.stops self.old.file) (F.stops self.new.file)) }
        // One that failed isn't made again; one that was interrupted read nothing, and is.
        ensures once { OnOk result (NoneFailed (F.stops self.old.file) (F.stops self.new.file)) }

        // As the trait says.
        ensures bound { ReadsAtMost result into.new }
        ensures bytes { IfOk result (λ n. ReadsAt (F.told self.old.file) at n into.new) }
        ensures same { F.told self.new.file ≡ F.told self.old.file }
        ensures cuts { false ≡ false }
        ensures cause { IsCounted self.old.faults self.new.faults result }
    {
        match fill_buffer(&mut self.file, at, into) {
            Ok(n) => Ok(n),
            Err(Failed) => {
                self.faults.rise();
                Err(Failed)
            }
        }
    }

    fn put_at(&mut self, at: u64, bytes: &[u8]) -> Result<(), Failed>
        requires place { IfSome (F.told self.old.file) (λ held. at ≤ length held) }
        requires cuts { false ≡ false }
        // One that is only read takes nothing: that is a fault.
        ensures refused { only_reads self.old.access ≡ true
            → IsErr result × (self.new.file ≡ self.old.file) }
        // After a fault the file has its old length again, unless that failed too.
        ensures restored { OnErr result (Restores (F.told self.old.file) (F.told self.new.file)
            (F.lengths self.old.file) (F.lengths self.new.file)) }
        // Else it fails where the file does.
        ensures fault { OnErr result ((only_reads self.old.access ≡ true)
            ⊎ IsBeyond at (length bytes.now)
            ⊎ HasFailed (F.stops self.old.file) (F.stops self.new.file)) }
        ensures access { self.new.access ≡ self.old.access }

        // As the trait says.
        ensures bytes { PutsAt (F.told self.old.file) (F.told self.new.file) at bytes.now result }
        ensures cuts { false ≡ false }
        ensures cause { IsCounted self.old.faults self.new.faults result }
    {
        if only_reads(self.access) {
            self.faults.rise();
            return Err(Failed);
        }
        match put_or_restore(&mut self.file, at, bytes) {
            Ok(()) => Ok(()),
            Err(Failed) => {
                self.faults.rise();
                Err(Failed)
            }
        }
    }

    fn cut(&mut self, len: u64) -> Result<(), Failed>
        requires { IfSome (F.told self.old.file) (λ bytes. len ≤ length bytes) }
        // One that is only read isn't cut: that is a fault.
        ensures refused { only_reads self.old.access ≡ true
            → IsErr result × (self.new.file ≡ self.old.file) }
        // Else it fails where the file does.
        ensures fault { OnErr result ((only_reads self.old.access ≡ true)
            ⊎ HasFailed (F.stops self.old.file) (F.stops self.new.file)) }
        // One that failed isn't made again.
        ensures once { OnOk result (F.stops self.new.file ≡ F.stops self.old.file) }
        ensures access { self.new.access ≡ self.old.access }

        // As the trait says.
        ensures bytes { Cuts (F.told self.old.file) (F.told self.new.file) len result }
        ensures cause { IsCounted self.old.faults self.new.faults result }
    {
        if only_reads(self.access) {
            self.faults.rise();
            return Err(Failed);
        }
        match self.file.set_len(len) {
            Ok(()) => Ok(()),
            Err(Failed) => {
                self.faults.rise();
                Err(Failed)
            }
        }
    }

    // The file's length is synced with its bytes.
    fn settle(&mut self) -> Result<(), Failed>
        // It stays for what it was asked for, and fails where the file does.
        ensures access { self.new.access ≡ self.old.access }
        ensures fault { OnErr result
            (HasFailed (F.stops self.old.file) (F.stops self.new.file)) }
        // A sync that failed isn't made good by another: what it lost is lost.
        ensures once { OnOk result (F.stops self.new.file ≡ F.stops self.old.file) }

        // As the trait says.
        ensures settled { OnOk result (F.synced self.new.file ≡ true) }
        ensures same { F.told self.new.file ≡ F.told self.old.file }
        ensures cuts { OnOk result (false ≡ false) }
        ensures cause { IsCounted self.old.faults self.new.faults result }
    {
        match self.file.sync_data() {
            Ok(()) => Ok(()),
            Err(Failed) => {
                self.faults.rise();
                Err(Failed)
            }
        }
    }

    fn faults(&self) -> u64 {
        self.faults.count()
    }
}

/// Reads until the buffer is full or the file ends.
fn fill_buffer<F: PlacedFile>(file: &mut F, at: u64, into: &mut [u8]) -> Result<usize, Failed>
    requires { IfSome (F.told file.old) (λ bytes. at ≤ length bytes) }
    ensures bound { ReadsAtMost result into.new }
    ensures bytes { IfOk result (λ n. ReadsAt (F.told file.old) at n into.new) }
    ensures same { F.told file.new ≡ F.told file.old }
    ensures fault { OnErr result (IsBeyond at (length into.new)
        ⊎ HasFailed (F.stops file.old) (F.stops file.new)) }
    ensures once { OnOk result (NoneFailed (F.stops file.old) (F.stops file.new)) }
{
    let mut filled = 0;
    while filled < into.len() {
        let Some(place) = at.checked_add(filled as u64) else {
            return Err(Failed);
        };
        let n = read_again(file, place, &mut into[filled..])?;
        if n == 0 {
            return Ok(filled);
        }
        filled += n;
    }
    Ok(filled)
}

/// One read, tried again where it was interrupted.
fn read_again<F: PlacedFile>(file: &mut F, at: u64, into: &mut [u8]) -> Result<usize, Failed>
    ensures bound { ReadsAtMost result into.new }
    ensures bytes { IfOk result (λ n. ReadsSome (F.told file.old) at n into.new) }
    ensures same { F.told file.new ≡ F.told file.old }
    ensures later { WasInterrupted 0 (F.stops file.old) (F.stops file.new) }
    ensures fault { OnErr result (HasFailed (F.stops file.old) (F.stops file.new)) }
    ensures once { OnOk result (NoneFailed (F.stops file.old) (F.stops file.new)) }
{
    for _ in 0..u64::MAX {
        match file.read_at(at, into) {
            Ok(n) => return Ok(n),
            Err(PlacedNo::Interrupted) => {}
            Err(PlacedNo::Failed) => return Err(Failed),
        }
    }
    Err(Failed)
}

/// Writes all bytes. Where that fails, one try is made to bring the file back to its old length, so
/// that a full disk leaves what was there.
fn put_or_restore<F: PlacedFile>(file: &mut F, at: u64, bytes: &[u8]) -> Result<(), Failed>
    requires { IfSome (F.told file.old) (λ held. at ≤ length held) }
    ensures bytes { PutsAt (F.told file.old) (F.told file.new) at bytes.now result }
    ensures restored { OnErr result (Restores (F.told file.old) (F.told file.new)
        (F.lengths file.old) (F.lengths file.new)) }
    ensures fault { OnErr result (IsBeyond at (length bytes.now)
        ⊎ HasFailed (F.stops file.old) (F.stops file.new)) }
{
    let Ok(before) = file.len() else {
        return Err(Failed);
    };
    match put_all(file, at, bytes) {
        Ok(()) => Ok(()),
        Err(Failed) => {
            let _restored = file.set_len(before);
            Err(Failed)
        }
    }
}

/// Writes all bytes at the place.
fn put_all<F: PlacedFile>(file: &mut F, at: u64, bytes: &[u8]) -> Result<(), Failed>
    requires { IfSome (F.told file.old) (λ held. at ≤ length held) }
    ensures bytes { PutsAt (F.told file.old) (F.told file.new) at bytes.now result }
    ensures lengths { F.lengths file.new ≡ F.lengths file.old }
    ensures fault { OnErr result (IsBeyond at (length bytes.now)
        ⊎ HasFailed (F.stops file.old) (F.stops file.new)) }
{
    let mut done = 0;
    while done < bytes.len() {
        let Some(place) = at.checked_add(done as u64) else {
            return Err(Failed);
        };
        let n = match write_again(file, place, &bytes[done..]) {
            Ok(n) => n,
            Err(Failed) => return Err(Failed),
        };
        done += n;
    }
    Ok(())
}

/// One write of a part of the bytes, tried again where it was interrupted.
fn write_again<F: PlacedFile>(file: &mut F, at: u64, bytes: &[u8]) -> Result<usize, Failed>
    requires { IfSome (F.told file.old) (λ held. at ≤ length held) }
    ensures bound { WritesAtMost result bytes.now }
    ensures progress { IfOk result (λ n. n ≡ 0 → length bytes.now ≡ 0) }
    ensures bytes { IfOk result
        (λ n. WritesSome (F.told file.old) (F.told file.new) at bytes.now (Ok n)) }
    ensures front { OnErr result (KeepsFront (F.told file.old) (F.told file.new) at) }
    ensures lengths { F.lengths file.new ≡ F.lengths file.old }
    ensures later { WasInterrupted 0 (F.stops file.old) (F.stops file.new) }
    ensures fault { OnErr result (HasFailed (F.stops file.old) (F.stops file.new)) }
{
    for _ in 0..u64::MAX {
        match file.write_at(at, bytes) {
            Ok(n) => return Ok(n),
            Err(PlacedNo::Interrupted) => {}
            Err(PlacedNo::Failed) => return Err(Failed),
        }
    }
    Err(Failed)
}
