//! Stores as files, in the folder that the tests run in.
ghost use Rattle.std.specs.Prelude.{◌≡◌, None, false};

use kr_base::{Failed, Tape, Text};
use kr_edge::{DiskFile, FileTape, PlacedFile, PlacedNo, RealWorld, SystemFiles, open_store};
use kr_kms::{Access, FileNo, World};
use std::alloc::Global;
use std::fs::File;
use std::os::unix::fs::MetadataExt;
use std::process::{Processes, SystemProcess};
use std::rt::Files;

/// Why a world has no tape of the name, if it has none. One that it has goes back at once.
#[tactic(auto, using(crate::proofs::Tapes::is_out, crate::proofs::Tapes::goes_back, crate::proofs::Tapes::stays))]
fn refusal<W: World>(world: &mut W, alloc: Global, name: &str, access: Access) -> Option<FileNo>
    ensures { (W.told world.new).tapes.out name.now ≡ (W.told world.old).tapes.out name.now }
{
    match world.tape(alloc, name, access) {
        Ok(tape) => {
            world.back_tape(name, tape);
            None
        }
        Err(why) => Some(why),
    }
}

fn writes<T: Tape>(tape: &mut T) -> bool
    requires { T.loose tape.old ≡ false }
{
    tape.put_at(0, b"hello!").is_ok() && tape.put_at(2, b"y").is_ok() && tape.cut(5).is_ok()
}

/// Whether what was written is there, read from its second byte on.
fn reads<T: Tape>(tape: &mut T) -> bool
    ensures { T.loose tape.new ≡ T.loose tape.old }
{
    let mut into = [0u8; 8];
    tape.len() == Ok(5)
        && tape.read_at(1, &mut into) == Ok(4)
        && &into[..4] == b"eylo".as_slice()
        && tape.faults() == 0
}

/// Whether a tape of the name takes bytes, and isn't given a second time while it is out.
#[tactic(auto, using(crate::proofs::Tapes::is_out, crate::proofs::Tapes::is_still_out))]
fn is_written_alone<W: World>(world: &mut W, alloc: Global, name: &str) -> bool {
    match world.tape(alloc, name, Access::ToMake) {
        Ok(mut tape) => {
            let written = writes(&mut tape);
            let alone = refusal(world, alloc, name, Access::ToRead) == Some(FileNo::Failed);
            world.back_tape(name, tape);
            written && alone
        }
        Err(_) => false,
    }
}

/// Whether the tape of the name that is there has the bytes, and takes none where it is only read.
#[tactic(auto, using(crate::proofs::Tapes::is_out, crate::proofs::Tapes::is_still_out))]
fn is_read<W: World>(world: &mut W, alloc: Global, name: &str) -> bool {
    match world.tape(alloc, name, Access::ToRead) {
        Ok(mut tape) => {
            let read = reads(&mut tape);
            let kept = tape.put_at(0, b"!").is_err() && tape.cut(0).is_err();
            let counted = tape.faults() == 2 && tape.len() == Ok(5);
            world.back_tape(name, tape);
            read && kept && counted
        }
        Err(_) => false,
    }
}

/// The mode of a file.
fn mode<R: Files<File = File>>(rt: &R, name: &str) -> Option<u32> {
    let found = rt.metadata(name).ok()?;
    Some(found.mode() & 0o777)
}

/// Whether an absent store is made, its owner's alone, where that is asked for, and keeps what was
/// put.
fn keeps<W: World, R: Files<File = File>>(
    world: &mut W,
    rt: &R,
    alloc: Global,
    name: &str,
) -> bool {
    refusal(world, alloc, name, Access::ToWrite) == Some(FileNo::Absent)
        && is_written_alone(world, alloc, name)
        && mode(rt, name) == Some(0o600)
        && is_read(world, alloc, name)
        && world.faults() == 1
}

#[test]
fn a_store_keeps_what_was_put(rt: HostRuntime) {
    let alloc = rt.alloc();
    let mut world = RealWorld::new(alloc, SystemFiles::new(&rt));
    let kept = keeps(&mut world, &rt, alloc, "kr_edge.store");
    let _removed = rt.remove_file("kr_edge.store");
    assert!(rt; kept);
}

/// Why a second world has no tape of the name while the first has one out, each for what it is asked
/// for; none where it has one, or where the first has none.
fn second_refusal<R: Files<File = File> + Processes<Started = SystemProcess>>(
    rt: &R,
    alloc: Global,
    name: &str,
    first: Access,
    second: Access,
) -> Option<FileNo> {
    let mut held = RealWorld::new(alloc, SystemFiles::new(rt));
    let mut other = RealWorld::new(alloc, SystemFiles::new(rt));
    match held.tape(alloc, name, first) {
        Ok(tape) => {
            let why = refusal(&mut other, alloc, name, second);
            held.back_tape(name, tape);
            why
        }
        Err(_) => Some(FileNo::Absent),
    }
}

/// Whether a store that is written is refused to all others until it is back, and one that is only
/// read to those who write.
fn is_locked<R: Files<File = File> + Processes<Started = SystemProcess>>(
    rt: &R,
    alloc: Global,
    name: &str,
) -> bool {
    second_refusal(rt, alloc, name, Access::ToMake, Access::ToMake) == Some(FileNo::Failed)
        && second_refusal(rt, alloc, name, Access::ToWrite, Access::ToRead) == Some(FileNo::Failed)
        && second_refusal(rt, alloc, name, Access::ToRead, Access::ToWrite) == Some(FileNo::Failed)
        && second_refusal(rt, alloc, name, Access::ToRead, Access::ToRead).is_none()
}

#[test]
fn a_store_that_is_out_is_locked(rt: HostRuntime) {
    let locked = is_locked(&rt, rt.alloc(), "kr_edge.locked");
    let _removed = rt.remove_file("kr_edge.locked");
    assert!(rt; locked);
}

/// Whether no store is made of the name, nor opened, and the world's files have failed so often
/// then.
fn is_no_store<W: World>(world: &mut W, alloc: Global, name: &str, faults: u64) -> bool {
    refusal(world, alloc, name, Access::ToMake) == Some(FileNo::Failed) && world.faults() == faults
}

// A folder, a device, and a link that leads to nothing, which no store is made through.
#[test]
fn what_is_no_plain_file_is_no_store(rt: HostRuntime) {
    let alloc = rt.alloc();
    let mut world = RealWorld::new(alloc, SystemFiles::new(&rt));
    let linked = rt.symlink("kr_edge.nothing", "kr_edge.link").is_ok();
    let refused = is_no_store(&mut world, alloc, "kr_edge.link", 1);
    let made = rt.metadata("kr_edge.nothing").is_ok();
    let _removed = rt.remove_file("kr_edge.link");
    let folder = is_no_store(&mut world, alloc, "/", 2);
    let device = is_no_store(&mut world, alloc, "/dev/null", 3);
    assert!(rt; linked && refused && !made);
    assert!(rt; folder);
    assert!(rt; device);
}

/// A file of a disk that has room for its first six bytes alone. It takes and gives two at a time,
/// and interrupts every other call of these.
#[derive(Drop)]
struct SmallDisk {
    file: DiskFile,
    stops: bool,
    synced: bool,
}

impl SmallDisk {
    /// Whether this call is interrupted.
    fn stops(&mut self) -> bool
        ensures { self.new.synced ≡ self.old.synced }
    {
        self.stops = !self.stops;
        !self.stops
    }
}

impl PlacedFile for SmallDisk {
    ghost told = { λ disk. None };

    ghost synced = { λ disk. disk.synced };

    ghost lengths = { λ disk. None };

    ghost stops = { λ disk. None };

    fn len(&mut self) -> Result<u64, Failed> {
        self.file.len()
    }

    fn read_at(&mut self, at: u64, into: &mut [u8]) -> Result<usize, PlacedNo> {
        if self.stops() {
            return Err(PlacedNo::Interrupted);
        }
        let most = into.len().min(2);
        self.file.read_at(at, &mut into[..most])
    }

    fn write_at(&mut self, at: u64, bytes: &[u8]) -> Result<usize, PlacedNo> {
        self.synced = false;
        if self.stops() {
            return Err(PlacedNo::Interrupted);
        }
        if at < 6 {
            let most = bytes.len().min(2);
            return self.file.write_at(at, &bytes[..most]);
        }
        Err(PlacedNo::Failed)
    }

    fn set_len(&mut self, len: u64) -> Result<(), Failed> {
        self.synced = false;
        self.file.set_len(len)
    }

    fn sync_data(&mut self) -> Result<(), Failed> {
        let synced = self.file.sync_data();
        self.synced = synced.is_ok();
        synced
    }
}

/// Whether a put that there is no room for fails, once, and what was there before is left.
fn goes_back(tape: &mut FileTape<SmallDisk>) -> bool {
    let mut into = [0u8; 8];
    tape.put_at(0, b"abcde").is_ok()
        && tape.put_at(5, b"hello").is_err()
        && tape.faults() == 1
        && tape.len() == Ok(5)
        && tape.read_at(0, &mut into) == Ok(5)
        && &into[..5] == b"abcde".as_slice()
}

/// The same of a file of this name on such a disk.
fn survives<R: Files<File = File> + Processes<Started = SystemProcess>>(
    rt: &R,
    alloc: Global,
    name: &str,
) -> bool {
    let Ok(copy) = Text::copy(alloc, name) else {
        return false;
    };
    match open_store(&mut SystemFiles::new(rt), copy, Access::ToMake) {
        Ok(file) => {
            let disk = SmallDisk {
                file,
                stops: true,
                synced: false,
            };
            let mut tape = FileTape::first(disk, Access::ToMake);
            goes_back(&mut tape) & (tape.close() == 1)
        }
        Err(_) => false,
    }
}

#[test]
fn a_full_disk_leaves_the_store_as_it_was(rt: HostRuntime) {
    let survived = survives(&rt, rt.alloc(), "kr_edge.full");
    let _removed = rt.remove_file("kr_edge.full");
    assert!(rt; survived);
}
