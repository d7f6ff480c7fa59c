//! Files that are read whole, in the folder that the tests run in, and the system's random device.
use kr_base::Dice;
use kr_edge::{RealWorld, SystemFiles};
use kr_kms::{FileNo, World};
use std::alloc::Global;
use std::fs::{File, OpenOptions};
use std::io::Write;
use std::os::unix::fs::OpenOptionsExt;
use std::rt::Files;

/// Makes a file of these bytes.
fn make<R: Files<File = File>>(rt: &R, name: &str, bytes: &[u8]) -> bool {
    let mut how = OpenOptions::new();
    how.write(true).create(true).truncate(true).mode(0o600);
    match how.open(rt, name) {
        Ok(mut file) => file.write_all(bytes).is_ok(),
        Err(_) => false,
    }
}

/// Whether a file of at most so many bytes holds `hello`, or why the world has none.
fn holds_hello<W: World>(
    world: &mut W,
    alloc: Global,
    name: &str,
    limit: u64,
) -> Result<bool, FileNo> {
    let bytes = world.load(alloc, name, limit)?;
    let is = bytes.as_slice() == b"hello".as_slice();
    drop(bytes);
    Ok(is)
}

/// Whether a file of five bytes is read whole, and each other answer comes: one that is too long,
/// one that isn't there, and a folder, which alone is a fault.
fn are_loaded<W: World>(world: &mut W, alloc: Global, name: &str) -> bool {
    holds_hello(world, alloc, name, 5) == Ok(true)
        && holds_hello(world, alloc, name, 4) == Err(FileNo::TooLong)
        && holds_hello(world, alloc, "kr_edge.absent", 5) == Err(FileNo::Absent)
        && world.faults() == 0
        && holds_hello(world, alloc, "/", 5) == Err(FileNo::Failed)
        && world.faults() == 1
}

#[test]
fn a_file_is_read_whole_or_refused(rt: HostRuntime) {
    let alloc = rt.alloc();
    let made = make(&rt, "kr_edge.read", b"hello");
    let mut world = RealWorld::new(alloc, SystemFiles::new(&rt));
    let loaded = are_loaded(&mut world, alloc, "kr_edge.read");
    let _removed = rt.remove_file("kr_edge.read");
    assert!(rt; made && loaded);
}

/// Whether two draws give other bytes, without a fault.
fn draws<D: Dice>(dice: &mut D) -> bool {
    let mut first = [0u8; 32];
    let mut second = [0u8; 32];
    let drawn = dice.fill(&mut first).is_ok() && dice.fill(&mut second).is_ok();
    drawn && first != second && dice.faults() == 0
}

/// Whether a random source of the seat draws, or why there is none. One that there is goes back.
#[tactic(auto, using(crate::proofs::Tapes::seat_is_out))]
fn seat_draws<W: World>(world: &mut W, alloc: Global, seat: u32) -> Result<bool, FileNo> {
    match world.dice(alloc, seat) {
        Ok(mut dice) => {
            let drawn = draws(&mut dice);
            world.back_dice(seat, dice);
            Ok(drawn)
        }
        Err(why) => Err(why),
    }
}

// There are 64 seats.
#[test]
fn the_random_device_is_drawn_from_for_each_seat(rt: HostRuntime) {
    let alloc = rt.alloc();
    let mut world = RealWorld::new(alloc, SystemFiles::new(&rt));
    let first = seat_draws(&mut world, alloc, 0);
    let last = seat_draws(&mut world, alloc, 63);
    let before = world.faults();
    let none = seat_draws(&mut world, alloc, 64);
    let after = world.faults();
    assert!(rt; first == Ok(true) && last == Ok(true) && before == 0);
    assert!(rt; none == Err(FileNo::Failed) && after == 1);
}
