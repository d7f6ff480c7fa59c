//! The world in memory: a tape and a link that go out and come back.
ghost use Rattle.std.specs.Prelude.{◌≡◌};

use crate::tests::making::plugin;
use kr_base::{List, Tape};
use kr_kms::{Access, FileNo, Kms, MemWorld, TablePlugin, World};
use std::alloc::Global;

/// A world of nothing but a link of the seat 3 to it.
fn world(alloc: Global) -> Option<MemWorld<TablePlugin>> {
    let mut links = Vec::new(alloc);
    match plugin(alloc, "k1", &[]) {
        Some(link) => links.push((3, link)).ok()?,
        None => return None,
    }
    Some(MemWorld::new(
        alloc,
        List::new(alloc),
        List::new(alloc),
        List::new(alloc),
        List::from_vec(links),
        100,
    ))
}

/// Why a world has no tape of the name, if it has none. One that it has goes back at once.
#[tactic(auto, using(crate::proofs::Lent::is_out, crate::proofs::Lent::goes_back, crate::proofs::Lent::stays))]
fn refusal<W: World>(world: &mut W, alloc: Global, name: &str) -> Option<FileNo>
    ensures { (W.told world.new).tapes.out name.now ≡ (W.told world.old).tapes.out name.now }
{
    match world.tape(alloc, name, Access::ToMake) {
        Ok(tape) => {
            world.back_tape(name, tape);
            None
        }
        Err(why) => Some(why),
    }
}

/// Whether there is a tape of the name, and not a second one while it is out. It takes these bytes.
#[tactic(auto, using(crate::proofs::Lent::is_out, crate::proofs::Lent::is_still_out))]
fn writes<W: World>(world: &mut W, alloc: Global, name: &str, bytes: &[u8]) -> bool {
    match world.tape(alloc, name, Access::ToMake) {
        Ok(mut tape) => {
            let put = tape.put_at(0, bytes).is_ok();
            let alone = refusal(world, alloc, name) == Some(FileNo::Failed);
            world.back_tape(name, tape);
            put && alone
        }
        Err(_) => false,
    }
}

/// Whether the tape that is there has these bytes.
fn has(world: &MemWorld<TablePlugin>, name: &str, bytes: &[u8]) -> bool {
    match world.named_tape(name) {
        Some(tape) => tape.bytes() == bytes && tape.faults() == 0,
        None => false,
    }
}

/// Whether a tape that wasn't there is made, and keeps what is put, once it is back and out again.
fn keeps_a_tape(world: &mut MemWorld<TablePlugin>, alloc: Global) -> bool {
    world.named_tape("/s").is_none()
        && writes(world, alloc, "/s", b"ab")
        && has(world, "/s", b"ab")
        && writes(world, alloc, "/s", b"c")
        && has(world, "/s", b"cb")
        && world.faults() == 2
}

/// Whether the link of the seat to `p` tells its key.
#[tactic(auto, using(crate::proofs::Lent::link_is_out))]
fn asks<W: World>(world: &mut W, alloc: Global, seat: u32) -> bool {
    match world.link(alloc, seat, "p", "") {
        Ok(mut link) => {
            let told = tells(alloc, &mut link);
            world.back_link(seat, link);
            told
        }
        Err(_) => false,
    }
}

fn tells<L: Kms>(alloc: Global, link: &mut L) -> bool
    ensures { (L.link link.new).name ≡ (L.link link.old).name }
{
    match link.status(alloc) {
        Ok(status) => {
            let is = status.key_id.as_str() == "k1";
            drop(status);
            is
        }
        Err(_) => false,
    }
}

/// Whether the link goes out and comes back to its seat, and no other seat has one.
fn keeps_a_link(world: &mut MemWorld<TablePlugin>, alloc: Global) -> bool {
    asks(world, alloc, 3)
        && asks(world, alloc, 3)
        && world.faults() == 0
        && !asks(world, alloc, 4)
        && world.faults() == 1
        && world.seat_link(3, "p").is_some()
        && world.seat_link(4, "p").is_none()
        && world.seat_link(3, "q").is_none()
}

/// Whether a world keeps a tape, or a link.
fn keeps(alloc: Global, tape: bool) -> bool {
    match world(alloc) {
        Some(mut world) => {
            let is = if tape {
                keeps_a_tape(&mut world, alloc)
            } else {
                keeps_a_link(&mut world, alloc)
            };
            drop(world);
            is
        }
        None => false,
    }
}

#[test]
fn a_tape_comes_back_with_its_bytes(rt: HostRuntime) {
    assert!(rt; keeps(rt.alloc(), true));
}

#[test]
fn a_link_comes_back_to_its_seat(rt: HostRuntime) {
    assert!(rt; keeps(rt.alloc(), false));
}
