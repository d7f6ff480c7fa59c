//! Two callers of one fleet, each in a thread of its own, that read a path each.
ghost use Rattle.std.specs.Prelude.{◌+◌, ◌<◌, ◌≤◌, All, IfSome};
ghost use Rattle.test_fleet_threads.specs.Ready.{IsNew, IsNewCore, MayRead};

use crate::tests::linked::{bench, end_bench};
use kr_base::{Bytes, Dice, List, MemDice, Tape, path_ok};
use kr_fleet::{Fleet, Read, Seat, read};
use kr_history::CallNo;
use kr_kms::Kms;
use kr_provider::Bench;
use kr_rollout::Core;
use std::alloc::Global;
use std::sync::Wait;
use std::sync::atomic::{AtomicBool, Ordering};
use std::thread;
use std::thread::Threads;

/// A caller of a fleet that reads once: its seat until then, and whether it got what it should.
struct Reader<T: Tape, L: Kms, D: Dice> {
    seat: Option<Seat<T>>,
    bench: Bench<L, D>,
    got: bool,
}

impl<T: Tape + Drop, L: Kms + Drop, D: Dice + Drop> Reader<T, L, D> {
    /// Reads the path, which should hold the data.
    fn read<R: Wait>(&mut self, rt: &R, alloc: Global, fleet: &Fleet<T>, path: &str, data: &[u8])
        requires { IfSome self.old.seat (MayRead L.link fleet.now self.old.bench) }
    {
        let Some(seat) = self.seat.take() else {
            return;
        };
        if !path_ok(path) {
            drop(seat);
            return;
        }
        let mut acts = fleet.seat_caller(rt, seat);
        let found = read(alloc, &mut acts, 0, &mut self.bench, path);
        let _seat = acts.into_seat();
        self.got = is_right(found, data);
    }

    /// Lets the caller go, and says whether it got what it should.
    fn let_go(self) -> bool {
        let Reader {
            seat: _seat,
            bench,
            got,
        } = self;
        end_bench(bench);
        got
    }
}

fn is_right(found: Result<Read, CallNo>, data: &[u8]) -> bool {
    match found {
        Ok(
            Read::Value {
                revision: _,
                plain,
                stale: _,
            },
        ) => plain.as_slice() == data,
        _ => false,
    }
}

/// The fleet of the core, with two seats.
#[tactic(auto, using(crate::proofs::Reading::are_new))]
fn fleet_of<T: Tape + Drop>(alloc: Global, core: Core<T>) -> Option<(Fleet<T>, List<Seat<T>>)>
    requires { IsNewCore core }
    ensures { IfSome result (λ made. All (IsNew made.0) made.1.0) }
{
    match Fleet::new(alloc, core, &[3, 3]) {
        Ok(made) => Some(made),
        Err((_, core)) => {
            end_core(core);
            None
        }
    }
}

/// Lets the core go.
fn end_core<T: Tape + Drop>(core: Core<T>) {
    let (store, _lines) = core.close();
    let _tape = store.close();
}

/// Takes a seat from the fleet's.
#[tactic(auto, using(crate::proofs::Reading::last_new, crate::proofs::Reading::rest_new, crate::proofs::Reading::none_new))]
fn taken<T: Tape>(fleet: &Fleet<T>, seats: &mut List<Seat<T>>) -> Option<Seat<T>>
    requires { All (IsNew fleet.now) seats.old.0 }
    ensures seat { IfSome result (IsNew fleet.now) }
    ensures rest { All (IsNew fleet.now) seats.new.0 }
{
    match seats.pop() {
        Some(seat) => Some(seat),
        None => None,
    }
}

/// A caller with a seat that no one used, and a link to the plugin.
fn ready_reader<T: Tape + Drop, L: Kms + Drop>(
    alloc: Global,
    fleet: &Fleet<T>,
    seat: Seat<T>,
    link: L,
) -> Option<Reader<T, L, MemDice>>
    requires { IsNew fleet.now seat }
    ensures { IfSome result (λ reader. IfSome reader.seat (MayRead L.link fleet.now reader.bench)) }
{
    let dice = MemDice::new(Bytes::new(alloc), List::new(alloc));
    let bench = bench(alloc, link, dice)?;
    Some(Reader {
        seat: Some(seat),
        bench,
        got: false,
    })
}

/// The same with a seat of the fleet's.
fn next_reader<T: Tape + Drop, L: Kms + Drop>(
    alloc: Global,
    fleet: &Fleet<T>,
    seats: &mut List<Seat<T>>,
    link: L,
) -> Option<Reader<T, L, MemDice>>
    requires { All (IsNew fleet.now) seats.old.0 }
    ensures ready { IfSome result
        (λ reader. IfSome reader.seat (MayRead L.link fleet.now reader.bench)) }
    ensures rest { All (IsNew fleet.now) seats.new.0 }
{
    match taken(fleet, seats) {
        Some(seat) => ready_reader(alloc, fleet, seat, link),
        None => None,
    }
}

/// Puts a caller with the link at the end, if there is memory for it.
fn hire_worker<T: Tape + Drop, L: Kms + Drop>(
    alloc: Global,
    fleet: &Fleet<T>,
    seats: &mut List<Seat<T>>,
    readers: &mut List<Reader<T, L, MemDice>>,
    link: L,
)
    requires seats { All (IsNew fleet.now) seats.old.0 }
    requires room { 0 < readers.old.1 }
    requires ready { All
        (λ reader. IfSome reader.seat (MayRead L.link fleet.now reader.bench)) readers.old.0 }
    ensures rest { All (IsNew fleet.now) seats.new.0 }
    ensures room { readers.old.1 ≤ readers.new.1 + 1 }
    ensures ready { All
        (λ reader. IfSome reader.seat (MayRead L.link fleet.now reader.bench)) readers.new.0 }
{
    if let Some(reader) = next_reader(alloc, fleet, seats, link) {
        readers.push_in_room(reader);
    }
}

/// A caller for each of the links, as far as there is memory.
fn seated<T: Tape + Drop, L: Kms + Drop>(
    alloc: Global,
    fleet: &Fleet<T>,
    seats: List<Seat<T>>,
    first: L,
    second: L,
) -> Vec<Reader<T, L, MemDice>>
    requires { All (IsNew fleet.now) seats.0 }
    ensures { All
        (λ reader. IfSome reader.seat (MayRead L.link fleet.now reader.bench)) result.items }
{
    let mut seats = seats;
    let mut readers = List::new(alloc);
    match readers.reserve(2) {
        Ok(()) => {
            hire_worker(alloc, fleet, &mut seats, &mut readers, first);
            hire_worker(alloc, fleet, &mut seats, &mut readers, second);
            readers.into_vec()
        }
        Err(_) => readers.into_vec(),
    }
}

/// Lets the caller of this number read its path. The second one sets the flag behind that.
fn read_own<R: Wait, T: Tape + Drop, L: Kms + Drop, D: Dice + Drop>(
    rt: &R,
    alloc: Global,
    fleet: &Fleet<T>,
    number: usize,
    reader: &mut Reader<T, L, D>,
    answered: &AtomicBool,
)
    requires { IfSome reader.old.seat (MayRead L.link fleet.now reader.old.bench) }
{
    if number == 0 {
        reader.read(rt, alloc, fleet, "/s", b"hello");
    } else {
        reader.read(rt, alloc, fleet, "/t", b"there");
        answered.store(true, Ordering::SeqCst);
    }
}

/// Each caller in a thread of its own, where one can be made.
fn read_each<
    R: Threads + Wait + Sync,
    T: Tape + Send + Drop,
    L: Kms + Send + Drop,
    D: Dice + Send + Drop,
>(
    rt: &R,
    alloc: Global,
    fleet: &Fleet<T>,
    readers: &mut Vec<Reader<T, L, D>>,
    answered: &AtomicBool,
)
    requires { All
        (λ reader. IfSome reader.seat (MayRead L.link fleet.now reader.bench)) readers.old.items }
{
    thread::for_each_mut(
        rt,
        readers,
        2,
        &|number, reader: &mut Reader<T, L, D>|
            requires { IfSome reader.old.seat (MayRead L.link fleet.now reader.old.bench) }
        { read_own(rt, alloc, fleet, number, reader, answered) },
    );
}

/// Lets the callers go, and counts those that got what they should.
fn count_right<T: Tape + Drop, L: Kms + Drop, D: Dice + Drop>(
    readers: Vec<Reader<T, L, D>>,
) -> u32 {
    let mut readers = List::from_vec(readers);
    let mut right = 0u32;
    while let Some(reader) = readers.pop() {
        right = right.wrapping_add(u32::from(reader.let_go()));
    }
    readers.end();
    right
}

/// Lets a caller of each link read at the core, and counts those that got what they should. The
/// flag is set behind the read of the second one.
pub fn both_read<R: Threads + Wait + Sync, T: Tape + Send + Drop, L: Kms + Send + Drop>(
    rt: &R,
    alloc: Global,
    core: Core<T>,
    first: L,
    second: L,
    answered: &AtomicBool,
) -> Option<u32>
    requires { IsNewCore core }
{
    let (fleet, seats) = fleet_of(alloc, core)?;
    let mut readers = seated(alloc, &fleet, seats, first, second);
    read_each(rt, alloc, &fleet, &mut readers, answered);
    Some(count_right(readers))
}
