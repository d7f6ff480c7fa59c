//! Tests of kr_turn: the lock over a small state, in threads.
ghost use Rattle.std.specs.Prelude.{◌≡◌, ℕ, ◌+◌, ◌*◌, ◌<◌, ◌≤◌, ◌^◌, List, [], ◌∷◌, ◌++◌, length, sum, slice_index_or, All, IfOk, vec_capacity};
ghost use Rattle.kr_turn.specs.declared.seat.Place.{Place};
ghost use Rattle.kr_turn.specs.Seats.{IsSeatOf, AreAll, number_of};

use kr_base::{List, NoMemory, Spent};
use kr_turn::{Seat, Turn, Turned};
use std::alloc::Global;
use std::sync::Wait;
use std::sync::atomic::{AtomicBool, Ordering};
use std::test::Fail;
use std::thread;
use std::thread::Threads;

/// Keeps the numbers handed to it, each with the number of its seat, beside a value of any type.
#[derive(Drop)]
struct Handed<T> {
    numbers: Vec<(u32, u64)>,
    room: usize,
    beside: T,
    ghost fits: { room ≤ vec_capacity numbers },
    ghost kept: { length numbers.items ≤ room },
}

impl<T> Handed<T> {
    fn new(alloc: Global, room: usize, beside: T) -> Result<Handed<T>, (NoMemory, T)>
        ensures { IfOk result (λ made. (made.numbers.items ≡ []) × (made.room ≡ room)) }
    {
        match Vec::with_capacity(alloc, room) {
            Ok(numbers) => Ok(Handed {
                numbers,
                room,
                beside,
            }),
            Err(_) => Err((NoMemory, beside)),
        }
    }
}

impl<T> Turned for Handed<T> {
    type Event = u64;

    type Answer = usize;

    type Line = (u32, u64);

    type Ground = usize;

    ghost lines = { λ state. state.numbers.items };

    ghost room = { λ state. state.room };

    ghost basis = { λ state. state.room };

    ghost seat_of = { λ line. line.0 };

    ghost may = { λ basis seat mine event. Unit {0} };

    ghost law = { λ basis lines. length lines ≤ basis };

    ghost tells = { λ basis before seat event answer line.
        (line ≡ (seat, event)) × (answer ≡ length before) };

    /// Answers how many numbers came before.
    fn turn(&mut self, seat: u32, event: u64) -> usize {
        let before = self.numbers.len();
        self.numbers.push_reserved((seat, event));
        before
    }
}

/// Hands over the numbers from 0 on, and sets the flag where a turn is refused.
fn pass_numbers<T, R: Wait>(
    rt: &R,
    turn: &Turn<Handed<T>>,
    seat: &mut Seat<Handed<T>>,
    count: u64,
    spent: &AtomicBool,
)
    requires { IsSeatOf turn.now seat.old }
    ensures { IsSeatOf turn.now seat.new × (number_of seat.new ≡ number_of seat.old) }
{
    for number in 0..count {
        if turn.act(rt, seat, number) == Err(Spent) {
            spent.store(true, Ordering::SeqCst);
        }
    }
}

/// Each seat in a thread of its own, where one can be made.
fn hand_over_each<T: Send, R: Threads + Wait + Sync>(
    rt: &R,
    turn: &Turn<Handed<T>>,
    seats: &mut Vec<Seat<Handed<T>>>,
    count: u64,
    spent: &AtomicBool,
)
    requires { All (IsSeatOf turn.now) seats.old.items }
    ensures its { All (IsSeatOf turn.now) seats.new.items }
    ensures length { length seats.new.items ≡ length seats.old.items }
    ensures numbers { (i : ℕ) (d : Place (Handed T) (ℕ × ℕ) ℕ) → i < length seats.old.items
        → number_of (slice_index_or seats.new.items i d)
        ≡ number_of (slice_index_or seats.old.items i d) }
{
    thread::for_each_mut(
        rt,
        seats,
        64,
        &|_, seat: &mut Seat<Handed<T>>|
            requires { IsSeatOf turn.now seat.old }
            ensures { IsSeatOf turn.entry.now seat.exit.now
                × (number_of seat.exit.now ≡ number_of seat.entry.now) }
        { pass_numbers(rt, turn, seat, count, spent) },
    );
}

/// What one lock keeps after so many numbers of each seat.
fn handed_numbers<T: Send + Drop, R: Threads + Wait + Sync>(
    rt: &R,
    alloc: Global,
    beside: T,
    room: usize,
    budgets: &[u64],
    count: u64,
    spent: &AtomicBool,
) -> Result<Handed<T>, NoMemory>
    requires count { (1 ≤ length budgets.now) × (length budgets.now ≤ 64) }
    requires room { sum budgets.now ≤ room }
    ensures { IfOk result (λ state. state.room ≡ room) }
{
    let state = match Handed::new(alloc, room, beside) {
        Ok(state) => state,
        Err((refused, _)) => return Err(refused),
    };
    let (turn, seats) = match Turn::new(alloc, state, budgets) {
        Ok(made) => made,
        Err((refused, _)) => return Err(refused),
    };
    let mut row = seats.into_vec();
    hand_over_each(rt, &turn, &mut row, count, spent);
    Ok(turn.close(List::from_vec(row)))
}

/// How many numbers a seat handed over, if they are 0, 1, 2 and so on.
fn in_order<T>(state: &Handed<T>, seat: u32) -> Option<u64> {
    let mut next = 0u64;
    for (by, number) in state.numbers.as_slice() {
        if *by == seat {
            if *number != next {
                return None;
            }
            next = next.wrapping_add(1);
        }
    }
    Some(next)
}

// Each seat wants one turn more than its budget.
#[test]
fn eight_seats_keep_their_order_and_budgets(rt: HostRuntime) -> Result<(), Fail> {
    let spent = AtomicBool::new(false);
    let state = handed_numbers(&rt, rt.alloc(), 7u8, 8000, &[1000; 8], 1001, &spent)?;
    assert_eq!(rt; state.beside, 7);
    assert_eq!(rt; state.numbers.len(), 8000);
    for seat in 0..8 {
        assert_eq!(rt; in_order(&state, seat), Some(1000));
    }
    assert!(rt; spent.load(Ordering::SeqCst));
    Ok(())
}

// The first turn is answered and is the only line; the second one is refused.
#[test]
fn a_second_turn_of_one_is_spent(rt: HostRuntime) -> Result<(), Fail> {
    let spent = AtomicBool::new(false);
    let state = handed_numbers(&rt, rt.alloc(), 7u8, 1, &[1], 1, &spent)?;
    assert_eq!(rt; in_order(&state, 0), Some(1));
    assert!(rt; !spent.load(Ordering::SeqCst));
    let state = handed_numbers(&rt, rt.alloc(), 7u8, 1, &[1], 2, &spent)?;
    assert_eq!(rt; in_order(&state, 0), Some(1));
    assert_eq!(rt; state.numbers.len(), 1);
    assert!(rt; spent.load(Ordering::SeqCst));
    Ok(())
}
