//! Cases of two callers.
ghost use Rattle.std.specs.Prelude.{◌≡◌, false, Contains, IfSome};
ghost use Rattle.kr_provider.specs.Names.{names_of};
ghost use Rattle.kr_fleet.specs.Fleets.{IsFleetSeat, caller_of};
ghost use Rattle.test_fleet_calls.specs.Desks.{IsBench, IsCallerOf};
ghost use Rattle.test_fleet_calls.specs.Openings.{IsCore};

use crate::between::Between;
use crate::call::{Call, serve_line};
use crate::desk::Desk;
use crate::linked::{Spelled, end_benches};
use crate::naming::Names;
use crate::opening::Budget;
use kr_base::{List, MemDice, MemTape};
use kr_fleet::{Fleet, Seat};
use kr_history::Acts;
use kr_provider::Bench;
use kr_rollout::Core;
use std::alloc::Global;
use std::sync::Wait;
use test_support::{Page, Wrong, split_number};

/// A fleet of the core, and its two seats.
pub type Seated = (Fleet<MemTape>, Seat<MemTape>, Seat<MemTape>);

/// Takes the core up; each seat may add half of its lines.
pub fn seated(alloc: Global, core: Core<MemTape>, budget: Budget) -> Option<Seated>
    requires { IsCore budget core }
    ensures first { IfSome result (λ made. IsFleetSeat made.0 made.1
        × IsCallerOf (caller_of made.0 made.1) 2 budget.reloads false) }
    ensures second { IfSome result (λ made. IsFleetSeat made.0 made.2
        × IsCallerOf (caller_of made.0 made.2) 2 budget.reloads false) }
{
    let half = (budget.room / 2) as u64;
    match Fleet::new(alloc, core, &[half, half]) {
        Ok(made) => two_seats(made),
        Err(refused) => {
            drop(refused);
            None
        }
    }
}

/// A fleet with its last two seats.
fn two_seats(made: (Fleet<MemTape>, List<Seat<MemTape>>)) -> Option<Seated>
    ensures { IfSome result (λ two. (two.0 ≡ made.0) × Contains made.1.0 two.1
        × Contains made.1.0 two.2) }
{
    let (fleet, mut seats) = made;
    let Some(second) = seats.pop() else {
        drop(fleet);
        drop(seats);
        return None;
    };
    with_first(fleet, seats, second)
}

/// The last seat beside these.
fn with_first(
    fleet: Fleet<MemTape>,
    mut seats: List<Seat<MemTape>>,
    second: Seat<MemTape>,
) -> Option<Seated>
    ensures { IfSome result (λ two. (two.0 ≡ fleet) × Contains seats.0 two.1
        × (two.2 ≡ second)) }
{
    let Some(first) = seats.pop() else {
        drop(fleet);
        drop(seats);
        drop(second);
        return None;
    };
    drop(seats);
    Some((fleet, first, second))
}

/// The calls of a caller, in whose midst another one makes its own.
pub fn play_two<L: Spelled, R: Wait>(
    rt: &R,
    names: &Names,
    seats: Seated,
    budget: Budget,
    own: Bench<L, MemDice>,
    other: Bench<L, MemDice>,
    calls: &str,
    page: &mut Page,
) -> Result<(), Wrong>
    requires first { IsFleetSeat seats.0 seats.1
        × IsCallerOf (caller_of seats.0 seats.1) 2 budget.reloads false }
    requires second { IsFleetSeat seats.0 seats.2
        × IsCallerOf (caller_of seats.0 seats.2) 2 budget.reloads false }
    requires own { IsBench (names_of L.link own.links) own.pages }
    requires other { IsBench (names_of L.link other.links) other.pages }
{
    let (fleet, first, second) = seats;
    let rival = Desk::new(fleet.seat_caller(rt, second), other, 2, budget.reloads);
    let between = Between::new(names.alloc, fleet.seat_caller(rt, first), rival);
    let mut desk = Desk::new(between, own, 2, budget.reloads);
    let done = serve_both(names, &mut desk, calls, page);
    let (between, bench) = desk.into_parts();
    let (own, rival, other) = between.into_parts();
    drop(own.into_seat());
    drop(rival.into_seat());
    drop(fleet);
    end_benches(bench, other, page);
    done
}

/// A caller, and one that makes its calls in the midst of its own.
type Both<A: Acts, B: Acts, L: Spelled> = Desk<Between<A, B, L>, L>;

/// Makes the calls, one behind another, and plans those of the rival.
fn serve_both<A: Acts, B: Acts, L: Spelled>(
    names: &Names,
    desk: &mut Both<A, B, L>,
    calls: &str,
    page: &mut Page,
) -> Result<(), Wrong> {
    for line in calls.lines() {
        if let Some(words) = line.strip_prefix("between ") {
            plan_call(names, desk, words)?;
        } else {
            serve_line(names, desk, line, page)?;
            desk.tell(page);
        }
    }
    Ok(())
}

/// `NUMBER CALL`: plans the rival's call, before the event of this number from here.
fn plan_call<A: Acts, B: Acts, L: Spelled>(
    names: &Names,
    desk: &mut Both<A, B, L>,
    words: &str,
) -> Result<(), Wrong> {
    let (number, line) = split_number(words)?;
    desk.plan(number, Call::spelled(names, line)?);
    Ok(())
}
