//! A ticket lock round one state.
ghost use Rattle.std.specs.Prelude.{◌≡◌, ℕ, ◌+◌, ◌^◌, ◌<◌, ◌≤◌, ◌↔◌, [], length, sum, slice_index};
ghost use Rattle.std.specs.Prelude.{All, IsErr, IfOk, IfErr, OnOk, OnErr};

use crate::ending::{gather, take_back};
use crate::lock::take_turn;
use crate::opening::{fill, make_seats};
use crate::rule::{About, TurnRule};
use crate::seat::Seat;
use crate::sleepers::Sleepers;
use crate::turned::Turned;
use crate::view::View;
use atomic_table::Table;
use kr_base::{List, NoMemory, Spent};
use std::alloc::Global;
use std::marker::Model;
use std::sync::Wait;

/// A ticket lock round one state. Contracts see which lock it is, and its terms: the ground of the
/// state's lines, their room, and the budgets of its seats.
#[derive(Drop)]
pub struct Turn<S: Turned> {
    table: Table<Option<S>, View<S::Line, S::Ground>, About<S>, TurnRule, Global>,
    sleepers: Sleepers,
}

impl<S: Turned> Model for Turn<S> {
    ghost use Rattle.std.specs.Prelude.{◌<◌, length};
    ghost use Rattle.kr_turn.specs.Keys.{Home, home_of};
    ghost use Rattle.kr_turn.specs.inner.Tokens.{IsSized};

    ghost Value = { Home S.Ground };

    ghost view = { λ turn.
        home_of S.basis S.room turn.table.shared.table_id turn.table.shared.key };

    ghost invariant = { λ turn. IsSized turn.table.shared.table_id
        × (0 < length turn.table.shared.key.budgets.items) };
}

impl<S: Turned> Turn<S> {
    ghost use Rattle.kr_base.specs.Lines.{of_seat, Stands};
    ghost use Rattle.kr_turn.specs.Lines.{IsTurn};
    ghost use Rattle.kr_turn.specs.Seats.{IsSeatOf, AreFresh, AreAll, number_of, lines_seen, mine};
    ghost use Rattle.kr_turn.specs.Seats.{left_of};

    /// Makes the lock and one seat for each budget: the seat of number `i` may make as many turns
    /// as the budget at `i`. Where there is no memory the state comes back.
    pub fn new(
        alloc: Global,
        state: S,
        budgets: &[u64],
    ) -> Result<(Turn<S>, List<Seat<S>>), (NoMemory, S)>
        requires count { (1 ≤ length budgets.now) × (length budgets.now ≤ 64) }
        requires room { sum budgets.now ≤ S.room state }
        requires small { sum budgets.now < 2 ^ 64 }
        requires no_lines { S.lines state ≡ [] }
        ensures terms { IfOk result (λ made. made.0.terms
            ≡ record { basis = S.basis state; room = S.room state; budgets = budgets.now }) }
        ensures seats { IfOk result (λ made. AreFresh made.0 (length budgets.now) made.1.0) }
        ensures state { IfErr result (λ refused. refused.1 ≡ state) }
    {
        let mut seats = List::new(alloc);
        if seats.reserve(budgets.len()).is_err() {
            seats.end();
            return Err((NoMemory, state));
        }
        let Ok(copy) = Vec::from_slice(alloc, budgets) else {
            seats.end();
            return Err((NoMemory, state));
        };
        let about = About {
            state,
            budgets: copy,
        };
        let made = Table::vacant(alloc, &[0, 0], 1, &about);
        let About { state, budgets: _ } = about;
        let Ok((table, mut token)) = made else {
            seats.end();
            return Err((NoMemory, state));
        };
        fill(&table.shared, &mut token, state);
        make_seats(&table.shared, token, budgets, &mut seats);
        let sleepers = Sleepers::new();
        Ok((Turn { table, sleepers }, seats))
    }

    /// Makes one turn: draws a ticket, waits until it is served, turns the state and passes on. It
    /// may wait for others, and takes no memory of its own. A seat whose budget is used up draws
    /// nothing, and the event is dropped.
    pub fn act<R: Wait>(
        &self,
        rt: &R,
        seat: &mut Seat<S>,
        event: S::Event,
    ) -> Result<S::Answer, Spent>
        requires seat { IsSeatOf self.now seat.old }
        requires may { S.may self.now.terms.basis (number_of seat.old) (mine seat.old) event }
        ensures acted { IfOk result (λ answer. IsTurn S.seat_of S.law S.tells
            self.now.terms.basis (number_of seat.old) event answer
            (lines_seen seat.old) (mine seat.old) (lines_seen seat.new) (mine seat.new)) }
        ensures spent { IsErr result
            ↔ (length (mine seat.old) ≡ slice_index self.now.terms.budgets (number_of seat.old)) }
        ensures nothing { OnErr result (seat.new ≡ seat.old) }
        ensures left { OnOk result (left_of seat.new + 1 ≡ left_of seat.old) }
        ensures seat { IsSeatOf self.now seat.new × (number_of seat.new ≡ number_of seat.old) }
    {
        if seat.left == 0 {
            return Err(Spent);
        }
        let answer = take_turn(
            rt,
            &self.table.shared,
            &self.sleepers,
            &mut seat.token,
            seat.number,
            event,
        );
        seat.left -= 1;
        Ok(answer)
    }

    /// Ends the lock with all its seats, in any order, and gives the state back. It takes no
    /// memory. What each seat saw begins the state's lines, of which its own are just those of its
    /// number.
    pub fn close(self, mut seats: List<Seat<S>>) -> S
        requires { AreAll self seats.0 }
        ensures kept { (S.basis result ≡ self.terms.basis) × (S.room result ≡ self.terms.room) }
        ensures stand { All (λ seat.
            Stands S.seat_of (S.lines result) (number_of seat) (lines_seen seat) (mine seat))
            seats.0 }
        ensures no_other { (number : ℕ) → length self.terms.budgets ≤ number
            → of_seat S.seat_of number (S.lines result) ≡ [] }
    {
        let Turn { table, sleepers: _ } = self;
        let Some(first) = seats.pop() else {
            unreachable!()
        };
        let token = gather(&table.shared, first, seats);
        take_back(table, token)
    }
}
