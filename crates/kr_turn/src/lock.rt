//! The steps of one turn.
ghost use Rattle.std.specs.Prelude.{◌≡◌, ◌+◌, ◌-◌, ◌<◌, ◌^◌, [], ◌∷◌, ◌++◌, length, Some, None};
ghost use Rattle.kr_turn.specs.declared.view.Stage.TheVariants.{Idle, Waiting, Holding};
ghost use Rattle.kr_turn.specs.declared.view.Terms.{Terms};
ghost use Rattle.kr_base.specs.Lines.{of_seat};
ghost use Rattle.kr_turn.specs.Lines.{IsTurn};
ghost use Rattle.kr_turn.specs.Keys.{seat_budget};
ghost use Rattle.kr_turn.specs.inner.Steps.{waiting_view, IsServed, IsTurned, carried_lines};
ghost use Rattle.kr_turn.specs.inner.Steps.{view_after};
ghost use Rattle.kr_turn.specs.inner.Tokens.{IsSized, resting_token};

use crate::rule::{About, Draw, Look, PassOn, TurnRule};
use crate::sleepers::{Pause, Sleepers};
use crate::turned::Turned;
use crate::view::View;
use atomic_table::Shared;
use std::sync::Wait;

/// The shared part of a lock's table.
pub(crate) type Lock<S: Turned> = Shared<Option<S>, View<S::Line, S::Ground>, About<S>, TurnRule>;

/// The token of a seat of that table.
pub(crate) type Token<S: Turned> = atomic_table::Seat<Option<S>, View<S::Line, S::Ground>>;

/// Draws a ticket. There is one, since a seat that has a turn left draws fewer than the budgets'
/// sum.
fn draw<S: Turned>(lock: &Lock<S>, token: &mut Token<S>) -> u64
    requires lock { (token.old.table_id ≡ lock.now.table_id) × IsSized lock.now.table_id }
    requires idle { (token.old.me.0.stage ≡ Idle) × (token.old.me.0.ended ≡ [])
        × (token.old.me.1 ≡ []) × (0 < token.old.me.0.left) }
    ensures lock { (token.new.table_id ≡ token.old.table_id) × (token.new.id ≡ token.old.id) }
    ensures drew { token.new.me ≡ (waiting_view token.old.me.0 result, []) }
    ensures small { result + 1 < 2 ^ 64 }
{
    lock.fetch_add::<Draw>(token, 0, 1)
}

/// Looks until the ticket is served. Between two looks it spins or sleeps.
fn wait<S: Turned, R: Wait>(
    rt: &R,
    lock: &Lock<S>,
    sleepers: &Sleepers,
    token: &mut Token<S>,
    ticket: u64,
)
    requires lock { (token.old.table_id ≡ lock.now.table_id) × IsSized lock.now.table_id }
    requires waits { (token.old.me.0.stage ≡ Waiting ticket) × (token.old.me.1 ≡ []) }
    ensures lock { (token.new.table_id ≡ token.old.table_id) × (token.new.id ≡ token.old.id) }
    ensures served { IsServed S.lines S.basis S.room S.seat_of ticket token.old.me token.new.me }
{
    let mut pause = Pause::Spin(0);
    for _ in rt.forever() {
        let served = lock.load::<Look>(token, 1);
        if served == ticket {
            return;
        }
        pause = sleepers.pass_time(rt, ticket, served, pause);
    }
    unreachable!()
}

/// Gives the slot back, with the state after the turn, and serves the next ticket.
fn release_turn<S: Turned>(lock: &Lock<S>, token: &mut Token<S>, ticket: u64)
    requires lock { (token.old.table_id ≡ lock.now.table_id) × IsSized lock.now.table_id }
    requires small { ticket + 1 < 2 ^ 64 }
    requires turned { IsTurned S.lines S.basis S.room S.seat_of ticket token.old.me }
    ensures lock { (token.new.table_id ≡ token.old.table_id) × (token.new.id ≡ token.old.id) }
    ensures passed { token.new.me
        ≡ (view_after token.old.me.0 (carried_lines S.lines token.old.me.1), []) }
{
    lock.store::<PassOn>(token, 1, ticket + 1);
}

/// Makes one turn with the token of a seat of this number, which has a turn left.
pub(crate) fn take_turn<S: Turned, R: Wait>(
    rt: &R,
    lock: &Lock<S>,
    sleepers: &Sleepers,
    token: &mut Token<S>,
    number: u32,
    event: S::Event,
) -> S::Answer
    requires lock { (token.old.table_id ≡ lock.now.table_id) × IsSized lock.now.table_id }
    requires rests { token.old ≡ resting_token token.old number token.old.me.0.left }
    requires left { 0 < token.old.me.0.left }
    requires may { (terms : Terms S.Ground) → token.old.me.0.terms ≡ Some terms
        → S.may terms.basis number token.old.me.0.mine event }
    ensures lock { (token.new.table_id ≡ token.old.table_id) × (token.new.id ≡ token.old.id) }
    ensures rests { token.new ≡ resting_token token.new number (token.old.me.0.left - 1) }
    ensures terms { token.new.me.0.terms ≡ token.old.me.0.terms }
    ensures acted { (terms : Terms S.Ground) → token.old.me.0.terms ≡ Some terms
        → IsTurn S.seat_of S.law S.tells terms.basis number event result
        token.old.me.0.seen token.old.me.0.mine token.new.me.0.seen token.new.me.0.mine }
{
    let ticket = draw(lock, token);
    wait(rt, lock, sleepers, token, ticket);
    let mut state = lock.exchange(token, 0, None).unwrap();
    let answer = state.turn(number, event);
    let taken = lock.exchange(token, 0, Some(state));
    let None = taken else { unreachable!() };
    release_turn(lock, token, ticket);
    sleepers.wake_next(ticket);
    answer
}
