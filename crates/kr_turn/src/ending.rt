//! How a lock ends.
ghost use Rattle.std.specs.Prelude.{◌≡◌, ◌<◌, [], length, map, Some, All};
ghost use Rattle.kr_turn.specs.declared.view.Stage.TheVariants.{Idle};
ghost use Rattle.kr_turn.specs.inner.Endings.{Covers, IsEnd, IsGathered};
ghost use Rattle.kr_turn.specs.Keys.{terms_of};
ghost use Rattle.kr_base.specs.Lines.{Stands, of_seat};
ghost use Rattle.kr_turn.specs.inner.Tokens.{IsSized};

use crate::lock::{Lock, Token};
use crate::rule::{About, End, TurnRule};
use crate::seat::{Place, Seat};
use crate::turned::Turned;
use crate::view::View;
use atomic_table::Table;
use kr_base::List;
use std::alloc::Global;

/// Joins all seats to the first.
pub(crate) fn gather<S: Turned>(
    lock: &Lock<S>,
    first: Seat<S>,
    mut seats: List<Seat<S>>,
) -> Token<S>
    requires lock { (first.token.table_id ≡ lock.now.table_id) × IsSized lock.now.table_id }
    requires seats { All (λ seat. seat.token.table_id ≡ lock.now.table_id) seats.0 }
    ensures lock { result.table_id ≡ lock.now.table_id }
    ensures gathered { IsGathered first seats.0 [] result.me }
{
    let Place {
        mut token,
        number: _,
        left: _,
    } = first;
    while let Some(seat) = seats.pop() {
        let Place {
            token: ending,
            number: _,
            left: _,
        } = seat;
        lock.join_seat::<End>(&mut token, ending);
    }
    seats.end();
    token
}

/// Ends the table and gives the state.
pub(crate) fn take_back<S: Turned>(
    table: Table<Option<S>, View<S::Line, S::Ground>, About<S>, TurnRule, Global>,
    token: Token<S>,
) -> S
    requires table { (token.table_id ≡ table.shared.table_id) × IsSized table.shared.table_id }
    requires rests { token.me.0.stage ≡ Idle }
    requires all { Covers (terms_of S.basis S.room table.shared.key) token.me.0 }
    ensures { IsEnd S.lines S.basis S.room S.seat_of
        (terms_of S.basis S.room table.shared.key) token.me.0 result }
{
    let mut closed = table.close_with(token);
    let state = closed.take(0).unwrap();
    closed.free();
    state
}
