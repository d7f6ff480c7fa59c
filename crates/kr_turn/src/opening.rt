//! How a lock and its seats are made.
ghost use Rattle.std.specs.Prelude.{◌≡◌, ◌+◌, ◌<◌, ◌≤◌, [], length, Some};
ghost use Rattle.kr_turn.specs.inner.Rule.{blank_view};
ghost use Rattle.kr_turn.specs.Keys.{terms_of, home_of, seat_budget};
ghost use Rattle.kr_turn.specs.Seats.{AreFresh};
ghost use Rattle.kr_turn.specs.inner.Steps.{maker};
ghost use Rattle.kr_turn.specs.inner.Tokens.{IsSized, resting_token};

use crate::lock::{Lock, Token};
use crate::rule::{Empty, Fill, Make};
use crate::seat::{Place, Seat};
use crate::turned::Turned;
use crate::view::View;
use kr_base::List;

/// Puts the state into the empty slot. The token is then that of the seat of number 0, which makes
/// the others.
pub(crate) fn fill<S: Turned>(lock: &Lock<S>, token: &mut Token<S>, state: S)
    requires lock { (token.old.table_id ≡ lock.now.table_id) × IsSized lock.now.table_id }
    requires first { token.old.me ≡ (blank_view (terms_of S.basis S.room lock.now.key), []) }
    requires state { (S.lines state ≡ []) × (lock.now.key.state ≡ state) }
    requires some_budget { 0 < length lock.now.key.budgets.items }
    ensures lock { token.new.table_id ≡ token.old.table_id }
    ensures filled { token.new.me ≡ (maker (Some (terms_of S.basis S.room lock.now.key)) 0, []) }
{
    lock.load::<Empty>(token, 0);
    let taken = lock.exchange(token, 0, Some(state));
    let None = taken else { unreachable!() };
    lock.load::<Fill>(token, 0);
}

/// A seat from its token.
fn sit<S, L, G>(
    token: atomic_table::Seat<Option<S>, View<L, G>>,
    number: u32,
    left: u64,
) -> Place<S, L, G>
    requires rests { token ≡ resting_token token number left }
    requires counted { length token.me.0.mine + left ≡ seat_budget token.me.0.terms number }
    ensures { (result.token ≡ token) × (result.number ≡ number) × (result.left ≡ left) }
{
    Place {
        token,
        number,
        left,
    }
}

/// Makes one seat for each budget, by its number.
pub(crate) fn make_seats<S: Turned>(
    lock: &Lock<S>,
    mut token: Token<S>,
    budgets: &[u64],
    seats: &mut List<Seat<S>>,
)
    requires lock { (token.table_id ≡ lock.now.table_id) × IsSized lock.now.table_id }
    requires budgets { (lock.now.key.budgets.items ≡ budgets.now)
        × (0 < length budgets.now) × (length budgets.now ≤ 64) }
    requires maker { token.me ≡ (maker (Some (terms_of S.basis S.room lock.now.key)) 0, []) }
    requires room { (seats.old.0 ≡ []) × (length budgets.now ≤ seats.old.1) }
    ensures { AreFresh (home_of S.basis S.room lock.now.table_id lock.now.key)
        (length budgets.now) seats.new.0 }
{
    let last = budgets.len() - 1;
    for number in 0..last {
        let next = lock.split_seat::<Make>(&mut token);
        seats.push_in_room(sit(next, number as u32, budgets[number]));
    }
    seats.push_in_room(sit(token, last as u32, budgets[last]));
}
