//! The rule of the lock, and its steps.
ghost use Rattle.std.specs.Prelude.{◌≡◌, ℕ};

use crate::turned::Turned;
use crate::view::View;
use atomic_table::{Join, Play, Split, TableRule};

/// What the table is told once. It has the state itself, so that the rule knows its ground and room
/// from the start; the state is taken out again and put into the slot.
pub struct About<S> {
    /// The state before any line.
    pub state: S,
    /// How many turns each seat may make, by its number.
    pub budgets: Vec<u64>,
}

/// The rule of the lock.
pub struct TurnRule;

impl<S: Turned> TableRule<Option<S>, View<S::Line, S::Ground>, About<S>> for TurnRule {
    ghost use Rattle.kr_turn.specs.inner.Rule.{KeepsRule, blank_view};
    ghost use Rattle.kr_turn.specs.Keys.{terms_of};

    ghost holds = { λ key.
        KeepsRule S.lines S.basis S.room S.seat_of (terms_of S.basis S.room key) };

    ghost first = { λ key. blank_view (terms_of S.basis S.room key) };
}

/// The first seat takes the empty slot.
pub(crate) struct Empty;

impl<S, L, G> Play<Option<S>, View<L, G>> for Empty {
    ghost use Rattle.kr_turn.specs.inner.Steps.{Empties};

    ghost then = { Empties };
}

/// The first seat gives the slot with the state in it, and is the seat of number 0.
pub(crate) struct Fill;

impl<S, L, G> Play<Option<S>, View<L, G>> for Fill {
    ghost use Rattle.kr_turn.specs.inner.Steps.{Fills};

    ghost then = { Fills };
}

/// A seat draws a ticket.
pub(crate) struct Draw;

impl<S, L, G> Play<Option<S>, View<L, G>> for Draw {
    ghost use Rattle.kr_turn.specs.inner.Steps.{Draws};

    ghost then = { Draws };
}

/// A seat looks which ticket is served, and takes the slot where it is its own.
pub(crate) struct Look;

impl<S: Turned> Play<Option<S>, View<S::Line, S::Ground>> for Look {
    ghost use Rattle.kr_turn.specs.inner.Steps.{Looks};

    ghost then = { Looks S.lines S.basis S.room S.seat_of };
}

/// The served seat gives the slot back and serves the next ticket.
pub(crate) struct PassOn;

impl<S: Turned> Play<Option<S>, View<S::Line, S::Ground>> for PassOn {
    ghost use Rattle.kr_turn.specs.inner.Steps.{Passes};

    ghost then = { Passes S.lines };
}

/// The seat that makes seats leaves its number to a new one, and goes on with the next number.
pub(crate) struct Make;

impl<L, G> Split<View<L, G>> for Make {
    ghost use Rattle.kr_turn.specs.inner.Steps.{next_of, new_of};

    ghost left = { next_of };

    ghost right = { new_of };
}

/// A seat ends in another.
pub(crate) struct End;

impl<L, G> Join<View<L, G>> for End {
    ghost use Rattle.kr_turn.specs.inner.Rule.{gone_view};
    ghost use Rattle.kr_turn.specs.inner.Steps.{joined_view};

    ghost both = { joined_view };

    ghost spent = { gone_view };
}
