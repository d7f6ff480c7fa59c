//! A seat of a turn.
ghost use Rattle.std.specs.Prelude.{◌≡◌, ◌+◌, length};
ghost use Rattle.kr_turn.specs.Keys.{seat_budget};
ghost use Rattle.kr_turn.specs.inner.Tokens.{resting_token};

use crate::turned::Turned;
use crate::view::View;

/// A seat, at the types of the state, the lines and the ground. It may go to another thread. It may
/// be dropped where a state may; the lock of a dropped seat can't be closed.
#[derive(Drop)]
pub struct Place<S, L, G> {
    pub(crate) token: atomic_table::Seat<Option<S>, View<L, G>>,
    pub(crate) number: u32,
    pub(crate) left: u64,
    pub ghost rests: { token ≡ resting_token token number left },
    pub ghost counted: { length token.me.0.mine + left ≡ seat_budget token.me.0.terms number },
}

/// A seat of a turn over the state `S`.
pub type Seat<S: Turned> = Place<S, S::Line, S::Ground>;

impl<S, L, G> Place<S, L, G> {
    ghost use Rattle.kr_turn.specs.Seats.{number_of, left_of};

    /// Which of the turn's seats this is.
    pub fn number(&self) -> u32
        ensures { result ≡ number_of self.now }
    {
        self.number
    }

    /// How many turns it may still make.
    pub fn left(&self) -> u64
        ensures { result ≡ left_of self.now }
    {
        self.left
    }
}
