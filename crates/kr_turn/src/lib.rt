//! A ticket lock round one state, under which the turns of many seats make one history.
//!
//! Each seat may make a number of turns, its budget. A seat draws a ticket, waits until it is
//! served, takes the state out of the lock's slot, turns it, puts it back and passes on. What a
//! seat saw of the history is a beginning of the one history that the state has in the end, in
//! which the seat's own lines stand once and in their order. Calls over such a state are called
//! linearizable; what is proved of them is the one history, and that each turn is answered from the
//! state that the lines before its own leave. Nothing is said of waiting: not that a turn is ever
//! got, nor that it is got in a fair order.
#![tactic(auto)]

mod ending;
mod lock;
mod opening;
mod rule;
mod seat;
mod sleepers;
mod turn;
mod turned;
mod view;

pub use seat::{Place, Seat};
pub use turn::Turn;
pub use turned::Turned;
