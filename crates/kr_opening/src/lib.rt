//! What a core starts with: the board of a store's rows and of the replicas' settings, and what is
//! kept of its replicas and seats.
#![tactic(auto)]

mod check;
mod generation;
mod laws;
mod opening_board;
pub mod start_parts;

pub use check::store_check;
pub use generation::Generation;
pub use laws::judges_replicas;
pub use opening_board::{StartNo, is_refusal, make_opening_board};
