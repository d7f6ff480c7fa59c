//! The core of a rollout: seats ask one thing at a time of a store and of the configurations of
//! some replicas, and each is one line of one journal. The journal is a legal history, by which the
//! core's state is known.
#![tactic(auto)]

mod answer;
mod event;
mod journal;
mod judgement;
mod laws;
mod line;
mod membership;
mod opening;
mod published;
mod rollout;
mod start;
mod writing;

pub use answer::Answer;
pub use event::Event;
pub use journal::Core;
pub use laws::{board_at_start, found_is_there, front_is_legal, holding_is_held, unfit_is_unfit};
pub use line::{Did, Effect, Gave, Line};
pub use opening::{Entry, Opening};
