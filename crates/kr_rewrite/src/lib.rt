//! The rewrite: each live value that should be written anew is, one step for each path, in the
//! order of paths. A step is a call of its own over any caller of a core.
#![tactic(auto)]

mod driving;
mod laws;
mod outcome;
mod row;
mod step;

pub use driving::drive;
pub use laws::{drives_agree, drives_need_few, steps_agree};
pub use outcome::{Report, Step};
pub use step::rewrite_next;
