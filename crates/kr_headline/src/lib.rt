//! The headline of a fleet.
#![tactic(auto)]

mod laws;

pub use laws::{
    each_is_wrong, each_seal_is_wrong, each_step_is_wrong, got_was_put, headline_holds,
    nothing_supposed, refused_stood_there, seeds_alone_supposed,
};
