//! The workers of a fleet: each does the lines of its part of a fleet file at a core that all of
//! them act on, and tells a reply of each line.
#![tactic(auto)]

mod budget;
mod ending;
mod files;
mod laws;
mod line;
mod lines;
mod team;
mod told;
mod worker;
mod workers;

pub use budget::{BudgetNo, Budgets, script_budgets};
pub use ending::{Ending, gravest_ending};
pub use files::{SettingsFile, file_settings};
pub use laws::{
    endings_are_told, gets_tell_content, honest_of_plugins, parts_have_shape, replies_are_true,
    replies_have_causes, workers_hold_their_keys,
};
pub use team::run_fleet;
pub use worker::Worker;
