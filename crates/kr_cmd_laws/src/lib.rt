//! What readers take from the relation of a command that was done alone, that it ends in one
//! result, what it leaves of the tapes, what plugins see of it, what readers take from the relation
//! of a fleet, its headline, what a printed plan promises, and what `verify` tells of `get` and
//! `rewrite`.
#![tactic(auto)]

mod commands;
mod draws;
mod fleet_plugins;
mod fleets;
mod headlines;
mod plans;
mod plugins;
mod results;
mod verifications;

pub use commands::{commands_are_read, tapes_are_left};
pub use draws::told_draws;
pub use fleet_plugins::{
    lines_ask, lines_wrap_drawn, starts_ask_seeds, starts_make_seeds, stopped_starts_ask,
    watches_ask,
};
pub use fleets::fleets_are_read;
pub use headlines::{each_run_is_wrong, runs_have_headlines};
pub use plans::plans_are_printed;
pub use plugins::plugins_see;
pub use results::{all_is_told, complete, one_result};
pub use verifications::{rewrites_leave_none, verified_runs, verify_tells_gets};
