//! Laws of a planned rollout, over the states of a rollout.
#![tactic(auto)]

mod laws;
mod laws_keys;
mod laws_live;
mod laws_moves;
mod laws_pass;
mod laws_rewrite;
mod laws_whole;

pub use laws::{planned_reloads_are_not_refused, rounds_follow};
pub use laws_keys::{keys_stay, rewrite_leaves_keys};
pub use laws_live::{rounds_are_kept, rounds_may_come, settled_stays};
pub use laws_moves::moves_lead;
pub use laws_pass::{pass_is_of_its_moment, pass_means_read, pass_then_loss};
pub use laws_rewrite::{rewrite_serves_plan, rewrite_settles};
pub use laws_whole::{old_keys_may_go, plan_example, plans_come_to_their_end};
