//! The plan of a rollout: the reloads and the rewrite that bring all replicas from one
//! configuration to another, and the settings between the two.
#![tactic(auto)]

mod clash;
mod laws;
mod limits;
mod merging;
mod moves;
pub mod planning;
mod refusal;

pub use laws::{lists_are_merged, planned_reloads_pass};
pub use moves::{Move, Phase, Plan};
pub use refusal::PlanNo;
