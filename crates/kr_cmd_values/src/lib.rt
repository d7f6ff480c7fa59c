//! The commands `check`, `inspect`, `encrypt`, `decrypt` and `plan`.
#![tactic(auto)]

pub mod check;
mod clash_text;
pub mod convert;
pub mod inspect;
mod listing;
mod plan_lines;
mod rollout;

pub use rollout::plan;
