//! The command `rewrite`, over a store.
#![tactic(auto)]

mod rewriting;

pub use rewriting::rewrite;
