//! Tests of the commands as a user meets them, over a world in memory. They cross crates, so they
//! stand above all libraries, in a crate of their own.
#![tactic(auto)]

#[cfg(test)]
mod tests;
