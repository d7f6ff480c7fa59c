//! Tests of the crates of formats and plugins as their callers use them, beside test_leaf, so
//! that neither takes long to prove.
#![tactic(auto)]

#[cfg(test)]
mod tests;
