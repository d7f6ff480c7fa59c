//! Tests of the lower crates as their callers use them. They stand in a crate of their own, so that
//! none of those crates is proved a second time.
#![tactic(auto)]

#[cfg(test)]
mod tests;
