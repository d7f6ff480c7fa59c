//! Tests of a core with several seats, by a list of their events, and of two callers of one fleet
//! in threads of their own, of which one's plugin waits for the other one's read. They stand in a
//! crate of their own, so that the fleet isn't proved a second time.
#![tactic(auto)]

#[cfg(test)]
mod tests;
