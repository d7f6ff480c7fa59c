//! The command `gen`: a fleet that a seed and a size make, and what readers take from its relation.
#![tactic(auto)]

mod laws;
mod loads;

pub use laws::{each_load_is_wrong, loads_are_read, loads_have_headlines};
pub use loads::load;
