//! The commands of kmsrest over any world, input and outputs.
#![tactic(auto)]

mod call;
mod team;

pub use call::{run, run_alone};
pub use kr_kms::{FileNo, MemWorld, World};
