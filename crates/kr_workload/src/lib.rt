//! The load that `gen` generates of a seed and a size: its fleet, its configurations, its workers'
//! random sources, and the summary of what the workers told.
#![tactic(auto)]

mod configurations;
mod digest;
mod ending;
mod laws;
mod lists;
mod load;
mod pieces;
mod script;
mod stream;
mod summary;

pub use ending::ending_of_load;
pub use laws::{loads_are_full, loads_keep_rules, puts_are_kept, summaries_are_one};
pub use load::{Load, generate_load};
pub use stream::{StreamDice, worker_dice};
pub use summary::write_summary;
