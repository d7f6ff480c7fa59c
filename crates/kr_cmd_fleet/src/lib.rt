//! The command `fleet`, whose workers wait for each other: what it begins with (its plan, and an
//! outfit for each worker), and what any fleet is run by.
#![tactic(auto)]

mod crew;
pub mod fleet;
mod fleet_file;
mod outfit;
mod watch_start;

pub use crew::{Crew, hire};
pub use fleet_file::{LoadedFleet, NO_FILE, load_plan};
pub use outfit::{Outfit, close_outfits, open_outfits};
pub use watch_start::WatchStart;
