//! Numbers at paths, in the order of the paths. A path is shared with whoever else holds it.
#![tactic(auto)]

mod part;
mod path;
mod path_map;
mod spot;

pub use path::Path;
pub use path_map::PathMap;
