//! Plugins that wrap and unwrap seeds, as the crates above see them: a link to a plugin and what it
//! answers; seeds, which links make and a cache keeps; and the world that a command runs in, which
//! gives files, and lends tapes, random sources and links. Of a seed the key of each value is
//! derived, the data encryption key (DEK); the plugin's key is the key encryption key (KEK).
#![tactic(auto)]

mod cache;
mod file_faults;
mod health;
mod laws;
mod mem_world;
mod plugin;
mod seeds;
mod shelf;
mod table_plugin;
mod world;

pub use cache::SeedCache;
pub use file_faults::FileFaults;
pub use health::{Field, SeedNo, healthy_key_id};
pub use laws::{fetched_seeds_open, keys_are_told_apart, made_seeds_open, tables_agree};
pub use mem_world::MemWorld;
pub use plugin::{Kms, KmsNo, Status, Wrapped, WrappedRef, is_within_limits};
pub use seeds::{SeedKey, SeedRow, make_seed};
pub use shelf::{Shelf, name_place, plugin_place};
pub use table_plugin::TablePlugin;
pub use world::{Access, FileNo, World, WorldCall};
