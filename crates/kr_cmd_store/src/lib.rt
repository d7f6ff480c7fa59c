//! The commands over a store that change or read single objects, or show, read or copy it: `put`,
//! `get`, `judge`, `list`, `verify` and `migrate`.
#![tactic(auto)]

mod finding_lines;
pub mod judge;
mod lookup;
mod migration;
mod reading;
mod replicas;
mod row_lines;
mod rows;
mod storing;
mod verdict_line;
mod verifying;

pub use lookup::get;
pub use migration::migrate;
pub use rows::list;
pub use storing::{answer_once_added, put, store_check};
pub use verifying::verify;
