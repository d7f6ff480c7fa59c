//! A store of values under paths, as a file to which rows are only appended.
#![tactic(auto)]

mod answers;
mod encode;
mod format;
mod index;
mod kept_row;
mod laws;
mod limits;
mod load;
mod log;
mod reader;
mod rows;
mod store;
mod stored;
mod write;

pub use answers::{PutNo, StoreNo};
pub use format::{Check, Format};
pub use laws::{one_breach, one_file, one_listing, one_row, some_answer};
pub use rows::{Change, LogRow, Row, RowRef};
pub use store::Store;
pub use stored::Stored;
