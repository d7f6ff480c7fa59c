//! What a history begins with, and its entries, for contracts alone: no value of these types is
//! made.

use crate::line::Line;
use kr_base::Text;
use kr_provider::Published;
use kr_store::{Format, LogRow, Row};
use std::collections::LinkedList;

/// What a core was started with.
pub struct Opening {
    /// How the store's file is written.
    pub format: Format,
    /// The store's rows, in the order written.
    pub rows: LinkedList<LogRow>,
    /// The configurations of the replicas, of those that are in.
    pub replicas: LinkedList<Option<Published>>,
    /// The names of the plugins that configurations may name.
    pub names: LinkedList<Text>,
    /// How many configurations each seat may bring, by its number. There are as many seats.
    pub reloads: LinkedList<u32>,
    /// The most bytes that the store's file may have.
    pub limit: u64,
    /// How often the store's tape had failed.
    pub count: u64,
    /// Whether a write had failed since the last one that was done.
    pub torn: bool,
}

/// A line of the journal with what it names.
pub struct Entry {
    pub line: Line,
    /// The configuration of the generation that the seat held when the event began, or else of the
    /// one that it adopted.
    pub published: Option<Published>,
    /// The row that was found or written, where it puts a value.
    pub row: Option<Row>,
    /// The row that was to be replaced.
    pub replaced: Option<Row>,
}
