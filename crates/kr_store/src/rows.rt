//! Rows: a put as it is handed out, and each row as the file has it.
use crate::format::Check;
use crate::stored::Stored;
use kr_base::Text;
use kr_paths::Path;

/// A value that was put for a resource at a path, with its revision: the number of its row, from 1.
/// A store of the first format has no checks.
#[derive(Drop)]
pub struct Row {
    pub path: Path,
    pub resource: Text,
    pub revision: u64,
    pub stored: Stored,
    pub check: Option<Check>,
}

/// A row of a store, lent: a put, or a delete by its path.
#[derive(Clone, Copy)]
pub enum RowRef<'a> {
    Put(&'a Row),
    Delete(&'a str),
}

/// What a row does at its path.
#[derive(Drop)]
pub enum Change {
    /// It puts a value for a resource.
    Put {
        resource: Text,
        stored: Stored,
        check: Option<Check>,
    },
    /// It deletes what was there.
    Delete,
}

/// A row of the file. Its revision is its place, from 1.
#[derive(Drop)]
pub struct LogRow {
    pub path: Text,
    pub change: Change,
}
