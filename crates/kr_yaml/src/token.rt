//! The tokens of the code.
use crate::tree::Tree;
use kr_base::Text;

/// A token of a line. Its column is the number of bytes before it.
#[derive(Drop)]
pub enum LineToken {
    /// A `-` that begins an item.
    Dash {
        /// Its column.
        column: usize,
    },
    /// A key and its `:`.
    Pair {
        /// Its column.
        column: usize,
        /// The key.
        key: Text,
        /// The value on its line.
        value: Option<Tree>,
    },
    /// A scalar or a flow value.
    Leaf {
        /// Its column.
        column: usize,
        /// What it says.
        value: Tree,
    },
}
