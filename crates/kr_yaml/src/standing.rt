//! What stands so far.
ghost use Rattle.std.specs.Prelude.{◌≤◌, length};

use crate::open::OpenNode;
use crate::tree::Tree;

/// The nodes that are open, the outermost first, and what stands in the innermost.
#[derive(Drop)]
pub struct Standing {
    /// The open nodes.
    pub nodes: Vec<OpenNode>,
    /// A value in the innermost, if there is one yet.
    pub value: Option<Tree>,
    ghost few: { length nodes.items ≤ 16 },
}
