//! Trees.
use kr_base::{List, Text};

/// What a text of the profile says.
#[cycle(tree)]
#[derive(Drop)]
pub enum Tree {
    /// Nothing, `null` or `~`.
    Null,
    /// A scalar.
    Word(Text),
    /// A list.
    Items(List<Tree>),
    /// A mapping, in the order of the text.
    Members(List<Member>),
}

/// A member of a mapping.
#[cycle(tree)]
#[derive(Drop)]
pub struct Member {
    /// Its key, which no other member of the mapping has.
    pub key: Text,
    /// Its value.
    pub value: Tree,
}
