//! Why a token wasn't put.

/// Why a token wasn't put.
#[derive(Clone, Copy)]
pub enum PlaceError {
    /// It can't go on with the tree.
    Indent,
    /// Its key stands in its mapping already.
    DuplicateKey,
    /// It is more than 16 levels of lists and mappings deep.
    Deep,
    /// There was no memory.
    NoMemory,
}
