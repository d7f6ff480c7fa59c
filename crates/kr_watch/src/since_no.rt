//! Why there are no changes since a revision.

/// Why the changes since a revision aren't told.
#[derive(Clone, Copy, Debug, PartialEq, Eq)]
pub enum SinceNo {
    /// Changes above it may have been dropped: what is kept begins behind this revision.
    Gone {
        /// The revision of the last change that was dropped, or the opening's where none was.
        oldest: u64,
    },
    /// There is no such revision yet.
    Ahead {
        /// The revision of the last change, or the opening's where there was none.
        newest: u64,
    },
    /// There was no memory for the changes.
    NoMemory,
}
