//! What calls answer.

use kr_base::Bytes;
use kr_judge::Verdict;

/// What `read` found.
#[derive(Drop)]
pub enum Read {
    /// There is nothing at the path.
    Absent,
    /// The data at the path.
    Value {
        /// That of the row that holds them.
        revision: u64,
        plain: Bytes,
        /// Whether the value should be written anew, by the adopted configuration.
        stale: bool,
    },
}

/// What `reload` and `refresh` did.
#[derive(Drop)]
pub enum Loaded {
    /// The replica has this new generation.
    Generation(u32),
    /// The configuration is refused, for this first reason.
    Refused(Verdict),
    /// The replica's current generation isn't the adopted one, but this.
    Moved(u32),
    /// No plugin tells another key id than that with which this adopted generation was published.
    Unchanged(u32),
}
