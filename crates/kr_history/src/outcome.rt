//! What events with several good answers come to.

use kr_judge::Verdict;

/// What `replace` did.
#[derive(Drop)]
pub enum Replacing {
    /// The row was replaced by one with this revision.
    Written(u64),
    /// The path's last row isn't the one that was to be replaced, but has this revision.
    Changed(u64),
}

/// What `reload` did.
#[derive(Drop)]
pub enum Reloading {
    /// The replica has this new generation.
    Generation(u32),
    /// The configuration is refused, for this first reason.
    Refused(Verdict),
    /// The replica's current generation isn't the expected one, but this.
    Moved(u32),
}

/// What `join` did.
#[derive(Drop)]
pub enum Joining {
    /// The replica has this new generation.
    Generation(u32),
    /// The configuration is refused, for this first reason.
    Refused(Verdict),
    /// The replica has this current generation already.
    Present(u32),
}
