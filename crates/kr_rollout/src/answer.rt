//! What the core answers.

use kr_base::Shared;
use kr_judge::Verdict;
use kr_provider::Published;
use kr_store::Row;

/// What the core answers to an event. After `NoMemory` the core is as before, but for its journal.
#[derive(Drop)]
pub enum Answer {
    /// The seat now holds this generation, of this configuration.
    Adopted {
        generation: u32,
        published: Shared<Published>,
    },
    /// The replica has no current generation.
    Gone {
        replica: u32,
    },
    /// The live row. It is shared, not copied.
    Found(Shared<Row>),
    /// There is no such row.
    Absent,
    /// The row was written, with this revision.
    Written {
        revision: u64,
    },
    /// The path's last row is this one; 0 where it has none.
    Changed {
        revision: u64,
    },
    /// The store's tape failed. The rows are as before.
    StoreFailed,
    /// The store's file would have so many bytes. The rows are as before.
    StoreFull {
        needed: u64,
    },
    /// The seat holds nothing any more.
    Released,
    /// The replica has this current generation, of the configuration that it was given.
    Reloaded {
        generation: u32,
    },
    /// The same, of a replica that had none.
    Joined {
        generation: u32,
    },
    /// The configuration is refused, for this first reason. All is as before.
    Refused(Verdict),
    /// The replica's current generation isn't the expected one, but this.
    Moved {
        generation: u32,
    },
    /// The replica has this current generation already.
    Present {
        generation: u32,
    },
    /// The replica had this current generation, and has none any more.
    Departed {
        generation: u32,
    },
    /// There was no memory.
    NoMemory,
}
