//! What seats ask of the core.

use kr_base::{Bytes, Shared, Text};
use kr_provider::Published;

/// What a seat asks of the core, one thing at a time.
#[derive(Drop)]
pub enum Event {
    /// Take the replica's current generation, which the seat then holds.
    Adopt {
        replica: u32,
    },
    /// Find the live row of the path.
    Fetch {
        path: Text,
    },
    /// Find the live row with the least path above this one, which may be empty.
    After {
        path: Text,
    },
    /// Put the plain data, sealed by the generation that the seat holds, under the path, as an
    /// object of the resource.
    Put {
        path: Text,
        resource: Text,
        plain: Bytes,
        stored: Bytes,
    },
    /// Delete the path's live row.
    Delete {
        path: Text,
    },
    /// Put the data of the row that the seat found last, sealed anew by the generation that it
    /// holds, in the place of that row, where it is still the path's last one.
    Replace {
        path: Text,
        revision: u64,
        stored: Bytes,
    },
    /// Let the generation go that the seat holds.
    LetGo,
    /// Give a replica that is in another configuration, where its current generation is the
    /// expected one; any, where none is expected.
    Reload {
        replica: u32,
        published: Shared<Published>,
        expect: Option<u32>,
    },
    /// Give a replica that isn't in a configuration.
    Join {
        replica: u32,
        published: Shared<Published>,
    },
    /// Take the replica's current generation away, which is live from then on only where a seat
    /// holds it.
    Leave {
        replica: u32,
    },
}
