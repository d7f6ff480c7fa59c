//! What a fleet file says.
ghost use Rattle.std.specs.Prelude.{◌≡◌};
ghost use Rattle.kr_script.specs.Rules.{is_long};

use kr_base::{Bytes, DATA_LIMIT, List, Text};

/// A line of a worker. Replicas are named by their numbers, from 0.
#[derive(Drop)]
pub enum ScriptLine {
    /// Write the data under the path, as an object of the resource.
    Put {
        resource: Text,
        path: Text,
        plain: Bytes,
    },
    Get {
        path: Text,
    },
    Delete {
        path: Text,
    },
    /// Rewrite all that is stale, from the first path on.
    Rewrite,
    /// Give the replica the configuration in the file.
    Reload {
        replica: u32,
        file: Text,
    },
    /// Publish the configuration of the worker's replica anew, where a plugin has another key.
    Refresh,
    /// Take a replica in, with the configuration in the file.
    Join {
        replica: u32,
        file: Text,
    },
    /// Take the replica out.
    Leave {
        replica: u32,
    },
}

impl ScriptLine {
    /// Whether its object has more data than an object may have.
    pub(crate) fn is_long(&self) -> bool
        ensures { result ≡ is_long self.now }
    {
        match self {
            ScriptLine::Put { plain, .. } => plain.as_slice().len() as u64 > DATA_LIMIT,
            _ => false,
        }
    }
}

/// A worker at a replica, with the lines that it does in order.
#[derive(Drop)]
pub struct Part {
    pub name: Text,
    pub replica: u32,
    pub lines: List<ScriptLine>,
}

/// What a fleet file says. A replica is its name and its file; the file `-` says that it isn't in
/// at the opening.
#[derive(Drop)]
pub struct Script {
    pub replicas: List<(Text, Text)>,
    pub workers: List<Part>,
}

/// Why a fleet file isn't read.
#[derive(Clone, Copy)]
pub enum ScriptNo {
    /// The line, counted from 1, can't stand there; the line behind the last one where a replica or
    /// a worker is missing.
    Breach { line: u64 },
    /// There is a 17th replica.
    Replicas,
    /// There is a 65th worker.
    Workers,
    /// An object has more than 2,097,152 bytes of data.
    TooLarge,
    NoMemory,
}
