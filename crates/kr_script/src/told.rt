//! What workers tell of their lines.

use kr_base::{Bytes, Text};
use kr_judge::Verdict;
use kr_kms::Field;
use kr_provider::ValueNo;

/// What a worker tells of a line that it did.
#[derive(Drop)]
pub enum Told {
    Put {
        revision: u64,
    },
    Got {
        revision: u64,
        plain: Bytes,
    },
    Deleted {
        revision: u64,
    },
    /// There is no such object.
    Absent,
    /// How many objects a rewrite found stale and sealed anew, found fresh, found changed since,
    /// and had to leave.
    Rewritten {
        rewritten: u64,
        fresh: u64,
        changed: u64,
        left: u64,
    },
    Reloaded {
        generation: u32,
    },
    Joined {
        generation: u32,
    },
    /// The replica is in already.
    Present {
        generation: u32,
    },
    /// The replica was taken out, with this generation.
    Left {
        generation: u32,
    },
    /// The replica isn't in.
    Gone,
    /// The configuration may not be taken up.
    Refused {
        verdict: Verdict,
    },
    Refreshed {
        generation: u32,
    },
    /// No plugin has another key.
    Unchanged,
    /// The replica got another generation meanwhile.
    Moved {
        generation: u32,
    },
    /// The value can't be sealed or read.
    Value {
        why: ValueNo,
    },
    /// A plugin breaks a rule of its status.
    Unhealthy {
        name: Text,
        field: Field,
        text: Text,
    },
    FaultPlugin {
        name: Text,
    },
    FaultDice {
        seat: u32,
    },
    FaultStore,
    /// The store is full.
    Full,
    /// There was no memory.
    Memory,
}

/// Why the output isn't written.
#[derive(Clone, Copy)]
pub enum WriteNo {
    /// The sink failed.
    Failed,
    NoMemory,
}
