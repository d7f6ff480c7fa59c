//! How a fleet ended, by its replies.
ghost use Rattle.std.specs.Prelude.{◌≡◌};
ghost use Rattle.std.specs.List.{list_any};
ghost use Rattle.kr_workers.specs.Endings.{gravest_ending, is_same, reply_ending, some_is, status_of};

use kr_base::List;
use kr_script::Told;

/// How a fleet ended.
#[derive(Clone, Copy, Debug)]
pub enum Ending {
    /// All was done.
    Done,
    /// A value or a configuration was refused, nothing was found, a replica had moved on, was in or
    /// wasn't, or a rewrite left objects.
    Refused,
    /// A plugin breaks a rule of its status.
    Unhealthy,
    /// The store is full.
    Full,
    /// There was no memory.
    Memory,
    /// A plugin, a random source or the store failed.
    Fault,
}

impl Ending {
    /// The program's status.
    pub fn status(self) -> u8
        ensures { result ≡ status_of self }
    {
        match self {
            Ending::Done => 0,
            Ending::Refused => 1,
            Ending::Unhealthy => 3,
            Ending::Fault => 4,
            Ending::Memory => 5,
            Ending::Full => 6,
        }
    }

    fn is_same(self, other: Ending) -> bool
        ensures { result ≡ is_same self other }
    {
        match (self, other) {
            (Ending::Done, Ending::Done) => true,
            (Ending::Refused, Ending::Refused) => true,
            (Ending::Unhealthy, Ending::Unhealthy) => true,
            (Ending::Full, Ending::Full) => true,
            (Ending::Memory, Ending::Memory) => true,
            (Ending::Fault, Ending::Fault) => true,
            _ => false,
        }
    }
}

/// How the fleet ended whose workers told these replies: the gravest of what they told.
pub fn gravest_ending(replies: &[List<Told>]) -> Ending
    ensures { result ≡ gravest_ending replies.now }
{
    if some_is(Ending::Fault, replies) {
        Ending::Fault
    } else if some_is(Ending::Memory, replies) {
        Ending::Memory
    } else if some_is(Ending::Full, replies) {
        Ending::Full
    } else if some_is(Ending::Unhealthy, replies) {
        Ending::Unhealthy
    } else if some_is(Ending::Refused, replies) {
        Ending::Refused
    } else {
        Ending::Done
    }
}

/// Whether some reply is of the kind.
fn some_is(kind: Ending, replies: &[List<Told>]) -> bool
    ensures { result ≡ some_is kind replies.now }
{
    replies.iter().any(|told| one_is(kind, told.as_slice()))
}

fn one_is(kind: Ending, told: &[Told]) -> bool
    ensures { result ≡ list_any (λ reply. is_same (reply_ending reply) kind) told.now }
{
    told.iter().any(|reply| reply_ending(reply).is_same(kind))
}

/// What a reply is.
fn reply_ending(reply: &Told) -> Ending
    ensures { result ≡ reply_ending reply.now }
{
    match reply {
        Told::Put { .. }
        | Told::Got { .. }
        | Told::Deleted { .. }
        | Told::Reloaded { .. }
        | Told::Joined { .. }
        | Told::Left { .. }
        | Told::Refreshed { .. }
        | Told::Unchanged => Ending::Done,
        Told::Rewritten { left, .. } => {
            if *left == 0 {
                Ending::Done
            } else {
                Ending::Refused
            }
        }
        Told::Absent
        | Told::Present { .. }
        | Told::Gone
        | Told::Refused { .. }
        | Told::Moved { .. }
        | Told::Value { .. } => Ending::Refused,
        Told::Unhealthy { .. } => Ending::Unhealthy,
        Told::FaultPlugin { .. } | Told::FaultDice { .. } | Told::FaultStore => Ending::Fault,
        Told::Full => Ending::Full,
        Told::Memory => Ending::Memory,
    }
}
