//! How a load ended, by what its workers told.
ghost use Rattle.std.specs.Prelude.{◌≡◌};
ghost use Rattle.std.specs.List.{list_any};
ghost use Rattle.kr_workload.specs.Endings.{ending_of_load};
ghost use Rattle.kr_workload.specs.inner.Refusing.{ending_of_refusals, refuses, some_refuses};

use kr_base::List;
use kr_script::Told;
use kr_workers::{Ending, gravest_ending};

/// How a load ended: as a fleet whose workers told this, but that the verdicts on its reloads don't
/// count, since they depend on the order of the workers' turns.
pub fn ending_of_load(replies: &[List<Told>]) -> Ending
    ensures { result ≡ ending_of_load replies.now }
{
    match gravest_ending(replies) {
        Ending::Refused => ending_of_refusals(replies),
        Ending::Done => Ending::Done,
        Ending::Unhealthy => Ending::Unhealthy,
        Ending::Full => Ending::Full,
        Ending::Memory => Ending::Memory,
        Ending::Fault => Ending::Fault,
    }
}

/// How it ended where no reply is graver than a refusal.
fn ending_of_refusals(replies: &[List<Told>]) -> Ending
    ensures { result ≡ ending_of_refusals replies.now }
{
    if some_refuses(replies) {
        Ending::Refused
    } else {
        Ending::Done
    }
}

/// Whether a reply other than a verdict is a refusal.
fn some_refuses(replies: &[List<Told>]) -> bool
    ensures { result ≡ some_refuses replies.now }
{
    replies.iter().any(|told| one_refuses(told.as_slice()))
}

fn one_refuses(told: &[Told]) -> bool
    ensures { result ≡ list_any refuses told.now }
{
    told.iter().any(|reply| refuses(reply))
}

/// Whether the reply is a refusal of an object or a replica.
fn refuses(reply: &Told) -> bool
    ensures { result ≡ refuses reply.now }
{
    match reply {
        Told::Rewritten { left, .. } => *left > 0,
        Told::Absent
        | Told::Present { .. }
        | Told::Gone
        | Told::Moved { .. }
        | Told::Value { .. } => true,
        _ => false,
    }
}
