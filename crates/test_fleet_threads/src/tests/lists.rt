//! A list of events of both seats.
ghost use Rattle.std.specs.Prelude.{◌≡◌, IfOk};
ghost use Rattle.test_fleet_threads.specs.NewCores.{IsNewCore, both_leave};

use kr_base::{MemTape, NoMemory};
use kr_rollout::{Core, Did, Event, Gave, Line};
use std::alloc::Global;

/// Both seats take the only replica's generation away, one after the other.
fn leaves(alloc: Global) -> Result<Vec<(u32, Event)>, NoMemory>
    ensures { IfOk result (λ events. events.items ≡ both_leave) }
{
    let mut events = Vec::new(alloc);
    events.push((0u32, Event::Leave { replica: 0 }))?;
    events.push((1u32, Event::Leave { replica: 0 }))?;
    Ok(events)
}

/// Whether both seats' events are made. The core is closed.
pub fn both_left(alloc: Global, core: Core<MemTape>) -> bool
    requires { IsNewCore 2 core }
{
    let mut core = core;
    let done = both_leave_in_order(alloc, &mut core);
    drop(core.close());
    done
}

/// Makes these events, and says whether the journal is theirs.
fn both_leave_in_order(alloc: Global, core: &mut Core<MemTape>) -> bool
    requires { IsNewCore 2 core.old }
{
    match leaves(alloc) {
        Ok(events) => made(core, events),
        Err(NoMemory) => return false,
    }
    have_left(core)
}

#[tactic(auto, using(crate::proofs::Leaving::both_may))]
fn made(core: &mut Core<MemTape>, events: Vec<(u32, Event)>)
    requires new { IsNewCore 2 core.old }
    requires events { events.items ≡ both_leave }
{
    core.apply_all(events);
}

/// Whether the first seat's event was done, and the second one's found the replica gone.
fn have_left(core: &Core<MemTape>) -> bool {
    match core.journal() {
        [first, second] => has_departed(first) && is_gone(second),
        _ => false,
    }
}

fn has_departed(line: &Line) -> bool {
    let is = matches!(&line.did, Did::Leave { replica: 0 });
    line.seat == 0 && is && matches!(&line.gave, Gave::Departed { generation: 0 })
}

fn is_gone(line: &Line) -> bool {
    let is = matches!(&line.did, Did::Leave { replica: 0 });
    line.seat == 1 && is && matches!(&line.gave, Gave::Gone { replica: 0 })
}
