//! Two seats of one core and a list of both seats' events; and two callers of one fleet, of which
//! one reads while the other one waits for its plugin.
mod beginning;
mod core_in_memory;
mod linked;
mod lists;
mod published;
mod readers;
mod single;
mod waiting;

use crate::tests::core_in_memory::core;
use crate::tests::linked::plugin;
use crate::tests::lists::both_left;
use crate::tests::readers::both_read;
use crate::tests::single::both_values;
use crate::tests::waiting::Waiting;
use std::alloc::Global;
use std::sync::Wait;
use std::sync::atomic::AtomicBool;
use std::test::Fail;
use std::thread::Threads;

#[test]
fn a_list_of_events_is_made(rt: HostRuntime) -> Result<(), Fail> {
    let alloc = rt.alloc();
    let core = core(alloc, 2).ok_or("no core")?;
    assert!(rt; both_left(alloc, core));
    Ok(())
}

/// The first caller's plugin waits, in the midst of its unwrap, until the second one's read was
/// answered.
#[test]
fn a_read_is_answered_while_another_unwraps(rt: HostRuntime) -> Result<(), Fail> {
    let got = one_waits(&rt, rt.alloc()).ok_or("no fleet")?;
    assert_eq!(rt; got, 2);
    Ok(())
}

/// How many of two callers get what they read, where the first one's plugin waits for the second.
fn one_waits<R: Threads + Wait + Sync>(rt: &R, alloc: Global) -> Option<u32> {
    let (first, second) = both_values(plugin(alloc), plugin(alloc))?;
    let core = beginning::core(alloc)?;
    let answered = AtomicBool::new(false);
    let at_once = AtomicBool::new(true);
    let first = Waiting::new(first, &answered);
    let second = Waiting::new(second, &at_once);
    both_read(rt, alloc, core, first, second, &answered)
}
