//! Planning a rollout.
ghost use Rattle.std.specs.Prelude.{◌≡◌, ◌≤◌, IsTrue, IfOk};
ghost use Rattle.kr_config.specs.Kept.{rows_of, keeps};
ghost use Rattle.kr_plan.specs.Merges.{classes_of};
ghost use Rattle.kr_plan.specs.Plans.{Plans};

use crate::clash::check_secrets;
use crate::limits::check_limits;
use crate::merging::merged_entries;
use crate::moves::{Plan, replica_moves};
use crate::refusal::PlanNo;
use kr_base::{List, NoMemory, Shared};
use kr_config::{Class, ClassTable, Entry, Settings};
use std::alloc::Global;

/// The most replicas of a rollout.
pub const REPLICA_LIMIT: u32 = 16;

/// Plans the rollout of so many replicas from one configuration to another.
pub fn plan(alloc: Global, from: &Settings, to: &Settings, replicas: u32) -> Result<Plan, PlanNo>
    requires some { 1 ≤ replicas }
    requires few { replicas ≤ REPLICA_LIMIT }
    ensures { Plans (rows_of from.now.entries.0) (rows_of to.now.entries.0) replicas result }
{
    let mut table = ClassTable::new(alloc);
    table.add(from)?;
    table.add(to)?;
    plan_classes(alloc, table.classes(), from, to, replicas)
}

/// The same, over the classes that the two configurations tell apart.
fn plan_classes(
    alloc: Global,
    classes: &[Class],
    from: &Settings,
    to: &Settings,
    replicas: u32,
) -> Result<Plan, PlanNo>
    requires { classes.now ≡ classes_of (rows_of from.now.entries.0) (rows_of to.now.entries.0) }
    ensures { Plans (rows_of from.now.entries.0) (rows_of to.now.entries.0) replicas result }
{
    from.known();
    to.known();
    check_secrets(alloc, classes, from, to)?;
    let wide = merged_entries(alloc, classes, from, to)?;
    check_limits(wide.as_slice())?;
    let turned = merged_entries(alloc, classes, to, from)?;
    Ok(Plan {
        wide: checked_settings(alloc, wide)?,
        turned: checked_settings(alloc, turned)?,
        moves: replica_moves(alloc, replicas)?,
    })
}

/// The settings of entries that keep the rules.
fn checked_settings(alloc: Global, entries: List<Entry>) -> Result<Shared<Settings>, NoMemory>
    requires { IsTrue (keeps (rows_of entries.0)) }
    ensures { IfOk result (λ settings. settings.entries ≡ entries) }
{
    match Shared::new(alloc, Settings::from_entries(alloc, entries)?) {
        Ok(settings) => Ok(settings),
        Err(_) => Err(NoMemory),
    }
}
