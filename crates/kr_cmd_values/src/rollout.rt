//! `plan`: both configurations, and the rollout from the one to the other.
ghost use Rattle.std.specs.Prelude.{◌≡◌, ◌≤◌, ℕ, List, Ok};
ghost use Rattle.kr_config.specs.Kept.{ConfigEntry, rows_of};
ghost use Rattle.kr_plan.specs.Plans.{IsPlan};
ghost use Rattle.kr_cmd_steps.specs.Environment.{Environment, with_world};
ghost use Rattle.kr_cmd_steps.specs.Commands.{steps};
ghost use Rattle.kr_cmd_steps.specs.PlanLines.{plan_text, ShowsPlan};
ghost use Rattle.kr_cmd_steps.specs.inner.Phases.{Does, Yields};
ghost use Rattle.kr_cmd_values.specs.inner.Planned.{IsStopBy};

use crate::clash_text::clash_text;
use crate::plan_lines::{move_lines, text_line};
use kr_base::Bytes;
use kr_cmd_messages::{Command, Outcome, Planning, Refusal, ShownSettings, Stop};
use kr_cmd_steps::{configure, show};
use kr_config::{ConfigNo, Settings};
use kr_kms::World;
use kr_plan::planning::{self, REPLICA_LIMIT};
use kr_plan::{Plan, PlanNo};
use std::alloc::Global;

/// Makes the text of the rollout from the configuration in one file to that in another.
pub fn plan<W: World>(alloc: Global, words: &Planning, world: &mut W) -> Result<Outcome, Stop>
    requires some { 1 ≤ words.now.replicas }
    requires few { words.now.replicas ≤ REPLICA_LIMIT }
    ensures does { (a : Environment) → Does (steps (Command.Plan words.now))
        (with_world (W.told world.old) a) (with_world (W.told world.new) a) result }
    ensures links { (W.told world.new).links ≡ (W.told world.old).links }
{
    let from = match configure(alloc, world, words.from.as_str()) {
        Ok(settings) => settings,
        Err(stop) => return Err(stop),
    };
    let to = match configure(alloc, world, words.to.as_str()) {
        Ok(settings) => settings,
        Err(stop) => {
            drop(from);
            return Err(stop);
        }
    };
    let made = planned(alloc, words, &from, &to);
    drop(from);
    drop(to);
    show(made)
}

/// The text of the plan, or why there is none.
fn planned(alloc: Global, words: &Planning, from: &Settings, to: &Settings) -> Result<Bytes, Stop>
    requires some { 1 ≤ words.now.replicas }
    requires few { words.now.replicas ≤ REPLICA_LIMIT }
    ensures { Yields (ShowsPlan words.now (rows_of from.now.entries.0) (rows_of to.now.entries.0))
        result }
{
    match planning::plan(alloc, from, to, words.replicas) {
        Ok(plan) => shown(alloc, words.shown, &plan),
        Err(why) => Err(plan_stop(alloc, why)),
    }
}

/// The moves of the plan, or those of its settings that are to be shown.
fn shown(alloc: Global, shown: Option<ShownSettings>, plan: &Plan) -> Result<Bytes, Stop>
    ensures { (from to : List ConfigEntry) (replicas : ℕ) → IsPlan from to replicas plan.now
        → Yields (λ text. text ≡ Ok (plan_text from to replicas shown)) result }
{
    let made = match shown {
        None => move_lines(alloc, plan.moves.as_slice()),
        Some(ShownSettings::Wide) => text_line(alloc, plan.wide.get()),
        Some(ShownSettings::Turned) => text_line(alloc, plan.turned.get()),
    };
    match made {
        Ok(text) => Ok(text),
        Err(_) => Err(Stop::NoMemory),
    }
}

/// How the command stops where there is no plan.
fn plan_stop(alloc: Global, why: PlanNo) -> Stop
    ensures { IsStopBy why result }
{
    match why {
        PlanNo::SecretClash { class, who } => {
            let told = clash_text(alloc, &class, &who);
            drop(class);
            drop(who);
            match told {
                Ok(text) => Stop::Refused(Refusal::Clash(text)),
                Err(_) => Stop::NoMemory,
            }
        }
        PlanNo::TooMany {
            counted,
            number: _number,
        } => { Stop::Refused(Refusal::Configuration(ConfigNo::Limit(counted))) }
        PlanNo::NoMemory => Stop::NoMemory,
    }
}
