//! Settings by the names that lines give them.
use kr_config::Settings;
use kr_plan::planning::plan;
use kr_plan::{Plan, PlanNo};
use std::alloc::Global;
use test_support::{NamedValues, Wrong, two_words};

/// How many replicas a core here has.
const REPLICAS: u32 = 2;

/// Settings that lines named, and where the texts of lines are put.
#[derive(Drop)]
pub struct Names {
    /// Where the texts of lines are put.
    pub alloc: Global,
    /// The settings by their names.
    pub settings: NamedValues<Settings>,
}

impl Names {
    /// None yet.
    pub fn new(alloc: Global) -> Names {
        Names {
            alloc,
            settings: NamedValues::new(alloc),
        }
    }
}

/// Each line names settings: `settings NAME JSON`, or `plan WIDE TURNED FROM TO`, those that a plan
/// puts between two.
pub fn name_all(alloc: Global, named: &mut NamedValues<Settings>, case: &str) -> Result<(), Wrong> {
    for line in case.lines() {
        let (key, rest) = two_words(line)?;
        match key {
            "settings" => named.add_settings(alloc, rest)?,
            "plan" => name_planned(alloc, named, rest)?,
            _ => return Err(Wrong::Form),
        }
    }
    Ok(())
}

/// `WIDE TURNED FROM TO`.
fn name_planned(alloc: Global, named: &mut NamedValues<Settings>, rest: &str) -> Result<(), Wrong> {
    let (wide, rest) = two_words(rest)?;
    let (turned, rest) = two_words(rest)?;
    let (from, to) = two_words(rest)?;
    let made = planned(
        alloc,
        named.find_named(from)?.get(),
        named.find_named(to)?.get(),
    )?;
    let Plan {
        wide: first,
        turned: second,
        moves,
    } = made;
    drop(moves);
    match named.add(alloc, wide, Ok(first)) {
        Ok(()) => named.add(alloc, turned, Ok(second)),
        Err(why) => {
            drop(second);
            Err(why)
        }
    }
}

fn planned(alloc: Global, from: &Settings, to: &Settings) -> Result<Plan, Wrong> {
    match plan(alloc, from, to, REPLICAS) {
        Ok(planned) => Ok(planned),
        Err(PlanNo::NoMemory) => Err(Wrong::Memory),
        Err(refused) => {
            drop(refused);
            Err(Wrong::Form)
        }
    }
}
