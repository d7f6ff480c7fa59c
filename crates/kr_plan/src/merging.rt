//! The settings of a phase: at each class both configurations' lists, one behind the other.
ghost use Rattle.std.specs.Prelude.{◌≡◌, ◌++◌, not, IfOk, OnOk};
ghost use Rattle.std.specs.List.{filter};
ghost use Rattle.kr_config.specs.Kept.{entry_lists, rows_of};
ghost use Rattle.kr_config.specs.ClassEntries.{class_row};
ghost use Rattle.kr_judge.specs.Providers.{has};
ghost use Rattle.kr_plan.specs.Merges.{merge, merged_list, merged_rows};

use kr_base::{List, NoMemory};
use kr_config::{Class, Entry, Settings, Who};
use kr_judge::has;
use std::alloc::Global;

/// An entry for each of the classes.
pub fn merged_entries(
    alloc: Global,
    classes: &[Class],
    one: &Settings,
    other: &Settings,
) -> Result<List<Entry>, NoMemory>
    ensures { IfOk result (λ entries. rows_of entries.0 ≡ merged_rows classes.now
        (rows_of one.now.entries.0) (rows_of other.now.entries.0)) }
{
    let mut entries = Vec::with_capacity(alloc, classes.len())?;
    for class in classes {
        entries.push(merged_entry(alloc, class, one, other)?)?;
    }
    Ok(List::from_vec(entries))
}

/// The entry of a class.
fn merged_entry(
    alloc: Global,
    class: &Class,
    one: &Settings,
    other: &Settings,
) -> Result<Entry, NoMemory>
    ensures { IfOk result (λ entry. entry_lists entry
        ≡ class_row (merged_list (rows_of one.now.entries.0) (rows_of other.now.entries.0))
        class.now) }
{
    let mut patterns = Vec::new(alloc);
    patterns.push(class.pattern(alloc)?)?;
    let providers = merged(
        alloc,
        one.list_for_class(class),
        other.list_for_class(class),
    )?;
    Ok(Entry {
        patterns: List::from_vec(patterns),
        providers: List::from_vec(providers),
    })
}

/// The providers of the one list, and behind them those of the other that it hasn't.
fn merged(alloc: Global, one: &[Who], other: &[Who]) -> Result<Vec<Who>, NoMemory>
    ensures { IfOk result (λ providers. providers.items ≡ merge one.now other.now) }
{
    let mut providers = Vec::with_capacity(alloc, one.len())?;
    push_all(alloc, &mut providers, one)?;
    push_missing(alloc, &mut providers, one, other)?;
    Ok(providers)
}

/// Adds copies of the providers.
fn push_all(alloc: Global, providers: &mut Vec<Who>, one: &[Who]) -> Result<(), NoMemory>
    ensures { OnOk result (providers.new.items ≡ providers.old.items ++ one.now) }
{
    for who in one {
        providers.push(who.copy(alloc)?)?;
    }
    Ok(())
}

/// Adds copies of those of the other list that the one hasn't.
#[tactic(auto, using(crate::proofs::Steps::new_more, crate::proofs::Steps::new_over, crate::proofs::Steps::new_end))]
fn push_missing(
    alloc: Global,
    providers: &mut Vec<Who>,
    one: &[Who],
    other: &[Who],
) -> Result<(), NoMemory>
    ensures { OnOk result (providers.new.items
        ≡ providers.old.items ++ filter (λ who. not (has one.now who)) other.now) }
{
    for who in other {
        if !has(one, who) {
            providers.push(who.copy(alloc)?)?;
        }
    }
    Ok(())
}
