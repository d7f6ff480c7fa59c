//! How many lines the workers of a fleet may add to the journal, and how many configurations they
//! bring.
ghost use Rattle.std.specs.Prelude.{◌≡◌, ◌<◌, ◌≤◌, ◌+◌, ◌^◌, ◌-◌, count_by, sum, min, IfOk, IsErrOf, MatchOption};
ghost use Rattle.kr_base.specs.Limits.{journal_limit};
ghost use Rattle.kr_workers.specs.Budgets.{all_reloads, brought_count, budget_of, script_budgets, line_entries, is_put, put_lines, reloads_of};

use kr_base::JOURNAL_LIMIT;
use kr_script::{Part, ScriptLine};
use std::alloc::{AllocFailed, Global};

/// What the workers may do, by their numbers: how many lines each may add to the journal, and how
/// many configurations it may bring.
#[derive(Drop)]
pub struct Budgets {
    pub entries: Vec<u64>,
    pub reloads: Vec<u32>,
}

/// Why there are no budgets.
#[derive(Clone, Copy, Debug, PartialEq, Eq)]
pub enum BudgetNo {
    /// The journal would have more than 4,000,000 lines.
    TooMany,
    NoMemory,
}

impl<T: Drop> From<AllocFailed<T>> for BudgetNo {
    ghost use Rattle.kr_workers.specs.declared.budget.BudgetNo.TheVariants.{NoMemory};

    ghost from_gives = { λ _ e. e ≡ NoMemory };

    fn from(_refused: AllocFailed<T>) -> BudgetNo {
        BudgetNo::NoMemory
    }
}

/// What the parts of a fleet file may need over a store with so many live rows.
pub fn script_budgets(alloc: Global, live: u64, parts: &[Part]) -> Result<Budgets, BudgetNo>
    ensures entries { IfOk result (λ budgets. budgets.entries.items
        ≡ script_budgets (live + put_lines parts.now) parts.now) }
    ensures reloads { IfOk result (λ budgets. budgets.reloads.items ≡ all_reloads parts.now) }
    ensures few { IfOk result (λ budgets. sum budgets.entries.items ≤ journal_limit) }
    ensures fit { IfOk result (λ budgets. sum budgets.reloads.items ≤ sum budgets.entries.items) }
    ensures many { IsErrOf result BudgetNo.TooMany
        → journal_limit < sum (script_budgets (live + put_lines parts.now) parts.now) }
{
    part_budgets(alloc, live.saturating_add(put_lines(parts)), parts)
}

/// How many lines put an object, up to the greatest number.
fn put_lines(parts: &[Part]) -> u64
    ensures { result ≡ min (put_lines parts.now) (2 ^ 64 - 1) }
{
    let mut puts = 0u64;
    for part in parts {
        puts = puts.saturating_add(count_puts(part.lines.as_slice()));
    }
    puts
}

fn count_puts(lines: &[ScriptLine]) -> u64
    ensures { result ≡ count_by is_put lines.now }
{
    lines.iter().filter(|line| is_put(line)).count() as u64
}

fn is_put(line: &ScriptLine) -> bool
    ensures { result ≡ is_put line.now }
{
    matches!(line, ScriptLine::Put { .. })
}

/// What the parts may need, where a rewrite finds at most so many paths.
fn part_budgets(alloc: Global, paths: u64, parts: &[Part]) -> Result<Budgets, BudgetNo>
    ensures entries { IfOk result (λ budgets. budgets.entries.items
        ≡ script_budgets paths parts.now) }
    ensures reloads { IfOk result (λ budgets. budgets.reloads.items ≡ all_reloads parts.now) }
    ensures few { IfOk result (λ budgets. sum budgets.entries.items ≤ journal_limit) }
    ensures many { IsErrOf result BudgetNo.TooMany
        → journal_limit < sum (script_budgets paths parts.now) }
{
    let mut budgets = Budgets {
        entries: Vec::new(alloc),
        reloads: Vec::new(alloc),
    };
    let mut room = JOURNAL_LIMIT;
    for part in parts {
        let Some(budget) = checked_budget(paths, room, part.lines.as_slice()) else {
            return Err(BudgetNo::TooMany);
        };
        room -= budget.entries;
        budgets.entries.push(budget.entries)?;
        budgets.reloads.push(budget.reloads)?;
    }
    Ok(budgets)
}

/// What one worker may do.
#[derive(Clone, Copy)]
struct Budget {
    entries: u64,
    reloads: u32,
}

/// What the lines may need, if it is no more than there is room for.
fn checked_budget(paths: u64, room: u64, lines: &[ScriptLine]) -> Option<Budget>
    requires { room ≤ journal_limit }
    ensures { MatchOption result (room < budget_of paths lines.now)
        (λ budget. (budget.entries ≡ budget_of paths lines.now) × (budget.entries ≤ room)
        × (budget.reloads ≡ reloads_of lines.now)) }
{
    let mut entries = 0u64;
    let mut reloads = 0u32;
    for line in lines {
        let more = line_entries(paths, line);
        if more > room - entries {
            return None;
        }
        entries += more;
        reloads += brought_count(line);
    }
    Some(Budget { entries, reloads })
}

/// How many lines a line may add to the journal, up to the greatest number.
fn line_entries(paths: u64, line: &ScriptLine) -> u64
    ensures { result ≡ min (line_entries paths line.now) (2 ^ 64 - 1) }
{
    match line {
        ScriptLine::Put { .. } | ScriptLine::Get { .. } | ScriptLine::Refresh => 3,
        ScriptLine::Rewrite => paths.saturating_mul(4).saturating_add(3),
        ScriptLine::Delete { .. }
        | ScriptLine::Reload { .. }
        | ScriptLine::Join { .. }
        | ScriptLine::Leave { .. } => 1,
    }
}

/// How many configurations a line may bring.
fn brought_count(line: &ScriptLine) -> u32
    ensures { result ≡ brought_count line.now }
{
    match line {
        ScriptLine::Reload { .. } | ScriptLine::Refresh | ScriptLine::Join { .. } => 1,
        ScriptLine::Put { .. }
        | ScriptLine::Get { .. }
        | ScriptLine::Delete { .. }
        | ScriptLine::Rewrite
        | ScriptLine::Leave { .. } => 0,
    }
}
