//! What settings may have too many of.
ghost use Rattle.std.specs.Prelude.{◌<◌, ◌^◌, [], ◌∷◌, length};
ghost use Rattle.kr_config.specs.Kept.{rows_of, count_entry_keys, kms_in};
ghost use Rattle.kr_plan.specs.Plans.{amounts, limit_reasons};
ghost use Rattle.kr_plan.specs.inner.Checks.{Checks};

use crate::refusal::PlanNo;
use kr_config::{Counted, Entry, count_entry_keys, count_plugins};

/// Whether the entries pass no limit. A class has an entry of one pattern, so the limit of patterns
/// isn't passed where that of entries isn't.
pub fn check_limits(entries: &[Entry]) -> Result<(), PlanNo>
    requires entries { length entries.now < 2 ^ 32 }
    requires keys { count_entry_keys (rows_of entries.now) < 2 ^ 32 }
    requires plugins { kms_in (rows_of entries.now) < 2 ^ 32 }
    ensures { Checks (limit_reasons (amounts (rows_of entries.now))) result }
{
    check_limit(Counted::Entries, entries.len() as u32)?;
    check_limit(Counted::Keys, count_entry_keys(entries) as u32)?;
    check_limit(Counted::Plugins, count_plugins(entries) as u32)
}

/// Whether so many are no more than the limit.
fn check_limit(counted: Counted, number: u32) -> Result<(), PlanNo>
    ensures { Checks (limit_reasons ((counted, number) ∷ [])) result }
{
    if number > counted.limit() {
        return Err(PlanNo::TooMany { counted, number });
    }
    Ok(())
}
