//! Prefixes that have two secrets.
ghost use Rattle.std.specs.Prelude.{◌≡◌};
ghost use Rattle.std.specs.List.{list_any};
ghost use Rattle.std.specs.Option.{option_copied, option_map};
ghost use Rattle.kr_config.specs.Kept.{rows_of};
ghost use Rattle.kr_judge.specs.Verdicts.{first};
ghost use Rattle.kr_plan.specs.Plans.{clash, first_clash, clashes_at, clash_reasons};
ghost use Rattle.kr_plan.specs.inner.Checks.{Checks};

use crate::refusal::PlanNo;
use kr_config::{Class, Settings, Who};
use kr_judge::is_same;
use std::alloc::Global;

/// Whether the two settings have one secret for each prefix at each of the classes.
pub fn check_secrets(
    alloc: Global,
    classes: &[Class],
    from: &Settings,
    to: &Settings,
) -> Result<(), PlanNo>
    ensures { Checks (clash_reasons (clashes_at classes.now (rows_of from.now.entries.0)
        (rows_of to.now.entries.0))) result }
{
    match find_first_clash(classes, from, to) {
        Some((class, who)) => Err(PlanNo::SecretClash {
            class: class.copy(alloc)?,
            who: who.copy(alloc)?,
        }),
        None => Ok(()),
    }
}

/// The first class at which the two settings clash, and the first provider of the one that does.
#[tactic(auto, using(crate::proofs::Steps::left_begin, crate::proofs::Steps::left_more, crate::proofs::Steps::left_found, crate::proofs::Steps::left_end))]
fn find_first_clash<'a>(
    classes: &'a [Class],
    from: &'a Settings,
    to: &Settings,
) -> Option<(&'a Class, &'a Who)>
    ensures { option_map (λ own. (own.0.now, own.1.now)) result
        ≡ first (clashes_at classes.now (rows_of from.now.entries.0) (rows_of to.now.entries.0)) }
{
    for class in classes {
        let others = to.list_for_class(class);
        if let Some(who) = first_clash(from.list_for_class(class), others) {
            return Some((class, who));
        }
    }
    None
}

/// The first provider of the one list that clashes with one of the other.
fn first_clash<'a>(providers: &'a [Who], others: &[Who]) -> Option<&'a Who>
    ensures { option_copied result ≡ first_clash providers.now others.now }
{
    providers.iter().find(|who| clashes_with_any(*who, others))
}

/// Whether the provider clashes with one of these.
fn clashes_with_any(who: &Who, others: &[Who]) -> bool
    ensures { result ≡ list_any (clash who.now) others.now }
{
    others.iter().any(|other| clashes(who, other))
}

/// Whether the two have one prefix and two secrets.
fn clashes(who: &Who, other: &Who) -> bool
    ensures { result ≡ clash who.now other.now }
{
    who.is_rival(other) && !is_same(who, other)
}
