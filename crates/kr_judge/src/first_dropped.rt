//! The first path whose provider new settings don't read, from the first paths of the pairs.
ghost use Rattle.std.specs.Prelude.{◌≡◌, None};
ghost use Rattle.std.specs.Option.{option_map};
ghost use Rattle.kr_config.specs.Kept.{rows_of};
ghost use Rattle.kr_config.specs.Nexts.{earlier};
ghost use Rattle.kr_judge.specs.inner.Earliest.{path_cmp, lost_path, earliest};

use crate::pair::Pair;
use crate::provider_lists::has;
use kr_config::{Settings, Who};

/// The first path of the pair, where the new settings don't read it.
fn first_lost<'a>(pair: &'a Pair, settings: &Settings) -> Option<(&'a str, &'a Who)>
    ensures { option_map (λ lost. (lost.0.now, lost.1.now)) result
        ≡ lost_path (rows_of settings.now.entries.0) pair.now }
{
    let Some(path) = pair.paths.first() else {
        return None;
    };
    if has(
        settings.resource_list(pair.resource.as_str()),
        pair.who.get(),
    ) {
        return None;
    }
    Some((path, pair.who.get()))
}

/// The one whose path comes first.
fn earlier_loss<'a>(
    one: Option<(&'a str, &'a Who)>,
    other: Option<(&'a str, &'a Who)>,
) -> Option<(&'a str, &'a Who)>
    ensures { option_map (λ lost. (lost.0.now, lost.1.now)) result
        ≡ earlier path_cmp (option_map (λ lost. (lost.0.now, lost.1.now)) one.entry)
        (option_map (λ lost. (lost.0.now, lost.1.now)) other.entry) }
{
    match (one, other) {
        (Some(first), Some(rival)) => if rival.0 < first.0 {
            Some(rival)
        } else {
            Some(first)
        },
        (Some(first), None) => Some(first),
        (None, other) => other,
    }
}

/// The first of all pairs' paths that the new settings don't read, and its provider.
#[tactic(auto, using(crate::proofs::Earliest::earliest_begin, crate::proofs::Earliest::earliest_more, crate::proofs::Earliest::earliest_end))]
pub fn first_dropped<'a>(pairs: &'a [Pair], settings: &Settings) -> Option<(&'a str, &'a Who)>
    ensures { option_map (λ lost. (lost.0.now, lost.1.now)) result
        ≡ earliest (rows_of settings.now.entries.0) None pairs.now }
{
    let mut best = None;
    for pair in pairs {
        best = earlier_loss(best, first_lost(pair, settings));
    }
    best
}
