//! The names of plugins in their order, without memory.
ghost use Rattle.std.specs.Prelude.{◌≡◌, [], ◌∷◌};
ghost use Rattle.std.specs.Option.{option_map};
ghost use Rattle.std.specs.Ordering.{is_lt};
ghost use Rattle.kr_config.specs.Providers.{plugin_of, plugins_among};
ghost use Rattle.kr_config.specs.Kept.{plugins_in, rows_of};
ghost use Rattle.kr_config.specs.Nexts.{earlier, name_cmp, IsNextName};

use crate::settings::Entry;
use crate::who::Who;
use kr_base::Text;
use std::cmp::Ordering;

/// Whether the name comes before the other by bytes.
fn comes_earlier(name: &str, other: &str) -> bool
    ensures { result ≡ is_lt (name_cmp name.now other.now) }
{
    match name.cmp(other) {
        Ordering::Less => true,
        _ => false,
    }
}

/// The first of two: what comes next in one list of names and what comes next in another.
fn first_name<'a>(one: Option<&'a Text>, other: Option<&'a Text>) -> Option<&'a Text>
    ensures { option_map (λ name. name.now) result
        ≡ earlier name_cmp (option_map (λ name. name.now) one.entry)
        (option_map (λ name. name.now) other.entry) }
{
    match (one, other) {
        (Some(name), Some(rival)) => {
            if comes_earlier(rival.as_str(), name.as_str()) {
                Some(rival)
            } else {
                Some(name)
            }
        }
        (Some(name), None) => Some(name),
        (None, other) => other,
    }
}

/// The name, if it comes after this one.
fn name_if_later<'a>(name: &'a Text, after: &str) -> Option<&'a Text>
    ensures { IsNextName (name.now ∷ []) after.now (option_map (λ name. name.now) result) }
{
    if comes_earlier(after, name.as_str()) {
        Some(name)
    } else {
        None
    }
}

/// The provider's name, if it is a plugin and comes after this name.
#[tactic(auto, using(crate::proofs::Nexts::no_name))]
fn later_plugin<'a>(who: &'a Who, after: &str) -> Option<&'a Text>
    ensures { IsNextName (plugin_of who.now) after.now (option_map (λ name. name.now) result) }
{
    match who {
        Who::Kms(name) => name_if_later(name, after),
        Who::Identity => None,
        Who::Aescbc(_, _) => None,
        Who::Aesgcm(_, _) => None,
    }
}

/// The least name of a plugin after this one, of these providers.
#[tactic(auto, using(crate::proofs::NextLoops::names_begin, crate::proofs::NextLoops::names_more, crate::proofs::NextLoops::names_end))]
fn next_provider_plugin<'a>(providers: &'a [Who], after: &str) -> Option<&'a Text>
    ensures { IsNextName (plugins_among providers.now) after.now
        (option_map (λ name. name.now) result) }
{
    let mut next = None;
    for who in providers {
        next = first_name(next, later_plugin(who, after));
    }
    next
}

/// The least name of a plugin after this one.
#[tactic(auto, using(crate::proofs::NextLoops::entries_begin, crate::proofs::NextLoops::entries_more, crate::proofs::NextLoops::entries_end))]
pub fn next_plugin_name<'a>(entries: &'a [Entry], after: &str) -> Option<&'a Text>
    ensures { IsNextName (plugins_in (rows_of entries.now)) after.now
        (option_map (λ name. name.now) result) }
{
    let mut next = None;
    for entry in entries {
        next = first_name(
            next,
            next_provider_plugin(entry.providers.as_slice(), after),
        );
    }
    next
}
