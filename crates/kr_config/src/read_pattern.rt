//! Reading a pattern.
ghost use Rattle.std.specs.Prelude.{◌≡◌, IfOk, Some, None, if◌then◌else◌};
ghost use Rattle.std.specs.List.{list_any};
ghost use Rattle.kr_base.specs.Rules.{is_resource};
ghost use Rattle.kr_config.specs.declared.pattern.Pattern.TheVariants.{Exact};
ghost use Rattle.serde_json.specs.View.{view};
ghost use Rattle.kr_config.specs.Patterns.{same, overlap, is_group_name};
ghost use Rattle.kr_config.specs.Walk.{star_pattern, spelled_pattern, place_pattern, pattern_step};
ghost use Rattle.kr_config.specs.inner.Reads.{ReadsInto};

use crate::pattern::Pattern;
use crate::place::ConfigPlace;
use crate::refusal::{ConfigErr, ConfigNo, Counted, Rule};
use kr_base::{List, NAME_LIMIT, NoMemory, Text, resource_ok};
use serde_json::Value;
use std::alloc::Global;

/// Reads the pattern at this place, where earlier entries have `counted` patterns, and puts it
/// behind those that stand before it.
#[tactic(auto, unfolding(crate::specs::Walk::pattern_step))]
pub fn read_pattern(
    alloc: Global,
    counted: usize,
    place: ConfigPlace,
    before: &mut List<Pattern>,
    value: &Value,
) -> Result<(), ConfigErr>
    ensures { ReadsInto (pattern_step counted place.entry place.item before.old.0 (view value.now))
        before.new.0 result }
{
    let Some(text) = value.as_str() else {
        return Err(ConfigErr::No(Rule::Form.to_breach(place)));
    };
    match spelled_pattern(alloc, text)? {
        Some(pattern) => place_pattern(counted, place, before, pattern),
        None => Err(ConfigErr::No(Rule::Pattern.to_breach(place))),
    }
}

/// Puts a pattern behind those before it, where it clashes with none and the file has room.
#[tactic(auto, unfolding(crate::specs::Walk::place_pattern))]
fn place_pattern(
    counted: usize,
    place: ConfigPlace,
    before: &mut List<Pattern>,
    pattern: Pattern,
) -> Result<(), ConfigErr>
    ensures { ReadsInto (place_pattern counted place before.old.0 pattern) before.new.0 result }
{
    if has_same(before.as_slice(), &pattern) {
        return Err(ConfigErr::No(Rule::SamePattern.to_breach(place)));
    }
    if has_overlap(before.as_slice(), &pattern) {
        return Err(ConfigErr::No(Rule::Overlap.to_breach(place)));
    }
    if !Counted::Patterns.has_room(counted, before.as_slice().len()) {
        return Err(ConfigErr::No(ConfigNo::Limit(Counted::Patterns)));
    }
    match before.push(pattern) {
        Ok(()) => Ok(()),
        Err(_) => Err(ConfigErr::NoMemory),
    }
}

/// Whether the pattern stands among these.
fn has_same(before: &[Pattern], pattern: &Pattern) -> bool
    ensures { result ≡ list_any (λ earlier. same earlier pattern.now) before.now }
{
    before.iter().any(|earlier| earlier.is_same(pattern))
}

/// Whether it overlaps one of these.
fn has_overlap(before: &[Pattern], pattern: &Pattern) -> bool
    ensures { result ≡ list_any (λ earlier. overlap earlier pattern.now) before.now }
{
    before.iter().any(|earlier| earlier.overlaps(pattern))
}

/// The pattern that a text spells, or none.
#[tactic(auto, unfolding(crate::specs::Walk::spelled_pattern))]
fn spelled_pattern(alloc: Global, text: &str) -> Result<Option<Pattern>, NoMemory>
    ensures { IfOk result (λ pattern. pattern ≡ spelled_pattern text.now) }
{
    match text.split_once('.') {
        Some((first, group)) => if first == "*" {
            star_pattern(alloc, group)
        } else {
            exact_pattern(alloc, text)
        },
        None => exact_pattern(alloc, text),
    }
}

/// The pattern that a text behind `*.` spells.
#[tactic(auto, unfolding(crate::specs::Walk::star_pattern))]
fn star_pattern(alloc: Global, group: &str) -> Result<Option<Pattern>, NoMemory>
    ensures { IfOk result (λ pattern. pattern ≡ star_pattern group.now) }
{
    if group == "*" {
        return Ok(Some(Pattern::All));
    }
    if !group_ok(group) {
        return Ok(None);
    }
    Ok(Some(Pattern::Group(Text::copy(alloc, group)?)))
}

/// The pattern of one resource, where the text is a resource.
fn exact_pattern(alloc: Global, text: &str) -> Result<Option<Pattern>, NoMemory>
    ensures { IfOk result (λ pattern. pattern
        ≡ (if is_resource text.now then Some (Exact text.now) else None)) }
{
    if !resource_ok(text) {
        return Ok(None);
    }
    Ok(Some(Pattern::Exact(Text::copy(alloc, text)?)))
}

/// Whether a group is of its form. `*.` before it counts among the bytes.
fn group_ok(group: &str) -> bool
    ensures { result ≡ is_group_name group.now }
{
    group.is_empty() || (group.len() <= NAME_LIMIT - 2 && resource_ok(group))
}
