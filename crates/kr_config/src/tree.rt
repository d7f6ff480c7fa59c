//! Looking into the tree that a configuration is: its walk asks of a value only whether it is a
//! text, null, a list or a mapping. JSON's values are that tree.
ghost use Rattle.std.specs.Prelude.{◌≡◌, map};
ghost use Rattle.std.specs.Option.{option_map};
ghost use Rattle.serde_json.specs.View.{view};
ghost use Rattle.kr_config.specs.Walk.{text_under_key, has_text, is_mapping, has, named_list};
ghost use Rattle.kr_config.specs.inner.Reads.{Lends};

use crate::place::ConfigPlace;
use crate::refusal::{ConfigNo, Rule};
use serde_json::Value;

/// The text at a member.
pub fn text_under_key<'a>(value: &'a Value, key: &str) -> Option<&'a str>
    ensures { option_map (λ text. text.now) result ≡ text_under_key key.now (view value.now) }
{
    match value.get(key) {
        Some(value) => value.as_str(),
        None => None,
    }
}

/// Whether the text at a member is this one.
pub fn has_text(value: &Value, key: &str, text: &str) -> bool
    ensures { result ≡ has_text key.now text.now (view value.now) }
{
    match text_under_key(value, key) {
        Some(found) => text == found,
        None => false,
    }
}

/// Whether there is such a member.
pub fn has(value: &Value, key: &str) -> bool
    ensures { result ≡ has key.now (view value.now) }
{
    value.get(key).is_some()
}

/// Whether the value is a mapping.
pub fn is_mapping(value: &Value) -> bool
    ensures { result ≡ is_mapping (view value.now) }
{
    value.as_object().is_some()
}

/// The items of the list at a member, which isn't empty.
#[tactic(auto, unfolding(crate::specs::Walk::named_list), using(crate::proofs::Trees::named_ok))]
pub fn named_list<'a>(
    value: &'a Value,
    key: &str,
    place: ConfigPlace,
) -> Result<&'a [Value], ConfigNo>
    ensures { Lends (named_list key.now place (view value.now)) result }
{
    let Some(member) = value.get(key) else {
        return Err(Rule::Form.to_breach(place));
    };
    let Some(list) = member.as_array() else {
        return Err(Rule::Form.to_breach(place));
    };
    if list.is_empty() {
        return Err(Rule::EmptyList.to_breach(place));
    }
    Ok(list.as_slice())
}
