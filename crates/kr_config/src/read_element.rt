//! Reading a provider element.
ghost use Rattle.std.specs.Prelude.{◌≡◌, ◌≤◌, map};
ghost use Rattle.serde_json.specs.View.{view};
ghost use Rattle.kr_config.specs.Walk.{walk_each, key_step, keys_step, one_if, count_kinds, kind_step};
ghost use Rattle.kr_config.specs.Walk.{element_step};
ghost use Rattle.kr_config.specs.inner.Reads.{ReadsInto};

use crate::place::{ConfigPlace, Counts};
use crate::provider::{Cipher, read_identity, read_key, read_plugin};
use crate::refusal::{ConfigErr, Rule};
use crate::tree::{has, is_mapping, named_list};
use crate::who::Who;
use kr_base::List;
use serde_json::Value;
use std::alloc::Global;

/// Reads the provider element at this place, where earlier entries have so many keys and plugins,
/// and puts its providers behind those that stand before it.
#[tactic(auto, unfolding(crate::specs::Walk::element_step))]
pub fn read_element(
    alloc: Global,
    counts: Counts,
    place: ConfigPlace,
    before: &mut List<Who>,
    value: &Value,
) -> Result<(), ConfigErr>
    ensures { ReadsInto (element_step counts place.entry place.item before.old.0 (view value.now))
        before.new.0 result }
{
    if !is_mapping(value) {
        return Err(ConfigErr::No(Rule::Form.to_breach(place)));
    }
    let kinds = count_kinds(value);
    if kinds == 0 {
        return Err(ConfigErr::No(Rule::NoProvider.to_breach(place)));
    }
    if kinds > 1 {
        return Err(ConfigErr::No(Rule::SeveralProviders.to_breach(place)));
    }
    read_kind(alloc, counts, place, before, value)
}

/// How many of the five providers the element has.
fn count_kinds(value: &Value) -> u32
    ensures { result ≡ count_kinds (view value.now) }
{
    one_if(has(value, "identity"))
        + one_if(has(value, "aescbc"))
        + one_if(has(value, "aesgcm"))
        + one_if(has(value, "kms"))
        + one_if(has(value, "secretbox"))
}

/// 1 where it is so, else 0.
fn one_if(b: bool) -> u32
    ensures one { result ≡ one_if b }
    ensures small { result ≤ 1 }
{
    if b { 1 } else { 0 }
}

/// Reads the element by the one provider that it has.
#[tactic(auto, unfolding(crate::specs::Walk::kind_step))]
fn read_kind(
    alloc: Global,
    counts: Counts,
    place: ConfigPlace,
    before: &mut List<Who>,
    value: &Value,
) -> Result<(), ConfigErr>
    ensures { ReadsInto (kind_step counts place before.old.0 (view value.now)) before.new.0 result }
{
    if let Some(identity) = value.get("identity") {
        return read_identity(place, before, identity);
    }
    if let Some(aescbc) = value.get("aescbc") {
        return read_keys(alloc, Cipher::Cbc, counts.keys, place, before, aescbc);
    }
    if let Some(aesgcm) = value.get("aesgcm") {
        return read_keys(alloc, Cipher::Gcm, counts.keys, place, before, aesgcm);
    }
    if let Some(kms) = value.get("kms") {
        return read_plugin(alloc, counts.plugins, place, before, kms);
    }
    Err(ConfigErr::No(Rule::Secretbox.to_breach(place)))
}

/// Reads an element of keys.
#[tactic(auto, unfolding(crate::specs::Walk::keys_step))]
fn read_keys(
    alloc: Global,
    cipher: Cipher,
    counted: usize,
    place: ConfigPlace,
    before: &mut List<Who>,
    value: &Value,
) -> Result<(), ConfigErr>
    ensures { ReadsInto (keys_step cipher counted place before.old.0 (view value.now)) before.new.0
        result }
{
    if !is_mapping(value) {
        return Err(ConfigErr::No(Rule::Form.to_breach(place)));
    }
    let keys = named_list(value, "keys", place)?;
    read_each_key(alloc, cipher, counted, place, before, keys)
}

/// Reads the keys of an element in their order.
#[tactic(auto, using(crate::proofs::Trees::each_more, crate::proofs::Trees::each_stops, crate::proofs::Trees::each_ends))]
fn read_each_key(
    alloc: Global,
    cipher: Cipher,
    counted: usize,
    place: ConfigPlace,
    before: &mut List<Who>,
    keys: &[Value],
) -> Result<(), ConfigErr>
    ensures { ReadsInto (walk_each (key_step cipher counted place) before.old.0 (map view keys.now))
        before.new.0 result }
{
    for key in keys {
        read_key(alloc, cipher, counted, place, before, key)?;
    }
    Ok(())
}
