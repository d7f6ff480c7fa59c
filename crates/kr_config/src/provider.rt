//! Reading a provider.
ghost use Rattle.std.specs.Prelude.{◌≡◌, ◌≤◌, count_by};
ghost use Rattle.std.specs.List.{list_any};
ghost use Rattle.serde_json.specs.View.{view};
ghost use Rattle.kr_config.specs.Providers.{rivals, is_key, is_kms, is_secret};
ghost use Rattle.kr_config.specs.Walk.{place_provider, place_key, place_plugin, identity_step};
ghost use Rattle.kr_config.specs.Walk.{of_cipher, name_at, secret_at, key_step, version_at};
ghost use Rattle.kr_config.specs.Walk.{endpoint_at, plugin_step};
ghost use Rattle.kr_config.specs.inner.Reads.{Reads, ReadsInto, Checks};

use crate::place::ConfigPlace;
use crate::refusal::{ConfigErr, ConfigNo, Counted, Rule};
use crate::tree::{has_text, is_mapping, text_under_key};
use crate::who::Who;
use base64::DecodeAllocError;
use base64::engine::general_purpose::STANDARD;
use kr_base::{Bytes, List, Text, name_ok};
use serde_json::Value;
use std::alloc::Global;

/// The cipher of a provider of keys.
#[derive(Clone, Copy)]
pub enum Cipher {
    /// AES-CBC, of `aescbc`.
    Cbc,
    /// AES-GCM, of `aesgcm`.
    Gcm,
}

/// Puts a provider behind those that stand before it, where none of them has its prefix.
#[tactic(auto, unfolding(crate::specs::Walk::place_provider))]
fn place_provider(place: ConfigPlace, before: &mut List<Who>, who: Who) -> Result<(), ConfigErr>
    ensures { ReadsInto (place_provider place before.old.0 who) before.new.0 result }
{
    if has_rival(before.as_slice(), &who) {
        drop(who);
        return Err(ConfigErr::No(Rule::SameProvider.to_breach(place)));
    }
    match before.push(who) {
        Ok(()) => Ok(()),
        Err(refused) => {
            drop(refused);
            Err(ConfigErr::NoMemory)
        }
    }
}

/// Whether one of these has the prefix of the provider.
fn has_rival(before: &[Who], who: &Who) -> bool
    ensures { result ≡ list_any (λ earlier. rivals earlier who.now) before.now }
{
    before.iter().any(|earlier| earlier.is_rival(who))
}

/// Puts a key behind those before it, within the limit of the file's keys.
#[tactic(auto, unfolding(crate::specs::Walk::place_key))]
fn place_key(
    counted: usize,
    place: ConfigPlace,
    before: &mut List<Who>,
    who: Who,
) -> Result<(), ConfigErr>
    ensures { ReadsInto (place_key counted place before.old.0 who) before.new.0 result }
{
    let more = before.as_slice().iter().filter(|who| who.is_key()).count();
    place_provider(place, before, who)?;
    if !Counted::Keys.has_room(counted, more) {
        return Err(ConfigErr::No(ConfigNo::Limit(Counted::Keys)));
    }
    Ok(())
}

/// Puts a KMS plugin behind those before it, within the limit of the file's plugins.
#[tactic(auto, unfolding(crate::specs::Walk::place_plugin))]
fn place_plugin(
    counted: usize,
    place: ConfigPlace,
    before: &mut List<Who>,
    who: Who,
) -> Result<(), ConfigErr>
    ensures { ReadsInto (place_plugin counted place before.old.0 who) before.new.0 result }
{
    let more = before.as_slice().iter().filter(|who| who.is_kms()).count();
    place_provider(place, before, who)?;
    if !Counted::Plugins.has_room(counted, more) {
        return Err(ConfigErr::No(ConfigNo::Limit(Counted::Plugins)));
    }
    Ok(())
}

/// Reads an identity element.
#[tactic(auto, unfolding(crate::specs::Walk::identity_step))]
pub fn read_identity(
    place: ConfigPlace,
    before: &mut List<Who>,
    value: &Value,
) -> Result<(), ConfigErr>
    ensures { ReadsInto (identity_step place before.old.0 (view value.now)) before.new.0 result }
{
    if !is_mapping(value) && !value.is_null() {
        return Err(ConfigErr::No(Rule::Form.to_breach(place)));
    }
    place_provider(place, before, Who::Identity)
}

/// Reads a key of a cipher's element, where earlier entries have `counted` keys.
#[tactic(auto, unfolding(crate::specs::Walk::key_step))]
pub fn read_key(
    alloc: Global,
    cipher: Cipher,
    counted: usize,
    place: ConfigPlace,
    before: &mut List<Who>,
    value: &Value,
) -> Result<(), ConfigErr>
    ensures { ReadsInto (key_step cipher counted place before.old.0 (view value.now)) before.new.0
        result }
{
    let name = read_name(alloc, place, value)?;
    let secret = read_secret(alloc, place, value)?;
    let who = match cipher {
        Cipher::Cbc => Who::Aescbc(name, secret),
        Cipher::Gcm => Who::Aesgcm(name, secret),
    };
    place_key(counted, place, before, who)
}

/// The name at `name`, by its rule.
#[tactic(auto, unfolding(crate::specs::Walk::name_at))]
fn read_name(alloc: Global, place: ConfigPlace, value: &Value) -> Result<Text, ConfigErr>
    ensures { Reads (name_at place (view value.now)) result }
{
    let Some(name) = text_under_key(value, "name") else {
        return Err(ConfigErr::No(Rule::Form.to_breach(place)));
    };
    if !name_ok(name) {
        return Err(ConfigErr::No(Rule::Name.to_breach(place)));
    }
    Ok(Text::copy(alloc, name)?)
}

/// The key at `secret`, by its rule.
#[tactic(auto, unfolding(crate::specs::Walk::secret_at))]
fn read_secret(alloc: Global, place: ConfigPlace, value: &Value) -> Result<Bytes, ConfigErr>
    ensures { Reads (secret_at place (view value.now)) result }
{
    let Some(text) = text_under_key(value, "secret") else {
        return Err(ConfigErr::No(Rule::Form.to_breach(place)));
    };
    match STANDARD.decode(alloc, text.as_bytes()) {
        Ok(secret) if matches!(secret.len(), 16 | 24 | 32) => Ok(Bytes::from_vec(secret)),
        Ok(_) => Err(ConfigErr::No(Rule::SecretLength.to_breach(place))),
        Err(DecodeAllocError::OutOfMemory) => Err(ConfigErr::NoMemory),
        Err(_) => Err(ConfigErr::No(Rule::Base64.to_breach(place))),
    }
}

/// Reads a KMS element, where earlier entries have `counted` of them.
#[tactic(auto, unfolding(crate::specs::Walk::plugin_step))]
pub fn read_plugin(
    alloc: Global,
    counted: usize,
    place: ConfigPlace,
    before: &mut List<Who>,
    value: &Value,
) -> Result<(), ConfigErr>
    ensures { ReadsInto (plugin_step counted place before.old.0 (view value.now)) before.new.0
        result }
{
    if !is_mapping(value) {
        return Err(ConfigErr::No(Rule::Form.to_breach(place)));
    }
    check_version(place, value)?;
    let name = read_name(alloc, place, value)?;
    check_endpoint(place, value)?;
    place_plugin(counted, place, before, Who::Kms(name))
}

/// Whether a kms element's version is `v2`, or which rule it breaks.
#[tactic(auto, unfolding(crate::specs::Walk::version_at))]
fn check_version(place: ConfigPlace, value: &Value) -> Result<(), ConfigNo>
    ensures { Checks (version_at place (view value.now)) result }
{
    let Some(version) = value.get("apiVersion") else {
        return Err(Rule::KmsV1.to_breach(place));
    };
    if has_text(value, "apiVersion", "v1") {
        return Err(Rule::KmsV1.to_breach(place));
    }
    let Some(text) = version.as_str() else {
        return Err(Rule::Form.to_breach(place));
    };
    if text != "v2" {
        return Err(Rule::KmsVersion.to_breach(place));
    }
    Ok(())
}

/// Whether its endpoint begins `unix://`, or which rule it breaks.
#[tactic(auto, unfolding(crate::specs::Walk::endpoint_at))]
fn check_endpoint(place: ConfigPlace, value: &Value) -> Result<(), ConfigNo>
    ensures { Checks (endpoint_at place (view value.now)) result }
{
    let Some(text) = text_under_key(value, "endpoint") else {
        return Err(Rule::Form.to_breach(place));
    };
    if !text.as_bytes().starts_with(b"unix://") {
        return Err(Rule::Endpoint.to_breach(place));
    }
    Ok(())
}
