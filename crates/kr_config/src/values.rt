//! Settings as JSON values.
ghost use Rattle.std.specs.Prelude.{◌≡◌, ◌++◌, IfOk, map};
ghost use Rattle.std.specs.String.{string_bytes};
ghost use Rattle.serde_json.specs.View.{view, items_view};
ghost use Rattle.serde_json.specs.View as json;
ghost use Rattle.kr_config.specs.Kept.{entry_lists, rows_of};
ghost use Rattle.kr_config.specs.Texts.{pattern_text, pattern_data, single, key_data, keys_data};
ghost use Rattle.kr_config.specs.Texts.{plugin_data, element_data, entry_data, settings_data};

use crate::pattern::Pattern;
use crate::settings::Entry;
use crate::who::Who;
use base64::engine::general_purpose::STANDARD;
use kr_base::NoMemory;
use serde_json::{Map, Value, json};
use std::alloc::Global;

/// The value of a configuration of these entries.
pub fn settings_value(alloc: Global, entries: &[Entry]) -> Result<Value, NoMemory>
    ensures { IfOk result (λ value. view value ≡ settings_data (rows_of entries.now)) }
{
    Ok(json!(in alloc; {
        "apiVersion": "apiserver.config.k8s.io/v1",
        "kind": "EncryptionConfiguration",
        "resources": Value::Array(entry_values(alloc, entries)?)
    })?)
}

#[tactic(auto, using(crate::proofs::ValueLoops::entries_more, crate::proofs::ValueLoops::entries_end))]
fn entry_values(alloc: Global, entries: &[Entry]) -> Result<Vec<Value>, NoMemory>
    ensures { IfOk result (λ values. items_view values.items
        ≡ json.items_of (map entry_data (rows_of entries.now))) }
{
    let mut values = Vec::with_capacity(alloc, entries.len())?;
    for entry in entries {
        values.push(entry_value(alloc, entry)?)?;
    }
    Ok(values)
}

fn entry_value(alloc: Global, entry: &Entry) -> Result<Value, NoMemory>
    ensures { IfOk result (λ value. view value ≡ entry_data (entry_lists entry.now)) }
{
    Ok(json!(in alloc; {
        "providers": Value::Array(element_values(alloc, entry.providers.as_slice())?),
        "resources": Value::Array(pattern_values(alloc, entry.patterns.as_slice())?)
    })?)
}

#[tactic(auto, using(crate::proofs::ValueLoops::values_more, crate::proofs::ValueLoops::values_end))]
fn pattern_values(alloc: Global, patterns: &[Pattern]) -> Result<Vec<Value>, NoMemory>
    ensures { IfOk result (λ values. items_view values.items
        ≡ json.items_of (map pattern_data patterns.now)) }
{
    let mut values = Vec::with_capacity(alloc, patterns.len())?;
    for pattern in patterns {
        values.push(pattern_value(alloc, pattern)?)?;
    }
    Ok(values)
}

fn pattern_value(alloc: Global, pattern: &Pattern) -> Result<Value, NoMemory>
    ensures { IfOk result (λ value. view value ≡ pattern_data pattern.now) }
{
    Ok(Value::String(pattern_text(alloc, pattern)?))
}

fn pattern_text(alloc: Global, pattern: &Pattern) -> Result<String, NoMemory>
    ensures { IfOk result (λ text. string_bytes text ≡ pattern_text pattern.now) }
{
    match pattern {
        Pattern::Exact(text) => Ok(String::from_str(alloc, text.as_str())?),
        Pattern::Group(group) => Ok(joined(alloc, "*.", group.as_str())?),
        Pattern::All => Ok(String::from_str(alloc, "*.*")?),
    }
}

/// The one text, and the other behind it.
fn joined(alloc: Global, one: &str, other: &str) -> Result<String, NoMemory>
    ensures { IfOk result (λ text. string_bytes text ≡ one.now ++ other.now) }
{
    let mut text = String::from_str(alloc, one)?;
    text.push_str(other)?;
    Ok(text)
}

#[tactic(auto, using(crate::proofs::ValueLoops::values_more, crate::proofs::ValueLoops::values_end))]
fn element_values(alloc: Global, providers: &[Who]) -> Result<Vec<Value>, NoMemory>
    ensures { IfOk result (λ values. items_view values.items
        ≡ json.items_of (map element_data providers.now)) }
{
    let mut values = Vec::with_capacity(alloc, providers.len())?;
    for who in providers {
        values.push(element_value(alloc, who)?)?;
    }
    Ok(values)
}

/// An element of the one provider.
fn element_value(alloc: Global, who: &Who) -> Result<Value, NoMemory>
    ensures { IfOk result (λ value. view value ≡ element_data who.now) }
{
    match who {
        Who::Identity => single(alloc, "identity", Value::Object(Map::new(alloc))),
        Who::Aescbc(name, secret) => {
            let keys = keys_value(alloc, name.as_str(), secret.as_slice())?;
            single(alloc, "aescbc", keys)
        }
        Who::Aesgcm(name, secret) => {
            let keys = keys_value(alloc, name.as_str(), secret.as_slice())?;
            single(alloc, "aesgcm", keys)
        }
        Who::Kms(name) => {
            let plugin = plugin_value(alloc, name.as_str())?;
            single(alloc, "kms", plugin)
        }
    }
}

/// An object of one member.
fn single(alloc: Global, key: &str, value: Value) -> Result<Value, NoMemory>
    ensures { IfOk result (λ object. view object ≡ single key.now (view value)) }
{
    Ok(json!(in alloc; {key: value})?)
}

/// What an element of keys has for one key.
fn keys_value(alloc: Global, name: &str, secret: &[u8]) -> Result<Value, NoMemory>
    ensures { IfOk result (λ value. view value ≡ keys_data name.now secret.now) }
{
    let key = key_value(alloc, name, secret)?;
    let keys = json!(in alloc; [key])?;
    single(alloc, "keys", keys)
}

/// One key.
fn key_value(alloc: Global, name: &str, secret: &[u8]) -> Result<Value, NoMemory>
    ensures { IfOk result (λ value. view value ≡ key_data name.now secret.now) }
{
    let secret = STANDARD.encode(alloc, secret)?;
    Ok(json!(in alloc; {"name": name, "secret": secret.as_str()})?)
}

/// What an element of a plugin has.
fn plugin_value(alloc: Global, name: &str) -> Result<Value, NoMemory>
    ensures { IfOk result (λ value. view value ≡ plugin_data name.now) }
{
    let endpoint = joined(alloc, "unix:///", name)?;
    Ok(json!(in alloc; {"apiVersion": "v2", "endpoint": endpoint.as_str(), "name": name})?)
}
