//! Reading a configuration.
ghost use Rattle.std.specs.Prelude.{◌≡◌, map, []};
ghost use Rattle.serde_json.specs.View.{view};
ghost use Rattle.serde_json.specs.Read.{read};
ghost use Rattle.kr_config.specs.Walk.{walk, entry_step, config_in};
ghost use Rattle.kr_config.specs.Meanings.{begins_json, is_json_blank, json_rows, MeansYaml, TextMeans};
ghost use Rattle.kr_config.specs.Meanings.{no_text, MeansConfig};
ghost use Rattle.kr_config.specs.Meanings.{ReadsSettings};
ghost use Rattle.kr_config.specs.inner.Reads.{ReadsEntries, ReadsMeant, ReadsJson};

use crate::counts::{count_provider_keys, count_provider_plugins};
use crate::place::{Counts, start};
use crate::read_entry::read_entry;
use crate::refusal::{ConfigErr, ConfigNo, Counted, Rule, YamlRule};
use crate::settings::{Entry, Settings};
use crate::tree::{has_text, is_mapping, named_list};
use crate::yaml::read_yaml;
use kr_base::List;
use serde_json::Value;
use serde_json::error::Category;
use std::alloc::Global;
use std::str;

/// Reads a configuration, in JSON where its first byte other than space, tab, CR and LF is `{`, and
/// else in YAML. Its walk goes over the whole, the entries in order, and in each the patterns and
/// then the provider elements; the first breach decides. Members that no rule names are ignored.
#[tactic(auto, using(crate::proofs::Meant::text_kept))]
pub fn read(alloc: Global, bytes: &[u8]) -> Result<Settings, ConfigErr>
    ensures { ReadsSettings (MeansConfig bytes.now) result }
{
    let is_json = begins_json(bytes);
    let text = match str::from_utf8(bytes) {
        Ok(text) => text,
        Err(_) => return Err(ConfigErr::No(no_text(is_json))),
    };
    let entries = match read_text(alloc, is_json, text) {
        Ok(entries) => entries,
        Err(why) => return Err(why),
    };
    match Settings::from_entries(alloc, entries) {
        Ok(settings) => Ok(settings),
        Err(_) => Err(ConfigErr::NoMemory),
    }
}

/// The breach of bytes that aren't UTF-8.
fn no_text(is_json: bool) -> ConfigNo
    ensures { result ≡ no_text is_json }
{
    if is_json {
        return Rule::Json.to_breach(start());
    }
    ConfigNo::Yaml(YamlRule::NotUtf8, 0)
}

/// Reads a text in JSON or in YAML.
fn read_text(alloc: Global, is_json: bool, text: &str) -> Result<List<Entry>, ConfigErr>
    ensures { ReadsMeant (TextMeans is_json text.now) result }
{
    if is_json {
        return read_json_text(alloc, text);
    }
    read_yaml_text(alloc, text)
}

/// Reads a text in JSON.
#[tactic(auto, unfolding(crate::specs::Meanings::json_rows))]
fn read_json_text(alloc: Global, text: &str) -> Result<List<Entry>, ConfigErr>
    ensures { ReadsEntries (json_rows text.now) result }
{
    match read_json(alloc, text) {
        Ok(value) => read_config(alloc, &value),
        Err(JsonNo::Form) => Err(ConfigErr::No(Rule::Json.to_breach(start()))),
        Err(JsonNo::NoMemory) => Err(ConfigErr::NoMemory),
    }
}

/// Reads a text in YAML.
fn read_yaml_text(alloc: Global, text: &str) -> Result<List<Entry>, ConfigErr>
    ensures { ReadsMeant (MeansYaml text.now) result }
{
    let value = read_yaml(alloc, text)?;
    read_config(alloc, &value)
}

/// Whether the first byte other than space, tab, CR and LF is `{`.
fn begins_json(bytes: &[u8]) -> bool
    ensures { result ≡ begins_json bytes.now }
{
    for byte in bytes {
        if !is_json_blank(*byte) {
            return *byte == b'{';
        }
    }
    false
}

/// Whether it is a space, tab, CR or LF.
fn is_json_blank(byte: u8) -> bool
    ensures { result ≡ is_json_blank byte }
{
    byte == b' ' || byte == b'\t' || byte == b'\r' || byte == b'\n'
}

/// Why a text wasn't read as JSON.
enum JsonNo {
    /// It isn't JSON.
    Form,
    /// There was no memory.
    NoMemory,
}

/// The JSON value of a text.
fn read_json(alloc: Global, text: &str) -> Result<Value, JsonNo>
    ensures { ReadsJson (read text.now) result }
{
    match Value::from_str(alloc, text) {
        Ok(value) => Ok(value),
        Err(error) => match error.classify() {
            Category::Memory => Err(JsonNo::NoMemory),
            _ => Err(JsonNo::Form),
        },
    }
}

/// Reads the tree of a configuration.
#[tactic(auto, unfolding(crate::specs::Walk::config_in))]
fn read_config(alloc: Global, value: &Value) -> Result<List<Entry>, ConfigErr>
    ensures { ReadsEntries (config_in (view value.now)) result }
{
    if !is_mapping(value) {
        return Err(ConfigErr::No(Rule::Form.to_breach(start())));
    }
    if !has_text(value, "apiVersion", "apiserver.config.k8s.io/v1") {
        return Err(ConfigErr::No(Rule::ApiVersion.to_breach(start())));
    }
    if !has_text(value, "kind", "EncryptionConfiguration") {
        return Err(ConfigErr::No(Rule::Kind.to_breach(start())));
    }
    let entries = named_list(value, "resources", start())?;
    if entries.len() > Counted::Entries.limit() as usize {
        return Err(ConfigErr::No(ConfigNo::Limit(Counted::Entries)));
    }
    read_entries(alloc, entries)
}

/// Reads the entries in their order, and counts what they have.
#[tactic(auto, using(crate::proofs::EntryLoop::reading_begins, crate::proofs::EntryLoop::reading_more, crate::proofs::EntryLoop::reading_stops, crate::proofs::EntryLoop::reading_ends, crate::proofs::EntryLoop::few_patterns, crate::proofs::EntryLoop::few_keys, crate::proofs::EntryLoop::few_plugins))]
fn read_entries(alloc: Global, values: &[Value]) -> Result<List<Entry>, ConfigErr>
    ensures { ReadsEntries (walk entry_step 0 [] (map view values.now)) result }
{
    let mut entries = List::new(alloc);
    let mut number: u32 = 0;
    let mut patterns = 0;
    let mut keys = 0;
    let mut plugins = 0;
    for value in values {
        let counts = Counts {
            patterns,
            keys,
            plugins,
        };
        let entry = read_entry(alloc, counts, number, value)?;
        patterns += entry.patterns.as_slice().len();
        keys += count_provider_keys(entry.providers.as_slice());
        plugins += count_provider_plugins(entry.providers.as_slice());
        match entries.push(entry) {
            Ok(()) => {}
            Err(_) => return Err(ConfigErr::NoMemory),
        }
        number = number.saturating_add(1);
    }
    Ok(entries)
}
