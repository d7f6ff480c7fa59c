//! Texts in YAML, as the values that JSON's texts have.
ghost use Rattle.std.specs.Prelude.{◌≡◌, [], IfOk};
ghost use Rattle.serde_json.specs.Data.{no_members};
ghost use Rattle.serde_json.specs.View.{view, items_view, members_view};
ghost use Rattle.kr_yaml.specs.Data.{items_of, members_of};
ghost use Rattle.kr_yaml.specs.Shown as shown;
ghost use Rattle.kr_config.specs.Yaml.{json_of, json_items, json_members};
ghost use Rattle.kr_config.specs.inner.Reads.{ReadsYaml, Restates};

use crate::refusal::{ConfigErr, ConfigNo, YamlRule};
use kr_base::NoMemory;
use kr_yaml::{Member, Tree, YamlNo};
use serde_json::{Map, Value, put};
use std::alloc::Global;

/// The value of a text in YAML.
pub fn read_yaml(alloc: Global, text: &str) -> Result<Value, ConfigErr>
    ensures { ReadsYaml text.now result }
{
    let tree = match kr_yaml::read(alloc, text) {
        Ok(tree) => tree,
        Err(why) => return Err(restate(why)),
    };
    let value = tree_value(alloc, &tree);
    drop(tree);
    Ok(value?)
}

/// A breach of the YAML profile, as the configuration's.
fn restate(why: YamlNo) -> ConfigErr
    ensures { Restates why result }
{
    match why {
        YamlNo::Outside { line } => ConfigErr::No(ConfigNo::Yaml(YamlRule::Outside, line)),
        YamlNo::Indent { line } => ConfigErr::No(ConfigNo::Yaml(YamlRule::Indent, line)),
        YamlNo::DuplicateKey { line } => ConfigErr::No(ConfigNo::Yaml(
            YamlRule::DuplicateKey,
            line,
        )),
        YamlNo::Deep { line } => ConfigErr::No(ConfigNo::Yaml(YamlRule::Deep, line)),
        YamlNo::NoMemory => ConfigErr::NoMemory,
    }
}

/// The tree as a value.
#[cycle(value)]
#[tactic(auto, using(crate::proofs::Conversions::as_object))]
fn tree_value(alloc: Global, tree: &Tree) -> Result<Value, NoMemory>
    ensures { IfOk result (λ value. view value ≡ json_of (shown.view tree.now)) }
{
    match tree {
        Tree::Null => Ok(Value::Null),
        Tree::Word(word) => Ok(Value::String(String::from_str(alloc, word.as_str())?)),
        Tree::Items(items) => Ok(Value::Array(tree_values(alloc, items.as_slice())?)),
        Tree::Members(members) => Ok(Value::Object(members_map(alloc, members.as_slice())?)),
    }
}

/// Trees as values.
#[cycle(value)]
#[tactic(auto, using(crate::proofs::Conversions::items_same))]
fn tree_values(alloc: Global, items: &[Tree]) -> Result<Vec<Value>, NoMemory>
    ensures { IfOk result (λ values. items_view values.items
        ≡ json_items (items_of (shown.views items.now))) }
{
    let mut values = Vec::with_capacity(alloc, items.len())?;
    for item in items {
        let value = tree_value(alloc, item)?;
        values.push(value)?;
    }
    Ok(values)
}

/// Members as a map of values.
#[cycle(value)]
#[tactic(auto, using(crate::proofs::Conversions::member_more, crate::proofs::Conversions::members_end))]
fn members_map(alloc: Global, members: &[Member]) -> Result<Map<String, Value>, NoMemory>
    ensures { IfOk result (λ map. members_view map.entries
        ≡ json_members no_members (members_of (shown.member_views members.now))) }
{
    let mut map = Map::new(alloc);
    for member in members {
        let value = tree_value(alloc, &member.value)?;
        put(&mut map, alloc, member.key.as_str(), value)?;
    }
    Ok(map)
}
