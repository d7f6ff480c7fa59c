//! Members of requests and replies, as both ends of a line read and write them.
ghost use Rattle.std.specs.Prelude.{◌≡◌, ◌<◌, ◌≤◌, false, ◌∷◌, ◌++◌, [], All, codes, decimal, IfOk, OnOk, Some};
ghost use Rattle.std.specs.Option.{option_map};
ghost use Rattle.std.specs.Prelude.{option_and_then};
ghost use Rattle.serde_json.specs.Data.{depth, put, string, object};
ghost use Rattle.serde_json.specs.Find.{get};
ghost use Rattle.serde_json.specs.Read.{max_depth};
ghost use Rattle.serde_json.specs.View.{view, members_view};
ghost use Rattle.serde_json.specs.Written.{compact_text, has_float};
ghost use Rattle.kr_base.specs.Pairs.{with_pair};
ghost use Rattle.kr_kms_wire.specs.Members.{text_of_bytes, pair_members, without_end, parsed_line_value, member_text};
ghost use Rattle.kr_kms_wire.specs.Members.{decoded_bytes, member_bytes, pairs_with, annotation_pairs, text_number, member_number};
ghost use Rattle.kr_kms_wire.specs.inner.Shapes.{Reads, ReadsValue};
ghost use Rattle.kr_kms_wire.specs.inner.Written.{ArePairs};

use base64::DecodeAllocError;
use base64::engine::general_purpose::STANDARD;
use itoa::Buffer;
use kr_base::{Annotations, Bytes, NoMemory, Text};
use serde_json::error::Category;
use serde_json::{Map, Value, put};
use std::alloc::Global;

/// Why a line has no value.
#[derive(Clone, Copy)]
pub(crate) enum MemberNo {
    /// It isn't JSON in UTF-8.
    NotJson,
    /// There was no memory for it.
    NoMemory,
}

/// Why a part of a line wasn't read.
#[derive(Clone, Copy)]
pub(crate) enum ShapeNo {
    /// It hasn't its shape.
    Shape,
    /// There was no memory for it.
    NoMemory,
}

// ---- written

/// The line of these members, with its LF.
pub(crate) fn members_line(alloc: Global, members: Map<String, Value>) -> Result<Bytes, NoMemory>
    requires floats { has_float (object (members_view members.entries)) ≡ false }
    requires nests { depth (object (members_view members.entries)) ≤ max_depth }
    ensures text { IfOk result (λ line. line
        ≡ compact_text (object (members_view members.entries)) ++ 0x0A ∷ []) }
    ensures read { IfOk result (λ line. parsed_line_value line
        ≡ Some (object (members_view members.entries))) }
{
    let value = object_value(members);
    let mut line = value.to_vec(alloc)?;
    line.push(b'\n')?;
    Ok(Bytes::from_vec(line))
}

/// An object of these members.
fn object_value(members: Map<String, Value>) -> Value
    ensures { view result ≡ object (members_view members.entries) }
{
    Value::Object(members)
}

/// A member for each pair.
pub(crate) fn annotation_members(
    alloc: Global,
    annotations: &Annotations,
) -> Result<Map<String, Value>, NoMemory>
    ensures { IfOk result (λ members. members_view members.entries
        ≡ pair_members annotations.now) }
{
    let mut members = Map::new(alloc);
    for (key, value) in annotations.pairs() {
        put_bytes(&mut members, alloc, key.as_str(), value.as_slice())?;
    }
    Ok(members)
}

/// Tells what the type of annotations keeps.
pub(crate) fn tell_pairs(annotations: &Annotations)
    ensures { ArePairs annotations.now }
{
    tell_values(annotations.pairs());
}

/// Tells that the value of each pair has bytes below 256.
fn tell_values(pairs: &[(Text, Bytes)])
    ensures { All (λ pair. All (λ byte. byte < 256) pair.1) pairs.now }
{
    for pair in pairs {
        pair.1.known();
    }
}

/// Puts a text at a member.
pub(crate) fn put_text(
    members: &mut Map<String, Value>,
    alloc: Global,
    key: &str,
    text: &str,
) -> Result<(), NoMemory>
    ensures { OnOk result (members_view members.new.entries
        ≡ put key.now (string text.now) (members_view members.old.entries)) }
{
    let value = Value::try_from_str(alloc, text)?;
    put(members, alloc, key, value)?;
    Ok(())
}

/// Puts bytes at a member.
pub(crate) fn put_bytes(
    members: &mut Map<String, Value>,
    alloc: Global,
    key: &str,
    bytes: &[u8],
) -> Result<(), NoMemory>
    ensures { OnOk result (members_view members.new.entries
        ≡ put key.now (text_of_bytes bytes.now) (members_view members.old.entries)) }
{
    let text = STANDARD.encode(alloc, bytes)?;
    put_text(members, alloc, key, text.as_str())
}

/// Puts a number at a member.
pub(crate) fn put_number(
    members: &mut Map<String, Value>,
    alloc: Global,
    key: &str,
    number: u64,
) -> Result<(), NoMemory>
    ensures { OnOk result (members_view members.new.entries
        ≡ put key.now (string (decimal number)) (members_view members.old.entries)) }
{
    let mut buffer = Buffer::new();
    put_text(members, alloc, key, buffer.format(number))
}

// ---- read

/// The JSON value of a line.
pub(crate) fn read_value(alloc: Global, line: &[u8]) -> Result<Value, MemberNo>
    ensures { ReadsValue line.now result }
{
    match Value::from_slice(alloc, strip_end(line)) {
        Ok(value) => Ok(value),
        Err(error) => match error.classify() {
            Category::Memory => Err(MemberNo::NoMemory),
            _ => Err(MemberNo::NotJson),
        },
    }
}

/// The line without its LF, if it has one.
fn strip_end(line: &[u8]) -> &[u8]
    ensures { result.now ≡ without_end line.now }
{
    let count = line.len();
    if count > 0 && line[count - 1] == b'\n' {
        &line[..count - 1]
    } else {
        line
    }
}

/// The text at a member.
pub(crate) fn member_text<'a>(value: &'a Value, key: &str) -> Option<&'a str>
    ensures { option_map (λ text. text.now) result ≡ member_text key.now (view value.now) }
{
    match value.get(key) {
        Some(value) => value.as_str(),
        None => None,
    }
}

/// A copy of the text at a member.
pub(crate) fn own_member_text(alloc: Global, value: &Value, key: &str) -> Result<Text, ShapeNo>
    ensures { Reads (member_text key.now (view value.now)) result }
{
    let Some(text) = member_text(value, key) else {
        return Err(ShapeNo::Shape);
    };
    match Text::copy(alloc, text) {
        Ok(text) => Ok(text),
        Err(_) => Err(ShapeNo::NoMemory),
    }
}

/// The bytes at a member.
pub(crate) fn member_bytes(alloc: Global, value: &Value, key: &str) -> Result<Bytes, ShapeNo>
    ensures { Reads (member_bytes key.now (view value.now)) result }
{
    match value.get(key) {
        Some(value) => decoded_bytes(alloc, value),
        None => Err(ShapeNo::Shape),
    }
}

/// The bytes that a text has.
fn decoded_bytes(alloc: Global, value: &Value) -> Result<Bytes, ShapeNo>
    ensures { Reads (decoded_bytes (view value.now)) result }
{
    let Some(text) = value.as_str() else {
        return Err(ShapeNo::Shape);
    };
    match STANDARD.decode(alloc, text.as_bytes()) {
        Ok(bytes) => Ok(Bytes::from_vec(bytes)),
        Err(DecodeAllocError::OutOfMemory) => Err(ShapeNo::NoMemory),
        Err(_) => Err(ShapeNo::Shape),
    }
}

/// The number at a member.
pub(crate) fn member_number(value: &Value, key: &str) -> Option<u64>
    ensures { result ≡ member_number key.now (view value.now) }
{
    match member_text(value, key) {
        Some(text) => text_number(text),
        None => None,
    }
}

/// The number that the text is written for.
fn text_number(text: &str) -> Option<u64>
    ensures { result ≡ text_number text.now }
{
    let Ok(number) = text.parse::<u64>() else {
        return None;
    };
    let mut buffer = Buffer::new();
    if buffer.format(number) == text {
        Some(number)
    } else {
        None
    }
}

/// The pairs at a member, one for each of its members.
pub(crate) fn member_pairs(alloc: Global, value: &Value, key: &str) -> Result<Annotations, ShapeNo>
    ensures { Reads (option_and_then annotation_pairs (get key.now (view value.now))) result }
{
    match value.get(key) {
        Some(value) => annotation_pairs(alloc, value),
        None => Err(ShapeNo::Shape),
    }
}

/// A pair for each member.
pub(crate) fn annotation_pairs(alloc: Global, value: &Value) -> Result<Annotations, ShapeNo>
    ensures { Reads (annotation_pairs (view value.now)) result }
{
    match value.as_object() {
        Some(members) => read_pairs(alloc, members),
        None => Err(ShapeNo::Shape),
    }
}

fn read_pairs(alloc: Global, members: &Map<String, Value>) -> Result<Annotations, ShapeNo>
    ensures { Reads (pairs_with [] (members_view members.now.entries)) result }
{
    let mut found = Annotations::new(alloc);
    for (key, value) in members.iter() {
        let bytes = decoded_bytes(alloc, value)?;
        match add_pair(alloc, &mut found, key.as_str(), bytes) {
            Ok(()) => {}
            Err(_) => return Err(ShapeNo::NoMemory),
        }
    }
    Ok(found)
}

fn add_pair(alloc: Global, found: &mut Annotations, key: &str, bytes: Bytes) -> Result<(), NoMemory>
    ensures { OnOk result (found.new ≡ with_pair found.old key.now bytes) }
{
    let key = Text::copy(alloc, key)?;
    found.insert(key, bytes)
}
