//! `inspect`: input, split and read, what the value says of itself.
ghost use Rattle.std.specs.Prelude.{◌≡◌, ◌≢◌, ◌++◌, codes, decimal, Some, IfOk, map};
ghost use Rattle.std.specs.List.{concat};
ghost use Rattle.kr_envelope.specs.Limits.{number_of};
ghost use Rattle.kr_cmd_steps.specs.Environment.{Environment};
ghost use Rattle.kr_cmd_steps.specs.Commands.{steps};
ghost use Rattle.kr_cmd_steps.specs.Inspect.{kind_text, tag_line, annotation_line, object_lines, inspect_refusal};
ghost use Rattle.kr_cmd_steps.specs.Inspect.{Inspects, ShowsBody};
ghost use Rattle.kr_base.specs.Visible.{visible};
ghost use Rattle.kr_cmd_messages.specs.Texts.{line, word_and_number};
ghost use Rattle.kr_cmd_steps.specs.inner.Lent.{with_told_input};
ghost use Rattle.kr_cmd_steps.specs.inner.Phases.{Does, Yields};

use kr_base::{Bytes, NoMemory, Source, Text, push_visible};
use kr_cmd_messages::{Command, Direction, Outcome, Refusal, Stop, add, add_number, add_pair};
use kr_cmd_steps::{show, take_input};
use kr_envelope::{EncryptedObject, Kind, ObjectNo, SourceKind, Tagged, split};
use kr_provider::ValueNo;
use std::alloc::Global;

/// Makes the text of what the input, a stored value, says of itself.
pub fn inspect<I: Source>(alloc: Global, input: &mut I) -> Result<Outcome, Stop>
    ensures { (a : Environment) → Does (steps Command.Inspect)
        (with_told_input (I.left input.old) (I.count input.old) a)
        (with_told_input (I.left input.new) (I.count input.new) a) result }
{
    let bytes = match take_input(alloc, input, Direction::Decrypt) {
        Ok(bytes) => bytes,
        Err(stop) => return Err(stop),
    };
    show(inspected(alloc, bytes.as_slice()))
}

/// What a value says of itself.
fn inspected(alloc: Global, bytes: &[u8]) -> Result<Bytes, Stop>
    ensures { Yields (Inspects bytes.now) result }
{
    match split(bytes) {
        Tagged::Plain(content) => {
            let mut text = Vec::new(alloc);
            match add_count(&mut text, "plain", content.len()) {
                Ok(()) => Ok(Bytes::from_vec(text)),
                Err(_) => Err(Stop::NoMemory),
            }
        }
        Tagged::Known { kind, name, body } => known_lines(alloc, kind, name, body),
        Tagged::Strange => Err(Stop::Refused(Refusal::Value(ValueNo::NoProvider))),
    }
}

/// The lines of a value with a prefix.
fn known_lines(alloc: Global, kind: Kind, name: &str, body: &[u8]) -> Result<Bytes, Stop>
    ensures { Yields (ShowsBody kind name.now body.now) result }
{
    let mut text = Vec::new(alloc);
    match add_tag(&mut text, kind, name, body) {
        Ok(()) => {}
        Err(_) => return Err(Stop::NoMemory),
    }
    match kind {
        Kind::Aescbc => Ok(Bytes::from_vec(text)),
        Kind::Aesgcm => Ok(Bytes::from_vec(text)),
        Kind::Kms => {
            let object = match EncryptedObject::read(alloc, body) {
                Ok(object) => object,
                Err(ObjectNo::NoMemory) => return Err(Stop::NoMemory),
                Err(why) => return Err(Stop::Refused(inspect_refusal(why))),
            };
            let added = add_object(&mut text, &object);
            drop(object);
            match added {
                Ok(()) => Ok(Bytes::from_vec(text)),
                Err(_) => Err(Stop::NoMemory),
            }
        }
    }
}

/// Why bytes are no object.
fn inspect_refusal(why: ObjectNo) -> Refusal
    requires { why ≢ ObjectNo.NoMemory }
    ensures { inspect_refusal why ≡ Some result }
{
    match why {
        ObjectNo::Wire { at } => Refusal::Placed(ValueNo::Wire, at),
        ObjectNo::KeyId => Refusal::Value(ValueNo::KeyId),
        ObjectNo::Source => Refusal::Value(ValueNo::Source),
        ObjectNo::Annotations => Refusal::Value(ValueNo::Annotations),
        ObjectNo::SourceType => Refusal::Value(ValueNo::SourceType),
        ObjectNo::NoData => Refusal::Value(ValueNo::NoData),
        ObjectNo::NotUtf8 { at } => Refusal::Placed(ValueNo::NotUtf8, at),
        ObjectNo::NoMemory => unreachable!(),
    }
}

/// A kind of provider as it is printed.
pub fn kind_text(kind: Kind) -> &'static str
    ensures { result.now ≡ kind_text kind }
{
    match kind {
        Kind::Aescbc => "aescbc",
        Kind::Aesgcm => "aesgcm",
        Kind::Kms => "kms",
    }
}

fn kind_number(kind: SourceKind) -> usize
    ensures { result ≡ number_of kind }
{
    match kind {
        SourceKind::Key => 0,
        SourceKind::Seed => 1,
    }
}

/// Adds the line of the kind, the name and the length of the body.
fn add_tag(text: &mut Vec<u8>, kind: Kind, name: &str, body: &[u8]) -> Result<(), NoMemory>
    ensures { IfOk result
        (λ done. text.new.items ≡ text.old.items ++ tag_line kind name.now body.now) }
{
    add_pair(text, kind_text(kind), " ")?;
    add_count(text, name, body.len())
}

/// Adds the lines of an object.
fn add_object(text: &mut Vec<u8>, object: &EncryptedObject) -> Result<(), NoMemory>
    ensures { IfOk result (λ done. text.new.items ≡ text.old.items ++ object_lines object.now) }
{
    add_key_id(text, object.key_id.as_str())?;
    add_count(text, "source", object.source.as_slice().len())?;
    add_annotations(text, object.annotations.pairs())?;
    add_count(text, "type", kind_number(object.kind))?;
    add_count(text, "data", object.encrypted.as_slice().len())
}

fn add_key_id(text: &mut Vec<u8>, key_id: &str) -> Result<(), NoMemory>
    ensures { IfOk result (λ done. text.new.items
        ≡ text.old.items ++ line (codes "key-id " ++ visible key_id.now)) }
{
    add(text, "key-id ")?;
    push_visible(text, key_id)?;
    add(text, "\n")
}

fn add_annotations(text: &mut Vec<u8>, pairs: &[(Text, Bytes)]) -> Result<(), NoMemory>
    ensures { IfOk result (λ done. text.new.items
        ≡ text.old.items ++ concat (map annotation_line pairs.now)) }
{
    for pair in pairs {
        add_annotation(text, pair.0.as_str(), pair.1.as_slice())?;
    }
    Ok(())
}

fn add_annotation(text: &mut Vec<u8>, key: &str, value: &[u8]) -> Result<(), NoMemory>
    ensures { IfOk result (λ done. text.new.items
        ≡ text.old.items ++ annotation_line (key.now, value.now)) }
{
    add(text, "annotation ")?;
    add_visible_count(text, key, value.len())
}

/// Adds a line of a foreign text and a number.
fn add_visible_count(text: &mut Vec<u8>, foreign: &str, number: usize) -> Result<(), NoMemory>
    ensures { IfOk result (λ done. text.new.items
        ≡ text.old.items ++ line (word_and_number (visible foreign.now) number)) }
{
    push_visible(text, foreign)?;
    add_size(text, number)
}

/// Adds a line of a word and a number.
fn add_count(text: &mut Vec<u8>, word: &str, number: usize) -> Result<(), NoMemory>
    ensures { IfOk result (λ done. text.new.items
        ≡ text.old.items ++ line (word_and_number word.now number)) }
{
    add(text, word)?;
    add_size(text, number)
}

/// Adds the end of such a line.
fn add_size(text: &mut Vec<u8>, number: usize) -> Result<(), NoMemory>
    ensures { IfOk result (λ done. text.new.items
        ≡ text.old.items ++ (codes " " ++ (decimal number ++ codes "\n"))) }
{
    add(text, " ")?;
    add_number(text, number)?;
    add(text, "\n")
}
