//! What the fields of an encrypted object say.
ghost use Rattle.std.specs.Prelude.{◌≡◌, Result};
ghost use Rattle.kr_envelope.specs.Wire.{bytes};
ghost use Rattle.kr_envelope.specs.Messages.{bytes_at, of_bytes};
ghost use Rattle.kr_envelope.specs.inner.Taking.{field_of};
ghost use Rattle.kr_envelope.specs.inner.Reading.{Says, TakesItem, later};

use crate::wire::{Payload, WireField, take_field};
use std::str::from_utf8;

/// What a field says of the object.
#[derive(Clone, Copy, Debug)]
pub enum WireItem<'a> {
    Encrypted(&'a [u8]),
    KeyId(&'a str),
    Source(&'a [u8]),
    Annotation(&'a str, &'a [u8]),
    Kind(u32),
    /// Nothing: it isn't one of the object's own fields.
    Other,
}

/// Why there is no item.
#[derive(Clone, Copy, Debug)]
pub enum ItemNo {
    /// What stands there is no field, or an annotation that isn't a list of fields.
    Wire,
    /// The key id, or the key of the annotation, isn't UTF-8.
    NotUtf8,
}

/// The item at the front, and what follows it.
pub fn take_item<'a>(text: &'a [u8]) -> Result<(WireItem<'a>, &'a [u8]), ItemNo>
    ensures { TakesItem text.now result }
{
    let Some((field, rest)) = take_field(text) else {
        return Err(ItemNo::Wire);
    };
    match meaning(field) {
        Ok(item) => Ok((item, rest)),
        Err(why) => Err(why),
    }
}

/// What the field says.
fn meaning<'a>(field: WireField<'a>) -> Result<WireItem<'a>, ItemNo>
    ensures { Says (field_of field.entry) result }
{
    match field.payload {
        Payload::Bytes(content) => meaning_of_bytes(field.number, content),
        Payload::Varint(n) => {
            if field.number == 5 {
                return Ok(WireItem::Kind((n % (1 << 32)) as u32));
            }
            Ok(WireItem::Other)
        }
        Payload::Fixed64(_) => Ok(WireItem::Other),
        Payload::Fixed32(_) => Ok(WireItem::Other),
    }
}

/// What the bytes under this number say.
fn meaning_of_bytes<'a>(number: u64, content: &'a [u8]) -> Result<WireItem<'a>, ItemNo>
    ensures { Says (of_bytes number content.now) result }
{
    match number {
        1 => Ok(WireItem::Encrypted(content)),
        2 => match from_utf8(content) {
            Ok(text) => Ok(WireItem::KeyId(text)),
            Err(_) => Err(ItemNo::NotUtf8),
        },
        3 => Ok(WireItem::Source(content)),
        4 => entry(content),
        _ => Ok(WireItem::Other),
    }
}

/// The annotation that these bytes are.
fn entry<'a>(text: &'a [u8]) -> Result<WireItem<'a>, ItemNo>
    ensures { Says (of_bytes 4 text.now) result }
{
    let mut key: &[u8] = &[];
    let mut value: &[u8] = &[];
    let mut rest = text;
    while !rest.is_empty() {
        let Some((field, behind)) = take_field(rest) else {
            return Err(ItemNo::Wire);
        };
        key = latest(1, &field, key);
        value = latest(2, &field, value);
        rest = behind;
    }
    match from_utf8(key) {
        Ok(key) => Ok(WireItem::Annotation(key, value)),
        Err(_) => Err(ItemNo::NotUtf8),
    }
}

/// The bytes of the field, where they are of this number, or else those before.
fn latest<'a>(number: u64, field: &WireField<'a>, before: &'a [u8]) -> &'a [u8]
    ensures { result.now ≡ later before.now (bytes_at number (field_of field.now)) }
{
    match field.payload {
        Payload::Bytes(content) => {
            if field.number == number {
                return content;
            }
            before
        }
        _ => before,
    }
}
