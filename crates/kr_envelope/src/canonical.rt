//! Writing an encrypted object in its one form.
ghost use Rattle.std.specs.Prelude.{◌≡◌, ◌≤◌, ◌<◌, ◌+◌, ◌^◌, ◌++◌, ◌∷◌, length, OnOk};
ghost use Rattle.std.specs.List.{flat_map, All};
ghost use Rattle.std.specs.Str.{IsUtf8};
ghost use Rattle.kr_base.specs.Limits.{pairs_size, annotations_size_limit};
ghost use Rattle.kr_envelope.specs.Canonical.{shortest, content_field, fields_behind, pair_field, kind_field};

use crate::object::SourceKind;
use kr_base::{Annotations, Bytes, Text};
use std::alloc::AllocError;

/// Writes a number in as few groups as it needs.
fn push_number(out: &mut Vec<u8>, n: u64) -> Result<(), AllocError>
    ensures { OnOk result (out.new.items ≡ out.old.items ++ shortest n) }
{
    let mut rest = n;
    while rest >= 128 {
        out.push((rest % 128) as u8 + 128)?;
        rest /= 128;
    }
    out.push(rest as u8)?;
    Ok(())
}

/// How many groups a number of a small size needs.
fn group_count(n: usize) -> usize
    requires { n < 2097152 }
    ensures exact { result ≡ length (shortest n) }
    ensures few { result ≤ 3 }
{
    if n < 128 {
        1
    } else if n < 16_384 {
        2
    } else {
        3
    }
}

/// Writes a field of bytes, if there are any.
pub fn push_content(out: &mut Vec<u8>, number: u8, content: &[u8]) -> Result<(), AllocError>
    requires { number < 16 }
    ensures written { OnOk result
        (out.new.items ≡ out.old.items ++ content_field number content.now) }
    ensures fits { length content.now < 2 ^ 64 }
{
    if content.is_empty() {
        return Ok(());
    }
    out.push(number * 8 + 2)?;
    push_number(out, content.len() as u64)?;
    out.extend_from_slice(content)?;
    Ok(())
}

/// How many bytes a field of few bytes takes.
fn content_size(content: &[u8]) -> usize
    requires { length content.now ≤ annotations_size_limit }
    ensures exact { result ≡ length (content_field 1 content.now) }
    ensures other { result ≡ length (content_field 2 content.now) }
    ensures small { result ≤ 32772 }
{
    if content.is_empty() {
        return 0;
    }
    1 + group_count(content.len()) + content.len()
}

/// Writes an annotation.
fn push_pair(out: &mut Vec<u8>, key: &[u8], value: &[u8]) -> Result<(), AllocError>
    requires key { length key.now ≤ annotations_size_limit }
    requires value { length value.now ≤ annotations_size_limit }
    ensures { OnOk result (out.new.items ≡ out.old.items ++ pair_field (key.now, value.now)) }
{
    out.push(0x22)?;
    push_number(out, (content_size(key) + content_size(value)) as u64)?;
    push_content(out, 1, key)?;
    push_content(out, 2, value)?;
    Ok(())
}

/// Writes what stands in front of an object's data, of which there are so many bytes: the key of
/// their field and their size.
pub fn push_data_size(out: &mut Vec<u8>, size: usize) -> Result<(), AllocError>
    ensures { OnOk result (out.new.items ≡ out.old.items ++ 10 ∷ shortest size) }
{
    out.push(10)?;
    push_number(out, size as u64)?;
    Ok(())
}

/// Writes the fields behind an object's data.
pub fn push_last_fields(
    out: &mut Vec<u8>,
    key_id: &str,
    source: &[u8],
    annotations: &Annotations,
    kind: SourceKind,
) -> Result<(), AllocError>
    requires { pairs_size annotations.now ≤ annotations_size_limit }
    ensures { OnOk result (out.new.items
        ≡ out.old.items ++ fields_behind key_id.now source.now annotations.now kind) }
{
    push_content(out, 2, key_id.as_bytes())?;
    push_content(out, 3, source)?;
    push_pairs(out, annotations.pairs())?;
    push_kind(out, kind)?;
    Ok(())
}

/// Writes annotations in their order.
pub fn push_pairs(out: &mut Vec<u8>, pairs: &[(Text, Bytes)]) -> Result<(), AllocError>
    requires { pairs_size pairs.now ≤ annotations_size_limit }
    ensures written { OnOk result (out.new.items ≡ out.old.items ++ flat_map pair_field pairs.now) }
    // A text is UTF-8, which its type keeps and its bytes alone don't show.
    ensures texts { OnOk result (All (λ pair. IsUtf8 pair.0) pairs.now) }
{
    for (key, value) in pairs {
        push_pair(out, key.as_str().as_bytes(), value.as_slice())?;
    }
    Ok(())
}

/// Writes the source type, if it isn't 0.
pub fn push_kind(out: &mut Vec<u8>, kind: SourceKind) -> Result<(), AllocError>
    ensures { OnOk result (out.new.items ≡ out.old.items ++ kind_field kind) }
{
    match kind {
        SourceKind::Key => {}
        SourceKind::Seed => {
            out.push(0x28)?;
            out.push(1)?;
        }
    }
    Ok(())
}
