//! The bytes of a row.
ghost use Rattle.std.specs.Prelude.{◌≡◌, ℕ, ◌∷◌, ◌++◌, ◌+◌, ◌^◌, ◌<◌, ◌≤◌, length, IfOk, OnOk};
ghost use Rattle.std.specs.Int.{w64, to_be_bytes};
ghost use Rattle.kr_store.specs.Rows.{longest_value, delete_of};
ghost use Rattle.kr_store.specs.File.{row_bytes, change_bytes, check_bytes, value_bytes, text_bytes, kind_byte, byte_kind};
ghost use Rattle.kr_store.specs.inner.KeptRows.{IsChange};
ghost use Rattle.kr_store.specs.inner.Writing.{lead};

use crate::format::{Check, Format, MAGIC_LENGTH};
use crate::rows::Change;
use kr_base::NoMemory;
use std::alloc::Global;

/// The bytes of the row with this revision; in an empty file they stand behind the magic.
pub(crate) fn row_bytes(
    alloc: Global,
    format: Format,
    empty: bool,
    revision: u64,
    path: &str,
    change: &Change,
) -> Result<Vec<u8>, NoMemory>
    requires path { length path.now < 2 ^ 16 }
    requires change { IsChange format change.now }
    ensures { IfOk result (λ bytes. bytes.items
        ≡ lead format empty
        ++ row_bytes revision (record { path = path.now; change = change.now })) }
{
    match change {
        Change::Put {
            resource,
            stored,
            check,
        } => {
            let behind = put_length(resource.as_str(), stored.as_slice(), check);
            let mut bytes = row_front(alloc, format, empty, revision, 1, path, behind)?;
            push_put(&mut bytes, resource.as_str(), stored.as_slice(), check)?;
            Ok(bytes)
        }
        Change::Delete => row_front(alloc, format, empty, revision, 2, path, 0),
    }
}

/// How many bytes those of a row are.
pub(crate) fn row_length(format: Format, empty: bool, path: &str, change: &Change) -> u64
    requires path { length path.now < 2 ^ 16 }
    requires change { IsChange format change.now }
    ensures length { (k : ℕ) → result
        ≡ length (lead format empty
        ++ row_bytes k (record { path = path.now; change = change.now })) }
    ensures small { result < 2 ^ 32 }
{
    match change {
        Change::Put {
            resource,
            stored,
            check,
        } => {
            let behind = put_length(resource.as_str(), stored.as_slice(), check);
            delete_length(format, empty, path) + behind as u64
        }
        Change::Delete => delete_length(format, empty, path),
    }
}

/// How many bytes a put has behind its path.
fn put_length(resource: &str, stored: &[u8], check: &Option<Check>) -> usize
    requires resource { length resource.now < 2 ^ 16 }
    requires stored { length stored.now ≤ longest_value }
    ensures length { result
        ≡ length (text_bytes resource.now ++ (check_bytes check.now ++ value_bytes stored.now)) }
    ensures small { result < 2 ^ 31 }
{
    match check {
        Some(_check) => resource.len() + stored.len() + 14,
        None => resource.len() + stored.len() + 6,
    }
}

/// How many bytes those of a delete are.
fn delete_length(format: Format, empty: bool, path: &str) -> u64
    requires { length path.now < 2 ^ 16 }
    ensures length { (k : ℕ) → result
        ≡ length (lead format empty ++ row_bytes k (delete_of path.now)) }
    ensures small { result < 2 ^ 17 }
{
    let lead = if empty { MAGIC_LENGTH } else { 0 };
    lead as u64 + 11 + path.len() as u64
}

/// What a put has behind its path.
fn push_put(
    bytes: &mut Vec<u8>,
    resource: &str,
    stored: &[u8],
    check: &Option<Check>,
) -> Result<(), NoMemory>
    requires resource { length resource.now < 2 ^ 16 }
    requires stored { length stored.now ≤ longest_value }
    ensures { OnOk result (bytes.new.items
        ≡ bytes.old.items
        ++ (text_bytes resource.now ++ (check_bytes check.now ++ value_bytes stored.now))) }
{
    push(bytes, &(resource.len() as u16).to_be_bytes())?;
    push(bytes, resource.as_bytes())?;
    push_check(bytes, check)?;
    push(bytes, &(stored.len() as u32).to_be_bytes())?;
    push(bytes, stored)
}

fn push_check(bytes: &mut Vec<u8>, check: &Option<Check>) -> Result<(), NoMemory>
    ensures { OnOk result (bytes.new.items ≡ bytes.old.items ++ check_bytes check.now) }
{
    match check {
        Some(check) => push(bytes, &check.value.to_be_bytes()),
        None => Ok(()),
    }
}

/// The front of a row, with room for so many bytes behind it.
fn row_front(
    alloc: Global,
    format: Format,
    empty: bool,
    revision: u64,
    kind: u8,
    path: &str,
    behind: usize,
) -> Result<Vec<u8>, NoMemory>
    requires path { length path.now < 2 ^ 16 }
    requires behind { behind < 2 ^ 32 }
    ensures { IfOk result (λ bytes. bytes.items
        ≡ lead format empty ++ kind ∷ (to_be_bytes w64 revision ++ text_bytes path.now)) }
{
    let mut bytes = Vec::with_capacity(alloc, MAGIC_LENGTH + 11 + path.len() + behind)?;
    if empty {
        push(&mut bytes, format.magic())?;
    }
    push(&mut bytes, &[kind])?;
    push(&mut bytes, &revision.to_be_bytes())?;
    push(&mut bytes, &(path.len() as u16).to_be_bytes())?;
    push(&mut bytes, path.as_bytes())?;
    Ok(bytes)
}

fn push(bytes: &mut Vec<u8>, more: &[u8]) -> Result<(), NoMemory>
    ensures { OnOk result (bytes.new.items ≡ bytes.old.items ++ more.now) }
{
    bytes.extend_from_slice(more)?;
    Ok(())
}
