//! What is put into a store as it stands, and what is printed of it.
use kr_base::{Bytes, MemTape, VALUE_LIMIT, path_ok, resource_ok};
use kr_store::{Check, PutNo, Store};
use std::alloc::Global;
use test_support::{Checks, Page, Wrong, add_row_lines, parse_hex, parse_long, two_words};

/// `PATH RESOURCE CHECK HEX`: writes the row as it stands.
pub fn put_row(
    alloc: Global,
    store: &mut Store<MemTape>,
    page: &mut Page,
    rest: &str,
) -> Result<(), Wrong> {
    let (path, rest) = two_words(rest)?;
    let (resource, rest) = two_words(rest)?;
    let (check, stored) = two_words(rest)?;
    let check = Check {
        value: parse_long(check)?,
    };
    let stored = Bytes::from_vec(parse_hex(alloc, stored)?);
    if !path_ok(path) || !resource_ok(resource) || stored.as_slice().len() as u64 > VALUE_LIMIT {
        drop(stored);
        return Err(Wrong::Form);
    }
    match store.put(path, resource, stored, check) {
        Ok(revision) => page.counted("written", revision),
        Err(PutNo::Failed) => page.word("failed"),
        Err(PutNo::Full { needed }) => page.counted("full", needed),
        Err(refused) => {
            drop(refused);
            return Err(Wrong::Memory);
        }
    }
    page.end_line();
    Ok(())
}

/// The rows, and then how many there are, how long the file is, how often the tape failed and
/// whether a write is broken off.
pub fn add_rows(page: &mut Page, store: &Store<MemTape>) {
    add_row_lines(page, store, Checks::Told);
    page.counted("rows", store.revision());
    page.number(store.length());
    page.number(store.faults());
    page.word(if store.torn() { "torn" } else { "whole" });
    page.end_line();
}
