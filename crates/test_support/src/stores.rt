//! Stores in memory by lines, and their rows as lines.
use crate::page::Page;
use crate::words::{parse_hex, parse_longs, split_number, two_words};
use crate::wrong::Wrong;
use kr_base::{Bytes, List, MemTape, both};
use kr_store::{Row, RowRef, Store};
use std::alloc::Global;

/// What a row's line says of the row's check.
#[derive(Clone, Copy)]
pub enum Checks {
    /// Whether it has one: `checked` or `bare`.
    Told,
    /// Nothing.
    Untold,
}

/// `HEX LIMIT FAILS`: a store of the tape's bytes, on a tape that has room for so many; the writes
/// of these numbers fail.
pub fn load_store(alloc: Global, words: &str, room: usize) -> Result<Store<MemTape>, Wrong> {
    let (content, rest) = two_words(words)?;
    let (limit, fails) = split_number(rest)?;
    let (content, fails) = both(parse_hex(alloc, content), parse_longs(alloc, fails))?;
    let tape = failing_tape(alloc, content, fails, room)?;
    match Store::load(alloc, tape, limit as u64) {
        Ok(store) => Ok(store),
        Err(refused) => {
            drop(refused);
            Err(Wrong::Form)
        }
    }
}

/// A tape of these bytes, whose writes of these numbers fail.
fn failing_tape(
    alloc: Global,
    content: Vec<u8>,
    fails: List<u64>,
    room: usize,
) -> Result<MemTape, Wrong> {
    if content.len() > room {
        drop(content);
        drop(fails);
        return Err(Wrong::Form);
    }
    let (reads, settles) = (List::new(alloc), List::new(alloc));
    Ok(MemTape::new(Bytes::from_vec(content), room, reads, fails, settles)?)
}

/// Adds a line for each row of the store: its revision and path, and that it was deleted, or its
/// parts as `add_parts` tells them.
pub fn add_row_lines(page: &mut Page, store: &Store<MemTape>, checks: Checks) {
    for before in 0..store.revision() {
        let revision = before + 1;
        match store.row_by_revision(revision) {
            Some(RowRef::Put(row)) => add_put(page, row, checks),
            Some(RowRef::Delete(path)) => add_delete(page, revision, path),
            None => {}
        }
    }
}

fn add_put(page: &mut Page, row: &Row, checks: Checks) {
    page.counted("row", row.revision);
    add_parts(page, row, checks);
    page.end_line();
}

fn add_delete(page: &mut Page, revision: u64, path: &str) {
    page.counted("row", revision);
    page.named(path, "deleted");
    page.end_line();
}

/// Adds a row's path and resource, the length of its value, and, where that is wanted, whether it
/// has a check.
pub fn add_parts(page: &mut Page, row: &Row, checks: Checks) {
    page.named(row.path.as_str(), row.resource.as_str());
    page.number(row.stored.as_slice().len() as u64);
    match checks {
        Checks::Told => page.word(if row.check.is_some() {
            "checked"
        } else {
            "bare"
        }),
        Checks::Untold => {}
    }
}
