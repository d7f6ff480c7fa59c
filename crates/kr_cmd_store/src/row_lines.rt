//! The lines of a store's live rows.
ghost use Rattle.std.specs.Prelude.{◌≡◌, ◌++◌, List, ℕ, IfOk, codes, decimal};
ghost use Rattle.kr_cmd_steps.specs.Inspect.{kind_text};
ghost use Rattle.kr_cmd_steps.specs.RowLines.{ShowsRows, IsTag, row_line, spaced_word};
ghost use Rattle.kr_cmd_steps.specs.inner.Phases.{Yields};
ghost use Rattle.kr_cmd_steps.specs.inner.Tapes.{walk_path};

use itoa::Buffer;
use kr_base::{Bytes, NoMemory, Shared, Tape};
use kr_cmd_messages::{Stop, add, add_number};
use kr_cmd_values::inspect::kind_text;
use kr_envelope::{Kind, Tagged, split};
use kr_store::{Row, Store};
use std::alloc::Global;

/// A line for each live row, by paths.
pub fn row_lines<T: Tape>(alloc: Global, store: &Store<T>) -> Result<Bytes, Stop>
    ensures { Yields (ShowsRows store.now.rows) result }
{
    store.known();
    let mut text = Vec::new(alloc);
    let mut last = None;
    loop {
        let row = match store.successor(walk_path(&last)) {
            Ok(Some(row)) => row,
            Ok(None) => return Ok(Bytes::from_vec(text)),
            Err(_) => return Err(Stop::NoMemory),
        };
        match add_row(&mut text, row.get()) {
            Ok(()) => {}
            Err(_) => return Err(Stop::NoMemory),
        }
        last = Some(row);
    }
}

/// The path of the row where the walk is; the empty one at its begin.
fn walk_path(last: &Option<Shared<Row>>) -> &str
    ensures { result.now ≡ walk_path last.now }
{
    match last {
        Some(row) => row.get().path.as_str(),
        None => "",
    }
}

/// Adds the line of the row: its revision, its resource, its path, and what wrote its value.
fn add_row(text: &mut Vec<u8>, row: &Row) -> Result<(), NoMemory>
    ensures { IfOk result (λ done. (tag : List ℕ) × IsTag row.now.stored tag
        × (text.new.items ≡ text.old.items ++ row_line row.now tag)) }
{
    add_revision(text, row.revision)?;
    add_word(text, row.resource.as_str())?;
    add_word(text, row.path.as_str())?;
    add_tag(text, row.stored.as_slice())?;
    add(text, "\n")
}

/// Adds the revision.
pub fn add_revision(text: &mut Vec<u8>, revision: u64) -> Result<(), NoMemory>
    ensures { IfOk result (λ done. text.new.items ≡ text.old.items ++ decimal revision) }
{
    let mut buffer = Buffer::new();
    add(text, buffer.format(revision))
}

/// Adds a word behind others.
pub fn add_word(text: &mut Vec<u8>, word: &str) -> Result<(), NoMemory>
    ensures { IfOk result (λ done. text.new.items ≡ text.old.items ++ spaced_word word.now) }
{
    add(text, " ")?;
    add(text, word)
}

/// Adds what the value's prefix says of who wrote it.
fn add_tag(text: &mut Vec<u8>, stored: &[u8]) -> Result<(), NoMemory>
    ensures { IfOk result (λ done. (tag : List ℕ) × IsTag stored.now tag
        × (text.new.items ≡ text.old.items ++ spaced_word tag)) }
{
    match split(stored) {
        Tagged::Plain(_content) => add(text, " plain"),
        Tagged::Known {
            kind,
            name,
            body: _body,
        } => add_provider(text, kind, name),
        Tagged::Strange => add(text, " strange"),
    }
}

fn add_provider(text: &mut Vec<u8>, kind: Kind, name: &str) -> Result<(), NoMemory>
    ensures { IfOk result (λ done. text.new.items
        ≡ text.old.items ++ spaced_word (kind_text kind ++ (codes ":" ++ name.now))) }
{
    add(text, " ")?;
    add(text, kind_text(kind))?;
    add(text, ":")?;
    add(text, name)
}
