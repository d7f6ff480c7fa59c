//! The lines that `watch` prints.
ghost use Rattle.std.specs.Prelude.{◌≡◌, ◌++◌, IfOk, decimal};
ghost use Rattle.kr_script.specs.Output.{data_text};
ghost use Rattle.kr_cmd_watch.specs.WatchTexts.{change_line, changes_text, item_line, change_kind_text};
ghost use Rattle.kr_cmd_watch.specs.WatchTexts.{line, plain_text};
ghost use Rattle.kr_script.specs.Output.{two};

use base64::engine::general_purpose::STANDARD;
use itoa::Buffer;
use kr_base::{Bytes, NoMemory, Shared};
use kr_cmd_messages::add;
use kr_watch::{Item, ObjectChange, What};
use std::alloc::Global;

/// Adds the line of an object.
pub(crate) fn add_item(alloc: Global, text: &mut Vec<u8>, item: &Item) -> Result<(), NoMemory>
    ensures { IfOk result (λ done. text.new.items ≡ text.old.items ++ item_line item.now) }
{
    add_revision(text, item.revision)?;
    add(text, " ")?;
    add(text, item.path.as_str())?;
    add(text, " ")?;
    add_plain(alloc, text, &item.plain)?;
    add(text, "\n")
}

/// Adds the revision in decimal digits.
fn add_revision(text: &mut Vec<u8>, revision: u64) -> Result<(), NoMemory>
    ensures { IfOk result (λ done. text.new.items ≡ text.old.items ++ decimal revision) }
{
    let mut buffer = Buffer::new();
    add(text, buffer.format(revision))
}

/// Adds what is shown of an object's data.
fn add_plain(alloc: Global, text: &mut Vec<u8>, plain: &Option<Bytes>) -> Result<(), NoMemory>
    ensures { IfOk result (λ done. text.new.items ≡ text.old.items ++ plain_text plain.now) }
{
    match plain {
        Some(plain) => add_data(alloc, text, plain.as_slice()),
        None => add(text, "?"),
    }
}

/// Adds the data in base64, or `-`.
fn add_data(alloc: Global, text: &mut Vec<u8>, plain: &[u8]) -> Result<(), NoMemory>
    ensures { IfOk result (λ done. text.new.items ≡ text.old.items ++ data_text plain.now) }
{
    match plain {
        [] => add(text, "-"),
        [_, ..] => {
            let encoded = STANDARD.encode(alloc, plain)?;
            add(text, encoded.as_str())
        }
    }
}

/// The lines of changes, and the end.
pub(crate) fn changes_text(
    alloc: Global,
    changes: &[Shared<ObjectChange>],
) -> Result<Vec<u8>, NoMemory>
    ensures { IfOk result (λ text. text.items ≡ changes_text changes.now) }
{
    let mut text = Vec::new(alloc);
    for change in changes {
        add_change(&mut text, change.get())?;
    }
    add(&mut text, "end\n")?;
    Ok(text)
}

/// Adds the line of a change.
fn add_change(text: &mut Vec<u8>, change: &ObjectChange) -> Result<(), NoMemory>
    ensures { IfOk result (λ done. text.new.items ≡ text.old.items ++ change_line change.now) }
{
    add(text, "change ")?;
    add_revision(text, change.revision)?;
    add(text, " ")?;
    add(text, change_kind_text(change.what))?;
    add(text, " ")?;
    add(text, change.path.as_str())?;
    add(text, "\n")
}

fn change_kind_text(what: What) -> &'static str
    ensures { result.now ≡ change_kind_text what }
{
    match what {
        What::Put => "put",
        What::Delete => "delete",
        What::Replace => "replace",
    }
}

/// The one line of a word and a revision.
pub(crate) fn one_line(alloc: Global, word: &str, revision: u64) -> Result<Vec<u8>, NoMemory>
    ensures { IfOk result (λ text. text.items ≡ line (two word.now (decimal revision))) }
{
    let mut text = Vec::new(alloc);
    add(&mut text, word)?;
    add(&mut text, " ")?;
    add_revision(&mut text, revision)?;
    add(&mut text, "\n")?;
    Ok(text)
}
