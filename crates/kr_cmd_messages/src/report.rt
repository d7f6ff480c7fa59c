//! What `rewrite` reports.
ghost use Rattle.std.specs.Prelude.{◌≡◌, ◌++◌, IfOk};
ghost use Rattle.kr_cmd_messages.specs.Receipts.{receipt};
ghost use Rattle.kr_cmd_messages.specs.Reports.{count_line, report_text};
ghost use Rattle.kr_cmd_messages.specs.inner.Sayings.{Says};

use crate::message::say;
use crate::text::add;
use itoa::Buffer;
use kr_base::{Bytes, Failed, NoMemory, Sink};
use std::alloc::Global;

/// What became of the rows that a rewrite looked at.
#[derive(Clone, Copy)]
pub struct RewriteCounts {
    /// Written anew.
    pub rewritten: u64,
    /// Not stale.
    pub fresh: u64,
    /// Written by another meanwhile.
    pub changed: u64,
    /// Left as they are, since they aren't read or can't be sealed.
    pub left: u64,
}

/// The report as a text.
pub fn report_text(alloc: Global, counts: RewriteCounts) -> Result<Bytes, NoMemory>
    ensures { IfOk result (λ text. text ≡ report_text counts) }
{
    let mut text = Vec::new(alloc);
    add_count(&mut text, "rewritten", counts.rewritten)?;
    add_count(&mut text, "fresh", counts.fresh)?;
    add_count(&mut text, "changed", counts.changed)?;
    add_count(&mut text, "left", counts.left)?;
    Ok(Bytes::from_vec(text))
}

/// Adds a line of a word and a count.
pub fn add_count(text: &mut Vec<u8>, word: &str, count: u64) -> Result<(), NoMemory>
    ensures { IfOk result (λ done. text.new.items ≡ text.old.items ++ count_line word.now count) }
{
    let mut buffer = Buffer::new();
    add(text, word)?;
    add(text, " ")?;
    add(text, buffer.format(count))?;
    add(text, "\n")
}

/// Writes the report. It takes no memory.
pub fn write_report<S: Sink>(sink: &mut S, counts: RewriteCounts) -> Result<(), Failed>
    ensures { Says (receipt (S.held sink.old) (S.held sink.new) (S.count sink.old)
        (S.count sink.new)) (report_text counts) result }
{
    let mut rewritten = Buffer::new();
    let mut fresh = Buffer::new();
    let mut changed = Buffer::new();
    let mut left = Buffer::new();
    say(
        sink,
        &[
            "rewritten ",
            rewritten.format(counts.rewritten),
            "\nfresh ",
            fresh.format(counts.fresh),
            "\nchanged ",
            changed.format(counts.changed),
            "\nleft ",
            left.format(counts.left),
            "\n",
        ],
    )
}
