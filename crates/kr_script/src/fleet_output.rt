//! Writing the fleet's output.
ghost use Rattle.std.specs.Prelude.{◌≡◌, ◌≤◌, ◌++◌, codes, OnOk, OnErr, IsErrOf, map};
ghost use Rattle.std.specs.Io.KnownBytes.{Appends};
ghost use Rattle.kr_base.specs.Faults.{Rose, counted, tells_fault};
ghost use Rattle.kr_base.specs.Streams.{AppendsFront};
ghost use Rattle.kr_script.specs.Fleets.{fleet_of, worker_of};
ghost use Rattle.kr_script.specs.Output.{journal_text, journal_texts, told_text, told_texts};
ghost use Rattle.kr_script.specs.Output.{all_texts, lines_text};
ghost use Rattle.kr_script.specs.Output.{told_at, fleet_output, write_failed};
ghost use Rattle.kr_script.specs.inner.Writing.{Wrote};

use crate::journal_text::set_line;
use crate::line_text::LineText;
use crate::reply_text::set_reply;
use crate::script::{Part, Script};
use crate::told::{Told, WriteNo};
use kr_base::{List, Sink, write_all};
use kr_rollout::Line;
use std::alloc::Global;

/// Writes the fleet's output: the lines of the journal, and behind them what each worker told of
/// its lines, in the order of the file. After a refusal the sink has taken a prefix of it. It
/// keeps one line in memory at a time. A seat above the workers and a replica above the replicas
/// are printed as nothing.
pub fn write_fleet<K: Sink>(
    alloc: Global,
    sink: &mut K,
    script: &Script,
    journal: &[Line],
    replies: &[List<Told>],
) -> Result<(), WriteNo>
    ensures ok { OnOk result (Appends (K.held sink.old) (K.held sink.new)
        (fleet_output (fleet_of script.now) journal.now replies.now)) }
    ensures err { OnErr result (AppendsFront (K.held sink.old) (K.held sink.new)
        (fleet_output (fleet_of script.now) journal.now replies.now)) }
    ensures later { K.count sink.old ≤ K.count sink.new }
    ensures failed { IsErrOf result WriteNo.Failed
        → Rose (K.count sink.old) (K.count sink.new) }
    ensures once { K.count sink.new
        ≡ counted (tells_fault write_failed result) (K.count sink.old) }
{
    write_parts(alloc, sink, script, journal, replies)
}

fn write_parts<K: Sink>(
    alloc: Global,
    sink: &mut K,
    script: &Script,
    journal: &[Line],
    replies: &[List<Told>],
) -> Result<(), WriteNo>
    ensures { Wrote (K.held sink.old) (K.held sink.new) (K.count sink.old) (K.count sink.new)
        (fleet_output (fleet_of script.now) journal.now replies.now) result }
{
    let mut text = LineText::new(alloc);
    match put(sink, b"journal\n") {
        Ok(()) => {}
        Err(why) => return Err(why),
    }
    match write_journal(sink, &mut text, script, journal) {
        Ok(()) => {}
        Err(why) => return Err(why),
    }
    match put(sink, b"replies\n") {
        Ok(()) => {}
        Err(why) => return Err(why),
    }
    match write_replies(alloc, sink, &mut text, script.workers.as_slice(), replies) {
        Ok(()) => {}
        Err(why) => return Err(why),
    }
    put(sink, b"end\n")
}

fn put<K: Sink>(sink: &mut K, bytes: &[u8]) -> Result<(), WriteNo>
    ensures { Wrote (K.held sink.old) (K.held sink.new) (K.count sink.old) (K.count sink.new)
        bytes.now result }
{
    match write_all(sink, bytes) {
        Ok(()) => Ok(()),
        Err(_) => Err(WriteNo::Failed),
    }
}

/// Writes the text as it stands.
fn put_text<K: Sink>(sink: &mut K, text: &LineText) -> Result<(), WriteNo>
    ensures { Wrote (K.held sink.old) (K.held sink.new) (K.count sink.old) (K.count sink.new)
        text.now.bytes.items result }
{
    put(sink, text.bytes.as_slice())
}

fn write_line<K: Sink>(
    sink: &mut K,
    text: &mut LineText,
    script: &Script,
    number: usize,
    line: &Line,
) -> Result<(), WriteNo>
    ensures { Wrote (K.held sink.old) (K.held sink.new) (K.count sink.old) (K.count sink.new)
        (journal_text (fleet_of script.now) number line.now ++ codes "\n") result }
{
    match set_line(text, script, number, line) {
        Ok(()) => put_text(sink, text),
        Err(_) => Err(WriteNo::NoMemory),
    }
}

fn write_reply<K: Sink>(
    alloc: Global,
    sink: &mut K,
    text: &mut LineText,
    worker: &str,
    number: u64,
    reply: &Told,
) -> Result<(), WriteNo>
    ensures { Wrote (K.held sink.old) (K.held sink.new) (K.count sink.old) (K.count sink.new)
        (told_text worker.now number reply.now ++ codes "\n") result }
{
    match set_reply(alloc, text, worker, number, reply) {
        Ok(()) => put_text(sink, text),
        Err(_) => Err(WriteNo::NoMemory),
    }
}

fn write_journal<K: Sink>(
    sink: &mut K,
    text: &mut LineText,
    script: &Script,
    journal: &[Line],
) -> Result<(), WriteNo>
    ensures { Wrote (K.held sink.old) (K.held sink.new) (K.count sink.old) (K.count sink.new)
        (lines_text (journal_texts (fleet_of script.now) 0 journal.now)) result }
{
    for (number, line) in journal.iter().enumerate() {
        match write_line(sink, text, script, number, line) {
            Ok(()) => {}
            Err(why) => return Err(why),
        }
    }
    Ok(())
}

fn write_replies<K: Sink>(
    alloc: Global,
    sink: &mut K,
    text: &mut LineText,
    workers: &[Part],
    replies: &[List<Told>],
) -> Result<(), WriteNo>
    ensures { Wrote (K.held sink.old) (K.held sink.new) (K.count sink.old) (K.count sink.new)
        (lines_text (all_texts 0 replies.now (map worker_of workers.now))) result }
{
    for (place, worker) in workers.iter().enumerate() {
        let told = worker_replies(replies, place);
        match write_worker(alloc, sink, text, worker.name.as_str(), told) {
            Ok(()) => {}
            Err(why) => return Err(why),
        }
    }
    Ok(())
}

/// What the worker at this place told.
fn worker_replies(replies: &[List<Told>], place: usize) -> &[Told]
    ensures { result.now ≡ told_at replies.now place }
{
    match replies.get(place) {
        Some(told) => told.as_slice(),
        None => &[],
    }
}

fn write_worker<K: Sink>(
    alloc: Global,
    sink: &mut K,
    text: &mut LineText,
    worker: &str,
    replies: &[Told],
) -> Result<(), WriteNo>
    ensures { Wrote (K.held sink.old) (K.held sink.new) (K.count sink.old) (K.count sink.new)
        (lines_text (told_texts worker.now 1 replies.now)) result }
{
    let mut number: u64 = 1;
    for reply in replies {
        match write_reply(alloc, sink, text, worker, number, reply) {
            Ok(()) => {}
            Err(why) => return Err(why),
        }
        number += 1;
    }
    Ok(())
}
