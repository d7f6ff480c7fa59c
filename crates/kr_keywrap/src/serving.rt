//! A plugin's loop: it reads requests as lines and answers each by a line.
ghost use Rattle.std.specs.Prelude.{◌≡◌, ◌+◌, ◌<◌, ◌≤◌, length, take, drop, OnOk};
ghost use Rattle.kr_aes.specs.KeyExpansion.{IsKeyLength, IsSchedule};
ghost use Rattle.kr_base.specs.Faults.{Rose, counted, tells_fault};
ghost use Rattle.kr_base.specs.Limits.{IsShort};
ghost use Rattle.kr_keywrap.specs.Answer.{plugin_under};
ghost use Rattle.kr_keywrap.specs.Serving.{CountsFaults, Serves, serve_failed, status_of};
ghost use Rattle.kr_keywrap.specs.inner.Lines.{CountsNext, ServesOne, WritesAnswer, WritesLast};

use crate::answer::answer;
use crate::keys::expand;
use crate::pending::{Pending, next_line};
use kr_aes::Rounds;
use kr_base::{Failed, Sink, Source, write_all};
use std::alloc::Global;

/// How a plugin's loop ended.
#[derive(Clone, Copy, PartialEq, Eq, Debug)]
pub enum Served {
    /// The source is at its end, and each line is answered.
    Done,
    /// The source or the sink failed.
    Failed,
    /// There was no memory for a line or its answer.
    NoMemory,
    /// A line has more than 131,072 bytes, or there are more than 4,294,967,295 lines.
    TooLong,
}

impl Served {
    /// The exit status.
    fn status(self) -> u8
        ensures { result ≡ status_of self }
    {
        match self {
            Served::Done => 0,
            Served::Failed => 4,
            Served::NoMemory => 5,
            Served::TooLong => 6,
        }
    }
}

/// Answers each line of the source in order, a last line without LF too where it isn't empty. The
/// key has 16, 24 or 32 bytes, and the key id 1 to 1,024. The status is 0 at the source's end, 4
/// after a fault of the source or the sink, 5 for want of memory, and 6 where a line has more than
/// 131,072 bytes or the source goes on behind 4,294,967,295 lines. One count of faults is higher by
/// one behind 4, and none behind another status.
pub fn serve<S: Source, K: Sink>(
    alloc: Global,
    kek: &[u8],
    key_id: &str,
    source: &mut S,
    sink: &mut K,
) -> u8
    requires key { IsKeyLength (length kek.now) }
    requires key_id { IsShort key_id.now }
    ensures served { (served : Served) × (result ≡ status_of served) × Serves
        (plugin_under kek.now key_id.now)
        (S.left source.old) (S.left source.new) (K.held sink.old) (K.held sink.new)
        (Rose (S.count source.old) (S.count source.new))
        (Rose (K.count sink.old) (K.count sink.new))
        served
        × CountsFaults served (S.count source.old) (S.count source.new)
        (K.count sink.old) (K.count sink.new) }
    ensures source { S.count source.old ≤ S.count source.new }
    ensures sink { K.count sink.old ≤ K.count sink.new }
{
    let mut words = [0; 60];
    let rounds = expand(kek, &mut words);
    serve_lines(alloc, &words, rounds, key_id, source, sink).status()
}

/// Answers the lines with an expanded key.
fn serve_lines<S: Source, K: Sink>(
    alloc: Global,
    words: &[u32; 60],
    rounds: Rounds,
    key_id: &str,
    source: &mut S,
    sink: &mut K,
) -> Served
    requires { IsSchedule words.now rounds }
    ensures served { Serves
        (record { words = words.now; rounds = rounds; key_id = key_id.now })
        (S.left source.old) (S.left source.new) (K.held sink.old) (K.held sink.new)
        (Rose (S.count source.old) (S.count source.new))
        (Rose (K.count sink.old) (K.count sink.new))
        result }
    ensures faults { CountsFaults result (S.count source.old) (S.count source.new)
        (K.count sink.old) (K.count sink.new) }
    ensures source { S.count source.old ≤ S.count source.new }
    ensures sink { K.count sink.old ≤ K.count sink.new }
{
    let mut pending = match Pending::new(alloc) {
        Ok(pending) => pending,
        Err(_) => return Served::NoMemory,
    };
    for _ in 0..u32::MAX {
        let next = match serve_next(alloc, words, rounds, key_id, &mut pending, source, sink) {
            Ok(next) => next,
            Err(why) => return why,
        };
        match next {
            Next::Answered => {}
            Next::Ended => return Served::Done,
        }
    }
    let _place = match next_line(source, &mut pending) {
        Ok(place) => place,
        Err(why) => return why,
    };
    if !pending.as_slice().is_empty() {
        return Served::TooLong;
    }
    Served::Done
}

/// What became of the next line.
enum Next {
    /// It is answered, and there may be another one.
    Answered,
    /// The source is at its end, and the last line is answered, if there was one.
    Ended,
}

/// Answers the next line.
fn serve_next<S: Source, K: Sink>(
    alloc: Global,
    words: &[u32; 60],
    rounds: Rounds,
    key_id: &str,
    pending: &mut Pending,
    source: &mut S,
    sink: &mut K,
) -> Result<Next, Served>
    requires { IsSchedule words.now rounds }
    ensures serves { ServesOne
        (record { words = words.now; rounds = rounds; key_id = key_id.now })
        (S.left source.old) (S.left source.new) (K.held sink.old) (K.held sink.new)
        pending.old pending.new
        (Rose (S.count source.old) (S.count source.new))
        (Rose (K.count sink.old) (K.count sink.new))
        result }
    ensures faults { CountsNext result (S.count source.old) (S.count source.new)
        (K.count sink.old) (K.count sink.new) }
    ensures source { S.count source.old ≤ S.count source.new }
    ensures sink { K.count sink.old ≤ K.count sink.new }
{
    let found = next_line(source, pending)?;
    match found {
        Some(place) => {
            serve_line(alloc, words, rounds, key_id, pending, place, sink)?;
            Ok(Next::Answered)
        }
        None => {
            serve_last(alloc, words, rounds, key_id, pending.as_slice(), sink)?;
            Ok(Next::Ended)
        }
    }
}

/// Answers the line whose LF stands at the place, and takes it away.
fn serve_line<K: Sink>(
    alloc: Global,
    words: &[u32; 60],
    rounds: Rounds,
    key_id: &str,
    pending: &mut Pending,
    place: usize,
    sink: &mut K,
) -> Result<(), Served>
    requires schedule { IsSchedule words.now rounds }
    requires place { place < length pending.old }
    ensures writes { WritesAnswer
        (record { words = words.now; rounds = rounds; key_id = key_id.now })
        (take place pending.old)
        (K.held sink.old) (K.held sink.new) (Rose (K.count sink.old) (K.count sink.new)) result }
    ensures left { OnOk result (pending.new ≡ drop (place + 1) pending.old) }
    ensures sink { K.count sink.old ≤ K.count sink.new }
    ensures once { K.count sink.new
        ≡ counted (tells_fault serve_failed result) (K.count sink.old) }
{
    write_answer(alloc, words, rounds, key_id, pending.front(place), sink)?;
    pending.drop_front(place + 1);
    Ok(())
}

/// Answers the last line, if it isn't empty.
fn serve_last<K: Sink>(
    alloc: Global,
    words: &[u32; 60],
    rounds: Rounds,
    key_id: &str,
    last: &[u8],
    sink: &mut K,
) -> Result<(), Served>
    requires { IsSchedule words.now rounds }
    ensures writes { WritesLast
        (record { words = words.now; rounds = rounds; key_id = key_id.now }) last.now
        (K.held sink.old) (K.held sink.new) (Rose (K.count sink.old) (K.count sink.new)) result }
    ensures sink { K.count sink.old ≤ K.count sink.new }
    ensures once { K.count sink.new
        ≡ counted (tells_fault serve_failed result) (K.count sink.old) }
{
    if last.is_empty() {
        return Ok(());
    }
    write_answer(alloc, words, rounds, key_id, last, sink)
}

/// Writes the answer of a line.
fn write_answer<K: Sink>(
    alloc: Global,
    words: &[u32; 60],
    rounds: Rounds,
    key_id: &str,
    line: &[u8],
    sink: &mut K,
) -> Result<(), Served>
    requires { IsSchedule words.now rounds }
    ensures writes { WritesAnswer
        (record { words = words.now; rounds = rounds; key_id = key_id.now }) line.now
        (K.held sink.old) (K.held sink.new) (Rose (K.count sink.old) (K.count sink.new)) result }
    ensures sink { K.count sink.old ≤ K.count sink.new }
    ensures once { K.count sink.new
        ≡ counted (tells_fault serve_failed result) (K.count sink.old) }
{
    let Ok(bytes) = answer(alloc, words, rounds, key_id, line) else {
        return Err(Served::NoMemory);
    };
    match write_all(sink, bytes.as_slice()) {
        Ok(()) => Ok(()),
        Err(Failed) => Err(Served::Failed),
    }
}
