//! One line asked, one line answered.
ghost use Rattle.std.specs.Prelude.{◌≡◌, ◌<◌, ◌≤◌, ◌==◌, true, false, length, take, position};
ghost use Rattle.std.specs.Prelude.{IfOk, IfSome, IsErr, OnErr, ◌⊎◌};
ghost use Rattle.std.specs.Io.KnownBytes.{Consumes, IsAtEnd};
ghost use Rattle.kr_base.specs.Faults.{IsCounted};
ghost use Rattle.kr_edge.specs.Lines.{TakesLine, GivesNoLine, Exchanged, IsCutOff};
ghost use Rattle.kr_edge.specs.Wiped.{IsWiped};
ghost use Rattle.kr_edge.specs.Lines.{ends_of, broken_off};

use crate::answer_room::AnswerRoom;
use crate::streams::{StdSink, StdSource};
use kr_base::{Failed, Source, write_all};
use std::io::{Read, Write};

/// The ends of what answers each line with one. After an exchange that was cut off, or that its
/// caller broke off, it stays broken: the next line would answer an older question.
#[derive(Drop)]
pub struct Exchange<W, R> {
    input: StdSink<W>,
    output: StdSource<R>,
    line: AnswerRoom,
    broken: bool,
}

impl<W: Write, R: Read> Exchange<W, R> {
    /// Writes questions to the one, and reads answers from the other.
    pub fn new(input: W, output: R, line: AnswerRoom) -> Exchange<W, R>
        ensures input { result.input.writer ≡ input }
        ensures output { result.output.reader ≡ output }
        ensures whole { result.broken ≡ false }
    {
        Exchange {
            input: StdSink::new(input),
            output: StdSource::new(output),
            line,
            broken: false,
        }
    }

    /// Asks a line, reads the answer to it, and tells how many bytes it has without its LF. One of
    /// more than 131,072 bytes, one without LF, bytes behind it, and a write that takes nothing are
    /// faults. What is broken asks nothing.
    #[tactic(auto, using(crate::proofs::Asking::exchanged))]
    pub fn ask(&mut self, question: &[u8]) -> Result<usize, Failed>
        ensures size { IfOk result (λ size. size ≤ 131072) }
        ensures broken { self.old.broken ≡ true → IsErr result × (self.new ≡ self.old) }
        ensures ok { IfOk result (λ size. Exchanged (ends_of W.contents R.remaining self.old)
            (ends_of W.contents R.remaining self.new) question.now
            (take size self.new.line.line.items)) }
        ensures err { OnErr result (IsCutOff (ends_of W.contents R.remaining self.old)
            (ends_of W.contents R.remaining self.new) question.now) }
    {
        if self.broken {
            return Err(Failed);
        }
        self.broken = true;
        write_all(&mut self.input, question)?;
        let size = read_line(&mut self.output, self.line.line.as_mut_slice())?;
        self.broken = false;
        Ok(size)
    }

    /// The answer that was read last, of this size.
    pub fn answer(&self, size: usize) -> &[u8]
        requires { size ≤ 131072 }
        ensures { result.now ≡ take size self.now.line.line.items }
    {
        &self.line.line[..size]
    }

    /// Breaks it off: what was read is no answer to what was asked, so the answer may still come.
    pub fn abandon(&mut self)
        ensures ends { ends_of W.contents R.remaining self.new
            ≡ broken_off (ends_of W.contents R.remaining self.old) }
    {
        self.broken = true;
    }

    /// Lets nothing of the last answer stand in its room.
    pub fn wipe(&mut self)
        ensures ends { ends_of W.contents R.remaining self.new
            ≡ ends_of W.contents R.remaining self.old }
        ensures wiped { IsWiped self.new.line.line.items }
    {
        self.line.wipe();
    }
}

/// Reads one line to the front of the buffer, and answers how many bytes stand before its LF.
fn read_line<S: Source>(source: &mut S, line: &mut [u8]) -> Result<usize, Failed>
    ensures ok { IfOk result (λ size. (size < length line.new)
        × TakesLine (S.left source.old) (S.left source.new) (take size line.new)
        × (S.count source.new ≡ S.count source.old)) }
    ensures err { OnErr result (GivesNoLine (length line.new) (S.left source.old)
        (S.left source.new) (S.count source.old) (S.count source.new)) }
{
    let mut filled = 0;
    while filled < line.len() {
        let (count, end) = read_piece(source, &mut line[filled..])?;
        match end {
            Some(at) => {
                if at + 1 == count {
                    return Ok(filled + at);
                }
                return Err(Failed);
            }
            None => {
                if count == 0 {
                    return Err(Failed);
                }
                filled += count;
            }
        }
    }
    Err(Failed)
}

/// Reads once, and answers how many bytes came, and where their first LF stands.
fn read_piece<S: Source>(source: &mut S, into: &mut [u8]) -> Result<(usize, Option<usize>), Failed>
    ensures bound { IfOk result (λ piece. piece.0 ≤ length into.new) }
    ensures bytes { IfOk result (λ piece.
        Consumes (S.left source.old) (S.left source.new) (take piece.0 into.new)) }
    ensures at_end { IfOk result (λ piece.
        piece.0 ≡ 0 → 0 < length into.new → IsAtEnd (S.left source.new)) }
    ensures first { IfOk result (λ piece.
        piece.1 ≡ position (λ byte. byte == 10) (take piece.0 into.new)) }
    ensures within { IfOk result (λ piece. IfSome piece.1 (λ at. at < piece.0)) }
    ensures cause { IsCounted (S.count source.old) (S.count source.new) result }
{
    let count = source.read(into)?;
    Ok((count, find_line_end(&into[..count])))
}

/// Where the first LF stands.
fn find_line_end(bytes: &[u8]) -> Option<usize>
    ensures first { result ≡ position (λ byte. byte == 10) bytes.now }
    ensures within { IfSome result (λ at. at < length bytes.now) }
{
    bytes.iter().position(|byte| *byte == b'\n')
}
