//! Streams of the system as a source and a sink. What a reader or a writer tells of its bytes is
//! told.
ghost use Rattle.std.specs.Prelude.{◌≡◌, IfOk, MatchResult, length};
ghost use Rattle.std.specs.Io.{ReadsAtMost, WritesAtMost};
ghost use Rattle.std.specs.Io.KnownBytes.{ReadConsumes, WriteAppends};
ghost use Rattle.kr_base.specs.Faults.{IsCounted};
ghost use Rattle.kr_base.specs.Numbering.{next_number};

use crate::system_error::io_error_kind;
use kr_base::{Failed, FaultCount, Sink, Source};
use std::io::{ErrorKind, Read, Write};

/// A stream that is read. A read that was interrupted is tried again.
#[derive(Drop)]
pub struct StdSource<R> {
    reader: R,
    faults: FaultCount,
}

impl<R: Read> StdSource<R> {
    /// Reads from the reader, with no fault so far.
    pub fn new(reader: R) -> StdSource<R>
        ensures reads { result.reader ≡ reader }
        ensures faults { result.faults ≡ 0 }
    {
        StdSource {
            reader,
            faults: FaultCount::new(),
        }
    }
}

impl<R: Read> Source for StdSource<R> {
    ghost left = { λ source. R.remaining source.reader };

    ghost count = { λ source. source.faults };

    fn read(&mut self, into: &mut [u8]) -> Result<usize, Failed>
        // A read that fails counts once, any other not at all.
        ensures once { MatchResult result (λ _. self.new.faults ≡ self.old.faults)
            (λ _. self.new.faults ≡ next_number self.old.faults) }

        // As the trait says.
        ensures bound { ReadsAtMost result into.new }
        ensures bytes { ReadConsumes
            (R.remaining self.old.reader) (R.remaining self.new.reader) result into.new }
        ensures cause { IsCounted self.old.faults self.new.faults result }
    {
        match read_again(&mut self.reader, into) {
            Ok(n) => Ok(n),
            Err(Failed) => {
                self.faults.rise();
                Err(Failed)
            }
        }
    }

    fn faults(&self) -> u64 {
        self.faults.count()
    }
}

/// A stream that is written to. A write that takes nothing of a piece is a fault; one that was
/// interrupted is tried again.
#[derive(Drop)]
pub struct StdSink<W> {
    writer: W,
    faults: FaultCount,
}

impl<W: Write> StdSink<W> {
    /// Writes to the writer, with no fault so far.
    pub fn new(writer: W) -> StdSink<W>
        ensures writes { result.writer ≡ writer }
        ensures faults { result.faults ≡ 0 }
    {
        StdSink {
            writer,
            faults: FaultCount::new(),
        }
    }
}

impl<W: Write> Sink for StdSink<W> {
    ghost held = { λ sink. W.contents sink.writer };

    ghost count = { λ sink. sink.faults };

    fn write(&mut self, bytes: &[u8]) -> Result<usize, Failed>
        // A write that fails counts once, any other not at all.
        ensures once { MatchResult result (λ _. self.new.faults ≡ self.old.faults)
            (λ _. self.new.faults ≡ next_number self.old.faults) }

        // As the trait says.
        ensures bound { WritesAtMost result bytes.now }
        ensures bytes { WriteAppends
            (W.contents self.old.writer) (W.contents self.new.writer) result bytes.now }
        ensures progress { IfOk result (λ n. n ≡ 0 → length bytes.now ≡ 0) }
        ensures cause { IsCounted self.old.faults self.new.faults result }
    {
        match write_again(&mut self.writer, bytes) {
            Ok(n) => Ok(n),
            Err(Failed) => {
                self.faults.rise();
                Err(Failed)
            }
        }
    }

    fn faults(&self) -> u64 {
        self.faults.count()
    }
}

/// One read, tried again where it was interrupted.
fn read_again<R: Read>(reader: &mut R, into: &mut [u8]) -> Result<usize, Failed>
    ensures bound { ReadsAtMost result into.new }
    ensures bytes { ReadConsumes (R.remaining reader.old) (R.remaining reader.new) result into.new }
{
    for _ in 0..u64::MAX {
        match reader.read(into) {
            Ok(n) => return Ok(n),
            Err(error) => {
                if io_error_kind(error) != ErrorKind::Interrupted {
                    return Err(Failed);
                }
            }
        }
    }
    Err(Failed)
}

/// One write of a part of the bytes, tried again where it was interrupted.
fn write_again<W: Write>(writer: &mut W, bytes: &[u8]) -> Result<usize, Failed>
    ensures bound { WritesAtMost result bytes.now }
    ensures bytes { WriteAppends (W.contents writer.old) (W.contents writer.new) result bytes.now }
    ensures progress { IfOk result (λ n. n ≡ 0 → length bytes.now ≡ 0) }
{
    for _ in 0..u64::MAX {
        match writer.write(bytes) {
            Ok(n) => {
                if n == 0 && !bytes.is_empty() {
                    return Err(Failed);
                }
                return Ok(n);
            }
            Err(error) => {
                if io_error_kind(error) != ErrorKind::Interrupted {
                    return Err(Failed);
                }
            }
        }
    }
    Err(Failed)
}
