//! What a reader and a writer do, call by call, and what comes of it.
use kr_base::{ReadNo, Sink, Source, read_all, write_all};
use kr_edge::{AnswerRoom, Exchange, StdSink, StdSource};
use std::alloc::Global;
use std::io::{self, ErrorKind, Read, Write};
use std::test::Fail;

/// What one call does.
#[derive(Clone, Copy)]
enum Turn {
    /// It is interrupted.
    Stops,
    /// It breaks off.
    Breaks,
    /// It gives or takes so many bytes at most.
    Moves(usize),
}

/// A stream that goes by its turns; behind the last there is nothing to give or take. It gives the
/// numbers from 0 on.
#[derive(Drop)]
struct Double {
    turns: Vec<Turn>,
    at: usize,
    next: u8,
    taken: Vec<u8>,
}

impl Double {
    fn new(alloc: Global, turns: &[Turn]) -> Option<Double> {
        let mut all = Vec::new(alloc);
        all.extend_from_slice(turns).ok()?;
        Some(Double {
            turns: all,
            at: 0,
            next: 0,
            taken: Vec::new(alloc),
        })
    }

    /// How many of the bytes the next call moves.
    fn turn(&mut self, most: usize) -> io::Result<usize> {
        let at = self.at;
        self.at = at.saturating_add(1);
        match self.turns.get(at) {
            None => Ok(0),
            Some(Turn::Stops) => Err(ErrorKind::Interrupted.into()),
            Some(Turn::Breaks) => Err(ErrorKind::BrokenPipe.into()),
            Some(Turn::Moves(count)) => Ok((*count).min(most)),
        }
    }
}

impl Read for &mut Double {
    fn read(&mut self, into: &mut [u8]) -> io::Result<usize> {
        let count = self.turn(into.len())?.min(into.len());
        for place in into[..count].iter_mut() {
            *place = self.next;
            self.next = self.next.wrapping_add(1);
        }
        Ok(count)
    }
}

impl Write for &mut Double {
    fn write(&mut self, bytes: &[u8]) -> io::Result<usize> {
        let count = self.turn(bytes.len())?.min(bytes.len());
        self.taken.extend_from_slice(&bytes[..count])?;
        Ok(count)
    }

    fn flush(&mut self) -> io::Result<()> {
        Ok(())
    }
}

#[test]
fn a_read_that_stops_is_tried_again(rt: HostRuntime) -> Result<(), Fail> {
    let mut double = Double::new(
        rt.alloc(),
        &[
            Turn::Stops,
            Turn::Moves(3),
            Turn::Stops,
            Turn::Stops,
            Turn::Moves(2),
        ],
    )
    .ok_or("memory")?;
    let mut source = StdSource::new(&mut double);
    let all = read_all(rt.alloc(), &mut source, 100);
    assert_eq!(rt; source.faults(), 0);
    match all {
        Ok(bytes) => assert_eq!(rt; bytes.as_slice(), [0u8, 1, 2, 3, 4].as_slice()),
        Err(_) => assert!(rt; false, "the source isn't read"),
    }
    Ok(())
}

#[test]
fn a_read_that_breaks_off_is_a_fault(rt: HostRuntime) -> Result<(), Fail> {
    let mut double = Double::new(rt.alloc(), &[Turn::Moves(3), Turn::Breaks, Turn::Moves(2)]).ok_or(
        "memory",
    )?;
    let mut source = StdSource::new(&mut double);
    let all = read_all(rt.alloc(), &mut source, 100);
    assert_eq!(rt; source.faults(), 1);
    assert!(rt; matches!(all, Err(ReadNo::Failed)));
    Ok(())
}

/// Whether a write of these bytes passes where no fault is counted, and fails, once, where one is;
/// and whether the double has taken so many of them.
fn takes(alloc: Global, turns: &[Turn], bytes: &[u8], taken: &[u8], faults: u64) -> bool {
    let Some(mut double) = Double::new(alloc, turns) else {
        return false;
    };
    let mut sink = StdSink::new(&mut double);
    let passed = write_all(&mut sink, bytes).is_ok();
    let as_counted = passed == (faults == 0) && sink.faults() == faults;
    as_counted && double.taken.as_slice() == taken
}

#[test]
fn a_short_write_is_continued(rt: HostRuntime) {
    let turns = [
        Turn::Stops,
        Turn::Moves(2),
        Turn::Moves(1),
        Turn::Stops,
        Turn::Moves(9),
    ];
    assert!(rt; takes(rt.alloc(), &turns, b"hello!", b"hello!", 0));
}

#[test]
fn a_write_that_breaks_off_or_takes_nothing_is_a_fault(rt: HostRuntime) -> Result<(), Fail> {
    let breaks = [Turn::Moves(2), Turn::Breaks, Turn::Moves(3)];
    assert!(rt; takes(rt.alloc(), &breaks, b"hello", b"he", 1));
    let takes_nothing = [Turn::Moves(2), Turn::Moves(0), Turn::Moves(3)];
    assert!(rt; takes(rt.alloc(), &takes_nothing, b"hello", b"he", 1));
    Ok(())
}

/// How long the answer of an exchange is whose answers come by these turns, if there is one.
fn answered(alloc: Global, turns: &[Turn]) -> Option<Option<usize>> {
    let mut input = Double::new(alloc, &[Turn::Moves(2), Turn::Stops, Turn::Moves(9)])?;
    let mut output = Double::new(alloc, turns)?;
    let room = AnswerRoom::new(alloc).ok()?;
    let mut exchange = Exchange::new(&mut input, &mut output, room);
    Some(exchange.ask(b"hello\n").ok())
}

// The eleventh byte of a double is LF.
#[test]
fn one_line_answers_one(rt: HostRuntime) {
    let alloc = rt.alloc();
    assert!(rt; answered(alloc, &[Turn::Moves(4), Turn::Stops, Turn::Moves(7)]) == Some(Some(10)));
    // Bytes stand behind it, it has no end, the read breaks off, and there is none.
    assert!(rt; answered(alloc, &[Turn::Moves(12)]) == Some(None));
    assert!(rt; answered(alloc, &[Turn::Moves(4)]) == Some(None));
    assert!(rt; answered(alloc, &[Turn::Moves(4), Turn::Breaks]) == Some(None));
    assert!(rt; answered(alloc, &[]) == Some(None));
}
