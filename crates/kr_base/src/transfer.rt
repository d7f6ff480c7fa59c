//! Reading and writing whole contents.
ghost use Rattle.std.specs.Prelude.{◌≡◌, ◌≤◌, ◌+◌, min, [], IsErrOf, MatchResult, OnOk, OnErr};
ghost use Rattle.std.specs.Io.KnownBytes.{Appends};
ghost use Rattle.kr_base.specs.Faults.{Rose, IsCounted};
ghost use Rattle.kr_base.specs.Streams.{ReadsWhole, AppendsFront, counted_read, whole_text};

use crate::bytes::Bytes;
use crate::errors::{Failed, ReadNo};
use crate::traits::{Sink, Source};
use std::alloc::Global;

/// How many bytes one read asks for at most.
const PIECE: usize = 8192;

/// For how many bytes there is room from the start, at most: a page that isn't touched costs
/// nothing, and a vector that grows is made anew and copied.
const ROOM: u64 = 4_194_304;

/// For how many more there is room, so that what is made of the bytes in their own place may be
/// somewhat longer.
const MORE: u64 = 4096;

/// How many bytes the next read asks for: one more than may come, so that a source above the limit
/// shows itself.
fn next_ask(rest: u64) -> usize
    ensures { result ≡ min (rest + 1) PIECE }
{
    if rest < PIECE as u64 {
        rest as usize + 1
    } else {
        PIECE
    }
}

/// No bytes, with room for some.
fn reserve_bytes(alloc: Global, limit: u64) -> Result<Vec<u8>, ReadNo>
    ensures { MatchResult result (λ room. room.items ≡ []) (λ why. why ≡ ReadNo.NoMemory) }
{
    match Vec::with_capacity(alloc, (limit.min(ROOM) + MORE) as usize) {
        Ok(room) => Ok(room),
        Err(_) => Err(ReadNo::NoMemory),
    }
}

/// Reads a source to its end. After a refusal the bytes that were taken are gone from it.
pub fn read_all<S: Source>(alloc: Global, source: &mut S, limit: u64) -> Result<Bytes, ReadNo>
    ensures whole { ReadsWhole (S.left source.old) (S.left source.new) limit result }
    ensures later { S.count source.old ≤ S.count source.new }
    ensures failed { IsErrOf result ReadNo.Failed → Rose (S.count source.old) (S.count source.new) }
    ensures once { S.count source.new ≡ counted_read (S.count source.old) result }
{
    let mut taken = reserve_bytes(alloc, limit)?;
    let mut piece = [0u8; PIECE];
    for _ in 0..u64::MAX {
        let rest = limit - taken.len() as u64;
        let ask = next_ask(rest);
        let n = match source.read(&mut piece[..ask]) {
            Ok(n) => n,
            Err(Failed) => return Err(ReadNo::Failed),
        };
        if n == 0 {
            return Ok(Bytes::from_vec(taken));
        }
        if n as u64 > rest {
            return Err(ReadNo::TooLong);
        }
        match taken.extend_from_slice(&piece[..n]) {
            Ok(()) => {}
            Err(_) => return Err(ReadNo::NoMemory),
        }
    }
    unreachable!()
}

/// Writes all the bytes. After a fault the sink has taken a prefix of them.
pub fn write_all<S: Sink>(sink: &mut S, bytes: &[u8]) -> Result<(), Failed>
    ensures ok { OnOk result (Appends (S.held sink.old) (S.held sink.new) bytes.now) }
    ensures err { OnErr result (AppendsFront (S.held sink.old) (S.held sink.new) bytes.now) }
    ensures cause { IsCounted (S.count sink.old) (S.count sink.new) result }
{
    let mut written = 0;
    while written < bytes.len() {
        let n = sink.write(&bytes[written..])?;
        written += n;
    }
    Ok(())
}

/// Writes the pieces of a text, one behind another. After a fault the sink has taken a prefix of
/// them all.
pub fn write_each<S: Sink>(sink: &mut S, pieces: &[&str]) -> Result<(), Failed>
    ensures ok { OnOk result (Appends (S.held sink.old) (S.held sink.new) (whole_text pieces.now)) }
    ensures err { OnErr result
        (AppendsFront (S.held sink.old) (S.held sink.new) (whole_text pieces.now)) }
    ensures cause { IsCounted (S.count sink.old) (S.count sink.new) result }
{
    for piece in pieces {
        write_all(sink, piece.as_bytes())?;
    }
    Ok(())
}
