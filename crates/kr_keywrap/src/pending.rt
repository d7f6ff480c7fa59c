//! Bytes that were read of a source and not answered yet.
ghost use Rattle.std.specs.Prelude.{◌≡◌, [], ◌+◌, ◌<◌, ◌≤◌, length, take, drop, IfOk, MatchResult};
ghost use Rattle.std.specs.Io.KnownBytes.{Keeps};
ghost use Rattle.kr_base.specs.Faults.{IsCounted, Rose, counted, tells_fault};
ghost use Rattle.kr_keywrap.specs.Serving.{serve_failed};
ghost use Rattle.kr_keywrap.specs.inner.Lines.{Finds, FindsBreak, Grows, GrowsBy, IsUnbroken};

use crate::serving::Served;
use kr_base::{Failed, NoMemory, Source};
use std::alloc::Global;
use std::marker::Model;

/// The most bytes of a line, without its LF.
const LINE_LIMIT: usize = 131_072;

/// How many bytes are kept at most: those of a line, and its LF.
const ROOM: usize = LINE_LIMIT + 1;

/// Bytes that were read and not answered yet.
#[derive(Drop)]
pub(crate) struct Pending {
    bytes: Vec<u8>,
    filled: usize,
}

impl Model for Pending {
    ghost use Rattle.std.specs.Prelude.{◌≡◌, ℕ, ◌≤◌, List, take, vec_len};

    ghost Value = { List ℕ };

    ghost view = { λ pending. take pending.filled pending.bytes.items };

    ghost invariant = { λ pending. (vec_len pending.bytes ≡ 131073) × (pending.filled ≤ 131073) };
}

impl Pending {
    /// None, with room for a line.
    pub(crate) fn new(alloc: Global) -> Result<Pending, NoMemory>
        ensures { IfOk result (λ pending. pending ≡ []) }
    {
        let bytes = vec![in alloc; 0; ROOM]?;
        Ok(Pending { bytes, filled: 0 })
    }

    /// Lends them.
    pub(crate) fn as_slice(&self) -> &[u8]
        ensures bytes { result.now ≡ self.now }
        ensures size { length result.now ≤ 131073 }
    {
        &self.bytes[..self.filled]
    }

    /// Lends the first `count`.
    pub(crate) fn front(&self, count: usize) -> &[u8]
        requires { count ≤ length self.now }
        ensures { result.now ≡ take count self.now }
    {
        front(self.as_slice(), count)
    }

    /// Reads more behind them, and answers how many; none only at the source's end.
    fn read<S: Source>(&mut self, source: &mut S) -> Result<usize, Failed>
        requires { length self.old < 131073 }
        ensures bytes { MatchResult result
            (GrowsBy (S.left source.old) (S.left source.new) self.old self.new)
            (λ _. (self.new ≡ self.old) × Keeps (S.left source.old) (S.left source.new)) }
        ensures cause { IsCounted (S.count source.old) (S.count source.new) result }
    {
        match read_more(&mut self.bytes, self.filled, source) {
            Ok(count) => {
                self.filled += count;
                Ok(count)
            }
            Err(Failed) => Err(Failed),
        }
    }

    /// Takes the first `count` away.
    pub(crate) fn drop_front(&mut self, count: usize)
        requires { count ≤ length self.old }
        ensures { self.new ≡ drop count self.old }
    {
        self.bytes.copy_within(count..self.filled, 0);
        self.filled -= count;
    }
}

fn front(bytes: &[u8], count: usize) -> &[u8]
    requires { count ≤ length bytes.now }
    ensures { result.now ≡ take count bytes.now }
{
    &bytes[..count]
}

/// Reads behind the bytes that are filled, and answers how many were read.
fn read_more<S: Source>(bytes: &mut [u8], filled: usize, source: &mut S) -> Result<usize, Failed>
    requires { filled < length bytes.old }
    ensures bytes { MatchResult result
        (λ count. (filled + count ≤ length bytes.old)
        × GrowsBy (S.left source.old) (S.left source.new)
        (take filled bytes.old) (take (filled + count) bytes.new) count)
        (λ _. (take filled bytes.new ≡ take filled bytes.old)
        × Keeps (S.left source.old) (S.left source.new)) }
    ensures cause { IsCounted (S.count source.old) (S.count source.new) result }
{
    source.read(&mut bytes[filled..])
}

/// Reads until an LF is among the pending bytes, and answers its place, or none at the source's
/// end.
pub(crate) fn next_line<S: Source>(
    source: &mut S,
    pending: &mut Pending,
) -> Result<Option<usize>, Served>
    ensures grows { Grows (S.left source.old) (S.left source.new) pending.old pending.new }
    ensures finds { Finds (S.left source.new) pending.new
        (Rose (S.count source.old) (S.count source.new)) result }
    ensures later { S.count source.old ≤ S.count source.new }
    ensures once { S.count source.new
        ≡ counted (tells_fault serve_failed result) (S.count source.old) }
{
    let mut scanned = 0;
    'reading: loop {
        let bytes = pending.as_slice();
        if let Some(place) = place_of_break(bytes, scanned) {
            return Ok(Some(place));
        }
        scanned = bytes.len();
        if scanned > LINE_LIMIT {
            return Err(Served::TooLong);
        }
        match pending.read(source) {
            Ok(0) => return Ok(None),
            Ok(_) => {}
            Err(Failed) => return Err(Served::Failed),
        }
    }
}

/// The place of the first LF, where there is none before `scanned`.
fn place_of_break(bytes: &[u8], scanned: usize) -> Option<usize>
    requires within { scanned ≤ length bytes.now }
    requires scanned { IsUnbroken bytes.now scanned }
    ensures { FindsBreak bytes.now result }
{
    for place in scanned..bytes.len() {
        if bytes[place] == b'\n' {
            return Some(place);
        }
    }
    None
}
