//! Reading a file from front to back.
ghost use Rattle.std.specs.Prelude.{◌≡◌, ◌≢◌, ℕ, ◌+◌, ◌^◌, ◌<◌, ◌≤◌, min, get_or, [], ◌∷◌, length, false, IfSome, IfOk, IfErr, MatchOption, IsTrue, ◌↔◌, take};
ghost use Rattle.std.specs.Int.{w16, w32, w64, to_be_bytes};
ghost use Rattle.kr_base.specs.Rules.{IsPath, IsResource};
ghost use Rattle.kr_store.specs.Rows.{longest_value, HasCheck};
ghost use Rattle.kr_store.specs.inner.KeptRows.{IsKeptRow};
ghost use Rattle.kr_store.specs.Stores.{load_failed};
ghost use Rattle.kr_store.specs.File.{text_bytes, value_bytes, check_bytes, kind_byte};
ghost use Rattle.kr_store.specs.Breaches.{part, number_16, number_32, number_64, sized_part, path_part, resource_part, check_part, value_part, kind_part, revision_part, head_part, put_part, row_part};
ghost use Rattle.kr_store.specs.inner.Reading.{Moves, Advances, stop_failed, Begins, Fills, IsShort, IsNamed, Names, Reads, items_of, sized_bytes, head_bytes, put_bytes, kept_bytes};

use crate::answers::{Cause, LoadStop, StoreNo};
use crate::format::{Check, Format, MAGIC_LENGTH, STORE_NAME};
use crate::kept_row::{KeptRow, RowKind};
use crate::limits::{LONGEST_PATH, LONGEST_RESOURCE, LONGEST_VALUE};
use crate::stored::Stored;
use kr_base::{Bytes, Failed, NoMemory, Tape, Text, path_ok, resource_ok};
use kr_paths::Path;
use std::alloc::Global;
use std::marker::Model;

/// What the type says of each byte.
fn known(bytes: &[u8])
    ensures { (i : ℕ) → get_or bytes.now i 0 < 2 ^ 8 }
{}

/// The format that the front of a file names; these are its first bytes, at most 8.
fn named_format(front: &[u8]) -> Result<Format, StoreNo>
    requires { length front.now ≤ 8 }
    ensures { IsNamed front.now result }
{
    if front == Format::One.magic() {
        return Ok(Format::One);
    }
    if front == Format::Two.magic() {
        return Ok(Format::Two);
    }
    if front.len() > STORE_NAME.len() {
        return Err(StoreNo::Magic);
    }
    if front != &STORE_NAME[..front.len()] {
        return Err(StoreNo::Magic);
    }
    Err(StoreNo::Torn { at: 0 })
}

fn byte_kind(byte: u8) -> Option<RowKind>
    ensures { MatchOption result ((byte ≢ 1) × (byte ≢ 2)) (λ kind. kind_byte kind ≡ byte) }
{
    match byte {
        1 => Some(RowKind::Put),
        2 => Some(RowKind::Delete),
        _ => None,
    }
}

/// How many bytes are read ahead. Parts of at least as many are read where they are wanted.
const AHEAD: usize = 8192;

fn room(alloc: Global) -> Result<Vec<u8>, NoMemory>
    ensures { IfOk result (λ bytes. 0 < length bytes.items) }
{
    match vec![in alloc; 0; AHEAD] {
        Ok(bytes) => Ok(bytes),
        Err(_) => Err(NoMemory),
    }
}

/// As many bytes as there are and fit.
fn fill_front(bytes: &[u8], into: &mut [u8]) -> usize
    ensures count { result ≡ min (length bytes.now) (length into.old) }
    ensures same { take result into.new ≡ take result bytes.now }
{
    let n = bytes.len().min(into.len());
    into[..n].copy_from_slice(&bytes[..n]);
    n
}

/// The bytes of a tape from front to back.
#[derive(Drop)]
pub(crate) struct Reader<T: Tape> {
    tape: T,
    place: u64,
    end: u64,
    // Those from `start` on, of which the first `filled` were read.
    ahead: Vec<u8>,
    start: u64,
    filled: usize,
}

impl<T: Tape> Model for Reader<T> {
    ghost use Rattle.std.specs.Prelude.{◌≡◌, ◌+◌, ◌<◌, ◌≤◌, length, take, drop, false, IfSome};
    ghost use Rattle.std.specs.Option.{option_map};
    ghost use Rattle.kr_store.specs.inner.Reading.{Ahead};

    ghost Value = { Ahead };

    ghost view = { λ reader. record {
      told = T.told reader.tape;
      left = option_map (λ bytes. drop reader.place bytes) (T.told reader.tape);
      place = reader.place;
      end = reader.end;
      count = T.count reader.tape;
    } };

    ghost invariant = { λ reader. (reader.place ≤ reader.end)
        × IfSome (T.told reader.tape) (λ bytes. reader.end ≡ length bytes)
        × (reader.start ≤ reader.place) × (reader.place ≤ reader.start + reader.filled)
        × (0 < length reader.ahead.items) × (reader.filled ≤ length reader.ahead.items)
        × IfSome (T.told reader.tape) (λ bytes. take reader.filled reader.ahead.items
        ≡ take reader.filled (drop reader.start bytes))
        × (T.loose reader.tape ≡ false) };
}

impl<T: Tape> Reader<T> {
    /// A reader of a tape with so many bytes.
    pub fn new(alloc: Global, tape: T, end: u64) -> Result<Reader<T>, (NoMemory, T)>
        requires end { IfSome (T.told tape) (λ bytes. end ≡ length bytes) }
        requires cuts { T.loose tape ≡ false }
        ensures ok { IfOk result (λ reader. reader ≡ record {
          told = T.told tape;
          left = T.told tape;
          place = 0;
          end = end;
          count = T.count tape;
        }) }
        ensures err { IfErr result (λ refused. refused.1 ≡ tape) }
    {
        match room(alloc) {
            Ok(ahead) => Ok(Reader {
                tape,
                place: 0,
                end,
                ahead,
                start: 0,
                filled: 0,
            }),
            Err(why) => Err((why, tape)),
        }
    }

    /// Gives the tape back.
    pub fn into_tape(self) -> T
        ensures told { T.told result ≡ self.told }
        ensures count { T.count result ≡ self.count }
        ensures cuts { T.loose result ≡ false }
    {
        let Reader { tape, .. } = self;
        tape
    }

    /// The place that is read next.
    pub fn place(&self) -> u64
        ensures { result ≡ self.now.place }
    {
        self.place
    }

    /// Whether no byte is left.
    pub fn is_at_end(&self) -> bool
        ensures at { IsTrue result ↔ (self.now.place ≡ self.now.end) }
        ensures moves { Moves false self.now self.now }
    {
        self.place == self.end
    }

    /// The next bytes, at least one.
    fn some(&mut self, into: &mut [u8]) -> Result<usize, LoadStop>
        requires some { 0 < length into.old }
        requires within { self.old.place + length into.old ≤ self.old.end }
        ensures advances { Advances stop_failed self.old self.new result }
        ensures read { Begins self.old self.new into.new result }
    {
        let used = (self.place - self.start) as usize;
        if used < self.filled {
            let n = fill_front(&self.ahead[used..self.filled], into);
            self.place += n as u64;
            return Ok(n);
        }
        self.start = self.place;
        self.filled = 0;
        if into.len() >= self.ahead.len() {
            let n = match self.tape.read_at(self.place, into) {
                Ok(n) => n,
                Err(Failed) => return Err(LoadStop::Failed),
            };
            if n == 0 {
                return Err(LoadStop::Breach(Cause::Torn));
            }
            self.place += n as u64;
            self.start = self.place;
            return Ok(n);
        }
        let found = match self.tape.read_at(self.place, &mut self.ahead) {
            Ok(n) => n,
            Err(Failed) => return Err(LoadStop::Failed),
        };
        if found == 0 {
            return Err(LoadStop::Breach(Cause::Torn));
        }
        self.filled = found;
        let n = fill_front(&self.ahead[..found], into);
        self.place += n as u64;
        Ok(n)
    }

    /// The next bytes, as many as the buffer holds.
    fn fill(&mut self, into: &mut [u8]) -> Result<(), LoadStop>
        ensures advances { Advances stop_failed self.old self.new result }
        ensures read { Fills self.old self.new into.new result }
        ensures short { IsShort self.old (length into.old) result }
    {
        if self.end - self.place < into.len() as u64 {
            return Err(LoadStop::Breach(Cause::Torn));
        }
        let mut done = 0;
        while done < into.len() {
            match self.some(&mut into[done..]) {
                Ok(n) => done += n,
                Err(stop) => return Err(stop),
            }
        }
        Ok(())
    }

    /// The format, by the 8 bytes that name it, of a tape that isn't empty.
    pub fn magic(&mut self) -> Result<Format, StoreNo>
        requires start { self.old.place ≡ 0 }
        requires some { 0 < self.old.end }
        ensures advances { Advances load_failed self.old self.new result }
        ensures names { Names self.old self.new result }
    {
        let mut front = [0; MAGIC_LENGTH];
        let n = self.end.min(MAGIC_LENGTH as u64) as usize;
        self.front(&mut front[..n])
    }

    /// As many bytes as the file has of those that name the format.
    fn front(&mut self, front: &mut [u8]) -> Result<Format, StoreNo>
        requires start { self.old.place ≡ 0 }
        requires some { 0 < length front.old }
        requires size { length front.old ≡ min self.old.end 8 }
        ensures advances { Advances load_failed self.old self.new result }
        ensures names { Names self.old self.new result }
    {
        match self.fill(front) {
            Ok(()) => {}
            Err(LoadStop::Breach(_)) => return Err(StoreNo::Torn { at: 0 }),
            Err(LoadStop::Failed) => return Err(StoreNo::Failed),
            Err(LoadStop::NoMemory) => unreachable!(),
        }
        named_format(front)
    }

    /// A number of 2 bytes, the highest first.
    fn number_16(&mut self) -> Result<u16, LoadStop>
        ensures reads { Reads self.old self.new (to_be_bytes w16) number_16 result }
        ensures fits { IfOk result (λ n. n < 2 ^ 16) }
    {
        let mut bytes = [0; 2];
        self.fill(&mut bytes)?;
        known(&bytes);
        Ok(u16::from_be_bytes(bytes))
    }

    /// A number of 4 bytes, the highest first.
    fn number_32(&mut self) -> Result<u32, LoadStop>
        ensures reads { Reads self.old self.new (to_be_bytes w32) number_32 result }
        ensures fits { IfOk result (λ n. n < 2 ^ 32) }
    {
        let mut bytes = [0; 4];
        self.fill(&mut bytes)?;
        known(&bytes);
        Ok(u32::from_be_bytes(bytes))
    }

    /// A number of 8 bytes, the highest first.
    fn number_64(&mut self) -> Result<u64, LoadStop>
        ensures reads { Reads self.old self.new (to_be_bytes w64) number_64 result }
        ensures fits { IfOk result (λ n. n < 2 ^ 64) }
    {
        let mut bytes = [0; 8];
        self.fill(&mut bytes)?;
        known(&bytes);
        Ok(u64::from_be_bytes(bytes))
    }

    /// The next n bytes.
    fn part(&mut self, alloc: Global, n: usize) -> Result<Vec<u8>, LoadStop>
        ensures reads { Reads self.old self.new items_of (part n) result }
        ensures length { IfOk result (λ bytes. length bytes.items ≡ n) }
    {
        if self.end - self.place < n as u64 {
            return Err(LoadStop::Breach(Cause::Torn));
        }
        let mut bytes = match vec![in alloc; 0; n] {
            Ok(bytes) => bytes,
            Err(_) => return Err(LoadStop::NoMemory),
        };
        match self.fill(&mut bytes) {
            Ok(()) => Ok(bytes),
            Err(stop) => Err(stop),
        }
    }

    /// Bytes behind their length.
    fn sized(&mut self, alloc: Global, most: u16) -> Result<Vec<u8>, LoadStop>
        ensures reads { Reads self.old self.new sized_bytes (sized_part most) result }
        ensures length { IfOk result (λ bytes. length bytes.items ≤ most) }
    {
        let n = self.number_16()?;
        if n > most {
            return Err(LoadStop::Breach(Cause::BadRow));
        }
        match self.part(alloc, n as usize) {
            Ok(bytes) => Ok(bytes),
            Err(stop) => Err(stop),
        }
    }

    /// A value behind its length.
    fn value_as_read(&mut self, alloc: Global) -> Result<Bytes, LoadStop>
        ensures reads { Reads self.old self.new value_bytes value_part result }
        ensures length { IfOk result (λ value. length value ≤ longest_value) }
    {
        let n = self.number_32()?;
        if n > LONGEST_VALUE {
            return Err(LoadStop::Breach(Cause::BadRow));
        }
        match self.part(alloc, n as usize) {
            Ok(bytes) => Ok(Bytes::from_vec(bytes)),
            Err(stop) => Err(stop),
        }
    }

    /// The same, as it is kept.
    fn value(&mut self, alloc: Global) -> Result<Stored, LoadStop>
        ensures reads { Reads self.old self.new value_bytes value_part result }
        ensures length { IfOk result (λ stored. length stored ≤ longest_value) }
    {
        let bytes = match self.value_as_read(alloc) {
            Ok(bytes) => bytes,
            Err(stop) => return Err(stop),
        };
        match Stored::from_bytes(alloc, bytes) {
            Ok(stored) => Ok(stored),
            Err(NoMemory) => Err(LoadStop::NoMemory),
        }
    }

    /// A path behind its length.
    fn path_text(&mut self, alloc: Global) -> Result<Text, LoadStop>
        ensures reads { Reads self.old self.new text_bytes path_part result }
        ensures rule { IfOk result (λ path. IsPath path) }
    {
        let bytes = self.sized(alloc, LONGEST_PATH)?;
        let Ok(text) = String::from_utf8(bytes) else {
            return Err(LoadStop::Breach(Cause::BadRow));
        };
        if !path_ok(text.as_str()) {
            return Err(LoadStop::Breach(Cause::BadRow));
        }
        Ok(Text::from_string(text))
    }

    /// The same, as it is kept.
    fn path(&mut self, alloc: Global) -> Result<Path, LoadStop>
        ensures reads { Reads self.old self.new text_bytes path_part result }
        ensures rule { IfOk result (λ path. IsPath path) }
    {
        let text = match self.path_text(alloc) {
            Ok(text) => text,
            Err(stop) => return Err(stop),
        };
        match Path::from_text(alloc, text) {
            Ok(path) => Ok(path),
            Err(NoMemory) => Err(LoadStop::NoMemory),
        }
    }

    /// A resource behind its length.
    fn resource(&mut self, alloc: Global) -> Result<Text, LoadStop>
        ensures reads { Reads self.old self.new text_bytes resource_part result }
        ensures rule { IfOk result (λ resource. IsResource resource) }
    {
        let bytes = self.sized(alloc, LONGEST_RESOURCE)?;
        let Ok(text) = String::from_utf8(bytes) else {
            return Err(LoadStop::Breach(Cause::BadRow));
        };
        if !resource_ok(text.as_str()) {
            return Err(LoadStop::Breach(Cause::BadRow));
        }
        Ok(Text::from_string(text))
    }

    /// The kind of a row.
    fn kind(&mut self) -> Result<RowKind, LoadStop>
        ensures reads { Reads self.old self.new (λ kind. kind_byte kind ∷ []) kind_part result }
    {
        let mut byte = [0; 1];
        self.fill(&mut byte)?;
        match byte_kind(byte[0]) {
            Some(kind) => Ok(kind),
            None => Err(LoadStop::Breach(Cause::BadRow)),
        }
    }

    /// The revision, which has to be this one.
    fn revision(&mut self, revision: u64) -> Result<(), LoadStop>
        ensures reads { Reads self.old self.new
            (λ _. to_be_bytes w64 revision) (revision_part revision) result }
    {
        let found = self.number_64()?;
        if found != revision {
            return Err(LoadStop::Breach(Cause::Order));
        }
        Ok(())
    }

    /// The kind and the path of the row with this revision.
    fn head(&mut self, alloc: Global, revision: u64) -> Result<(RowKind, Path), LoadStop>
        ensures reads { Reads self.old self.new (head_bytes revision) (head_part revision) result }
        ensures rule { IfOk result (λ head. IsPath head.1) }
    {
        let kind = self.kind()?;
        match self.revision(revision) {
            Ok(()) => {}
            Err(stop) => return Err(stop),
        }
        match self.path(alloc) {
            Ok(path) => Ok((kind, path)),
            Err(stop) => Err(stop),
        }
    }

    /// The check of a put, where the format has one.
    fn check(&mut self, format: Format) -> Result<Option<Check>, LoadStop>
        ensures reads { Reads self.old self.new check_bytes (check_part format) result }
        ensures rule { IfOk result (λ check. HasCheck format check) }
    {
        let _ = &self.tape;
        match format {
            Format::One => Ok(None),
            Format::Two => match self.number_64() {
                Ok(value) => Ok(Some(Check { value })),
                Err(stop) => Err(stop),
            },
        }
    }

    /// The resource, the check and the value of a put.
    fn put(
        &mut self,
        alloc: Global,
        format: Format,
    ) -> Result<(Text, Option<Check>, Stored), LoadStop>
        ensures reads { Reads self.old self.new put_bytes (put_part format) result }
        ensures resource { IfOk result (λ put. IsResource put.0) }
        ensures check { IfOk result (λ put. HasCheck format put.1) }
        ensures length { IfOk result (λ put. length put.2 ≤ longest_value) }
    {
        let resource = self.resource(alloc)?;
        let check = match self.check(format) {
            Ok(check) => check,
            Err(stop) => return Err(stop),
        };
        match self.value(alloc) {
            Ok(stored) => Ok((resource, check, stored)),
            Err(stop) => Err(stop),
        }
    }

    /// The row with this revision.
    pub fn row(&mut self, alloc: Global, format: Format, revision: u64) -> Result<KeptRow, LoadStop>
        ensures reads { Reads self.old self.new
            (kept_bytes revision) (row_part format revision) result }
        ensures rule { IfOk result (λ row. IsKeptRow format revision row) }
    {
        let (kind, path) = match self.head(alloc, revision) {
            Ok(head) => head,
            Err(stop) => return Err(stop),
        };
        match kind {
            RowKind::Delete => Ok(KeptRow::Delete(path)),
            RowKind::Put => {
                let (resource, check, stored) = match self.put(alloc, format) {
                    Ok(put) => put,
                    Err(stop) => return Err(stop),
                };
                match KeptRow::put(alloc, path, resource, revision, stored, check) {
                    Ok(row) => Ok(row),
                    Err(NoMemory) => Err(LoadStop::NoMemory),
                }
            }
        }
    }
}
