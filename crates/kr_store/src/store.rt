//! A store: its rows, their index, and the file that they are.
ghost use Rattle.std.specs.Prelude.{◌≡◌, ℕ, ◌≤◌, ◌^◌, ◌<◌, ◌+◌, ◌++◌, ◌-◌, get_or, false, length, IfOk, IfErr, IfSome, IsSome, MatchResult};
ghost use Rattle.kr_base.specs.Faults.{Rose, counted};
ghost use Rattle.kr_base.specs.Rules.{IsPath, IsResource};
ghost use Rattle.kr_store.specs.declared.format.Format.{Format};
ghost use Rattle.kr_store.specs.declared.kept_row.KeptRow.{KeptRow};
ghost use Rattle.kr_store.specs.declared.rows.Change.TheVariants as changes;
ghost use Rattle.kr_store.specs.Rows.{longest_value, live, put_of, check_in, MayChange, IsRow};
ghost use Rattle.kr_store.specs.inner.KeptRows.{log_row_of, shared_row, IsKeptRow, IsChange};
ghost use Rattle.kr_store.specs.inner.Writing.{lead};
ghost use Rattle.kr_store.specs.File.{row_bytes};
ghost use Rattle.kr_store.specs.Stores.{Loads, load_failed, Holds, Puts, Deletes, Replaces, IsNext, LendsRow, IsLent, IsLiveCount};

use crate::answers::{PutNo, StoreNo};
use crate::encode::{row_bytes, row_length};
use crate::format::{Check, Format};
use crate::index::Index;
use crate::kept_row::KeptRow;
use crate::load::{Contents, load_rows};
use crate::log::Log;
use crate::reader::Reader;
use crate::rows::{Change, Row, RowRef};
use crate::stored::Stored;
use crate::write::write_row;
use kr_base::{Bytes, Failed, List, NoMemory, Shared, Tape, Text};
use kr_paths::Path;
use std::alloc::Global;
use std::marker::Model;

/// A row, before it is written: its bytes, its path as the index keeps it, and what is kept of it.
#[derive(Drop)]
struct Made {
    bytes: Bytes,
    key: Path,
    row: KeptRow,
}

fn make_row(
    alloc: Global,
    format: Format,
    empty: bool,
    revision: u64,
    path: &str,
    own: Path,
    change: Change,
) -> Result<Made, NoMemory>
    requires path { IsPath path.now }
    requires own { own ≡ path.now }
    requires change { IsChange format change }
    ensures bytes { IfOk result (λ made. made.bytes
        ≡ lead format empty
        ++ row_bytes revision (record { path = path.now; change = change })) }
    ensures key { IfOk result (λ made. made.key ≡ path.now) }
    ensures row { IfOk result (λ made. log_row_of made.row
        ≡ record { path = path.now; change = change }) }
    ensures rule { IfOk result (λ made. IsKeptRow format revision made.row) }
{
    let bytes = row_bytes(alloc, format, empty, revision, path, &change)?;
    let key = own.share()?;
    let row = kept_row(alloc, revision, own, change)?;
    Ok(Made {
        bytes: Bytes::from_vec(bytes),
        key,
        row,
    })
}

fn kept_row(alloc: Global, revision: u64, path: Path, change: Change) -> Result<KeptRow, NoMemory>
    requires { IsPath path }
    ensures row { IfOk result (λ row. log_row_of row ≡ record { path = path; change = change }) }
    ensures rule { IfOk result (λ row.
        (format : Format) → IsChange format change → IsKeptRow format revision row) }
{
    match change {
        Change::Put {
            resource,
            stored,
            check,
        } => KeptRow::put(alloc, path, resource, revision, stored, check),
        Change::Delete => Ok(KeptRow::Delete(path)),
    }
}

/// The path, shared, and a copy of the resource of the row with this revision, a put.
fn row_names(alloc: Global, rows: &[KeptRow], revision: u64) -> Result<(Path, Text), NoMemory>
    requires { (1 ≤ revision) × (revision ≤ length rows.now)
        × ((d : KeptRow) → IsSome (shared_row (get_or rows.now (revision - 1) d))) }
    ensures { IfOk result (λ names. (d : KeptRow)
        → IfSome (shared_row (get_or rows.now (revision - 1) d))
        (λ row. (row.path ≡ names.0) × (row.resource ≡ names.1))) }
{
    match &rows[revision as usize - 1] {
        KeptRow::Put(row) => {
            let path = row.get().path.share()?;
            let resource = Text::copy(alloc, row.get().resource.as_str())?;
            Ok((path, resource))
        }
        KeptRow::Delete(_) => unreachable!(),
    }
}

/// Shares the row with this revision, if it is a put.
fn share(rows: &[KeptRow], revision: u64) -> Result<Option<Shared<Row>>, NoMemory>
    requires { (1 ≤ revision) × (revision ≤ length rows.now) }
    ensures { IfOk result (λ found. (d : KeptRow)
        → found ≡ shared_row (get_or rows.now (revision - 1) d)) }
{
    match &rows[revision as usize - 1] {
        KeptRow::Put(row) => match row.share() {
            Ok(row) => Ok(Some(row)),
            Err(NoMemory) => Err(NoMemory),
        },
        KeptRow::Delete(_) => Ok(None),
    }
}

/// The rows of a file on a tape: all of them in a log, and an index of the last ones in order of
/// paths.
#[derive(Drop)]
pub struct Store<T: Tape> {
    alloc: Global,
    log: Log<T>,
    limit: u64,
    format: Format,
    rows: List<KeptRow>,
    index: Index,
}

impl<T: Tape> Model for Store<T> {
    ghost use Rattle.kr_store.specs.Stores.{Kept};
    ghost use Rattle.kr_store.specs.inner.Store.{kept_of, IsStore};

    ghost Value = { Kept };

    ghost view = { λ store. kept_of store.format store.rows.0 store.limit store.log };

    ghost invariant = { λ store.
        IsStore store.format store.rows.0 store.index store.limit store.log };
}

impl<T: Tape> Store<T> {
    /// Loads the tape's file, if it has no more bytes than the limit. A refusal gives the tape
    /// back. Each fault of the tape is told, and what failed isn't read again.
    pub fn load(alloc: Global, mut tape: T, limit: u64) -> Result<Store<T>, (StoreNo, T)>
        requires limit { limit < 2 ^ 63 }
        requires cuts { T.loose tape ≡ false }
        ensures loads { Loads (T.told tape) limit result }
        ensures same { IfErr result (λ refused.
            (T.told refused.1 ≡ T.told tape) × (T.count tape ≤ T.count refused.1)) }
        ensures failed { IfErr result (λ refused.
            refused.0 ≡ StoreNo.Failed → Rose (T.count tape) (T.count refused.1)) }
        ensures kept { IfOk result (λ store.
            (store.limit ≡ limit) × (store.told ≡ T.told tape) × (store.torn ≡ false)
            × (T.count tape ≤ store.count)) }
        ensures once { MatchResult result
            (λ store. store.count ≡ T.count tape)
            (λ refused. T.count refused.1
            ≡ counted (load_failed refused.0) (T.count tape)) }
    {
        let length = match tape.len() {
            Ok(length) => length,
            Err(Failed) => return Err((StoreNo::Failed, tape)),
        };
        if length > limit {
            return Err((StoreNo::TooLong, tape));
        }
        let mut reader = match Reader::new(alloc, tape, length) {
            Ok(reader) => reader,
            Err((_, tape)) => return Err((StoreNo::NoMemory, tape)),
        };
        match load_rows(alloc, &mut reader) {
            Ok(contents) => {
                let Contents {
                    format,
                    rows,
                    index,
                } = contents;
                Ok(Store {
                    alloc,
                    log: Log::new(reader.into_tape(), length),
                    limit,
                    format,
                    rows,
                    index,
                })
            }
            Err(no) => Err((no, reader.into_tape())),
        }
    }

    /// Appends a put, and answers its revision. The first format keeps no check.
    pub fn put(
        &mut self,
        path: &str,
        resource: &str,
        stored: Bytes,
        check: Check,
    ) -> Result<u64, PutNo>
        requires path { IsPath path.now }
        requires resource { IsResource resource.now }
        requires stored { length stored ≤ longest_value }
        ensures { Puts self.old self.new
            (put_of path.now resource.now stored (check_in self.old.format check)) result }
    {
        match Path::copy(self.alloc, path) {
            Ok(own) => self.put_new(path, own, resource, stored, check),
            Err(NoMemory) => {
                drop(stored);
                Err(PutNo::NoMemory)
            }
        }
    }

    /// The same at a path that is shared, and not copied.
    pub fn put_shared(
        &mut self,
        path: &Path,
        resource: &str,
        stored: Bytes,
        check: Check,
    ) -> Result<u64, PutNo>
        requires path { IsPath path.now }
        requires resource { IsResource resource.now }
        requires stored { length stored ≤ longest_value }
        ensures { Puts self.old self.new
            (put_of path.now resource.now stored (check_in self.old.format check)) result }
    {
        match path.share() {
            Ok(own) => self.put_new(path.as_str(), own, resource, stored, check),
            Err(NoMemory) => {
                drop(stored);
                Err(PutNo::NoMemory)
            }
        }
    }

    /// Appends a put of what a row puts, whose path and value are shared, and not copied.
    pub fn put_row(&mut self, row: &Row, check: Check) -> Result<u64, PutNo>
        requires path { IsPath row.now.path }
        requires resource { IsResource row.now.resource }
        requires stored { length row.now.stored ≤ longest_value }
        ensures { Puts self.old self.new (put_of row.now.path row.now.resource row.now.stored
            (check_in self.old.format check)) result }
    {
        let Ok(own) = row.path.share() else {
            return Err(PutNo::NoMemory);
        };
        let Ok(stored) = row.stored.share() else {
            drop(own);
            return Err(PutNo::NoMemory);
        };
        self.put_own(row.path.as_str(), own, row.resource.as_str(), stored, check)
    }

    /// The same at a path of which the row takes `own` over, of a value that has no owner yet.
    fn put_new(
        &mut self,
        path: &str,
        own: Path,
        resource: &str,
        stored: Bytes,
        check: Check,
    ) -> Result<u64, PutNo>
        requires path { IsPath path.now }
        requires own { own ≡ path.now }
        requires resource { IsResource resource.now }
        requires stored { length stored ≤ longest_value }
        ensures { Puts self.old self.new
            (put_of path.now resource.now stored (check_in self.old.format check)) result }
    {
        match Stored::from_bytes(self.alloc, stored) {
            Ok(stored) => self.put_own(path, own, resource, stored, check),
            Err(NoMemory) => Err(PutNo::NoMemory),
        }
    }

    /// The same, of a value that the row takes over.
    fn put_own(
        &mut self,
        path: &str,
        own: Path,
        resource: &str,
        stored: Stored,
        check: Check,
    ) -> Result<u64, PutNo>
        requires path { IsPath path.now }
        requires own { own ≡ path.now }
        requires resource { IsResource resource.now }
        requires stored { length stored ≤ longest_value }
        ensures { Puts self.old self.new
            (put_of path.now resource.now stored (check_in self.old.format check)) result }
    {
        let check = self.format.keep(check);
        match Text::copy(self.alloc, resource) {
            Ok(resource) => self.append(
                path,
                own,
                Change::Put {
                    resource,
                    stored,
                    check,
                },
            ),
            Err(NoMemory) => {
                drop(stored);
                Err(PutNo::NoMemory)
            }
        }
    }

    /// Appends a delete where the path has a live row, and answers its revision.
    pub fn delete(&mut self, path: &str) -> Result<Option<u64>, PutNo>
        requires { IsPath path.now }
        ensures { Deletes self.old self.new path.now result }
    {
        let Some(_live) = self.index.live(path) else {
            return Ok(None);
        };
        let own = match Path::copy(self.alloc, path) {
            Ok(own) => own,
            Err(NoMemory) => return Err(PutNo::NoMemory),
        };
        match self.append(path, own, Change::Delete) {
            Ok(revision) => Ok(Some(revision)),
            Err(why) => Err(why),
        }
    }

    /// Appends a put for the resource of the path's last row, where that is a put with this
    /// revision. The first format keeps no check.
    pub fn replace_if(
        &mut self,
        path: &str,
        revision: u64,
        stored: Bytes,
        check: Check,
    ) -> Result<u64, PutNo>
        requires path { IsPath path.now }
        requires stored { length stored ≤ longest_value }
        ensures { Replaces self.old self.new path.now revision stored check result }
    {
        let Some(last) = self.index.live(path) else {
            drop(stored);
            let revision = self.index.gone(path).unwrap_or(0);
            return Err(PutNo::Changed { revision });
        };
        if last != revision {
            drop(stored);
            return Err(PutNo::Changed { revision: last });
        }
        let check = self.format.keep(check);
        match row_names(self.alloc, self.rows.as_slice(), last) {
            Ok((own, resource)) => self.append_put(path, own, resource, stored, check),
            Err(NoMemory) => {
                drop(stored);
                Err(PutNo::NoMemory)
            }
        }
    }

    /// Appends a put that may stand behind the others.
    fn append_put(
        &mut self,
        path: &str,
        own: Path,
        resource: Text,
        stored: Bytes,
        check: Option<Check>,
    ) -> Result<u64, PutNo>
        requires path { IsPath path.now }
        requires own { own ≡ path.now }
        requires change { MayChange self.old.format self.old.rows path.now
            (changes.Put resource stored check) }
        ensures { Puts self.old self.new (put_of path.now resource stored check) result }
    {
        match Stored::from_bytes(self.alloc, stored) {
            Ok(stored) => self.append(
                path,
                own,
                Change::Put {
                    resource,
                    stored,
                    check,
                },
            ),
            Err(NoMemory) => Err(PutNo::NoMemory),
        }
    }

    /// Appends a row that may stand behind the others, and answers its revision. It takes over the
    /// path in `own`.
    fn append(&mut self, path: &str, own: Path, change: Change) -> Result<u64, PutNo>
        requires path { IsPath path.now }
        requires own { own ≡ path.now }
        requires change { MayChange self.old.format self.old.rows path.now change }
        ensures { Puts self.old self.new (record { path = path.now; change = change }) result }
    {
        let at = self.log.end();
        let empty = at == 0;
        let needed = at + row_length(self.format, empty, path, &change);
        if needed > self.limit {
            drop((own, change));
            return Err(PutNo::Full { needed });
        }
        match self.rows.reserve(1) {
            Ok(()) => {}
            Err(NoMemory) => {
                drop((own, change));
                return Err(PutNo::NoMemory);
            }
        }
        let revision = self.rows.as_slice().len() as u64 + 1;
        let made = match make_row(self.alloc, self.format, empty, revision, path, own, change) {
            Ok(made) => made,
            Err(NoMemory) => return Err(PutNo::NoMemory),
        };
        let Made { bytes, key, row } = made;
        let kind = row.kind();
        match write_row(
            &mut self.log,
            &mut self.index,
            kind,
            path,
            key,
            revision,
            bytes.as_slice(),
        ) {
            Ok(()) => {}
            Err(why) => {
                drop((bytes, row));
                return Err(why.refusal());
            }
        }
        drop(bytes);
        self.rows.push_in_room(row);
        Ok(revision)
    }

    /// The path's live row. It is shared, not copied.
    pub fn get(&self, path: &str) -> Result<Option<Shared<Row>>, NoMemory>
        ensures live { IfOk result (λ found. found ≡ live self.now.rows path.now) }
        ensures rules { IfOk result (λ found. IfSome found (IsRow self.now.format)) }
    {
        match self.index.live(path) {
            Some(revision) => share(self.rows.as_slice(), revision),
            None => Ok(None),
        }
    }

    /// The live row with the least path above this one, which may be empty. It is shared, not
    /// copied.
    pub fn successor(&self, path: &str) -> Result<Option<Shared<Row>>, NoMemory>
        ensures next { IfOk result (λ found. IsNext self.now.rows path.now found) }
        ensures rules { IfOk result (λ found. IfSome found (IsRow self.now.format)) }
    {
        match self.index.successor(path) {
            Some(revision) => share(self.rows.as_slice(), revision),
            None => Ok(None),
        }
    }

    /// Lends the row with this revision, if there is one.
    pub fn row_by_revision(&self, revision: u64) -> Option<RowRef<'_>>
        ensures row { LendsRow self.now.rows revision result }
        ensures rules { IfSome result (IsLent self.now.format) }
    {
        if revision == 0 {
            return None;
        }
        match self.rows.as_slice().get(revision as usize - 1) {
            Some(row) => Some(row.lend()),
            None => None,
        }
    }

    /// How the file is written.
    pub fn format(&self) -> Format
        ensures { result ≡ self.now.format }
    {
        self.format
    }

    /// How many bytes the file has. A store of no rows has none, or the 8 that name its format.
    pub fn length(&self) -> u64
        ensures { result ≡ self.now.length }
    {
        self.log.end()
    }

    /// How many rows are live, which is how long a listing of them is.
    pub fn live_count(&self) -> u64
        ensures { IsLiveCount self.now.rows result }
    {
        self.index.live_count()
    }

    /// The revision of the last row, 0 where there is none.
    pub fn revision(&self) -> u64
        ensures { result ≡ length self.now.rows }
    {
        self.rows.as_slice().len() as u64
    }

    /// Whether a write has failed since the last one that was done: what it wrote of its row may
    /// then stand behind the file, until the next write cuts it off.
    pub fn torn(&self) -> bool
        ensures { result ≡ self.now.torn }
    {
        self.log.torn()
    }

    /// How often the tape failed, up to the greatest number.
    pub fn faults(&self) -> u64
        ensures { result ≡ self.now.count }
    {
        self.log.faults()
    }

    /// Gives the tape back.
    pub fn close(self) -> T
        ensures told { T.told result ≡ self.told }
        ensures count { T.count result ≡ self.count }
        ensures holds { Holds self }
    {
        let Store { log, .. } = self;
        log.into_tape()
    }

    /// What is known of each store: its tape begins with the file of its rows.
    pub fn known(&self)
        ensures { Holds self.now }
    {
        let _ = &self.limit;
    }
}
