//! Loading the rows of a file.
ghost use Rattle.std.specs.Prelude.{◌≡◌, [], ◌∷◌, ◌++◌, OnOk};
ghost use Rattle.kr_store.specs.declared.format.Format.TheVariants.{Two};
ghost use Rattle.kr_store.specs.inner.Index.{Adds, IsIndexOf};
ghost use Rattle.kr_store.specs.inner.KeptRows.{log_row_of};
ghost use Rattle.kr_store.specs.inner.Reading.{Advances, LoadsRows, load_refusal};
ghost use Rattle.kr_store.specs.Stores.{load_failed};

use crate::answers::{Cause, LoadStop, StoreNo};
use crate::format::Format;
use crate::index::Index;
use crate::kept_row::KeptRow;
use crate::reader::Reader;
use kr_base::{List, NoMemory, Tape};
use std::alloc::Global;

/// What a file holds: its rows, and the index of the last ones of their paths.
#[derive(Drop)]
pub(crate) struct Contents {
    pub format: Format,
    pub rows: List<KeptRow>,
    pub index: Index,
}

/// Loads the rows of the whole file, or finds its first breach.
pub(crate) fn load_rows<T: Tape>(alloc: Global, reader: &mut Reader<T>) -> Result<Contents, StoreNo>
    requires { reader.old.place ≡ 0 }
    ensures advances { Advances load_failed reader.old reader.new result }
    ensures loads { LoadsRows reader.old result }
{
    if reader.is_at_end() {
        return Ok(no_rows(alloc));
    }
    let format = reader.magic()?;
    let mut rows = List::new(alloc);
    let mut index = Index::new(alloc);
    while !reader.is_at_end() {
        let at = reader.place();
        let revision = rows.as_slice().len() as u64 + 1;
        let row = match reader.row(alloc, format, revision) {
            Ok(row) => row,
            Err(stop) => {
                drop((rows, index));
                return Err(load_refusal(stop, at));
            }
        };
        if !index.allows(&row) {
            drop((rows, index));
            drop(row);
            return Err(StoreNo::BadRow { at });
        }
        match add_row(&mut rows, &mut index, row, revision) {
            Ok(()) => {}
            Err(NoMemory) => {
                drop((rows, index));
                return Err(StoreNo::NoMemory);
            }
        }
    }
    Ok(Contents {
        format,
        rows,
        index,
    })
}

/// What a file without a byte holds.
fn no_rows(alloc: Global) -> Contents
    ensures format { result.format ≡ Two }
    ensures rows { result.rows.0 ≡ [] }
    ensures index { IsIndexOf [] result.index }
{
    Contents {
        format: Format::Two,
        rows: List::new(alloc),
        index: Index::new(alloc),
    }
}

/// Puts a row that may stand there behind the others, and notes it in their index.
fn add_row(
    rows: &mut List<KeptRow>,
    index: &mut Index,
    row: KeptRow,
    revision: u64,
) -> Result<(), NoMemory>
    ensures rows { OnOk result (rows.new.0 ≡ rows.old.0 ++ row ∷ []) }
    ensures index { OnOk result (Adds index.old index.new revision (log_row_of row)) }
{
    match index.note(&row, revision) {
        Ok(()) => {}
        Err(NoMemory) => {
            drop(row);
            return Err(NoMemory);
        }
    }
    match rows.push(row) {
        Ok(()) => Ok(()),
        Err(refused) => {
            drop(refused);
            Err(NoMemory)
        }
    }
}

/// Why a row that begins at this place can't be loaded.
fn load_refusal(stop: LoadStop, at: u64) -> StoreNo
    ensures { result ≡ load_refusal stop at }
{
    match stop {
        LoadStop::Breach(Cause::Torn) => StoreNo::Torn { at },
        LoadStop::Breach(Cause::BadRow) => StoreNo::BadRow { at },
        LoadStop::Breach(Cause::Order) => StoreNo::Order { at },
        LoadStop::Failed => StoreNo::Failed,
        LoadStop::NoMemory => StoreNo::NoMemory,
    }
}
