//! What a store keeps of each row.
ghost use Rattle.std.specs.Prelude.{◌≡◌, IfOk};
ghost use Rattle.kr_store.specs.File.{byte_kind};
ghost use Rattle.kr_store.specs.declared.kept_row.KeptRow.TheVariants as kept;

use crate::format::Check;
use crate::rows::{Row, RowRef};
use crate::stored::Stored;
use kr_base::{NoMemory, Shared, Text};
use kr_paths::Path;
use std::alloc::Global;

/// What a row does, as its first byte says.
#[derive(Clone, Copy)]
pub(crate) enum RowKind {
    Put,
    Delete,
}

/// What is kept of a row. Its revision is its place plus 1.
#[derive(Drop)]
pub(crate) enum KeptRow {
    Put(Shared<Row>),
    Delete(Path),
}

impl KeptRow {
    ghost use Rattle.kr_store.specs.inner.KeptRows.{log_row_of};
    ghost use Rattle.kr_store.specs.inner.Lending.{IsLentAs};

    /// A put of these parts.
    pub fn put(
        alloc: Global,
        path: Path,
        resource: Text,
        revision: u64,
        stored: Stored,
        check: Option<Check>,
    ) -> Result<KeptRow, NoMemory>
        ensures { IfOk result (λ row. row ≡ kept.Put (record {
          path = path;
          resource = resource;
          revision = revision;
          stored = stored;
          check = check;
        })) }
    {
        let row = Row {
            path,
            resource,
            revision,
            stored,
            check,
        };
        match Shared::new(alloc, row) {
            Ok(row) => Ok(KeptRow::Put(row)),
            Err(refused) => {
                drop(refused);
                Err(NoMemory)
            }
        }
    }

    /// Lends the row.
    pub fn lend(&self) -> RowRef<'_>
        ensures { IsLentAs self.now result }
    {
        match self {
            KeptRow::Put(row) => RowRef::Put(row.get()),
            KeptRow::Delete(path) => RowRef::Delete(path.as_str()),
        }
    }

    /// What the row does.
    pub fn kind(&self) -> RowKind
        ensures { result ≡ byte_kind (log_row_of self.now).change }
    {
        match self {
            KeptRow::Put(_) => RowKind::Put,
            KeptRow::Delete(_) => RowKind::Delete,
        }
    }
}
