//! Writing one row.
ghost use Rattle.std.specs.Prelude.{◌≡◌, ◌+◌, ◌^◌, ◌<◌, length};
ghost use Rattle.kr_store.specs.inner.Writing.{Writes, put_refusal};

use crate::answers::PutNo;
use crate::index::Index;
use crate::kept_row::RowKind;
use crate::log::Log;
use kr_base::{Failed, NoMemory, Tape};
use kr_paths::Path;

/// Why a row wasn't written.
#[derive(Drop)]
pub(crate) enum RowWriteNo {
    Failed,
    NoMemory,
}

impl RowWriteNo {
    /// What the store answers.
    pub fn refusal(self) -> PutNo
        ensures { result ≡ put_refusal self }
    {
        match self {
            RowWriteNo::Failed => PutNo::Failed,
            RowWriteNo::NoMemory => PutNo::NoMemory,
        }
    }
}

/// Appends the bytes of a row, and notes it. A delete is that of a live row. What the index needs
/// is taken before the tape is touched.
pub(crate) fn write_row<T: Tape>(
    log: &mut Log<T>,
    index: &mut Index,
    kind: RowKind,
    path: &str,
    key: Path,
    revision: u64,
    bytes: &[u8],
) -> Result<(), RowWriteNo>
    requires fits { log.old.end + length bytes.now < 2 ^ 64 }
    requires key { key ≡ path.now }
    ensures { Writes
        log.old log.new index.old index.new revision path.now kind bytes.now result }
{
    match kind {
        RowKind::Put if index.live(path).is_some() => {
            let Ok(()) = log.append(bytes) else {
                return Err(RowWriteNo::Failed);
            };
            match index.set_live(key, revision) {
                Ok(()) => Ok(()),
                Err(NoMemory) => unreachable!(),
            }
        }
        RowKind::Put => {
            let Ok(()) = index.set_live(key, revision) else {
                return Err(RowWriteNo::NoMemory);
            };
            match log.append(bytes) {
                Ok(()) => Ok(()),
                Err(Failed) => {
                    index.unset_live(path);
                    Err(RowWriteNo::Failed)
                }
            }
        }
        RowKind::Delete => {
            let Ok(()) = index.set_gone(key, revision) else {
                return Err(RowWriteNo::NoMemory);
            };
            let Ok(()) = log.append(bytes) else {
                return Err(RowWriteNo::Failed);
            };
            index.unset_live(path);
            Ok(())
        }
    }
}
