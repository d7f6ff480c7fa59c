//! The index of the last rows of the paths.
ghost use Rattle.std.specs.Prelude.{◌≡◌};

use crate::kept_row::KeptRow;
use kr_base::NoMemory;
use kr_paths::{Path, PathMap};
use std::alloc::Global;

/// Where the last rows of the paths stand, in order of paths.
#[derive(Drop)]
pub(crate) struct Index {
    /// The revisions of the live rows.
    pub live: PathMap,
    /// The revisions of the last deletes. One whose path is live again counts for nothing.
    pub gone: PathMap,
}

impl Index {
    ghost use Rattle.std.specs.Prelude.{◌≡◌, [], ◌∷◌, ◌++◌, length, IfOk, OnOk, OnErr, IfSome, IsSome, Some, None};
    ghost use Rattle.kr_paths.specs.Paths.{AreSorted};
    ghost use Rattle.kr_store.specs.inner.KeptRows.{log_row_of};
    ghost use Rattle.kr_store.specs.inner.Index.{IsIndexOf, Adds, Same, SetsLive, SetsGone, IsNextIn, allows, live_at, gone_at};

    /// The index of no rows.
    pub fn new(alloc: Global) -> Index
        ensures { IsIndexOf [] result }
    {
        Index {
            live: PathMap::new(alloc),
            gone: PathMap::new(alloc),
        }
    }

    /// The revision of the path's live row.
    pub fn live(&self, path: &str) -> Option<u64>
        ensures { result ≡ live_at self.now path.now }
    {
        revision_found(self.live.get(path))
    }

    /// The revision of the path's last delete.
    pub fn gone(&self, path: &str) -> Option<u64>
        ensures { result ≡ gone_at self.now path.now }
    {
        revision_found(self.gone.get(path))
    }

    /// The revision of the live row with the least path above this one.
    pub fn successor(&self, path: &str) -> Option<u64>
        ensures { IsNextIn self.now path.now result }
    {
        self.live.known();
        match self.live.successor(path) {
            Some(found) => Some(found.1 as u64),
            None => None,
        }
    }

    /// How many paths have a live row.
    pub fn live_count(&self) -> u64
        ensures count { result ≡ length self.now.live }
        ensures ordered { AreSorted self.now.live }
    {
        self.live.known();
        self.live.len() as u64
    }

    /// Whether the row may stand behind the indexed ones.
    pub fn allows(&self, row: &KeptRow) -> bool
        ensures { result ≡ allows self.now row.now }
    {
        match row {
            KeptRow::Put(_) => true,
            KeptRow::Delete(path) => self.live(path.as_str()).is_some(),
        }
    }

    /// The path's row is live from now on.
    pub fn set_live(&mut self, path: Path, revision: u64) -> Result<(), NoMemory>
        ensures ok { OnOk result (SetsLive self.old self.new path (Some revision)) }
        ensures err { OnErr result (Same self.old self.new) }
        ensures absent { OnErr result (live_at self.old path ≡ None) }
    {
        self.live.insert(path, revision as usize)?;
        Ok(())
    }

    /// The path has no live row any more.
    pub fn unset_live(&mut self, path: &str)
        ensures { SetsLive self.old self.new path.now None }
    {
        self.live.known();
        let _revision = self.live.remove(path);
    }

    /// The path's last row is the delete with this revision.
    pub fn set_gone(&mut self, path: Path, revision: u64) -> Result<(), NoMemory>
        ensures ok { OnOk result (SetsGone self.old self.new path (Some revision)) }
        ensures err { OnErr result (Same self.old self.new) }
    {
        self.gone.insert(path, revision as usize)?;
        Ok(())
    }

    /// Notes a row that was read.
    pub fn note(&mut self, row: &KeptRow, revision: u64) -> Result<(), NoMemory>
        ensures { OnOk result (Adds self.old self.new revision (log_row_of row.now)) }
    {
        match row {
            KeptRow::Put(row) => self.set_live(row.get().path.share()?, revision),
            KeptRow::Delete(path) => {
                self.set_gone(path.share()?, revision)?;
                self.unset_live(path.as_str());
                Ok(())
            }
        }
    }
}

/// A number of a map as a revision.
fn revision_found(found: Option<usize>) -> Option<u64>
    ensures { result ≡ found }
{
    match found {
        Some(revision) => Some(revision as u64),
        None => None,
    }
}
