//! A watch, and the lines of a journal that it is handed.
ghost use Rattle.std.specs.Prelude.{◌≡◌};
ghost use Rattle.kr_rollout.specs.declared.line.Gave.TheVariants.{Written};

use kr_base::{Bytes, List, NoMemory, Shared, Text};
use kr_rollout::{Did, Gave, Line};
use kr_watch::{Item, Listing, ObjectChange, SinceNo, Watch, noted_is_newest};
use std::alloc::Global;
use std::marker::Model;
use test_support::Wrong;

/// What a line wrote at its path.
#[derive(Clone, Copy)]
pub enum Wrote<'a> {
    /// Data of a resource.
    Put { resource: &'a str, plain: &'a [u8] },
    /// Nothing any more.
    Delete,
    /// The same data, sealed anew.
    Replace,
}

/// A watch, with the revision of its last change.
#[derive(Drop)]
pub struct Play {
    watch: Watch,
    newest: u64,
}

impl Model for Play {
    ghost use Rattle.std.specs.Prelude.{◌≡◌};
    ghost use Rattle.kr_watch.specs.Watches.{WatchState, newest_of};

    ghost Value = { WatchState };

    ghost view = { λ play. play.watch };

    ghost invariant = { λ play. newest_of play.watch ≡ play.newest };
}

impl Play {
    /// A watch of an opening whose last row has this revision, which keeps at least one change.
    pub fn new(alloc: Global, keep: u32, revision: u64) -> Result<Play, Wrong> {
        if keep == 0 {
            return Err(Wrong::Form);
        }
        Ok(Play {
            watch: Watch::new(alloc, keep, revision)?,
            newest: revision,
        })
    }

    /// Hands a live row of the opening in.
    pub fn seed(
        &mut self,
        alloc: Global,
        path: &str,
        resource: &str,
        revision: u64,
        plain: Option<&[u8]>,
    ) -> Result<(), Wrong> {
        let item = make_item(alloc, path, resource, revision, plain)?;
        match self.watch.seed(item) {
            Ok(()) => Ok(()),
            Err(NoMemory) => Err(Wrong::Memory),
        }
    }

    /// Hands so many lines in, each with the row behind the last one.
    pub fn note(
        &mut self,
        alloc: Global,
        times: u32,
        wrote: Wrote<'_>,
        path: &str,
    ) -> Result<(), Wrong> {
        for _ in 0..times {
            let did = line_event(alloc, wrote, path)?;
            self.write(did)?;
        }
        Ok(())
    }

    /// A line that wrote the next row.
    fn write(&mut self, did: Did) -> Result<(), Wrong> {
        if self.newest == u64::MAX {
            drop(did);
            return Err(Wrong::Form);
        }
        let revision = self.newest + 1;
        noted_is_newest();
        let line = written_line(did, revision);
        let noted = self.watch.apply(&line);
        drop(line);
        match noted {
            Ok(()) => {
                self.newest = revision;
                Ok(())
            }
            Err(NoMemory) => Err(Wrong::Memory),
        }
    }

    /// The page, after as many of them.
    pub fn list(
        &self,
        times: u32,
        resource: &str,
        after: &str,
        limit: u32,
    ) -> Result<Listing, Wrong> {
        if limit == 0 {
            return Err(Wrong::Form);
        }
        for _ in 1..times {
            drop(self.watch.list(resource, after, limit)?);
        }
        Ok(self.watch.list(resource, after, limit)?)
    }

    /// The changes above the revision, after as many answers.
    pub fn later_changes(
        &self,
        times: u32,
        revision: u64,
    ) -> Result<List<Shared<ObjectChange>>, SinceNo> {
        for _ in 1..times {
            drop(self.watch.later_changes(revision));
        }
        self.watch.later_changes(revision)
    }
}

/// An object with copies of its texts.
fn make_item(
    alloc: Global,
    path: &str,
    resource: &str,
    revision: u64,
    plain: Option<&[u8]>,
) -> Result<Item, Wrong> {
    let path = Text::copy(alloc, path)?;
    let resource = Text::copy(alloc, resource)?;
    let plain = match plain {
        Some(plain) => Some(Bytes::copy(alloc, plain)?),
        None => None,
    };
    Ok(Item {
        path,
        resource,
        revision,
        plain,
    })
}

/// The event of a line.
fn line_event(alloc: Global, wrote: Wrote<'_>, path: &str) -> Result<Did, Wrong> {
    let path = Text::copy(alloc, path)?;
    match wrote {
        Wrote::Put { resource, plain } => Ok(Did::Put {
            path,
            resource: Text::copy(alloc, resource)?,
            plain: Bytes::copy(alloc, plain)?,
        }),
        Wrote::Delete => Ok(Did::Delete { path }),
        Wrote::Replace => Ok(Did::Replace { path, revision: 0 }),
    }
}

/// A line whose row has this revision.
fn written_line(did: Did, revision: u64) -> Line
    ensures { result.gave ≡ Written revision }
{
    Line {
        seat: 0,
        did,
        held: Some(0),
        gave: Gave::Written { revision },
        faults: 0,
    }
}
