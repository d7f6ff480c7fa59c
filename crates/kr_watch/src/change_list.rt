//! The changes that a watch keeps.
ghost use Rattle.std.specs.Prelude.{◌≡◌, ◌≤◌, ◌<◌, ◌+◌, ◌∷◌, [], ◌++◌, drop, IfOk, OnOk};
ghost use Rattle.kr_watch.specs.Changes.{earlier_ones, last_ones, revision_after};
ghost use Rattle.kr_watch.specs.inner.Keeping.{IsKept, KeptState, TellsKept, new_changes};

use crate::change::ObjectChange;
use crate::since_no::SinceNo;
use kr_base::{List, NoMemory, Shared};
use std::alloc::Global;
use std::collections::VecDeque;
use std::marker::Model;

/// The most changes for which there is room from the start.
const FIRST_ROOM: u32 = 1_000;

/// The last changes, up to so many. Contracts see them with the spare room.
#[derive(Drop)]
pub(crate) struct ChangeList {
    keep: u32,
    /// The revision before them.
    oldest: u64,
    changes: VecDeque<Shared<ObjectChange>>,
}

impl Model for ChangeList {
    ghost use Rattle.std.specs.Prelude.{ℕ, ◌-◌};
    ghost use Rattle.std.specs.VecDeque.{deque_capacity, deque_len};
    ghost use Rattle.kr_watch.specs.inner.Keeping.{IsKept, KeptState};

    ghost Value = { KeptState × ℕ };

    ghost view = { λ list. (
      record {
        keep = list.keep;
        oldest = list.oldest;
        changes = list.changes.items;
      },
      deque_capacity list.changes - deque_len list.changes,
    ) };

    ghost invariant = { λ list. IsKept list.keep list.oldest list.changes.items };
}

impl ChangeList {
    /// No changes yet, behind this revision.
    pub fn new(alloc: Global, keep: u32, revision: u64) -> Result<ChangeList, NoMemory>
        requires { 1 ≤ keep }
        ensures { IfOk result (λ list. list.0 ≡ new_changes keep revision) }
    {
        let room = keep.min(FIRST_ROOM) as usize;
        Ok(ChangeList {
            keep,
            oldest: revision,
            changes: VecDeque::with_capacity(alloc, room)?,
        })
    }

    /// What is known of each list: its changes are not too many, and each has the revision behind
    /// the one before it.
    pub fn known(&self)
        ensures { IsKept self.now.0.keep self.now.0.oldest self.now.0.changes }
    {
        let _ = &self.changes;
    }

    /// Makes room for one more change.
    pub fn reserve(&mut self) -> Result<(), NoMemory>
        ensures same { self.new.0 ≡ self.old.0 }
        ensures ok { OnOk result (0 < self.new.1) }
    {
        self.changes.reserve(1)?;
        Ok(())
    }

    /// Puts the next change at the end, where there is room for it. Where these are too many then,
    /// the first one goes.
    pub fn keep(&mut self, change: Shared<ObjectChange>)
        requires room { 0 < self.old.1 }
        requires next { change.revision
            ≡ revision_after self.old.0.oldest self.old.0.changes + 1 }
        ensures keep { self.new.0.keep ≡ self.old.0.keep }
        ensures kept { self.new.0.changes
            ≡ last_ones self.old.0.keep (self.old.0.changes ++ change ∷ []) }
        ensures dropped { self.new.0.oldest ≡ revision_after self.old.0.oldest
            (earlier_ones self.old.0.keep (self.old.0.changes ++ change ∷ [])) }
    {
        self.changes.push_back_reserved(change);
        if self.changes.len() <= self.keep as usize {
            return;
        }
        let Some(dropped) = self.changes.pop_front() else {
            return;
        };
        self.oldest = dropped.get().revision;
    }

    /// The revision of the last change.
    pub fn newest(&self) -> u64
        ensures { result ≡ revision_after self.now.0.oldest self.now.0.changes }
    {
        match self.changes.back() {
            Some(last) => last.get().revision,
            None => self.oldest,
        }
    }

    /// The changes above a revision. They stand one behind another, so the revision tells the place
    /// of the first one.
    pub fn later_changes(
        &self,
        alloc: Global,
        revision: u64,
    ) -> Result<List<Shared<ObjectChange>>, SinceNo>
        ensures { TellsKept self.now.0 revision result }
    {
        if revision < self.oldest {
            return Err(SinceNo::Gone {
                oldest: self.oldest,
            });
        }
        let newest = self.newest();
        if revision > newest {
            return Err(SinceNo::Ahead { newest });
        }
        let place = (revision - self.oldest) as usize;
        match share_tail(alloc, &self.changes, place) {
            Ok(changes) => Ok(changes),
            Err(NoMemory) => Err(SinceNo::NoMemory),
        }
    }
}

/// Shares the changes from this place on.
fn share_tail(
    alloc: Global,
    changes: &VecDeque<Shared<ObjectChange>>,
    place: usize,
) -> Result<List<Shared<ObjectChange>>, NoMemory>
    ensures { IfOk result (λ shared. shared.0 ≡ drop place changes.now.items) }
{
    let mut shared = List::new(alloc);
    for at in place..changes.len() {
        match shared.push(changes[at].share()?) {
            Ok(()) => {}
            Err(_) => return Err(NoMemory),
        }
    }
    Ok(shared)
}
