//! The watch.
ghost use Rattle.std.specs.Prelude.{◌≡◌, ◌≤◌, IfOk, OnErr, OnOk};
ghost use Rattle.kr_watch.specs.Pages.{IsPage};
ghost use Rattle.kr_watch.specs.Shown.{AreInOrder};
ghost use Rattle.kr_watch.specs.Watches.{GoesOn, IsNextLine, Seeds, TellsSince, new_watch};
ghost use Rattle.kr_watch.specs.Noting.{Notes};

use crate::change::{ObjectChange, What};
use crate::change_list::ChangeList;
use crate::item::Item;
use crate::item_list::{ItemList, list_key};
use crate::page::{Listing, first_page};
use crate::since_no::SinceNo;
use kr_base::{List, NoMemory, Shared};
use kr_rollout::Line;
use std::alloc::Global;
use std::marker::Model;

/// The objects of a history and its last changes, as the lines of its journal tell them.
#[derive(Drop)]
pub struct Watch {
    alloc: Global,
    items: ItemList,
    changes: ChangeList,
}

impl Model for Watch {
    ghost use Rattle.kr_watch.specs.Watches.{WatchState};

    ghost Value = { WatchState };

    ghost view = { λ watch. record {
      keep = watch.changes.0.keep;
      items = watch.items;
      oldest = watch.changes.0.oldest;
      changes = watch.changes.0.changes;
    } };
}

impl Watch {
    /// A watch that keeps the last so many changes, of an opening whose last row has this revision.
    pub fn new(alloc: Global, keep: u32, revision: u64) -> Result<Watch, NoMemory>
        requires { 1 ≤ keep }
        ensures { IfOk result (λ watch. watch ≡ new_watch keep revision) }
    {
        Ok(Watch {
            alloc,
            items: ItemList::new(alloc),
            changes: ChangeList::new(alloc, keep, revision)?,
        })
    }

    /// Takes a live row of the opening. Each is handed in once, before any line.
    pub fn seed(&mut self, item: Item) -> Result<(), NoMemory>
        ensures ok { OnOk result (Seeds item self.old self.new) }
        ensures err { OnErr result (self.new ≡ self.old) }
    {
        let item = item.into_shared(self.alloc)?;
        self.items.put(self.alloc, item)
    }

    /// Takes the journal's next line: what it wrote is noted, so a watch that was handed a history
    /// was then handed it with this line's entry.
    pub fn apply(&mut self, line: &Line) -> Result<(), NoMemory>
        requires next { IsNextLine self.old line.now }
        ensures notes { OnOk result (Notes line.now self.old self.new) }
        ensures follows { OnOk result (GoesOn line.now self.old self.new) }
        ensures err { OnErr result (self.new ≡ self.old) }
    {
        self.note(line)
    }

    /// Notes what the line wrote, if it wrote a row.
    fn note(&mut self, line: &Line) -> Result<(), NoMemory>
        requires next { IsNextLine self.old line.now }
        ensures ok { OnOk result (Notes line.now self.old self.new) }
        ensures err { OnErr result (self.new ≡ self.old) }
    {
        self.items.known();
        self.changes.known();
        let Some((revision, path, effect)) = line.written() else {
            return Ok(());
        };
        let change = ObjectChange::shared(self.alloc, revision, path, What::from_effect(&effect))?;
        self.changes.reserve()?;
        self.items.note(self.alloc, revision, path, &effect)?;
        self.items.known();
        self.changes.keep(change);
        Ok(())
    }

    /// The first items of the resource whose paths are above this one.
    pub fn list(&self, resource: &str, after: &str, limit: u32) -> Result<Listing, NoMemory>
        requires { 1 ≤ limit }
        ensures { IfOk result (λ page. IsPage self.now.items resource.now after.now limit page) }
    {
        let after = list_key(self.alloc, after)?;
        first_page(self.alloc, self.items.above(&after), resource, limit)
    }

    /// The changes above a revision, in order.
    pub fn later_changes(&self, revision: u64) -> Result<List<Shared<ObjectChange>>, SinceNo>
        ensures { TellsSince self.now revision result }
    {
        self.changes.later_changes(self.alloc, revision)
    }

    /// What is known of each watch: its items are in order.
    pub fn known(&self)
        ensures { AreInOrder self.now.items }
    {
        self.items.known();
    }
}
