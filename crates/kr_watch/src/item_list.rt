//! The items of a watch, in the order of their paths.
ghost use Rattle.std.specs.Prelude.{◌≡◌, [], filter, map, None, Some, IfOk, OnOk, OnErr};
ghost use Rattle.std.specs.Option.{option_copied, option_map};
ghost use Rattle.std.specs.String.{string_bytes};
ghost use Rattle.kr_watch.specs.Pages.{is_above};
ghost use Rattle.kr_watch.specs.Shown.{AreInOrder, ChangesItem, item_at};
ghost use Rattle.kr_watch.specs.Noting.{at_revision};
ghost use Rattle.kr_watch.specs.inner.Keyed.{items_in};
ghost use Rattle.kr_watch.specs.inner.ToldEffects.{item_told};

use crate::item::Item;
use kr_base::{NoMemory, Shared};
use kr_rollout::Effect;
use std::alloc::Global;
use std::collections::BTreeMap;
use std::collections::btree_map::Range;
use std::marker::Model;
use std::ops::Bound;

/// Items in the order of their paths, each path once.
#[derive(Drop)]
pub(crate) struct ItemList {
    items: BTreeMap<String, Shared<Item>>,
}

impl Model for ItemList {
    ghost use Rattle.std.specs.Prelude.{List};
    ghost use Rattle.kr_watch.specs.declared.item.Item.{Item};
    ghost use Rattle.kr_watch.specs.inner.Keyed.{AreKept, items_in};

    ghost Value = { List Item };

    ghost view = { λ list. items_in list.items.entries };

    ghost invariant = { λ list. AreKept list.items.entries };
}

impl ItemList {
    /// No items.
    pub fn new(alloc: Global) -> ItemList
        ensures { result ≡ [] }
    {
        ItemList {
            items: BTreeMap::new(alloc),
        }
    }

    /// What is known of each list: its items are in order.
    pub fn known(&self)
        ensures { AreInOrder self.now }
    {
        let _ = &self.items;
    }

    /// The items whose paths are above this one.
    pub fn above(&self, path: &String) -> Range<'_, String, Shared<Item>>
        ensures { items_in result ≡ filter (is_above (string_bytes path.now)) self.now }
    {
        self.items.range((Bound::Excluded(path), Bound::Unbounded))
    }

    /// The path's item.
    pub fn get(&self, path: &str) -> Option<&Shared<Item>>
        ensures { option_copied result ≡ item_at self.now path.now }
    {
        self.items.get(path)
    }

    /// Puts the item to its place, instead of one that has its path.
    pub fn put(&mut self, alloc: Global, item: Shared<Item>) -> Result<(), NoMemory>
        ensures ok { OnOk result (ChangesItem item.path (Some item) self.old self.new) }
        ensures err { OnErr result (self.new ≡ self.old) }
    {
        let key = list_key(alloc, item.get().path.as_str())?;
        match self.items.insert(key, item) {
            Ok(_) => return Ok(()),
            Err(_) => return Err(NoMemory),
        }
    }

    /// Takes the path's item away, if there is one.
    pub fn remove(&mut self, path: &str)
        ensures { ChangesItem path.now None self.old self.new }
    {
        drop(self.items.remove(path));
    }

    /// Notes what a row with this revision did at its path.
    pub fn note(
        &mut self,
        alloc: Global,
        revision: u64,
        path: &str,
        effect: &Effect<'_>,
    ) -> Result<(), NoMemory>
        ensures ok { OnOk result (ChangesItem path.now
            (item_told effect.now path.now revision (item_at self.old path.now))
            self.old self.new) }
        ensures err { OnErr result (self.new ≡ self.old) }
    {
        match effect {
            Effect::Put { resource, plain } => {
                let item = Item::copy(alloc, path, resource, revision, plain)?;
                self.put(alloc, item.into_shared(alloc)?)
            }
            Effect::Delete => {
                self.remove(path);
                Ok(())
            }
            Effect::Replace => self.revise(alloc, revision, path),
        }
    }

    /// Gives the path's item another revision, if there is one.
    fn revise(&mut self, alloc: Global, revision: u64, path: &str) -> Result<(), NoMemory>
        ensures ok { OnOk result (ChangesItem path.now
            (option_map (at_revision revision) (item_at self.old path.now)) self.old self.new) }
        ensures err { OnErr result (self.new ≡ self.old) }
    {
        match self.get(path) {
            Some(item) => {
                let item = item.get().revised(alloc, revision)?;
                self.put(alloc, item.into_shared(alloc)?)
            }
            None => Ok(()),
        }
    }
}

/// A path as the list keeps it.
pub(crate) fn list_key(alloc: Global, path: &str) -> Result<String, NoMemory>
    ensures { IfOk result (λ key. string_bytes key ≡ path.now) }
{
    match String::from_str(alloc, path) {
        Ok(key) => Ok(key),
        Err(_) => Err(NoMemory),
    }
}
