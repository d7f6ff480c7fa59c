//! Lists.
ghost use Rattle.std.specs.Prelude.{◌≡◌, ◌+◌, ◌-◌, ◌<◌, ◌≤◌, [], ◌∷◌, ◌++◌, IsOk, IfErr, OnOk, OnErr, MatchOption, vec_len, vec_capacity};

use crate::errors::NoMemory;
use std::alloc::Global;
use std::marker::Model;

/// A list of values, which may be values that can't be dropped. Contracts see it as the pair of its
/// items and its spare room: the number of pushes that can't want memory.
#[derive(Debug, Drop)]
pub struct List<T> {
    items: Vec<T>,
}

impl<T> Model for List<T> {
    ghost use Rattle.std.specs.Prelude.{ℕ, ◌-◌, List, vec_len, vec_capacity};
    ghost use Rattle.std.specs.Coded.{coded×, coded_list, coded_ℕ};

    ghost Value = { List T × ℕ };

    ghost coded = { coded× (coded_list T.code) coded_ℕ };

    ghost view = { λ list. (list.items.items, vec_capacity list.items - vec_len list.items) };
}

impl<T> List<T> {
    /// An empty list, which holds no memory yet.
    pub fn new(alloc: Global) -> List<T>
        ensures { result.0 ≡ [] }
    {
        List {
            items: Vec::new(alloc),
        }
    }

    /// Takes the items over as they stand.
    pub fn from_vec(items: Vec<T>) -> List<T>
        ensures { result.0 ≡ items.items }
    {
        List { items }
    }

    /// Gives the items up as they stand.
    pub fn into_vec(self) -> Vec<T>
        ensures { result.items ≡ self.0 }
    {
        self.items
    }

    /// Puts the item at the end. An item that found no memory comes back.
    pub fn push(&mut self, item: T) -> Result<(), (NoMemory, T)>
        ensures ok { OnOk result (self.new.0 ≡ self.old.0 ++ item ∷ []) }
        ensures err { OnErr result (self.new.0 ≡ self.old.0) }
        ensures returned { IfErr result (λ refused. refused.1 ≡ item) }
        ensures room { 0 < self.old.1 → IsOk result × (self.new.1 + 1 ≡ self.old.1) }
    {
        if self.items.len() < self.items.capacity() {
            self.items.push_reserved(item);
            return Ok(());
        }
        match self.items.push(item) {
            Ok(()) => Ok(()),
            Err(refused) => Err((NoMemory, refused.value)),
        }
    }

    /// Puts the item at the end, where there is room for it.
    pub fn push_in_room(&mut self, item: T)
        requires { 0 < self.old.1 }
        ensures items { self.new.0 ≡ self.old.0 ++ item ∷ [] }
        ensures room { self.new.1 + 1 ≡ self.old.1 }
    {
        self.items.push_reserved(item);
    }

    /// Makes room for `n` more items.
    pub fn reserve(&mut self, n: usize) -> Result<(), NoMemory>
        ensures items { self.new.0 ≡ self.old.0 }
        ensures ok { OnOk result (n ≤ self.new.1) }
        ensures kept { self.old.1 ≤ self.new.1 }
        ensures room { n ≤ self.old.1 → IsOk result }
    {
        self.items.reserve(n)?;
        Ok(())
    }

    /// Takes the last item. Its room stays.
    pub fn pop(&mut self) -> Option<T>
        ensures items { MatchOption result
            ((self.old.0 ≡ []) × (self.new.0 ≡ []))
            (λ last. self.old.0 ≡ self.new.0 ++ last ∷ []) }
        ensures room { MatchOption result
            (self.new.1 ≡ self.old.1)
            (λ _. self.new.1 ≡ self.old.1 + 1) }
    {
        self.items.pop()
    }

    /// Lends the items.
    pub fn as_slice(&self) -> &[T]
        ensures { result.now ≡ self.now.0 }
    {
        self.items.as_slice()
    }

    /// Ends an empty list, also one of values that can't be dropped.
    pub fn end(self)
        requires { self.0 ≡ [] }
    {
        self.items.destroy_empty();
    }
}
