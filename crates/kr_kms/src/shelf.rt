//! Objects in memory that are lent and come back.
ghost use Rattle.std.specs.Prelude.{◌≡◌, ◌<◌, ◌==◌, ◌&&◌, [], ◌∷◌, ◌++◌, length, position};
ghost use Rattle.std.specs.Prelude.{IfOk, IfSome, OnOk, OnErr, slice_index_or};
ghost use Rattle.std.specs.List.{remove};
ghost use Rattle.std.specs.Str.{bytes_eq};

use kr_base::{List, NoMemory, Text};
use std::alloc::Global;
use std::marker::Model;

/// The objects that are here, and the keys of those that are out. What is out finds its room again.
#[derive(Drop)]
pub struct Shelf<K, T> {
    items: Vec<T>,
    out: Vec<K>,
}

impl<K, T> Model for Shelf<K, T> {
    ghost use Rattle.std.specs.Prelude.{◌+◌, ◌≤◌, vec_len, vec_capacity};
    ghost use Rattle.kr_kms.specs.MemWorld.{ShelfState};

    ghost Value = { ShelfState K T };

    ghost view = { λ shelf. record { items = shelf.items.items; out = shelf.out.items } };

    ghost invariant = { λ shelf. vec_len shelf.items + vec_len shelf.out
        ≤ vec_capacity shelf.items };
}

impl<K: Drop, T> Shelf<K, T> {
    /// These objects; none is out.
    pub fn new(alloc: Global, items: List<T>) -> Shelf<K, T>
        ensures { result ≡ record { items = items.0; out = [] } }
    {
        Shelf {
            items: items.into_vec(),
            out: Vec::new(alloc),
        }
    }

    /// Lends the objects that are here.
    pub fn items(&self) -> &[T]
        ensures { result.now ≡ self.now.items }
    {
        self.items.as_slice()
    }

    /// Lends the keys of those that are out.
    pub fn taken_keys(&self) -> &[K]
        ensures { result.now ≡ self.now.out }
    {
        self.out.as_slice()
    }

    /// Takes the object at the place, and keeps its key as one that is out.
    pub fn lend(&mut self, at: usize, key: K) -> Result<T, NoMemory>
        requires { at < length self.old.items }
        ensures ok { IfOk result (λ item. self.new ≡ record {
          items = remove self.old.items at;
          out = self.old.out ++ key ∷ [];
        }) }
        ensures lent { IfOk result (λ item. item ≡ slice_index_or self.old.items at item) }
        ensures err { OnErr result (self.new ≡ self.old) }
    {
        match self.out.push(key) {
            Ok(()) => {}
            Err(_) => return Err(NoMemory),
        }
        Ok(self.items.remove(at))
    }

    /// Keeps the key of a new object as one that is out.
    pub fn add(&mut self, key: K) -> Result<(), NoMemory>
        ensures ok { OnOk result (self.new ≡ record {
          items = self.old.items;
          out = self.old.out ++ key ∷ [];
        }) }
        ensures err { OnErr result (self.new ≡ self.old) }
    {
        let more = self.out.len();
        match self.items.reserve(more + 1) {
            Ok(()) => {}
            Err(_) => return Err(NoMemory),
        }
        match self.out.push(key) {
            Ok(()) => Ok(()),
            Err(_) => Err(NoMemory),
        }
    }

    /// Puts an object to the front, in the place of a key that was out.
    pub fn put_back(&mut self, at: usize, item: T)
        requires { at < length self.old.out }
        ensures { self.new ≡ record {
          items = item ∷ self.old.items;
          out = remove self.old.out at;
        } }
    {
        let _key = self.out.remove(at);
        match self.items.insert(0, item) {
            Ok(()) => {}
            Err(_) => unreachable!(),
        }
    }
}

impl<K: Drop, T> Shelf<K, (K, T)> {
    /// Puts an object to the front, with the key by which it was out.
    pub fn return_keyed(&mut self, at: usize, item: T)
        requires { at < length self.old.out }
        ensures { (d : K) → self.new ≡ record {
          items = (slice_index_or self.old.out at d, item) ∷ self.old.items;
          out = remove self.old.out at;
        } }
    {
        let key = self.out.remove(at);
        match self.items.insert(0, (key, item)) {
            Ok(()) => {}
            Err(_) => unreachable!(),
        }
    }
}

/// Where the name stands among those that are out.
pub fn name_place(out: &[Text], name: &str) -> Option<usize>
    ensures first { result ≡ position (λ other. bytes_eq other name.now) out.now }
    ensures within { IfSome result (λ at. at < length out.now) }
{
    out.iter().position(|other| other.as_str() == name)
}

/// Where the seat stands with the plugin among those that are out.
pub fn plugin_place(out: &[(u32, Text)], seat: u32, plugin: &str) -> Option<usize>
    ensures first { result ≡ position
        (λ other. (other.0 == seat) && bytes_eq other.1 plugin.now) out.now }
    ensures within { IfSome result (λ at. at < length out.now) }
{
    out.iter()
        .position(|other| other.0 == seat && other.1.as_str() == plugin)
}
