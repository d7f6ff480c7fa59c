//! The expanded keys of a bench, each in a page of its pool. A page can't be dropped, so it is
//! given back where the keys are cleared or ended.
ghost use Rattle.std.specs.Prelude.{◌≡◌, ◌+◌, ◌<◌, [], ◌∷◌, ◌++◌, length, slice_index_or, IfOk};
ghost use Rattle.kr_aes.specs.KeyExpansion.{IsKeyLength, padded_schedule};
ghost use Rattle.kr_pages.specs.Pool.{page_words};
ghost use Rattle.kr_provider.specs.KeyPages.{HoldKeys, words_out, size_of, free_pages};
ghost use Rattle.kr_provider.specs.inner.Stack.{IsStack};

use kr_aes::expand;
use kr_base::{List, NoMemory};
use kr_pages::{Page, Pages};
use std::alloc::Global;
use std::marker::Model;

/// A pool of pages, and those that are taken of it, in the order of the keys that they hold.
pub(crate) struct KeyPages {
    pool: Pages,
    out: List<Page>,
}

impl Model for KeyPages {
    ghost use Rattle.std.specs.Prelude.{◌+◌, ◌≤◌, length};
    ghost use Rattle.kr_provider.specs.KeyPages.{KeyPages, size_of};
    ghost use Rattle.kr_provider.specs.inner.Stack.{IsStack};

    ghost Value = { KeyPages };

    ghost view = { λ pages. record { pool = pages.pool; out = pages.out.0 } };

    ghost invariant = { λ pages. IsStack (record { pool = pages.pool; out = pages.out.0 })
        × (length pages.pool.pages ≤ length pages.out.0 + pages.out.1) };
}

impl KeyPages {
    /// So many pages, and the room to keep them.
    pub(crate) fn new(alloc: Global, size: u32) -> Result<KeyPages, NoMemory>
        ensures free_pages { IfOk result (λ pages. pages ≡ free_pages size) }
        ensures stack { IfOk result IsStack }
    {
        let Ok(pool) = Pages::new(alloc, size) else {
            return Err(NoMemory);
        };
        let mut out = List::new(alloc);
        match out.reserve(size as usize) {
            Ok(()) => Ok(KeyPages { pool, out }),
            Err(_) => {
                out.end();
                Err(NoMemory)
            }
        }
    }

    /// How many pages there are.
    pub(crate) fn size(&self) -> usize
        ensures { result ≡ size_of self.now }
    {
        self.pool.free() as usize + self.pool.taken_count() as usize
    }

    /// How many of them hold a key.
    pub(crate) fn count(&self) -> usize
        ensures { result ≡ length self.now.out }
    {
        self.out.as_slice().len()
    }

    /// Expands a key into a page.
    pub(crate) fn keep(&mut self, secret: &[u8])
        requires key { IsKeyLength (length secret.now) }
        requires room { length self.old.out < size_of self.old }
        ensures stack { IsStack self.new }
        ensures size { size_of self.new ≡ size_of self.old }
        ensures held { words_out self.new ≡ words_out self.old ++ padded_schedule secret.now ∷ [] }
    {
        let Ok(page) = self.pool.take() else {
            unreachable!();
        };
        let Ok(_) = expand(secret, self.pool.words_mut(&page)) else {
            unreachable!();
        };
        self.out.push_in_room(page);
    }

    /// The words of the key at a place.
    pub(crate) fn words(&self, place: usize) -> &[u32; 60]
        requires { place < length self.now.out }
        ensures { result.now ≡ page_words self.now.pool (slice_index_or self.now.out place 0) }
    {
        self.pool.words(&self.out.as_slice()[place])
    }

    /// Gives all pages back.
    pub(crate) fn clear(&mut self)
        ensures stack { IsStack self.new }
        ensures size { size_of self.new ≡ size_of self.old }
        ensures out { self.new.out ≡ [] }
        ensures keys { HoldKeys [] self.new }
    {
        while let Some(page) = self.out.pop() {
            self.pool.give(page);
        }
    }

    /// Gives all pages back and ends the pool.
    pub(crate) fn end(mut self) {
        self.clear();
        let KeyPages { pool: _, out } = self;
        out.end();
    }
}
