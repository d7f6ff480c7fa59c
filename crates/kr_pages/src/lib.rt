//! A pool of pages for the words of expanded keys. A page that isn't in use is zero. Memory is
//! taken where the pool is made and nowhere else.
#![tactic(auto)]

ghost use Rattle.std.specs.Prelude.{◌≡◌, ◌≢◌, ℕ, ◌↔◌, ◌+◌, ◌<◌, [], length, replicate, false, IsErr, IfOk, OnErr};
ghost use Rattle.std.specs.Borrow.{sem};
ghost use Rattle.std.specs.List.{range_with_len};
ghost use Rattle.kr_pages.specs.Pool.{IsPool, Takes, is_free, with_free, page_words, zero_page};

use kr_base::NoMemory;
use std::alloc::Global;
use std::marker::Model;

/// How many words a page has: what the longest key expands to.
const WORDS: usize = 60;

/// A page that was taken, which contracts see as its number. It can be neither copied nor dropped:
/// it ends where it is given back.
pub struct Page {
    number: u32,
}

impl Model for Page {
    ghost use Rattle.std.specs.Prelude.{ℕ};

    ghost Value = { ℕ };

    ghost view = { λ page. page.number };
}

/// No page is free.
#[derive(Clone, Copy, Debug, PartialEq, Eq)]
pub struct Full;

/// Pages of 60 words, some of which are taken. Contracts see the words of all and the numbers of
/// the free ones.
#[derive(Drop)]
pub struct Pages {
    pages: Vec<[u32; WORDS]>,
    free: Vec<u32>,
}

impl Model for Pages {
    ghost use Rattle.std.specs.Prelude.{◌≤◌, ◌<◌, ◌^◌, length, vec_capacity};
    ghost use Rattle.kr_pages.specs.Pool.{Pool, IsPool};

    ghost Value = { Pool };

    ghost view = { λ pool. record { pages = pool.pages.items; free = pool.free.items } };

    ghost invariant = { λ pool. IsPool (record { pages = pool.pages.items; free = pool.free.items })
        × (length pool.pages.items < 2 ^ 32)
        × (length pool.pages.items ≤ vec_capacity pool.free) };
}

impl Pages {
    ghost use Rattle.kr_pages.specs.Lending.{LendsWords};

    /// A pool of `n` pages, all of them free.
    pub fn new(alloc: Global, n: u32) -> Result<Pages, NoMemory>
        ensures pool { IfOk result IsPool }
        ensures pages { IfOk result (λ pool. pool.pages ≡ replicate n zero_page) }
        ensures free { IfOk result (λ pool. pool.free ≡ range_with_len 0 n) }
    {
        let Ok(mut pages) = Vec::with_capacity(alloc, n as usize) else {
            return Err(NoMemory);
        };
        let Ok(mut free) = Vec::with_capacity(alloc, n as usize) else {
            return Err(NoMemory);
        };
        for number in 0..n {
            pages.push_reserved([0; WORDS]);
            free.push_reserved(number);
        }
        Ok(Pages { pages, free })
    }

    /// Takes a page that is free.
    pub fn take(&mut self) -> Result<Page, Full>
        ensures pool { IsPool self.new }
        ensures taken { IfOk result (Takes self.old self.new) }
        ensures full { IsErr result ↔ (self.old.free ≡ []) }
        ensures refused { OnErr result (self.new ≡ self.old) }
    {
        let Some(number) = self.free.pop() else {
            return Err(Full);
        };
        Ok(Page { number })
    }

    /// Zeroes the page and makes it free.
    pub fn give(&mut self, page: Page)
        requires below { page < length self.old.pages }
        requires out { is_free self.old page ≡ false }
        ensures pool { IsPool self.new }
        ensures given { self.new ≡ with_free self.old page }
        ensures others { (k : ℕ) → k ≢ page → is_free self.new k ≡ is_free self.old k }
    {
        let Page { number } = page;
        self.pages[number as usize] = [0; WORDS];
        self.free.push_reserved(number);
    }

    /// The words of a page.
    pub fn words(&self, page: &Page) -> &[u32; 60]
        requires below { page.now < length self.now.pages }
        requires out { is_free self.now page.now ≡ false }
        ensures { result.now ≡ page_words self.now page.now }
    {
        &self.pages[page.number as usize]
    }

    /// The words of a page, to be changed.
    pub fn words_mut(&mut self, page: &Page) -> &mut [u32; 60]
        requires below { page.now < length self.old.pages }
        requires out { is_free self.old page.now ≡ false }
        ensures* changed { sem 𝓛 (LendsWords self.entry page.now result) }
        ensures words { result.now ≡ page_words self.old page.now }
    {
        &mut self.pages[page.number as usize]
    }

    /// How many pages are free.
    pub fn free(&self) -> u32
        ensures pool { IsPool self.now }
        ensures free { result ≡ length self.now.free }
    {
        self.free.len() as u32
    }

    /// How many pages are taken.
    pub fn taken_count(&self) -> u32
        ensures pool { IsPool self.now }
        ensures out { length self.now.free + result ≡ length self.now.pages }
    {
        (self.pages.len() - self.free.len()) as u32
    }
}
