//! Unwrapped seeds that are kept, so that a plugin isn't asked again.
ghost use Rattle.std.specs.Prelude.{◌≡◌, ◌≤◌, [], IfOk, IfNone, length};
ghost use Rattle.kr_base.specs.Walks.{Talk};
ghost use Rattle.kr_kms.specs.Cache.{Fetches, FetchesBy};
ghost use Rattle.kr_kms.specs.Calls.{asked_key};
ghost use Rattle.kr_kms.specs.inner.Keeping.{IsCopyAt, AreAmong, AreAmongWith, IsUsed, IsPut};

use crate::plugin::{Kms, KmsNo, WrappedRef};
use crate::seeds::SeedKey;
use kr_base::{Annotations, Bytes, NoMemory};
use lru::LruCache;
use std::alloc::Global;
use std::marker::Model;
use std::num::NonZeroUsize;

/// Unwrapped seeds, at most as many as it was made for.
#[derive(Drop)]
pub struct SeedCache {
    inner: LruCache<SeedKey, Bytes>,
}

impl Model for SeedCache {
    ghost use Rattle.kr_kms.specs.Cache.{CacheState};

    ghost Value = { CacheState };

    ghost view = { λ cache. record { rows = cache.inner.entries; size = cache.inner.cap } };
}

impl SeedCache {
    /// An empty cache for so many seeds. Room is taken as seeds come.
    pub fn new(alloc: Global, size: u32) -> Result<SeedCache, NoMemory>
        requires { 1 ≤ size }
        ensures { IfOk result (λ cache. cache ≡ record { rows = []; size = size }) }
    {
        let Some(size) = NonZeroUsize::new(size as usize) else {
            unreachable!();
        };
        match LruCache::sparse(alloc, size) {
            Ok(inner) => Ok(SeedCache { inner }),
            Err(_) => Err(NoMemory),
        }
    }

    /// The seed of a wrapped source of the link's plugin. One that is kept is given without asking
    /// the link; else the link unwraps it, and it is kept where there is memory for that.
    pub fn fetch<L: Kms>(
        &mut self,
        link: &mut L,
        key_id: &str,
        annotations: &Annotations,
        source: &[u8],
    ) -> Result<Bytes, KmsNo>
        ensures fetched { Fetches L.link link.old self.old
            (asked_key (L.link link.old).name key_id.now annotations.now source.now)
            result link.new self.new }
        ensures asked { Talk L.step link.old link.new (FetchesBy
            (asked_key (L.link link.old).name key_id.now annotations.now source.now)
            self.old result self.new) }
    {
        // Its length tells that no more are kept than may be.
        let _fits = self.inner.len();
        let alloc = *self.inner.allocator();
        let Ok(key) = SeedKey::new(alloc, link.name(), key_id, annotations, source) else {
            return Err(KmsNo::NoMemory);
        };
        if let Some(kept) = self.copy_kept_seed(alloc, &key) {
            drop(key);
            return kept;
        }
        let wrapped = WrappedRef {
            cipher: source,
            key_id,
            annotations,
        };
        match link.unwrap_source(alloc, &wrapped) {
            Ok(seed) => {
                self.keep(alloc, key, &seed);
                Ok(seed)
            }
            Err(why) => {
                drop(key);
                Err(why)
            }
        }
    }

    /// A copy of the seed that is kept under the key.
    fn copy_kept_seed(&mut self, alloc: Global, key: &SeedKey) -> Option<Result<Bytes, KmsNo>>
        ensures found { IsCopyAt self.old.rows key.now result }
        ensures none { IfNone result (self.new ≡ self.old) }
        ensures used { IsUsed self.old key.now result self.new }
        ensures rows { AreAmong self.old.rows self.new.rows }
        ensures size { self.new.size ≡ self.old.size }
        ensures fits { length self.new.rows ≤ self.new.size }
    {
        let _fits = self.inner.len();
        let Some(seed) = self.inner.peek(key) else {
            return None;
        };
        let copy = Bytes::copy(alloc, seed.as_slice());
        let _there = self.inner.promote(key);
        let _still_fits = self.inner.len();
        match copy {
            Ok(seed) => Some(Ok(seed)),
            Err(_) => Some(Err(KmsNo::NoMemory)),
        }
    }

    /// Keeps the seed under the key, where there is memory for it.
    fn keep(&mut self, alloc: Global, key: SeedKey, seed: &Bytes)
        ensures rows { AreAmongWith self.old.rows key seed.now self.new.rows }
        ensures put { IsPut self.old key seed.now self.new }
        ensures size { self.new.size ≡ self.old.size }
        ensures fits { length self.new.rows ≤ self.new.size }
    {
        let _fits = self.inner.len();
        let Ok(copy) = Bytes::copy(alloc, seed.as_slice()) else {
            drop(key);
            return;
        };
        drop(self.inner.put(key, copy));
        let _still_fits = self.inner.len();
    }
}
