//! A link that waits in the midst of its unwraps.
ghost use Rattle.kr_kms.specs.Exchanges.{KeepsLink, TellsAnswer};

use kr_base::Bytes;
use kr_kms::{Kms, KmsNo, Status, Wrapped, WrappedRef};
use std::alloc::Global;
use std::sync::atomic::{AtomicBool, Ordering};
use std::thread::yield_now;

/// How many turns a link waits for its flag.
const TURNS: u32 = 100_000_000;

/// A link that asks for an unwrap only once the flag is set. Where that doesn't come it has no
/// memory.
#[derive(Drop)]
pub struct Waiting<'a, L: Kms + Drop> {
    inner: L,
    flag: &'a AtomicBool,
}

impl<'a, L: Kms + Drop> Waiting<'a, L> {
    pub fn new(inner: L, flag: &'a AtomicBool) -> Waiting<'a, L> {
        Waiting { inner, flag }
    }

    /// Whether the flag is set in time.
    fn is_let(&self) -> bool {
        for _ in 0..TURNS {
            if self.flag.load(Ordering::SeqCst) {
                return true;
            }
            yield_now();
        }
        false
    }
}

impl<'a, L: Kms + Drop> Kms for Waiting<'a, L> {
    ghost link = { λ waiting. L.link waiting.inner };

    // No more is said of its exchanges than of any link's.
    ghost step = { λ old exchange new. KeepsLink (L.link old.inner) exchange (L.link new.inner)
        × TellsAnswer (L.link old.inner).status exchange };

    ghost keeps = { λ old exchange new h. h.0 };

    ghost tells = { λ old exchange new h. h.1 };

    fn name(&self) -> &str {
        self.inner.name()
    }

    fn faults(&self) -> u64 {
        self.inner.faults()
    }

    fn status(&mut self, alloc: Global) -> Result<Status, KmsNo> {
        self.inner.status(alloc)
    }

    fn wrap(&mut self, alloc: Global, plain: &[u8]) -> Result<Wrapped, KmsNo> {
        self.inner.wrap(alloc, plain)
    }

    fn unwrap_source(&mut self, alloc: Global, wrapped: &WrappedRef<'_>) -> Result<Bytes, KmsNo> {
        if !self.is_let() {
            return Err(KmsNo::NoMemory);
        }
        self.inner.unwrap_source(alloc, wrapped)
    }
}
