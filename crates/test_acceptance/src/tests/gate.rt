//! A link that waits, in the midst of its unwrap, for another one's.
ghost use Rattle.std.specs.Prelude.{◌≡◌, ◌≤◌, IsErrOf};
ghost use Rattle.kr_base.specs.Faults.{Rose, counted};
ghost use Rattle.kr_kms.specs.Exchanges.{KeepsLink, TellsAnswer, plugin_failed};
ghost use Rattle.test_acceptance.specs.Gates.{counting};

use kr_base::{Bytes, FaultCount};
use kr_kms::{Kms, KmsNo, Status, Wrapped, WrappedRef};
use std::alloc::Global;
use std::sync::atomic::{AtomicBool, Ordering};
use std::thread::yield_now;

/// How many turns a link waits for another one.
const TURNS: u32 = 100_000_000;

/// A link that sets its flag in each unwrap, and asks only once the other one's is set. Where that
/// doesn't come it fails. So it counts its own faults.
#[derive(Drop)]
pub struct Gate<'a, L: Kms + Drop> {
    inner: L,
    own: &'a AtomicBool,
    other: &'a AtomicBool,
    faults: FaultCount,
}

impl<'a, L: Kms + Drop> Gate<'a, L> {
    pub fn new(inner: L, own: &'a AtomicBool, other: &'a AtomicBool) -> Gate<'a, L> {
        Gate {
            inner,
            own,
            other,
            faults: FaultCount::new(),
        }
    }

    /// Sets its flag, and says whether the other one's is set in time.
    fn meets(&self) -> bool {
        self.own.store(true, Ordering::SeqCst);
        for _ in 0..TURNS {
            if self.other.load(Ordering::SeqCst) {
                return true;
            }
            yield_now();
        }
        false
    }
}

/// Counts a call that failed.
fn count<T>(faults: &mut FaultCount, answer: &Result<T, KmsNo>)
    ensures counted { faults.new ≡ counted (plugin_failed answer.now) faults.old }
    ensures later { faults.old ≤ faults.new }
    ensures failed { IsErrOf answer.now KmsNo.Failed → Rose faults.old faults.new }
{
    match answer {
        Ok(_) => {}
        Err(KmsNo::NoMemory) => {}
        Err(KmsNo::Failed) => faults.rise(),
    }
}

impl<'a, L: Kms + Drop> Kms for Gate<'a, L> {
    ghost link = { λ gate. counting (L.link gate.inner) gate.faults };

    // No more is said of its exchanges than of any link's.
    ghost step = { λ old exchange new. KeepsLink (counting (L.link old.inner) old.faults) exchange
        (counting (L.link new.inner) new.faults)
        × TellsAnswer (L.link old.inner).status exchange };

    ghost keeps = { λ old exchange new h. h.0 };

    ghost tells = { λ old exchange new h. h.1 };

    fn name(&self) -> &str {
        self.inner.name()
    }

    fn faults(&self) -> u64 {
        self.faults.count()
    }

    #[tactic(auto, using(crate::proofs::Gates::asks, crate::proofs::Gates::keeps))]
    fn status(&mut self, alloc: Global) -> Result<Status, KmsNo> {
        let answer = self.inner.status(alloc);
        count(&mut self.faults, &answer);
        answer
    }

    #[tactic(auto, using(crate::proofs::Gates::asks, crate::proofs::Gates::keeps))]
    fn wrap(&mut self, alloc: Global, plain: &[u8]) -> Result<Wrapped, KmsNo> {
        let answer = self.inner.wrap(alloc, plain);
        count(&mut self.faults, &answer);
        answer
    }

    #[tactic(auto, using(crate::proofs::Gates::asks, crate::proofs::Gates::keeps))]
    fn unwrap_source(&mut self, alloc: Global, wrapped: &WrappedRef<'_>) -> Result<Bytes, KmsNo> {
        if !self.meets() {
            self.faults.rise();
            return Err(KmsNo::Failed);
        }
        let answer = self.inner.unwrap_source(alloc, wrapped);
        count(&mut self.faults, &answer);
        answer
    }
}
