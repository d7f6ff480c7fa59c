//! What a core may be started with.
ghost use Rattle.std.specs.Prelude.{◌≡◌, ◌≤◌, IsTrue, IfOk, get_or, length, sum, true};
ghost use Rattle.std.specs.List.{list_all};
ghost use Rattle.kr_opening.specs.Replicas.{IsFirstIn};
ghost use Rattle.test_rollout.specs.Hands.{AreTerms, IsNew, is_bare};

use kr_base::{List, MemTape, Shared};
use kr_opening::StartNo;
use kr_provider::{Published, names_plugin};
use kr_rollout::Core;
use kr_store::Store;
use std::alloc::Global;
use test_support::Wrong;

/// The replicas, how many configurations each seat may bring, and the journal's room.
#[derive(Drop)]
pub struct Terms {
    /// Each replica's configuration, or nothing for one that is out.
    pub replicas: List<Option<Shared<Published>>>,
    /// How many configurations each seat may bring.
    pub reloads: Vec<u32>,
    /// How many lines the journal may have.
    pub room: u64,
}

/// What came of a start over a store, which comes back where the start was refused.
pub type Started<T> = Result<T, (StartNo, Store<MemTape>)>;

/// Whether the numbers make at most so many together.
#[tactic(auto, using(crate::proofs::Starting::within_begin, crate::proofs::Starting::within_more, crate::proofs::Starting::within_end))]
fn sum_fits_room(numbers: &[u32], room: u64) -> bool
    ensures { IsTrue result → sum numbers.now ≤ room }
{
    let mut left = room;
    for number in numbers {
        if *number as u64 > left {
            return false;
        }
        left -= *number as u64;
    }
    true
}

/// Whether the replica is out, or its configuration names no plugin.
fn is_bare(replica: &Option<Shared<Published>>) -> bool
    ensures { result ≡ is_bare replica.now }
{
    match replica {
        Some(published) => !names_plugin(published.get().settings.get()),
        None => true,
    }
}

/// Whether all are so.
fn are_bare(replicas: &[Option<Shared<Published>>]) -> bool
    ensures { result ≡ list_all is_bare replicas.now }
{
    replicas.iter().all(|replica| is_bare(replica))
}

/// Whether the first replica is in.
fn has_first_replica(replicas: &[Option<Shared<Published>>]) -> bool
    ensures { IsTrue result → IsFirstIn replicas.now }
{
    match replicas {
        [Some(_), ..] => true,
        _ => false,
    }
}

/// Whether a core may be asked to start with them: with 1 to 16 replicas that name no plugin, of
/// which the first is in, and 1 to 64 seats that bring no more than there is room for.
fn may_start(replicas: &[Option<Shared<Published>>], reloads: &[u32], room: u64) -> bool
    ensures first { IsTrue result → IsFirstIn replicas.now }
    ensures few { IsTrue result → length replicas.now ≤ 16 }
    ensures bare { IsTrue result → list_all is_bare replicas.now ≡ true }
    ensures seats { IsTrue result → (1 ≤ length reloads.now) × (length reloads.now ≤ 64) }
    ensures room { IsTrue result → (sum reloads.now ≤ room) × (room ≤ 4000000) }
{
    has_first_replica(replicas)
        && replicas.len() <= 16
        && are_bare(replicas)
        && (1..=64).contains(&reloads.len())
        && sum_fits_room(reloads, room)
        && room <= 4_000_000
}

impl Terms {
    /// The terms, if a core may be asked to start with them.
    pub fn new(
        replicas: List<Option<Shared<Published>>>,
        reloads: Vec<u32>,
        room: u64,
    ) -> Result<Terms, Wrong>
        ensures { IfOk result (λ t. AreTerms t.replicas.0 t.reloads.items t.room) }
    {
        if !may_start(replicas.as_slice(), reloads.as_slice(), room) {
            drop(replicas);
            drop(reloads);
            return Err(Wrong::Form);
        }
        Ok(Terms {
            replicas,
            reloads,
            room,
        })
    }

    /// How many replicas there are.
    pub fn count(&self) -> u32
        requires { length self.now.replicas.0 ≤ 16 }
        ensures { result ≡ length self.now.replicas.0 }
    {
        self.replicas.as_slice().len() as u32
    }

    /// How many configurations seat 0 may bring.
    pub fn first_budget(&self) -> u32
        requires { 1 ≤ length self.now.reloads.items }
        ensures { result ≡ get_or self.now.reloads.items 0 0 }
    {
        self.reloads[0]
    }

    /// A core over the store.
    pub fn start(self, alloc: Global, store: Store<MemTape>) -> Started<Core<MemTape>>
        requires { AreTerms self.replicas.0 self.reloads.items self.room }
        ensures { IfOk result (λ core. IsNew self.replicas.0 self.reloads.items core) }
    {
        let Terms {
            replicas,
            reloads,
            room,
        } = self;
        let seats = reloads.as_slice().len() as u32;
        Core::start(
            alloc,
            store,
            replicas,
            List::new(alloc),
            seats,
            room,
            reloads.as_slice(),
        )
    }
}
