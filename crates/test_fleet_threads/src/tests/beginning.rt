//! A core over a store of two rows, with one replica and two seats.
ghost use Rattle.std.specs.Prelude.{◌≡◌, ◌∷◌, [], false, IfSome};
ghost use Rattle.test_fleet_threads.specs.Ready.{IsNamed, IsNewCore, one_name};

use crate::tests::published::published;
use crate::tests::single::{list_of_one, text};
use kr_base::{Bytes, List, MemTape, Shared, Tape, Text};
use kr_provider::Published;
use kr_rollout::Core;
use kr_store::Store;
use std::alloc::Global;

/// A store's file: `/s` with `hello` and `/t` with `there`, sealed under two sources that the
/// plugin `p` wrapped. The data was sealed by AES-GCM of Python's cryptography.
const ROWS: &[u8] =
    b"KRSTORE1\x01\0\0\0\0\0\0\0\x01\0\x02/s\0\x07secrets\0\0\0rk8s:enc:kms:v2:p:\n!\0\0\0\0\0\0\0\0\0\0\0\0\xd7P\xf4\xb0\x1a\xc0\xd1\x93\x01\x19|\x8bH&\xc7\x1dm\0g1\x8a\x12\x02k1\x1a \x9c\x9c\x9c\x9c\x9c\x9c\x9c\x9c\x9c\x9c\x9c\x9c\x9c\x9c\x9c\x9c\x9c\x9c\x9c\x9c\x9c\x9c\x9c\x9c\x9c\x9c\x9c\x9c\x9c\x9c\x9c\x9c\"\x16\n\x11test.kmsrest/salt\x12\x01\x01\x01\0\0\0\0\0\0\0\x02\0\x02/t\0\x07secrets\0\0\0rk8s:enc:kms:v2:p:\n!\0\0\0\0\0\0\0\0\0\0\0\0.\x1a_\xbc\x80._\x84}\xcf\xe4D\x94\x08Npy\xff\xaf\xfd\xae\x12\x02k1\x1a \x9f\x9f\x9f\x9f\x9f\x9f\x9f\x9f\x9f\x9f\x9f\x9f\x9f\x9f\x9f\x9f\x9f\x9f\x9f\x9f\x9f\x9f\x9f\x9f\x9f\x9f\x9f\x9f\x9f\x9f\x9f\x9f\"\x16\n\x11test.kmsrest/salt\x12\x01\x01";

/// The core, whose journal has room for six lines.
pub fn core(alloc: Global) -> Option<Core<MemTape>>
    ensures { IfSome result IsNewCore }
{
    started(alloc, store(alloc)?)
}

/// The store with both rows, whose file may have 1,000 bytes.
fn store(alloc: Global) -> Option<Store<MemTape>> {
    let rows = Bytes::copy(alloc, ROWS).ok()?;
    let none = List::new(alloc);
    let tape = MemTape::new(rows, 1000, List::new(alloc), List::new(alloc), none).ok()?;
    loaded(alloc, tape)
}

fn loaded<T: Tape + Drop>(alloc: Global, tape: T) -> Option<Store<T>>
    requires { T.loose tape ≡ false }
{
    match Store::load(alloc, tape, 1000) {
        Ok(store) => Some(store),
        Err(_) => None,
    }
}

/// A core over the store, which goes with it where there is none.
fn started<T: Tape + Drop>(alloc: Global, store: Store<T>) -> Option<Core<T>>
    ensures { IfSome result IsNewCore }
{
    match names_and_replicas(alloc) {
        Some((names, replicas)) => started_core(alloc, store, names, replicas, &[0, 0]),
        None => {
            let _tape = store.close();
            None
        }
    }
}

#[tactic(auto, using(crate::proofs::Beginning::first_in, crate::proofs::Beginning::one_long, crate::proofs::Beginning::among))]
fn started_core<T: Tape + Drop>(
    alloc: Global,
    store: Store<T>,
    names: List<Text>,
    replicas: List<Option<Shared<Published>>>,
    reloads: &[u32],
) -> Option<Core<T>>
    requires names { names.0 ≡ one_name }
    requires replicas { IsNamed replicas.0 }
    requires reloads { reloads.now ≡ 0 ∷ 0 ∷ [] }
    ensures { IfSome result IsNewCore }
{
    let _live = store.live_count();
    match Core::start(alloc, store, replicas, names, 2, 6, reloads) {
        Ok(core) => Some(core),
        Err((why, store)) => {
            drop(why);
            let _tape = store.close();
            None
        }
    }
}

/// The name of the plugin, and the configuration of one replica alone.
fn names_and_replicas(alloc: Global) -> Option<(List<Text>, List<Option<Shared<Published>>>)>
    ensures { IfSome result (λ both. (both.0.0 ≡ one_name) × IsNamed both.1.0) }
{
    let names = list_of_one(alloc, text(alloc, "p")?)?;
    let replicas = list_of_one(alloc, Some(published(alloc)?))?;
    Some((names, replicas))
}
