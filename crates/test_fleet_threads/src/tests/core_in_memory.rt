//! A core over an empty store in memory, with one replica and two seats.
ghost use Rattle.std.specs.Prelude.{◌≡◌, ◌≤◌, false, length, sum, IfSome, IsTrue};
ghost use Rattle.kr_provider.specs.Publication.{names_plugin};
ghost use Rattle.test_fleet_threads.specs.NewCores.{IsNewCore, IsOneBare};

use kr_base::{Bytes, List, MemDice, MemTape, Shared};
use kr_config::{Settings, read};
use kr_kms::TablePlugin;
use kr_provider::{Links, Published, names_plugin, publish};
use kr_rollout::Core;
use kr_store::Store;
use std::alloc::Global;

const FILE: &str = r#"{"apiVersion":"apiserver.config.k8s.io/v1","kind":"EncryptionConfiguration",
"resources":[{"resources":["secrets"],"providers":[{"identity":{}}]}]}"#;

/// Publishes settings that name no plugin.
fn publish_bare(alloc: Global, settings: Shared<Settings>) -> Option<Published> {
    let mut links = Links::<TablePlugin>::new(alloc);
    if !links.serve(settings.get()) {
        drop(settings);
        drop(links);
        return None;
    }
    let mut dice = MemDice::new(Bytes::new(alloc), List::new(alloc));
    let published = publish(alloc, settings, &mut links, &mut dice);
    drop(links);
    drop(dice);
    published.ok()
}

/// Whether the configuration names no plugin.
fn is_bare(published: &Published) -> bool
    ensures { IsTrue result → names_plugin published.now.rows ≡ false }
{
    !names_plugin(published.settings.get())
}

/// The configuration of the file, which names no plugin.
fn published(alloc: Global) -> Option<Shared<Published>>
    ensures { IfSome result (λ p. names_plugin p.rows ≡ false) }
{
    let settings = read(alloc, FILE.as_bytes()).ok()?;
    let settings = Shared::new(alloc, settings).ok()?;
    let published = publish_bare(alloc, settings)?;
    let shared = Shared::new(alloc, published).ok()?;
    if !is_bare(shared.get()) {
        drop(shared);
        return None;
    }
    Some(shared)
}

/// The configuration of one replica alone.
#[tactic(auto, using(crate::proofs::Bare::one_bare))]
fn alone(alloc: Global, published: Shared<Published>) -> Option<List<Option<Shared<Published>>>>
    requires { names_plugin published.rows ≡ false }
    ensures { IfSome result (λ replicas. IsOneBare replicas.0) }
{
    let mut replicas = List::new(alloc);
    match replicas.push(Some(published)) {
        Ok(()) => Some(replicas),
        Err(_) => None,
    }
}

/// The one replica, with the configuration of the file.
fn replicas(alloc: Global) -> Option<List<Option<Shared<Published>>>>
    ensures { IfSome result (λ replicas. IsOneBare replicas.0) }
{
    match published(alloc) {
        Some(published) => alone(alloc, published),
        None => None,
    }
}

/// An empty store, whose file may have 1,000 bytes.
fn store(alloc: Global) -> Option<Store<MemTape>> {
    let (reads, writes, settles) = (List::new(alloc), List::new(alloc), List::new(alloc));
    let tape = MemTape::new(Bytes::new(alloc), 1000, reads, writes, settles).ok()?;
    Store::load(alloc, tape, 1000).ok()
}

/// The core, with room for so many lines.
pub fn core(alloc: Global, room: u64) -> Option<Core<MemTape>>
    requires { room ≤ 4000000 }
    ensures { IfSome result (λ core. IsNewCore room core) }
{
    let replicas = replicas(alloc)?;
    match store(alloc) {
        Some(store) => started(alloc, store, replicas, &[0, 0], room),
        None => {
            drop(replicas);
            None
        }
    }
}

#[tactic(auto, using(crate::proofs::Bare::first_in, crate::proofs::Bare::one_long, crate::proofs::Bare::among))]
fn started(
    alloc: Global,
    store: Store<MemTape>,
    replicas: List<Option<Shared<Published>>>,
    reloads: &[u32],
    room: u64,
) -> Option<Core<MemTape>>
    requires one { IsOneBare replicas.0 }
    requires two { (length reloads.now ≡ 2) × (sum reloads.now ≡ 0) }
    requires room { room ≤ 4000000 }
    ensures { IfSome result (λ core. IsNewCore room core) }
{
    match Core::start(alloc, store, replicas, List::new(alloc), 2, room, reloads) {
        Ok(core) => Some(core),
        Err(refused) => {
            drop(refused);
            None
        }
    }
}
