//! Two workers of one call whose plugins wait for each other: neither answers before both were
//! asked.
use super::gate::Gate;
use super::{both, called, list_of_one, list_with};
use kr_base::{Bytes, List, MemDice, MemTape, NoMemory, Text};
use kr_kms::TablePlugin;
use kr_top::MemWorld;
use std::alloc::Global;
use std::sync::Wait;
use std::sync::atomic::AtomicBool;
use std::test::Fail;
use std::thread::Threads;

const CONFIG: &str =
    r#"{"apiVersion":"apiserver.config.k8s.io/v1","kind":"EncryptionConfiguration","resources":[{"resources":["secrets"],"providers":[{"kms":{"apiVersion":"v2","name":"p","endpoint":"unix:///p"}}]}]}"#;

/// A store's file: `/s` with `hello` and `/t` with `there`, sealed under two sources that the
/// plugin `p` wrapped. The data was sealed by AES-GCM of Python's cryptography.
const ROWS: &[u8] =
    b"KRSTORE1\x01\0\0\0\0\0\0\0\x01\0\x02/s\0\x07secrets\0\0\0rk8s:enc:kms:v2:p:\n!\0\0\0\0\0\0\0\0\0\0\0\0\xd7P\xf4\xb0\x1a\xc0\xd1\x93\x01\x19|\x8bH&\xc7\x1dm\0g1\x8a\x12\x02k1\x1a \x9c\x9c\x9c\x9c\x9c\x9c\x9c\x9c\x9c\x9c\x9c\x9c\x9c\x9c\x9c\x9c\x9c\x9c\x9c\x9c\x9c\x9c\x9c\x9c\x9c\x9c\x9c\x9c\x9c\x9c\x9c\x9c\"\x16\n\x11test.kmsrest/salt\x12\x01\x01\x01\0\0\0\0\0\0\0\x02\0\x02/t\0\x07secrets\0\0\0rk8s:enc:kms:v2:p:\n!\0\0\0\0\0\0\0\0\0\0\0\0.\x1a_\xbc\x80._\x84}\xcf\xe4D\x94\x08Npy\xff\xaf\xfd\xae\x12\x02k1\x1a \x9f\x9f\x9f\x9f\x9f\x9f\x9f\x9f\x9f\x9f\x9f\x9f\x9f\x9f\x9f\x9f\x9f\x9f\x9f\x9f\x9f\x9f\x9f\x9f\x9f\x9f\x9f\x9f\x9f\x9f\x9f\x9f\"\x16\n\x11test.kmsrest/salt\x12\x01\x01";

const FLEET: &str = "fleet 1\nreplica a c.json\nworker v a\nget /s\nworker w a\nget /t\n";

const WORDS: &str = "fleet|--file|fleet|--store|s|--plugin|p=any";

/// What stands at the end of the output; the lines of the journal may come in any order.
const REPLIES: &[u8] = b"replies\nv 1 get 1 aGVsbG8=\nw 1 get 2 dGhlcmU=\nend\n";

/// What a published seed is made of.
const RANDOM: &[u8] = b"0123456789abcdef0123456789abcdef";

/// A list of the two items.
fn two_in<T: Drop>(alloc: Global, first: T, second: T) -> Result<List<T>, NoMemory> {
    let (all, second) = both(list_of_one(alloc, first), Ok(second))?;
    list_with(all, second)
}

fn named(alloc: Global, name: &str, content: &[u8]) -> Result<(Text, Bytes), NoMemory> {
    both(Text::copy(alloc, name), Bytes::copy(alloc, content))
}

/// The fleet's file and its configuration.
fn files(alloc: Global) -> Result<List<(Text, Bytes)>, NoMemory> {
    let fleet = named(alloc, "fleet", FLEET.as_bytes());
    let (fleet, config) = both(fleet, named(alloc, "c.json", CONFIG.as_bytes()))?;
    two_in(alloc, fleet, config)
}

fn tape(alloc: Global) -> Result<MemTape, NoMemory> {
    let rows = Bytes::copy(alloc, ROWS)?;
    let none = List::new(alloc);
    MemTape::new(rows, 4096, List::new(alloc), List::new(alloc), none)
}

fn tapes(alloc: Global) -> Result<List<(Text, MemTape)>, NoMemory> {
    list_of_one(alloc, both(Text::copy(alloc, "s"), tape(alloc))?)
}

/// The random sources of both seats, of which the first one publishes.
fn dice(alloc: Global) -> Result<List<(u32, MemDice)>, NoMemory> {
    let random = Bytes::copy(alloc, RANDOM)?;
    let first = MemDice::new(random, List::new(alloc));
    let second = MemDice::new(Bytes::new(alloc), List::new(alloc));
    two_in(alloc, (0, first), (1, second))
}

/// The plugin `p`, which wraps by the key `k1`.
fn plugin(alloc: Global) -> Result<TablePlugin, NoMemory> {
    let names = both(Text::copy(alloc, "p"), Text::copy(alloc, "k1"));
    let status = both(Text::copy(alloc, "v2"), Text::copy(alloc, "ok"));
    let ((name, key_id), (version, healthz)) = both(names, status)?;
    Ok(TablePlugin::new(name, key_id, 1, version, healthz, List::new(alloc)))
}

/// The links of both seats, of which each waits for the other one.
fn links<'a>(
    alloc: Global,
    own: &'a AtomicBool,
    other: &'a AtomicBool,
) -> Result<List<(u32, Gate<'a, TablePlugin>)>, NoMemory> {
    let (first, second) = both(plugin(alloc), plugin(alloc))?;
    let first = Gate::new(first, own, other);
    let second = Gate::new(second, other, own);
    two_in(alloc, (0, first), (1, second))
}

/// A world with the fleet, its store, and a link of each worker's seat that waits for the other's.
fn world<'a>(
    alloc: Global,
    own: &'a AtomicBool,
    other: &'a AtomicBool,
) -> Result<MemWorld<Gate<'a, TablePlugin>>, NoMemory> {
    let stored = both(files(alloc), tapes(alloc));
    let seats = both(dice(alloc), links(alloc, own, other));
    let ((files, tapes), (dice, links)) = both(stored, seats)?;
    Ok(MemWorld::new(alloc, files, tapes, dice, links, 0))
}

/// Whether a call was done, and both workers told what their rows hold.
fn tells_both(left: Result<(u8, Bytes), NoMemory>) -> Result<bool, NoMemory> {
    let (status, output) = left?;
    let told = status == 0 && output.as_slice().ends_with(REPLIES);
    drop(output);
    Ok(told)
}

/// Whether both workers get what they read.
fn both_get<R: Threads + Wait + Sync>(rt: &R, alloc: Global) -> Result<bool, NoMemory> {
    let own = AtomicBool::new(false);
    let other = AtomicBool::new(false);
    let mut world = world(alloc, &own, &other)?;
    let left = called(rt, alloc, WORDS, &mut world);
    drop(world);
    tells_both(left)
}

// With one worker behind the other, or with a lock over a whole call, both links would fail.
#[test]
fn two_gets_wait_for_each_other(rt: HostRuntime) -> Result<(), Fail> {
    assert_eq!(rt; both_get(&rt, rt.alloc()), Ok(true));
    Ok(())
}
