//! What the tests of this crate share: configurations, and calls over a world in memory.
use kr_base::{Bytes, List, MemDice, MemSink, MemSource, NoMemory, Text};
use kr_kms::TablePlugin;
use kr_top::{MemWorld, World, run, run_alone};
use std::alloc::Global;
use std::sync::Wait;
use std::thread::Threads;

mod at_once;
mod classes;
mod gate;
mod load;
mod pages;
mod values;

/// Secrets are stored by aescbc under the key of bytes 0 to 31, named `key1`.
const AESCBC: &str =
    r#"{"apiVersion":"apiserver.config.k8s.io/v1","kind":"EncryptionConfiguration","resources":[{"resources":["secrets"],"providers":[{"aescbc":{"keys":[{"name":"key1","secret":"AAECAwQFBgcICQoLDA0ODxAREhMUFRYXGBkaGxwdHh8="}]}}]}]}"#;

/// What begins a configuration with one entry, up to its patterns.
const BEGIN: &str =
    r#"{"apiVersion":"apiserver.config.k8s.io/v1","kind":"EncryptionConfiguration","resources":[{"resources":"#;

/// A call: its words parted by bars, the file `c.json`, the input, and the random bytes.
#[derive(Clone, Copy)]
struct Call<'a> {
    words: &'a str,
    config: &'a str,
    input: &'a [u8],
    dice: &'a [u8],
}

/// What a call left.
#[derive(Drop)]
struct Left {
    status: u8,
    output: Bytes,
    errors: Bytes,
    dice_is_back: bool,
}

/// The streams of a call.
#[derive(Drop)]
struct Streams {
    input: MemSource,
    output: MemSink,
    errors: MemSink,
}

/// Both values, or why one isn't there. What isn't used is dropped as a value of some type, which
/// costs a proof less than by its fields.
fn both<A: Drop, B: Drop>(
    first: Result<A, NoMemory>,
    second: Result<B, NoMemory>,
) -> Result<(A, B), NoMemory> {
    let Ok(first) = first else {
        drop(second);
        return Err(NoMemory);
    };
    let Ok(second) = second else {
        drop(first);
        return Err(NoMemory);
    };
    Ok((first, second))
}

/// A list of the item alone.
fn list_of_one<T: Drop>(alloc: Global, item: T) -> Result<List<T>, NoMemory> {
    list_with(List::new(alloc), item)
}

/// The list with the item at its end.
fn list_with<T: Drop>(mut all: List<T>, item: T) -> Result<List<T>, NoMemory> {
    all.reserve(1)?;
    all.push_in_room(item);
    Ok(all)
}

fn owned(alloc: Global, words: &str) -> Result<Vec<String>, NoMemory> {
    let mut all = Vec::new(alloc);
    for word in words.split('|') {
        all.push(String::from_str(alloc, word)?)?;
    }
    Ok(all)
}

/// A file of this name.
fn file(alloc: Global, name: &str, content: &str) -> Result<List<(Text, Bytes)>, NoMemory> {
    let content = Bytes::copy(alloc, content.as_bytes());
    list_of_one(alloc, both(Text::copy(alloc, name), content)?)
}

/// The random source of the only seat.
fn dice(alloc: Global, bytes: &[u8]) -> Result<List<(u32, MemDice)>, NoMemory> {
    let bytes = Bytes::copy(alloc, bytes)?;
    list_of_one(alloc, (0, MemDice::new(bytes, List::new(alloc))))
}

fn world(alloc: Global, call: &Call<'_>) -> Result<MemWorld<TablePlugin>, NoMemory> {
    let files = file(alloc, "c.json", call.config);
    let (files, dice) = both(files, dice(alloc, call.dice))?;
    Ok(MemWorld::new(alloc, files, List::new(alloc), dice, List::new(alloc), 0))
}

fn sink(alloc: Global, room: usize) -> Result<MemSink, NoMemory> {
    MemSink::new(Bytes::new(alloc), room, List::new(alloc))
}

fn input_streams(alloc: Global, input: &[u8]) -> Result<Streams, NoMemory> {
    let said = both(sink(alloc, 3_000_000), sink(alloc, 1000));
    let (input, said) = both(Bytes::copy(alloc, input), said)?;
    let (output, errors) = said;
    Ok(Streams {
        input: MemSource::new(input, List::new(alloc)),
        output,
        errors,
    })
}

fn run_call(alloc: Global, call: &Call<'_>) -> Result<Left, NoMemory> {
    let around = both(world(alloc, call), input_streams(alloc, call.input));
    let (words, around) = both(owned(alloc, call.words), around)?;
    let (mut world, mut streams) = around;
    let left = collect_left(alloc, words.as_slice(), &mut world, &mut streams);
    drop(words);
    drop(world);
    drop(streams);
    left
}

/// What a call of these words leaves.
fn collect_left(
    alloc: Global,
    words: &[String],
    world: &mut MemWorld<TablePlugin>,
    streams: &mut Streams,
) -> Result<Left, NoMemory> {
    let Some(status) = run_alone(
        alloc,
        words,
        world,
        &mut streams.input,
        &mut streams.output,
        &mut streams.errors,
    ) else {
        return Err(NoMemory);
    };
    let output = Bytes::copy(alloc, streams.output.bytes());
    let (output, errors) = both(output, Bytes::copy(alloc, streams.errors.bytes()))?;
    Ok(Left {
        status,
        output,
        errors,
        dice_is_back: world.seat_dice(0).is_some(),
    })
}

/// The status and the output of a call on the world.
fn called<R: Threads + Wait + Sync, W: World>(
    rt: &R,
    alloc: Global,
    words: &str,
    world: &mut W,
) -> Result<(u8, Bytes), NoMemory> {
    let (words, mut streams) = both(owned(alloc, words), input_streams(alloc, b""))?;
    let status = run(
        rt,
        alloc,
        words.as_slice(),
        world,
        &mut streams.input,
        &mut streams.output,
        &mut streams.errors,
    );
    let output = Bytes::copy(alloc, streams.output.bytes());
    drop(words);
    drop(streams);
    Ok((status, output?))
}

/// The words of `decrypt` for a secret.
const DECRYPT: &str = "decrypt|--config|c.json|--resource|secrets|--path|/registry/secrets/d/s";

/// The words of `encrypt` for a secret.
const ENCRYPT: &str = "encrypt|--config|c.json|--resource|secrets|--path|/registry/secrets/d/s";

/// An IV.
const IV: &[u8] = &[
    0x10, 0x01, 0x32, 0x23, 0x54, 0x45, 0x76, 0x67, 0x98, 0x89, 0xba, 0xab, 0xdc, 0xcd, 0xfe, 0xef,
];
