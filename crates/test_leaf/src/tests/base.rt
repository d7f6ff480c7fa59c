//! Tests of kr_base: its types, its objects in memory, and reading and writing whole, each with
//! ample memory; and an outside vector.
use kr_base::{
    Annotations, Bytes, CallLog, Dice, Failed, FaultCount, List, MemDice, MemSink, MemSource,
    MemTape, NoMemory, SeededDice, Shared, Source, Tape, Text, are_few, both, read_all, write_all,
};
use rand_chacha::ChaCha20Rng;
use rand_core::SeedableRng;
use std::alloc::Global;
use std::hash::{DefaultHasher, Hash, Hasher};

fn hash_value<T: Hash>(value: &T) -> u64 {
    let mut hasher = DefaultHasher::new();
    value.hash(&mut hasher);
    hasher.finish()
}

/// The number of one call that fails.
fn one(alloc: Global, number: u64) -> Result<List<u64>, NoMemory> {
    let mut numbers = Vec::new(alloc);
    numbers.push(number)?;
    Ok(List::from_vec(numbers))
}

/// Whether two values are the same in all ways, and below a third one and above the least.
fn are_same<T: Hash + Ord + Drop>(ab: &T, taken: &T, high: &T, least: T) -> bool {
    let below = least < *ab;
    drop(least);
    ab == taken && hash_value(ab) == hash_value(taken) && ab < high && ab != high && below
}

/// Whether bytes that were copied and bytes that are taken are the same.
fn takes_bytes(alloc: Global, ab: &Bytes, high: &Bytes) -> bool {
    ab.known();
    let Ok(items) = Vec::from_slice(alloc, b"ab") else {
        return false;
    };
    let taken = Bytes::from_vec(items);
    let same = are_same(ab, &taken, high, Bytes::new(alloc));
    let back = taken.into_vec();
    let is = same && back.as_slice() == b"ab".as_slice();
    drop(back);
    is
}

fn keeps_bytes(alloc: Global) -> bool {
    match both(Bytes::copy(alloc, b"ab"), Bytes::copy(alloc, b"a\x80")) {
        Ok((ab, high)) => {
            let is = takes_bytes(alloc, &ab, &high);
            drop(ab);
            drop(high);
            is
        }
        Err(_) => false,
    }
}

/// The same of texts.
fn takes_text(alloc: Global, ab: &Text, high: &Text) -> bool {
    let Ok(text) = String::from_str(alloc, "ab") else {
        return false;
    };
    let taken = Text::from_string(text);
    let same = are_same(ab, &taken, high, Text::new(alloc));
    let back = taken.into_string();
    let is = same && back.as_str() == "ab";
    drop(back);
    is
}

fn keeps_texts(alloc: Global) -> bool {
    match both(Text::copy(alloc, "ab"), Text::copy(alloc, "aé")) {
        Ok((ab, high)) => {
            let is = takes_text(alloc, &ab, &high);
            drop(ab);
            drop(high);
            is
        }
        Err(_) => false,
    }
}

/// Whether a list of 1 has what is pushed, up to what is taken again.
fn pushes(list: &mut List<u64>) -> bool {
    if list.push(2).is_err() || list.reserve(1).is_err() {
        return false;
    }
    list.push_in_room(3);
    list.as_slice() == [1, 2, 3].as_slice() && list.pop() == Some(3)
}

fn keeps_items(alloc: Global) -> bool {
    let none: List<u64> = List::new(alloc);
    none.end();
    match one(alloc, 1) {
        Ok(mut list) => {
            let pushed = pushes(&mut list);
            let items = list.into_vec();
            let is = pushed && items.as_slice() == [1, 2].as_slice();
            drop(items);
            is
        }
        Err(_) => false,
    }
}

#[test]
fn keeps_bytes_texts_and_items(rt: HostRuntime) {
    assert!(rt; keeps_bytes(rt.alloc()));
    assert!(rt; keeps_texts(rt.alloc()));
    assert!(rt; keeps_items(rt.alloc()));
}

/// Whether a value was put.
fn insert(alloc: Global, annotations: &mut Annotations, key: &str, value: &[u8]) -> bool {
    match both(Text::copy(alloc, key), Bytes::copy(alloc, value)) {
        Ok((key, value)) => annotations.insert(key, value).is_ok(),
        Err(_) => false,
    }
}

/// Whether a copy is the same until a value changes.
fn is_copied(alloc: Global, annotations: &mut Annotations) -> bool {
    match annotations.copy(alloc) {
        Ok(before) => {
            let same = before == *annotations && hash_value(&before) == hash_value(annotations);
            let is = same && insert(alloc, annotations, "m", b"3") && before != *annotations;
            drop(before);
            is
        }
        Err(_) => false,
    }
}

/// Whether the values of `m` and `a`, put in this order, stand by their keys.
fn keeps_annotations(alloc: Global) -> bool {
    let mut annotations = Annotations::new(alloc);
    let is = insert(alloc, &mut annotations, "m", b"1")
        && insert(alloc, &mut annotations, "a", b"2")
        && is_copied(alloc, &mut annotations)
        && are_changed(&annotations);
    drop(annotations);
    is
}

fn are_changed(annotations: &Annotations) -> bool {
    match annotations.pairs() {
        [first, second] => {
            first.1.as_slice() == b"2".as_slice()
                && second.1.as_slice() == b"3".as_slice()
                && are_few(annotations.pairs())
        }
        _ => false,
    }
}

/// What is shared, lent by the other owner.
fn shares(alloc: Global) -> Option<u64> {
    let shared = Shared::new(alloc, 7u64).ok()?;
    let other = shared.share().ok();
    drop(shared);
    match other {
        Some(other) => {
            let value = *other.get();
            drop(other);
            Some(value)
        }
        None => None,
    }
}

/// How often two calls failed of which the second was to.
fn counts(alloc: Global) -> Option<u64> {
    let mut count = FaultCount::new();
    count.rise();
    let mut log = CallLog::new(one(alloc, 2).ok()?);
    let fits = count.count() == 1 && !log.fails(false) && log.fails(false);
    let faults = log.faults();
    drop(log);
    if fits { Some(faults) } else { None }
}

#[test]
fn keeps_annotations_by_their_keys(rt: HostRuntime) {
    assert!(rt; keeps_annotations(rt.alloc()));
    assert_eq!(rt; shares(rt.alloc()), Some(7));
    assert_eq!(rt; counts(rt.alloc()), Some(1));
}

/// How often reading four bytes to their end failed.
fn reads_whole(alloc: Global) -> Option<u64> {
    let content = Bytes::copy(alloc, b"abcd").ok()?;
    let mut source = MemSource::new(content, List::new(alloc));
    let read = read_all(alloc, &mut source, 4).ok();
    let faults = source.faults();
    drop(source);
    match read {
        Some(bytes) => {
            drop(bytes);
            Some(faults)
        }
        None => None,
    }
}

/// Whether a write that fails leaves nothing, and the next one all.
fn writes_whole(sink: &mut MemSink) -> bool {
    write_all(sink, b"cd").is_err()
        && write_all(sink, b"cd").is_ok()
        && sink.bytes() == b"abcd".as_slice()
}

fn writes(alloc: Global) -> Option<bool> {
    let (content, fails) = both(Bytes::copy(alloc, b"ab"), one(alloc, 1)).ok()?;
    let mut sink = MemSink::new(content, 4, fails).ok()?;
    let is = writes_whole(&mut sink);
    drop(sink);
    Some(is)
}

/// Whether a first call draws three of four bytes, the second and the third fail, and one is left.
fn draws(dice: &mut MemDice) -> bool {
    let mut drawn = *b"---";
    dice.fill(&mut drawn) == Ok(())
        && drawn == *b"abc"
        && dice.fill(&mut drawn) == Err(Failed)
        && dice.fill(&mut drawn) == Err(Failed)
        && dice.bytes() == b"d".as_slice()
        && dice.faults() == 2
}

fn has_drawn(alloc: Global) -> bool {
    match both(Bytes::copy(alloc, b"abcd"), one(alloc, 2)) {
        Ok((content, fails)) => {
            let mut dice = MemDice::new(content, fails);
            let is = draws(&mut dice);
            drop(dice);
            is
        }
        Err(_) => false,
    }
}

// RFC 8439, appendix A.1, test vector 1.
fn generates() -> bool {
    let mut dice = SeededDice::new(ChaCha20Rng::from_seed([0; 32]));
    let mut drawn = [0; 16];
    dice.fill(&mut drawn) == Ok(())
        && drawn == 0x76b8e0ada0f13d90405d6ae55386bd28_u128.to_be_bytes()
        && dice.faults() == 0
}

/// Whether a tape of six bytes is cut to four, and a write that fails writes the first half.
fn keeps_places(tape: &mut MemTape) -> bool {
    let mut into = *b"--";
    tape.bytes().len() == 6
        && tape.cut(4).is_ok()
        && tape.bytes().len() == 4
        && tape.put_at(1, b"12").is_err()
        && tape.read_at(0, &mut into).is_ok()
        && tape.bytes() == b"a1cd".as_slice()
}

fn keeps(alloc: Global) -> Option<bool> {
    let (content, fails) = both(Bytes::copy(alloc, b"abcdef"), one(alloc, 2)).ok()?;
    let mut tape = MemTape::new(content, 8, List::new(alloc), fails, List::new(alloc)).ok()?;
    let is = keeps_places(&mut tape);
    drop(tape);
    Some(is)
}

#[test]
fn reads_writes_and_draws(rt: HostRuntime) {
    assert_eq!(rt; reads_whole(rt.alloc()), Some(0));
    assert!(rt; generates());
    assert!(rt; writes(rt.alloc()) == Some(true) && keeps(rt.alloc()) == Some(true));
    assert!(rt; has_drawn(rt.alloc()));
}
