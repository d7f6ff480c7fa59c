//! Plugins: the masks of the one in memory, and its failing calls; seeds, and those that are kept.
use crate::tests::making::{annotate, both, gives, make_plugin, plugin};
use kr_base::{Annotations, Bytes, Dice, List, MemDice};
use kr_kms::{
    Field, Kms, KmsNo, SeedCache, SeedNo, SeedRow, TablePlugin, WrappedRef, healthy_key_id,
    make_seed,
};
use std::alloc::Global;

/// The annotation with a salt.
fn salted(alloc: Global, salt: &[u8]) -> Option<Annotations> {
    let mut all = Annotations::new(alloc);
    if annotate(alloc, &mut all, "test.kmsrest/salt", salt) {
        Some(all)
    } else {
        drop(all);
        None
    }
}

/// Whether two bytes 9d under a key are unwrapped as that.
fn unwraps_to_plain(
    alloc: Global,
    link: &mut TablePlugin,
    key_id: &str,
    salt: &Annotations,
    plain: &[u8],
) -> bool {
    let wrapped = WrappedRef {
        cipher: b"\x9d\x9d",
        key_id,
        annotations: salt,
    };
    gives(link.unwrap_source(alloc, &wrapped), plain)
}

// The masks were summed by hand: 9d is 6b + 31 + 01.
fn unwraps(alloc: Global, link: &mut TablePlugin) -> bool {
    match salted(alloc, &[1]) {
        Some(salt) => {
            let is = unwraps_to_plain(alloc, link, "k1", &salt, b"\x00\x00")
                && unwraps_to_plain(alloc, link, "k2", &salt, b"\x03\x03");
            drop(salt);
            is
        }
        None => false,
    }
}

// 9e is 00 xor 6b + 32 + 01. The third call fails.
fn wraps(alloc: Global, link: &mut TablePlugin) -> bool {
    match link.wrap(alloc, b"\x00\x01") {
        Ok(wrapped) => {
            let is = wrapped.key_id.as_str() == "k2"
                && wrapped.cipher.as_slice() == b"\x9e\x9f".as_slice();
            drop(wrapped);
            is
        }
        Err(_) => false,
    }
}

fn tells(alloc: Global, link: &mut TablePlugin) -> bool {
    match link.status(alloc) {
        Ok(status) => {
            let is = status.key_id.as_str() == "k2" && status.version.as_str() == "v2";
            drop(status);
            is
        }
        Err(_) => false,
    }
}

fn fails(alloc: Global, link: &mut TablePlugin) -> bool {
    link.wrap(alloc, b"a").err() == Some(KmsNo::Failed) && link.faults() == 1
}

/// Whether a plugin under another key unwraps by the mask that is given.
fn reads(alloc: Global) -> bool {
    match plugin(alloc, "other", &[]) {
        Some(mut link) => {
            let is = unwraps(alloc, &mut link);
            drop(link);
            is
        }
        None => false,
    }
}

/// Whether one wraps under its own key.
fn writes(alloc: Global) -> bool {
    match plugin(alloc, "k2", &[3]) {
        Some(mut link) => {
            let is = tells(alloc, &mut link) && wraps(alloc, &mut link) && fails(alloc, &mut link);
            drop(link);
            is
        }
        None => false,
    }
}

#[test]
fn wraps_and_unwraps_by_its_masks(rt: HostRuntime) {
    assert!(rt; reads(rt.alloc()) && writes(rt.alloc()));
}

/// Whether this part shows a plugin unhealthy, and says that.
fn is_breach(alloc: Global, link: &mut TablePlugin, part: Field, wanted: &str) -> bool {
    match healthy_key_id(alloc, link) {
        Ok(key_id) => {
            drop(key_id);
            false
        }
        Err(SeedNo::Unhealthy { field, text }) => {
            let is = field == part && text.as_str() == wanted;
            drop(text);
            is
        }
        Err(why) => {
            drop(why);
            false
        }
    }
}

/// Whether it is so of the plugin `p` with this status.
fn is_unhealthy(alloc: Global, status: (&str, &str), part: Field, wanted: &str) -> bool {
    match make_plugin(alloc, status.0, status.1, "", &[]) {
        Some(mut link) => {
            let is = is_breach(alloc, &mut link, part, wanted);
            drop(link);
            is
        }
        None => false,
    }
}

// The first part that breaks a rule is told.
#[test]
fn unhealthy_by_the_first_part(rt: HostRuntime) {
    let alloc = rt.alloc();
    assert!(rt; is_unhealthy(alloc, ("v1", "down"), Field::Version, "v1"));
    assert!(rt; is_unhealthy(alloc, ("v2", "down"), Field::Healthz, "down"));
    assert!(rt; is_unhealthy(alloc, ("v2", "ok"), Field::KeyId, ""));
}

/// Whether these are 32 times this byte.
fn is_all(bytes: &[u8], byte: u8) -> bool {
    bytes.len() == 32 && bytes.iter().all(|other| *other == byte)
}

/// The seed that the plugin `p` is made under `k1`.
fn made(alloc: Global, dice: &mut MemDice) -> Option<SeedRow> {
    match plugin(alloc, "k1", &[]) {
        Some(mut link) => {
            let made = make_seed(alloc, &mut link, dice).ok();
            drop(link);
            made
        }
        None => None,
    }
}

fn is_made(alloc: Global, dice: &mut MemDice) -> bool {
    match made(alloc, dice) {
        Some(row) => {
            let is = row.key_id.as_str() == "k1"
                && is_all(row.seed.as_slice(), 0)
                && is_all(row.source.as_slice(), 0x9d);
            drop(row);
            is
        }
        None => false,
    }
}

/// A source of these bytes.
fn make_dice(alloc: Global, bytes: &[u8]) -> Option<MemDice> {
    match Bytes::copy(alloc, bytes) {
        Ok(bytes) => Some(MemDice::new(bytes, List::new(alloc))),
        Err(_) => None,
    }
}

// 9d is 00 xor the mask under `k1`, as above. Behind 32 bytes of 40 there is no seed more.
fn makes(alloc: Global) -> bool {
    match make_dice(alloc, &[0; 40]) {
        Some(mut dice) => {
            let is = is_made(alloc, &mut dice)
                && made(alloc, &mut dice).is_none()
                && dice.faults() == 1;
            drop(dice);
            is
        }
        None => false,
    }
}

#[test]
fn makes_a_seed(rt: HostRuntime) {
    assert!(rt; makes(rt.alloc()));
}

/// Whether the plugin `p` whose calls of these numbers fail makes no seed for this cause, and then
/// so many random bytes are left.
fn makes_none(alloc: Global, fails: &[u64], dice: &mut MemDice, why: Cause, left: usize) -> bool {
    match plugin(alloc, "k1", fails) {
        Some(mut link) => {
            let found = make_seed(alloc, &mut link, dice).err();
            drop(link);
            failure_cause(found) == why && dice.bytes().len() == left
        }
        None => false,
    }
}

/// What failed, if something did.
#[derive(Clone, Copy, PartialEq, Eq)]
enum Cause {
    Link,
    Dice,
    Other,
}

fn failure_cause(why: Option<SeedNo>) -> Cause {
    match why {
        Some(SeedNo::Failed) => Cause::Link,
        Some(SeedNo::DiceFailed) => Cause::Dice,
        other => {
            drop(other);
            Cause::Other
        }
    }
}

// The status, the wrap behind the draw, and the draw.
fn makes_none_behind_faults(alloc: Global) -> bool {
    match make_dice(alloc, &[0; 32]) {
        Some(mut dice) => {
            let is = makes_none(alloc, &[1], &mut dice, Cause::Link, 32)
                && makes_none(alloc, &[2], &mut dice, Cause::Link, 0)
                && makes_none(alloc, &[], &mut dice, Cause::Dice, 0);
            drop(dice);
            is
        }
        None => false,
    }
}

#[test]
fn makes_no_seed_behind_a_fault(rt: HostRuntime) {
    assert!(rt; makes_none_behind_faults(rt.alloc()));
}

/// The byte of which these are 32.
fn repeated_byte(seed: &[u8]) -> Option<u8> {
    let first = *seed.first()?;
    if is_all(seed, first) {
        Some(first)
    } else {
        None
    }
}

/// The byte of which a seed has 32 that is fetched for a source of 32 bytes 9d under a key id.
fn fetched(
    alloc: Global,
    cache: &mut SeedCache,
    link: &mut TablePlugin,
    key_id: &str,
) -> Option<u8> {
    let Some(annotations) = salted(alloc, &[1]) else {
        return None;
    };
    let fetched = cache.fetch(link, key_id, &annotations, &[0x9d; 32]);
    drop(annotations);
    match fetched {
        Ok(seed) => {
            let first = repeated_byte(seed.as_slice());
            drop(seed);
            first
        }
        Err(_) => None,
    }
}

// The third answer is kept from the first: the third call on the link would fail. Another key is
// asked for and fails, and what was kept stays: the fourth call would fail too.
fn keeps(alloc: Global, cache: &mut SeedCache, link: &mut TablePlugin) -> bool {
    let first = fetched(alloc, cache, link, "k1");
    let second = fetched(alloc, cache, link, "k2");
    let third = fetched(alloc, cache, link, "k1");
    let kept = link.faults() == 0;
    let other = fetched(alloc, cache, link, "k3");
    let last = fetched(alloc, cache, link, "k1");
    first == Some(0)
        && second == Some(3)
        && third == Some(0)
        && kept
        && other == None
        && last == Some(0)
        && link.faults() == 1
}

fn fetches(alloc: Global) -> bool {
    match both(plugin(alloc, "k1", &[3, 4]), SeedCache::new(alloc, 2).ok()) {
        Some((mut link, mut cache)) => {
            let is = keeps(alloc, &mut cache, &mut link);
            drop(cache);
            drop(link);
            is
        }
        None => false,
    }
}

#[test]
fn fetches_a_kept_seed_without_a_call(rt: HostRuntime) {
    assert!(rt; fetches(rt.alloc()));
}
