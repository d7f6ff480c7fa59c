//! What several tests make: values of which both are wanted, texts, annotations, plugins. Each that
//! isn't used is dropped as a value of some type, which costs a proof less than by its fields.
use kr_base::{Annotations, Bytes, List, Text};
use kr_kms::TablePlugin;
use std::alloc::Global;

/// Both values, if both were made.
pub fn both<A: Drop, B: Drop>(first: Option<A>, second: Option<B>) -> Option<(A, B)> {
    let Some(first) = first else {
        drop(second);
        return None;
    };
    let Some(second) = second else {
        drop(first);
        return None;
    };
    Some((first, second))
}

pub fn text(alloc: Global, chars: &str) -> Option<Text> {
    Text::copy(alloc, chars).ok()
}

/// Whether the bytes were given, and are these.
pub fn gives<E: Drop>(found: Result<Bytes, E>, wanted: &[u8]) -> bool {
    match found {
        Ok(bytes) => {
            let is = bytes.as_slice() == wanted;
            drop(bytes);
            is
        }
        Err(why) => {
            drop(why);
            false
        }
    }
}

/// Adds an annotation, if there is memory.
pub fn annotate(alloc: Global, all: &mut Annotations, key: &str, value: &[u8]) -> bool {
    match both(text(alloc, key), Bytes::copy(alloc, value).ok()) {
        Some((key, value)) => all.insert(key, value).is_ok(),
        None => false,
    }
}

/// The plugin `p` with the salt 01 and this status, whose calls of these numbers fail.
pub fn make_plugin(
    alloc: Global,
    version: &str,
    healthz: &str,
    key_id: &str,
    fails: &[u64],
) -> Option<TablePlugin> {
    let named = both(text(alloc, "p"), text(alloc, key_id));
    let told = both(text(alloc, version), text(alloc, healthz));
    match both(both(named, told), Vec::from_slice(alloc, fails).ok()) {
        Some((texts, fails)) => {
            let (named, told) = texts;
            let (name, key_id) = named;
            let (version, healthz) = told;
            let fails = List::from_vec(fails);
            Some(TablePlugin::new(name, key_id, 1, version, healthz, fails))
        }
        None => None,
    }
}

/// The same, healthy.
pub fn plugin(alloc: Global, key_id: &str, fails: &[u64]) -> Option<TablePlugin> {
    make_plugin(alloc, "v2", "ok", key_id, fails)
}
