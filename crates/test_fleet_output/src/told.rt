//! What a worker told of a line.
//!
//!     put REVISION, got REVISION HEX, deleted REVISION, absent
//!     rewritten REWRITTEN FRESH CHANGED LEFT
//!     reloaded GENERATION, joined GENERATION, present GENERATION, left GENERATION, gone
//!     refreshed GENERATION, unchanged, moved GENERATION, refused VERDICT, value NUMBER
//!     unhealthy NAME FIELD TEXT, plugin NAME, dice SEAT, store, full, memory
use crate::verdict::parse_verdict;
use kr_base::{Bytes, both};
use kr_kms::Field;
use kr_provider::ValueNo;
use kr_script::Told;
use std::alloc::Global;
use test_support::{Wrong, own_text_or_empty, parse_hex, parse_long, parse_number, two_words};

/// The refusals of values, in the order of their numbers, from 1.
const REFUSALS: [ValueNo; 15] = [
    ValueNo::Short,
    ValueNo::BadBlock,
    ValueNo::BadPadding,
    ValueNo::BadTag,
    ValueNo::Wire,
    ValueNo::KeyId,
    ValueNo::Source,
    ValueNo::Annotations,
    ValueNo::SourceType,
    ValueNo::NoData,
    ValueNo::NotUtf8,
    ValueNo::NoProvider,
    ValueNo::LooksEncrypted,
    ValueNo::TooLarge,
    ValueNo::SeedLength,
];

/// Reads a reply; the number of a value is that of its refusal, from 1.
pub fn parse_told(alloc: Global, text: &str) -> Result<Told, Wrong> {
    match text.split_once(' ') {
        Some((word, rest)) => with_more(alloc, word, rest),
        None => alone(text),
    }
}

fn alone(word: &str) -> Result<Told, Wrong> {
    match word {
        "absent" => Ok(Told::Absent),
        "gone" => Ok(Told::Gone),
        "unchanged" => Ok(Told::Unchanged),
        "store" => Ok(Told::FaultStore),
        "full" => Ok(Told::Full),
        "memory" => Ok(Told::Memory),
        _ => Err(Wrong::Form),
    }
}

fn with_more(alloc: Global, word: &str, rest: &str) -> Result<Told, Wrong> {
    match word {
        "got" => got(alloc, rest),
        "rewritten" => rewritten(rest),
        "unhealthy" => unhealthy(alloc, rest),
        "plugin" => Ok(Told::FaultPlugin {
            name: own_text_or_empty(alloc, rest)?,
        }),
        "refused" => Ok(Told::Refused {
            verdict: parse_verdict(alloc, rest)?,
        }),
        "put" | "deleted" => of_store(word, parse_long(rest)?),
        _ => of_replica(word, parse_number(rest)?),
    }
}

fn of_store(word: &str, revision: u64) -> Result<Told, Wrong> {
    match word {
        "put" => Ok(Told::Put { revision }),
        _ => Ok(Told::Deleted { revision }),
    }
}

fn of_replica(word: &str, number: u32) -> Result<Told, Wrong> {
    match word {
        "reloaded" => Ok(Told::Reloaded { generation: number }),
        "joined" => Ok(Told::Joined { generation: number }),
        "present" => Ok(Told::Present { generation: number }),
        "left" => Ok(Told::Left { generation: number }),
        "refreshed" => Ok(Told::Refreshed { generation: number }),
        "moved" => Ok(Told::Moved { generation: number }),
        "dice" => Ok(Told::FaultDice { seat: number }),
        "value" => value(number as usize),
        _ => Err(Wrong::Form),
    }
}

/// The refusal of a value with this number.
fn value(number: usize) -> Result<Told, Wrong> {
    if number == 0 {
        return Err(Wrong::Form);
    }
    match REFUSALS.get(number - 1) {
        Some(why) => Ok(Told::Value { why: *why }),
        None => Err(Wrong::Form),
    }
}

/// `REVISION HEX`.
fn got(alloc: Global, rest: &str) -> Result<Told, Wrong> {
    let (revision, plain) = two_words(rest)?;
    let revision = parse_long(revision)?;
    Ok(Told::Got {
        revision,
        plain: Bytes::from_vec(parse_hex(alloc, plain)?),
    })
}

/// `REWRITTEN FRESH CHANGED LEFT`.
fn rewritten(rest: &str) -> Result<Told, Wrong> {
    let (rewritten, rest) = two_words(rest)?;
    let (fresh, rest) = two_words(rest)?;
    let (changed, left) = two_words(rest)?;
    Ok(Told::Rewritten {
        rewritten: parse_long(rewritten)?,
        fresh: parse_long(fresh)?,
        changed: parse_long(changed)?,
        left: parse_long(left)?,
    })
}

/// `NAME FIELD TEXT`.
fn unhealthy(alloc: Global, rest: &str) -> Result<Told, Wrong> {
    let (name, rest) = two_words(rest)?;
    let (field, text) = two_words(rest)?;
    let field = parse_field(field)?;
    match both(
        own_text_or_empty(alloc, name),
        own_text_or_empty(alloc, text),
    ) {
        Ok((name, text)) => Ok(Told::Unhealthy { name, field, text }),
        Err(why) => Err(why),
    }
}

fn parse_field(word: &str) -> Result<Field, Wrong> {
    match word {
        "version" => Ok(Field::Version),
        "healthz" => Ok(Field::Healthz),
        "key_id" => Ok(Field::KeyId),
        _ => Err(Wrong::Form),
    }
}
