//! Seals of a plugin: the data under a key of their own, which its seed makes, in an encrypted
//! object.
ghost use Rattle.std.specs.Prelude.{◌≡◌, ℕ, ◌≤◌, ◌+◌, ◌-◌, ◌++◌, ◌∷◌, [], List, Some, length, take, drop, replicate, IfSome};
ghost use Rattle.kr_base.specs.Limits.{data_limit, path_limit};
ghost use Rattle.kr_config.specs.declared.who.Who.{Who};
ghost use Rattle.kr_envelope.specs.Canonical.{fields_behind, shortest};
ghost use Rattle.kr_envelope.specs.Prefixes.{prefix};
ghost use Rattle.kr_kms.specs.Seeds.{IsSeedRow};
ghost use Rattle.kr_kms.specs.declared.seeds.SeedRow.{SeedRow};
ghost use Rattle.kr_provider.specs.Envelopes.{seed_body};
ghost use Rattle.kr_provider.specs.Publication.{seed_of};
ghost use Rattle.kr_provider.specs.Sealing.{Seals};

use crate::refusal::SealNo;
use crate::sealing::{NONCE, TAG, draw, framed, prefix_and, write_gcm};
use crate::value_keys::{SEED, value_key};
use kr_aes::expand;
use kr_base::{Bytes, Dice, Failed, Text};
use kr_envelope::{Kind, SourceKind, push_data_size, push_last_fields, push_prefix};
use kr_kms::SeedRow;
use std::alloc::Global;

/// About as many bytes as a value has before its sealed data.
const FRONT: usize = 128;

/// The bytes of the field that tells that the source is a seed.
const KIND: usize = 2;

/// The value by a plugin's seed, under an info and a nonce that are drawn.
pub(crate) fn by_seed<D: Dice>(
    alloc: Global,
    name: &Text,
    row: &SeedRow,
    path: &str,
    plain: Bytes,
    dice: &mut D,
) -> Result<Bytes, SealNo>
    requires row { IsSeedRow row.now }
    requires fits { length plain ≤ data_limit }
    requires path { length path.now ≤ path_limit }
    ensures sealed { (seeds : List SeedRow) → seed_of name.now seeds ≡ Some row.now
        → Seals D.left D.count seeds (Who.Kms name.now) path.now plain dice.old dice.new
        result }
    ensures later { D.count dice.old ≤ D.count dice.new }
{
    let size = plain.as_slice().len();
    let Some((mut value, start)) = object_frame(alloc, name, row, plain) else {
        return Err(SealNo::NoMemory);
    };
    let mut drawn = [0u8; SEED + NONCE];
    match draw(dice, &mut drawn) {
        Ok(()) => {}
        Err(Failed) => return Err(SealNo::DiceFailed),
    }
    fill(row.seed.as_slice(), &drawn, path, &mut value, start, size);
    Ok(Bytes::from_vec(value))
}

/// How many bytes a value by the seed has beside so many bytes of data.
pub(crate) fn beside_by_seed(name: &Text, row: &SeedRow, size: usize) -> usize {
    let around = SEED + NONCE + TAG;
    let mut beside = prefix_and(Kind::Kms, name, around)
        .saturating_add(head_size(size.saturating_add(around)))
        .saturating_add(field_size(row.key_id.as_str().len()))
        .saturating_add(field_size(row.source.as_slice().len()))
        .saturating_add(KIND);
    for (key, value) in row.annotations.pairs() {
        let key = field_size(key.as_str().len());
        let value = field_size(value.as_slice().len());
        let pair = key.saturating_add(value);
        beside = beside.saturating_add(head_size(pair)).saturating_add(pair);
    }
    beside
}

/// How many bytes a field of so many takes, none where it is empty.
fn field_size(size: usize) -> usize {
    if size == 0 {
        0
    } else {
        head_size(size).saturating_add(size)
    }
}

/// How many bytes stand in front of a field's own: its number, and its length by sevens of bits.
fn head_size(size: usize) -> usize {
    if size < 128 {
        2
    } else if size < 16_384 {
        3
    } else {
        4
    }
}

/// The value with the data in place of their ciphertext and zeros in place of the other sealed
/// bytes, and where these begin; none for want of memory.
fn object_frame(alloc: Global, name: &Text, row: &SeedRow, plain: Bytes) -> Option<(Vec<u8>, usize)>
    requires row { IsSeedRow row.now }
    requires fits { length plain ≤ data_limit }
    ensures { IfSome result (λ framed. let size = 32 + 12 + length plain + 16 in
        let front = prefix Kind.Kms name.now ++ 10 ∷ shortest size in
        (framed.1 ≡ length front)
        × (framed.0.items ≡ front ++ (replicate 44 0 ++ (plain ++ replicate 16 0)
        ++ fields_behind row.now.key_id row.now.source row.now.annotations SourceKind.Seed))) }
{
    let Ok(mut front) = Vec::with_capacity(alloc, FRONT) else {
        return None;
    };
    match push_prefix(&mut front, Kind::Kms, name.as_str()) {
        Ok(()) => {}
        Err(_) => return None,
    }
    match push_data_size(&mut front, SEED + NONCE + plain.as_slice().len() + TAG) {
        Ok(()) => {}
        Err(_) => return None,
    }
    let start = front.len();
    match front.resize(start + SEED + NONCE, 0) {
        Ok(()) => {}
        Err(_) => return None,
    }
    let Some(mut value) = framed(front.as_slice(), plain, TAG) else {
        return None;
    };
    match push_last_fields(
        &mut value,
        row.key_id.as_str(),
        row.source.as_slice(),
        &row.annotations,
        SourceKind::Seed,
    ) {
        Ok(()) => Some((value, start)),
        Err(_) => None,
    }
}

/// Writes the sealed bytes from `start` on, where the data stand behind the places of the info and
/// the nonce; what stands behind them stays.
fn fill(seed: &[u8], drawn: &[u8; 44], path: &str, value: &mut [u8], start: usize, size: usize)
    requires fits { size ≤ data_limit }
    requires path { length path.now ≤ path_limit }
    requires size { start + (32 + 12 + size + 16) ≤ length value.old }
    ensures { let plain = take size (drop 44 (drop start value.old)) in
        value.new ≡ take start value.old ++ (seed_body seed.now path.now plain drawn.now
        ++ drop (32 + 12 + size + 16) (drop start value.old)) }
{
    let end = start + SEED + NONCE + size + TAG;
    write_body(seed, drawn, path, &mut value[start..end], size);
}

/// Writes the info, and behind it the body under the key that the seed makes with it.
fn write_body(seed: &[u8], drawn: &[u8; 44], path: &str, room: &mut [u8], size: usize)
    requires fits { size ≤ data_limit }
    requires path { length path.now ≤ path_limit }
    requires size { length room.old ≡ 32 + (12 + size + 16) }
    ensures { room.new ≡ seed_body seed.now path.now (take size (drop 44 room.old)) drawn.now }
{
    let (info, rest) = drawn.split_at(SEED);
    let mut nonce = [0u8; NONCE];
    nonce.copy_from_slice(rest);
    let key = value_key(seed, info);
    let mut words = [0u32; 60];
    let Ok(_) = expand(&key, &mut words) else {
        unreachable!();
    };
    let (first, _) = room.split_at_mut(SEED);
    first.copy_from_slice(info);
    write_gcm(&key, &words, &nonce, path, room, SEED, size);
}
