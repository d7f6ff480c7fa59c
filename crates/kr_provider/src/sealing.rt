//! Seals: what a provider makes of an object's data.
ghost use Rattle.std.specs.Prelude.{◌≡◌, ℕ, ◌<◌, ◌≤◌, ◌+◌, ◌-◌, ◌%◌, ◌++◌, List, true, length, take, drop, replicate, All, IfSome, MatchResult};
ghost use Rattle.std.specs.Io.KnownBytes.{Consumes, Keeps};
ghost use Rattle.kr_aes.specs.KeyExpansion.{IsKeyLength, padded_schedule};
ghost use Rattle.kr_base.specs.Faults.{IsCounted};
ghost use Rattle.kr_base.specs.Limits.{data_limit, path_limit};
ghost use Rattle.kr_config.specs.Providers.{is_provider};
ghost use Rattle.kr_envelope.specs.Prefixes.{prefix};
ghost use Rattle.kr_kms.specs.Seeds.{IsSeedRow};
ghost use Rattle.kr_kms.specs.declared.seeds.SeedRow.{SeedRow};
ghost use Rattle.kr_modes.specs.Cbc.{cbc};
ghost use Rattle.kr_modes.specs.Padding.{pad};
ghost use Rattle.kr_provider.specs.Ciphers.{cipher_under};
ghost use Rattle.kr_provider.specs.Envelopes.{gcm_body};
ghost use Rattle.kr_provider.specs.Sealing.{Seals};
ghost use Rattle.kr_provider.specs.inner.Bare.{IsBare};
ghost use Rattle.kr_provider.specs.inner.Scan.{HasSeed, HasWords};

use crate::refusal::SealNo;
use crate::rounds::key_rounds;
use crate::seed_sealing::{beside_by_seed, by_seed};
use crate::seeds::plugin_seed;
use kr_base::{Bytes, DATA_LIMIT, Dice, Failed, Text};
use kr_config::Who;
use kr_envelope::{Kind, MARK, push_prefix};
use kr_kms::SeedRow;
use kr_modes::{cbc_length, cbc_seal_in_place, gcm_seal_in_place};
use std::alloc::Global;

/// The bytes of an IV.
const IV: usize = 16;

/// The bytes of a nonce.
pub(crate) const NONCE: usize = 12;

/// The bytes of a tag.
pub(crate) const TAG: usize = 16;

/// The value of the data by a provider, whose key's words are given, a plugin's under its seed. It
/// is made in the data's buffer. The memory for it is taken before the dice is asked.
pub(crate) fn seal_value<D: Dice>(
    alloc: Global,
    who: &Who,
    seeds: &[SeedRow],
    words: &[u32; 60],
    path: &str,
    plain: Bytes,
    dice: &mut D,
) -> Result<Bytes, SealNo>
    requires provider { is_provider who.now ≡ true }
    requires seed { HasSeed seeds.now who.now }
    requires rows { All IsSeedRow seeds.now }
    requires words { HasWords who.now words.now }
    requires path { length path.now ≤ path_limit }
    ensures sealed { Seals D.left D.count seeds.now who.now path.now plain dice.old dice.new
        result }
    ensures later { D.count dice.old ≤ D.count dice.new }
{
    let length = plain.as_slice().len() as u64;
    if length > DATA_LIMIT {
        return Err(SealNo::TooLarge { length });
    }
    match who {
        Who::Identity => bare(plain),
        Who::Aescbc(name, secret) => by_aescbc(alloc, name, secret, words, plain, dice),
        Who::Aesgcm(name, secret) => by_aesgcm(alloc, name, secret, words, path, plain, dice),
        Who::Kms(name) => {
            let Some(row) = plugin_seed(seeds, name.as_str()) else {
                unreachable!();
            };
            by_seed(alloc, name, row, path, plain, dice)
        }
    }
}

/// The data as they stand, unless they begin as a value of another provider does.
fn bare(plain: Bytes) -> Result<Bytes, SealNo>
    ensures { IsBare plain result }
{
    if plain.as_slice().starts_with(MARK) {
        return Err(SealNo::LooksEncrypted);
    }
    Ok(plain)
}

/// The value by aescbc, under an IV that is drawn.
fn by_aescbc<D: Dice>(
    alloc: Global,
    name: &Text,
    secret: &Bytes,
    words: &[u32; 60],
    plain: Bytes,
    dice: &mut D,
) -> Result<Bytes, SealNo>
    requires key { IsKeyLength (length secret.now) }
    requires words { words.now ≡ padded_schedule secret.now }
    requires fits { length plain ≤ data_limit }
    ensures sealed { (seeds : List SeedRow) (path : List ℕ)
        → Seals D.left D.count seeds (Who.Aescbc name.now secret.now) path plain dice.old
        dice.new result }
    ensures later { D.count dice.old ≤ D.count dice.new }
{
    let size = plain.as_slice().len();
    let Some(front) = prefixed(alloc, Kind::Aescbc, name, IV) else {
        return Err(SealNo::NoMemory);
    };
    let start = front.len() - IV;
    let Some(mut value) = framed(front.as_slice(), plain, cbc_length(size) - size) else {
        return Err(SealNo::NoMemory);
    };
    let mut iv = [0u8; IV];
    match draw(dice, &mut iv) {
        Ok(()) => {}
        Err(Failed) => return Err(SealNo::DiceFailed),
    }
    write_cbc(secret, words, &iv, &mut value, start, size);
    Ok(Bytes::from_vec(value))
}

/// The value by aesgcm, under a nonce that is drawn.
fn by_aesgcm<D: Dice>(
    alloc: Global,
    name: &Text,
    secret: &Bytes,
    words: &[u32; 60],
    path: &str,
    plain: Bytes,
    dice: &mut D,
) -> Result<Bytes, SealNo>
    requires key { IsKeyLength (length secret.now) }
    requires words { words.now ≡ padded_schedule secret.now }
    requires fits { length plain ≤ data_limit }
    requires path { length path.now ≤ path_limit }
    ensures sealed { (seeds : List SeedRow) → Seals D.left D.count seeds
        (Who.Aesgcm name.now secret.now) path.now plain dice.old dice.new result }
    ensures later { D.count dice.old ≤ D.count dice.new }
{
    let size = plain.as_slice().len();
    let Some(front) = prefixed(alloc, Kind::Aesgcm, name, NONCE) else {
        return Err(SealNo::NoMemory);
    };
    let start = front.len() - NONCE;
    let Some(mut value) = framed(front.as_slice(), plain, TAG) else {
        return Err(SealNo::NoMemory);
    };
    let mut nonce = [0u8; NONCE];
    match draw(dice, &mut nonce) {
        Ok(()) => {}
        Err(Failed) => return Err(SealNo::DiceFailed),
    }
    write_gcm(
        secret.as_slice(),
        words,
        &nonce,
        path,
        &mut value,
        start,
        size,
    );
    Ok(Bytes::from_vec(value))
}

/// Fills the buffer with random bytes.
pub(crate) fn draw<D: Dice>(dice: &mut D, into: &mut [u8]) -> Result<(), Failed>
    ensures drawn { MatchResult result (λ _. All (λ byte. byte < 256) into.new
        × Consumes (D.left dice.old) (D.left dice.new) into.new)
        (λ _. Keeps (D.left dice.old) (D.left dice.new)) }
    ensures cause { IsCounted (D.count dice.old) (D.count dice.new) result }
{
    dice.fill(into)
}

/// The prefix of a provider's values and so many zeros behind it; none for want of memory.
fn prefixed(alloc: Global, kind: Kind, name: &Text, zeros: usize) -> Option<Vec<u8>>
    requires { zeros ≤ 64 }
    ensures { IfSome result (λ front. front.items ≡ prefix kind name.now ++ replicate zeros 0) }
{
    let Ok(mut front) = Vec::with_capacity(alloc, prefix_and(kind, name, zeros)) else {
        return None;
    };
    match push_prefix(&mut front, kind, name.as_str()) {
        Ok(()) => {}
        Err(_) => return None,
    }
    let start = front.len();
    match front.resize(start + zeros, 0) {
        Ok(()) => Some(front),
        Err(_) => None,
    }
}

/// The length of the prefix of a provider's values and of so many bytes more.
pub(crate) fn prefix_and(kind: Kind, name: &Text, more: usize) -> usize
    requires { more ≤ 64 }
    ensures { result ≡ length (prefix kind name.now) + more }
{
    kind.head().len() + name.as_str().as_bytes().len() + 1 + more
}

/// How many bytes a provider's value has beside so many bytes of data.
pub(crate) fn value_overhead(who: &Who, seeds: &[SeedRow], size: usize) -> usize {
    match who {
        Who::Identity => 0,
        Who::Aescbc(name, _) => prefix_and(Kind::Aescbc, name, IV + IV),
        Who::Aesgcm(name, _) => prefix_and(Kind::Aesgcm, name, NONCE + TAG),
        Who::Kms(name) => match plugin_seed(seeds, name.as_str()) {
            Some(row) => beside_by_seed(name, row, size),
            None => 0,
        },
    }
}

/// The data with a front, and so many zeros behind them, in their own buffer as far as that has the
/// room; none for want of memory.
pub(crate) fn framed(front: &[u8], plain: Bytes, zeros: usize) -> Option<Vec<u8>>
    requires fits { length plain ≤ data_limit }
    requires zeros { zeros ≤ 64 }
    ensures { IfSome result
        (λ value. value.items ≡ front.now ++ (plain ++ replicate zeros 0)) }
{
    let mut value = plain.into_vec();
    let size = value.len();
    match value.resize(front.len() + size + zeros, 0) {
        Ok(()) => {}
        Err(_) => return None,
    }
    value.copy_within(0..size, front.len());
    write_front(&mut value, front);
    Some(value)
}

/// Writes these bytes over the first ones.
fn write_front(value: &mut [u8], front: &[u8])
    requires { length front.now ≤ length value.old }
    ensures { value.new ≡ front.now ++ drop (length front.now) value.old }
{
    value[..front.len()].copy_from_slice(front);
}

/// Writes the IV and the CBC of the padded data from `start` on, where the data stand behind the
/// place of the IV.
fn write_cbc(
    secret: &Bytes,
    words: &[u32; 60],
    iv: &[u8; 16],
    value: &mut [u8],
    start: usize,
    size: usize,
)
    requires key { IsKeyLength (length secret.now) }
    requires words { words.now ≡ padded_schedule secret.now }
    requires fits { size ≤ data_limit }
    requires size { length value.old ≡ start + (16 + (size + 16 - size % 16)) }
    ensures { let plain = take size (drop 16 (drop start value.old)) in value.new
        ≡ take start value.old
        ++ (iv.now ++ cbc (cipher_under secret.now) iv.now (pad plain)) }
{
    let rounds = key_rounds(secret.as_slice());
    let (_, room) = value.split_at_mut(start);
    let (first, body) = room.split_at_mut(IV);
    first.copy_from_slice(iv);
    cbc_seal_in_place(words, rounds, iv, body, size);
}

/// Writes the nonce and the GCM of the data, with the path as associated data, from `start` on,
/// where the data stand behind the place of the nonce.
pub(crate) fn write_gcm(
    secret: &[u8],
    words: &[u32; 60],
    nonce: &[u8; 12],
    path: &str,
    value: &mut [u8],
    start: usize,
    size: usize,
)
    requires key { IsKeyLength (length secret.now) }
    requires words { words.now ≡ padded_schedule secret.now }
    requires fits { size ≤ data_limit }
    requires path { length path.now ≤ path_limit }
    requires size { length value.old ≡ start + (12 + size + 16) }
    ensures { let plain = take size (drop 12 (drop start value.old)) in
        value.new ≡ take start value.old ++ gcm_body secret.now path.now plain nonce.now }
{
    let rounds = key_rounds(secret);
    let (_, room) = value.split_at_mut(start);
    let (first, body) = room.split_at_mut(NONCE);
    first.copy_from_slice(nonce);
    gcm_seal_in_place(words, rounds, nonce, path.as_bytes(), body);
}
