//! AES on single blocks (FIPS 197), by tables of words. Nothing is allocated.
#![tactic(auto)]

ghost use Rattle.std.specs.Prelude.{◌≡◌, ◌↔◌, ℕ, List, length, IsOk, IfOk, OnOk, OnErr, MatchOption};
ghost use Rattle.kr_aes.specs.Cipher.{IsBlock, cipher, round_count};
ghost use Rattle.kr_aes.specs.EquivalentInverse.{equivalent_inverse_cipher, inverse_schedule};
ghost use Rattle.kr_aes.specs.InverseCipher.{inverse_cipher};
ghost use Rattle.kr_aes.specs.KeyExpansion.{IsKeyLength, IsKeyOf, IsSchedule, padded_schedule};

mod begun;
mod cells;
mod columns;
mod field;
mod inverse_state;
mod key_expansion;
pub mod laws;
pub mod plain;
mod state;
mod tables;
mod unrolled;

pub use begun::Begun;

/// How many rounds a key has: ten for 16 bytes, twelve for 24 and fourteen for 32.
#[derive(Clone, Copy, PartialEq, Eq, Debug)]
pub enum Rounds {
    Ten,
    Twelve,
    Fourteen,
}

impl Rounds {
    /// The rounds of a key of so many bytes.
    fn of_key(size: usize) -> Option<Rounds>
        ensures { MatchOption result (¬ IsKeyLength size) (IsKeyOf size) }
    {
        match size {
            16 => Some(Rounds::Ten),
            24 => Some(Rounds::Twelve),
            32 => Some(Rounds::Fourteen),
            _ => None,
        }
    }

    /// Nr (FIPS 197 section 5).
    pub fn count(self) -> usize
        ensures { result ≡ round_count self }
    {
        match self {
            Rounds::Ten => 10,
            Rounds::Twelve => 12,
            Rounds::Fourteen => 14,
        }
    }
}

/// A key that hasn't 16, 24 or 32 bytes.
#[derive(Clone, Copy, PartialEq, Eq, Debug)]
pub struct KeyLength;

/// Writes the key expansion (FIPS 197 section 5.2) into the first 44, 52 or 60 words, and zeros
/// behind it. A key has 16, 24 or 32 bytes.
pub fn expand(key: &[u8], words: &mut [u32; 60]) -> Result<Rounds, KeyLength>
    ensures accepted { IsOk result ↔ IsKeyLength (length key.now) }
    ensures rounds { IfOk result (IsKeyOf (length key.now)) }
    ensures written { OnOk result (words.new ≡ padded_schedule key.now) }
    ensures schedule { IfOk result (IsSchedule words.new) }
    ensures refused { OnErr result (words.new ≡ words.old) }
{
    let rounds = match Rounds::of_key(key.len()) {
        Some(rounds) => rounds,
        None => return Err(KeyLength),
    };
    let count = 4 * (rounds.count() + 1);
    for i in 0..count {
        words[i] = key_expansion::next_word(key, words, i);
    }
    for i in count..60 {
        words[i] = 0;
    }
    Ok(rounds)
}

/// Puts the cipher of a block in its place (FIPS 197 section 5.1). The words and the rounds are
/// what `expand` gave for one key.
#[inline(always)]
pub fn encrypt_block(words: &[u32; 60], rounds: Rounds, block: &mut [u8; 16])
    requires { IsSchedule words.now rounds }
    ensures { block.new ≡ cipher words.now rounds block.old }
{
    let last = rounds.count();
    let mut state = columns::first(words, 0, block);
    for round in 1..last {
        let next = columns::forward_round(words, round, state);
        state = next;
    }
    let ciphered = columns::last_forward_round(words, last, state);
    *block = columns::columns_to_block(ciphered);
}

/// Writes the schedule of the equivalent inverse cipher (FIPS 197 section 5.3.5), by which many
/// blocks are deciphered, from a key's words.
pub fn invert(words: &[u32; 60], rounds: Rounds, inverse: &mut [u32; 60])
    ensures { inverse.new ≡ inverse_schedule words.now rounds }
{
    let last = rounds.count();
    *inverse = *words;
    for i in 4..4 * last {
        inverse[i] = columns::inverse_mixed_word(words[i]);
    }
}

/// Puts the inverse cipher of a block in its place, by the equivalent inverse cipher. The schedule
/// is what `invert` made.
#[inline(always)]
pub fn decrypt_block_by_inverse(inverse: &[u32; 60], rounds: Rounds, block: &mut [u8; 16])
    ensures equivalent { block.new ≡ equivalent_inverse_cipher inverse.now rounds block.old }
    ensures inverse { (words : List ℕ) → inverse.now ≡ inverse_schedule words rounds
        → block.new ≡ inverse_cipher words rounds block.old }
{
    let last = rounds.count();
    let state = columns::first(inverse, last, block);
    let state = unrolled::two_inverse(inverse, last, 0, state);
    let state = unrolled::two_inverse(inverse, last, 2, state);
    let state = unrolled::two_inverse(inverse, last, 4, state);
    let eight = unrolled::two_inverse(inverse, last, 6, state);
    *block = match rounds {
        Rounds::Ten => unrolled::last_two_inverse(inverse, rounds, eight),
        Rounds::Twelve => {
            let ten = unrolled::two_inverse(inverse, last, 8, eight);
            unrolled::last_two_inverse(inverse, rounds, ten)
        }
        Rounds::Fourteen => {
            let ten = unrolled::two_inverse(inverse, last, 8, eight);
            let twelve = unrolled::two_inverse(inverse, last, 10, ten);
            unrolled::last_two_inverse(inverse, rounds, twelve)
        }
    };
}

/// Puts the inverse cipher of a block in its place (FIPS 197 section 5.3). The words and the rounds
/// are what `expand` gave for one key.
pub fn decrypt_block(words: &[u32; 60], rounds: Rounds, block: &mut [u8; 16])
    requires { IsSchedule words.now rounds }
    ensures inverse { block.new ≡ inverse_cipher words.now rounds block.old }
    ensures undone { (plain : List ℕ) → IsBlock plain
        → block.old ≡ cipher words.now rounds plain → block.new ≡ plain }
{
    let mut inverse = [0; 60];
    invert(words, rounds, &mut inverse);
    decrypt_block_by_inverse(&inverse, rounds, block);
}
