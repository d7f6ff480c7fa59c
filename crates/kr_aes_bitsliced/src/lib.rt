//! The cipher of AES and its inverse (FIPS 197 sections 5.1 and 5.3) on eight blocks at once: their
//! bits are parted into eight planes, one for each bit of a byte, and each step is made of whole
//! planes. Nothing is looked up by a secret, and nothing is allocated.
#![tactic(auto)]

ghost use Rattle.std.specs.Prelude.{◌≡◌, ℕ, List, map};
ghost use Rattle.kr_aes.specs.Cipher.{cipher};
ghost use Rattle.kr_aes.specs.InverseCipher.{inverse_cipher};
ghost use Rattle.kr_aes_bitsliced.specs.KeyPlanes.{key_planes};

mod columns;
mod inverse_box;
mod inverse_mixing;
mod keys;
mod mixing;
mod nibbles;
mod pairs;
mod planes;
mod rounds;
mod shuffle;
mod sub_bytes;

pub use keys::{KeyPlanes, slice_keys};
use kr_aes::Rounds;
pub use planes::Planes;

/// Puts the cipher of each of eight blocks in its place (FIPS 197 section 5.1). The keys are what
/// `slice_keys` made of the words that `kr_aes::expand` gave for one key.
#[inline(always)]
pub fn encrypt_eight(keys: &KeyPlanes, rounds: Rounds, blocks: &mut [[u8; 16]; 8])
    ensures { (words : List ℕ) → keys.now ≡ key_planes words
        → blocks.new ≡ map (cipher words rounds) blocks.old }
{
    let sliced = planes::of_blocks(blocks);
    let ciphered = rounds::cipher(keys, rounds, sliced);
    *blocks = planes::to_blocks(ciphered);
}

/// Puts the inverse cipher of each of eight blocks in its place (FIPS 197 section 5.3). The keys
/// are what `slice_keys` made of the words that `kr_aes::expand` gave for one key.
#[inline(always)]
pub fn decrypt_eight(keys: &KeyPlanes, rounds: Rounds, blocks: &mut [[u8; 16]; 8])
    ensures { (words : List ℕ) → keys.now ≡ key_planes words
        → blocks.new ≡ map (inverse_cipher words rounds) blocks.old }
{
    let sliced = planes::of_blocks(blocks);
    let opened = rounds::inverse_cipher(keys, rounds, sliced);
    *blocks = planes::to_blocks(opened);
}
