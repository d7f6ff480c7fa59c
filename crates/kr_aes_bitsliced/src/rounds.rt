//! The rounds of the cipher and of the inverse cipher on planes.

ghost use Rattle.std.specs.Prelude.{◌≡◌, ℕ, ◌<◌, List};
ghost use Rattle.kr_aes.specs.Cipher.{add_round_key, cipher};
ghost use Rattle.kr_aes.specs.InverseCipher.{inverse_cipher};
ghost use Rattle.kr_aes_bitsliced.specs.KeyPlanes.{key_planes};
ghost use Rattle.kr_aes_bitsliced.specs.inner.Planes.{sliced_block};

use crate::columns::added;
use crate::inverse_box::inverse_sub_bytes;
use crate::inverse_mixing::{inverse_mix_columns, inverse_shift_rows};
use crate::keys::KeyPlanes;
use crate::mixing::{mix_columns, shift_rows};
use crate::planes::Planes;
use crate::sub_bytes::sub_bytes;
use kr_aes::Rounds;

/// Cipher (FIPS 197 section 5.1) of each block.
#[inline(always)]
pub(crate) fn cipher(keys: &KeyPlanes, rounds: Rounds, planes: Planes) -> Planes
    ensures { (words : List ℕ) → keys.now ≡ key_planes words → (b : ℕ) → b < 8
        → sliced_block result b ≡ cipher words rounds (sliced_block planes b) }
{
    let last = rounds.count();
    let mut state = key_added(keys, 0, planes);
    for round in 1..last {
        let mixed = mix_columns(shift_rows(sub_bytes(state)));
        state = key_added(keys, round, mixed);
    }
    key_added(keys, last, shift_rows(sub_bytes(state)))
}

/// InvCipher (FIPS 197 section 5.3) of each block.
#[inline(always)]
pub(crate) fn inverse_cipher(keys: &KeyPlanes, rounds: Rounds, planes: Planes) -> Planes
    ensures { (words : List ℕ) → keys.now ≡ key_planes words → (b : ℕ) → b < 8
        → sliced_block result b ≡ inverse_cipher words rounds (sliced_block planes b) }
{
    let last = rounds.count();
    let mut state = key_added(keys, last, planes);
    for round in 1..last {
        let opened = inverse_sub_bytes(inverse_shift_rows(state));
        state = inverse_mix_columns(key_added(keys, last - round, opened));
    }
    key_added(keys, 0, inverse_sub_bytes(inverse_shift_rows(state)))
}

/// AddRoundKey of each block.
#[inline(always)]
fn key_added(keys: &KeyPlanes, round: usize, planes: Planes) -> Planes
    requires { round < 15 }
    ensures { (words : List ℕ) → keys.now ≡ key_planes words → (b : ℕ) → b < 8
        → sliced_block result b ≡ add_round_key words round (sliced_block planes b) }
{
    added(planes, keys[round])
}
