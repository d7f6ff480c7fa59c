//! One cell of a table.

ghost use Rattle.std.specs.Prelude.{◌≡◌, slice_index, get_or, []};
ghost use Rattle.kr_aes.specs.Cipher.{sbox};
ghost use Rattle.kr_aes.specs.InverseCipher.{inverse_sbox};

use crate::tables::{FORWARD, INVERSE, INVERSE_SBOX, SBOX};

#[inline(always)]
pub(crate) fn sbox(byte: u8) -> u8
    ensures { result ≡ sbox byte }
{
    SBOX[byte as usize]
}

#[inline(always)]
pub(crate) fn inverse_sbox(byte: u8) -> u8
    ensures { result ≡ inverse_sbox byte }
{
    INVERSE_SBOX[byte as usize]
}

#[inline(always)]
pub(crate) fn forward_0(byte: u8) -> u32
    ensures { result ≡ slice_index (get_or FORWARD 0 []) byte }
{
    FORWARD[0][byte as usize]
}

#[inline(always)]
pub(crate) fn forward_1(byte: u8) -> u32
    ensures { result ≡ slice_index (get_or FORWARD 1 []) byte }
{
    FORWARD[1][byte as usize]
}

#[inline(always)]
pub(crate) fn forward_2(byte: u8) -> u32
    ensures { result ≡ slice_index (get_or FORWARD 2 []) byte }
{
    FORWARD[2][byte as usize]
}

#[inline(always)]
pub(crate) fn forward_3(byte: u8) -> u32
    ensures { result ≡ slice_index (get_or FORWARD 3 []) byte }
{
    FORWARD[3][byte as usize]
}

#[inline(always)]
pub(crate) fn inverse_0(byte: u8) -> u32
    ensures { result ≡ slice_index (get_or INVERSE 0 []) byte }
{
    INVERSE[0][byte as usize]
}

#[inline(always)]
pub(crate) fn inverse_1(byte: u8) -> u32
    ensures { result ≡ slice_index (get_or INVERSE 1 []) byte }
{
    INVERSE[1][byte as usize]
}

#[inline(always)]
pub(crate) fn inverse_2(byte: u8) -> u32
    ensures { result ≡ slice_index (get_or INVERSE 2 []) byte }
{
    INVERSE[2][byte as usize]
}

#[inline(always)]
pub(crate) fn inverse_3(byte: u8) -> u32
    ensures { result ≡ slice_index (get_or INVERSE 3 []) byte }
{
    INVERSE[3][byte as usize]
}
