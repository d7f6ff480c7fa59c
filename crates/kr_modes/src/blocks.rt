//! Blocks of 16 bytes, taken from slices.

ghost use Rattle.std.specs.Prelude.{◌≡◌, ◌<◌, ◌≤◌, ◌+◌, ◌-◌, ◌*◌, ◌++◌, All, length, map, replicate};
ghost use Rattle.std.specs.Fork.{slice_chunk};
ghost use Rattle.std.specs.List.{range_with_len};
ghost use Rattle.kr_modes.specs.Blocks.{xor};

use std::simd::prelude::*;

/// The length of a block of AES in bytes.
pub(crate) const BLOCK: usize = 16;

/// Puts the exclusive or of both in the place of `block`.
#[inline(always)]
pub(crate) fn add(block: &mut [u8; BLOCK], other: &[u8; BLOCK])
    ensures { block.new ≡ xor block.old other.now }
{
    let [
        a0,
        a1,
        a2,
        a3,
        a4,
        a5,
        a6,
        a7,
        a8,
        a9,
        a10,
        a11,
        a12,
        a13,
        a14,
        a15,
    ] = *block;
    let [
        b0,
        b1,
        b2,
        b3,
        b4,
        b5,
        b6,
        b7,
        b8,
        b9,
        b10,
        b11,
        b12,
        b13,
        b14,
        b15,
    ] = *other;
    let [c0, c1, c2, c3, c4, c5, c6, c7] = half_sum(
        [a0, a1, a2, a3, a4, a5, a6, a7],
        [b0, b1, b2, b3, b4, b5, b6, b7],
    );
    let [c8, c9, c10, c11, c12, c13, c14, c15] = half_sum(
        [a8, a9, a10, a11, a12, a13, a14, a15],
        [b8, b9, b10, b11, b12, b13, b14, b15],
    );
    *block = [
        c0, c1, c2, c3, c4, c5, c6, c7, c8, c9, c10, c11, c12, c13, c14, c15,
    ];
}

/// The exclusive or of half a block and another. It goes by one number and not byte by byte, since
/// LLVM would load the bytes that a cipher just wrote as one vector, and wait for them; and by a
/// number that fits a register, since it takes a wider one apart byte by byte.
#[inline(always)]
fn half_sum(half: [u8; 8], other: [u8; 8]) -> [u8; 8]
    ensures { result ≡ xor half other }
{
    known(&half);
    known(&other);
    (u64::from_le_bytes(half) ^ u64::from_le_bytes(other)).to_le_bytes()
}

/// The exclusive or of both as vectors: of blocks that are read from memory, where the numbers of
/// `half_sum` would be taken apart again.
#[inline(always)]
pub(crate) fn vector_sum(block: &[u8; BLOCK], other: &[u8; BLOCK]) -> [u8; BLOCK]
    ensures { result ≡ xor block.now other.now }
{
    (u8x16::from_array(*block) ^ u8x16::from_array(*other)).to_array()
}

/// Each byte is below 256. The function does nothing.
pub(crate) fn known(bytes: &[u8])
    ensures { All (λ byte. byte < 256) bytes.now }
{}

/// Block `index` of the bytes, which have it whole.
#[inline(always)]
pub(crate) fn whole_block(bytes: &[u8], index: usize) -> [u8; BLOCK]
    requires { 16 * index + 16 ≤ length bytes.now }
    ensures { result ≡ slice_chunk bytes.now 16 index }
{
    let start = BLOCK * index;
    let mut block = [0; BLOCK];
    block.copy_from_slice(&bytes[start..start + BLOCK]);
    block
}

/// Eight blocks of the bytes, from block `index` on.
#[inline(always)]
pub(crate) fn eight_blocks(bytes: &[u8], index: usize) -> [[u8; BLOCK]; 8]
    requires { 16 * index + 128 ≤ length bytes.now }
    ensures { result ≡ map (slice_chunk bytes.now 16) (range_with_len index 8) }
{
    [
        whole_block(bytes, index),
        whole_block(bytes, index + 1),
        whole_block(bytes, index + 2),
        whole_block(bytes, index + 3),
        whole_block(bytes, index + 4),
        whole_block(bytes, index + 5),
        whole_block(bytes, index + 6),
        whole_block(bytes, index + 7),
    ]
}

/// Block `index` of the bytes, with `fill` behind it where they end before it does.
pub(crate) fn filled_block(bytes: &[u8], index: usize, fill: u8) -> [u8; BLOCK]
    requires { 16 * index ≤ length bytes.now }
    ensures { let chunk = slice_chunk bytes.now 16 index in
        result ≡ chunk ++ replicate (16 - length chunk) fill }
{
    let rest = &bytes[BLOCK * index..];
    let size = rest.len().min(BLOCK);
    let mut block = [fill; BLOCK];
    block[..size].copy_from_slice(&rest[..size]);
    block
}
