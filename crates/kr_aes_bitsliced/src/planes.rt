//! Eight blocks as planes, and planes as blocks.

ghost use Rattle.std.specs.Prelude.{◌≡◌, ℕ, ◌<◌, [], get_or, length, slice_index};
ghost use Rattle.std.specs.Int.{bit_at};
ghost use Rattle.kr_aes_bitsliced.specs.inner.Exchange.{AreApart, IsExchange};
ghost use Rattle.kr_aes_bitsliced.specs.inner.Planes.{block_of_rows, plane, sliced_block};

use std::simd::prelude::*;

/// Eight blocks side by side: plane k has bit k of each of their bytes, that of block b as bit b of
/// its own. Byte p of a plane is that of row p / 4 and column p % 4 of the states (FIPS 197 section
/// 3.4), so that rows move as whole words.
#[derive(Clone, Copy, Default)]
pub struct Planes {
    pub(crate) p0: u8x16,
    pub(crate) p1: u8x16,
    pub(crate) p2: u8x16,
    pub(crate) p3: u8x16,
    pub(crate) p4: u8x16,
    pub(crate) p5: u8x16,
    pub(crate) p6: u8x16,
    pub(crate) p7: u8x16,
}

/// The planes of eight blocks.
#[inline(always)]
pub(crate) fn of_blocks(blocks: &[[u8; 16]; 8]) -> Planes
    ensures { (b : ℕ) → b < 8 → sliced_block result b ≡ get_or blocks.now b [] }
{
    let [a, b, c, d, e, f, g, h] = blocks;
    transposed(Planes {
        p0: block_rows(a),
        p1: block_rows(b),
        p2: block_rows(c),
        p3: block_rows(d),
        p4: block_rows(e),
        p5: block_rows(f),
        p6: block_rows(g),
        p7: block_rows(h),
    })
}

/// The bytes of a block by rows of the state.
#[inline(always)]
fn block_rows(block: &[u8]) -> u8x16
    requires { length block.now ≡ 16 }
    ensures { block_of_rows result ≡ block.now }
{
    by_rows(u8x16::from_slice(block))
}

/// The block whose bytes lie by rows.
#[inline(always)]
fn rows_to_block(rows: u8x16) -> [u8; 16]
    ensures { result ≡ block_of_rows rows }
{
    by_rows(rows).to_array()
}

/// Rows for columns, and columns for rows.
#[inline(always)]
fn by_rows(bytes: u8x16) -> u8x16
    ensures { result ≡ block_of_rows bytes }
{
    bytes.swizzle([0, 4, 8, 12, 1, 5, 9, 13, 2, 6, 10, 14, 3, 7, 11, 15])
}

/// The eight blocks of planes.
#[inline(always)]
pub(crate) fn to_blocks(planes: Planes) -> [[u8; 16]; 8]
    ensures { (b : ℕ) → b < 8 → get_or result b [] ≡ sliced_block planes b }
{
    rows_to_blocks(transposed(planes))
}

/// The blocks whose bytes lie by rows, one in each plane.
#[inline(always)]
fn rows_to_blocks(rows: Planes) -> [[u8; 16]; 8]
    ensures { (b : ℕ) → b < 8 → get_or result b [] ≡ block_of_rows (plane rows b) }
{
    [
        rows_to_block(rows.p0),
        rows_to_block(rows.p1),
        rows_to_block(rows.p2),
        rows_to_block(rows.p3),
        rows_to_block(rows.p4),
        rows_to_block(rows.p5),
        rows_to_block(rows.p6),
        rows_to_block(rows.p7),
    ]
}

/// Exchanges bits and places: at each byte, the eight bytes of the planes are rows of bits, which
/// become columns.
#[tactic(auto, using(crate::proofs::Transposed::apart_by_one, crate::proofs::Transposed::apart_by_two, crate::proofs::Transposed::apart_by_four))]
#[inline(always)]
fn transposed(planes: Planes) -> Planes
    ensures { (p k b : ℕ) → p < 16 → k < 8 → b < 8
        → bit_at (slice_index (plane result k) p) b ≡ bit_at (slice_index (plane planes b) p) k }
{
    let (a, b) = exchanged::<1>(planes.p0, planes.p1, 0x55);
    let (c, d) = exchanged::<1>(planes.p2, planes.p3, 0x55);
    let (e, f) = exchanged::<1>(planes.p4, planes.p5, 0x55);
    let (g, h) = exchanged::<1>(planes.p6, planes.p7, 0x55);
    let (a, c) = exchanged::<2>(a, c, 0x33);
    let (b, d) = exchanged::<2>(b, d, 0x33);
    let (e, g) = exchanged::<2>(e, g, 0x33);
    let (f, h) = exchanged::<2>(f, h, 0x33);
    let (a, e) = exchanged::<4>(a, e, 0x0f);
    let (b, f) = exchanged::<4>(b, f, 0x0f);
    let (c, g) = exchanged::<4>(c, g, 0x0f);
    let (d, h) = exchanged::<4>(d, h, 0x0f);
    Planes {
        p0: a,
        p1: b,
        p2: c,
        p3: d,
        p4: e,
        p5: f,
        p6: g,
        p7: h,
    }
}

/// Exchanges the high bits of one plane, `SHIFT` places up from the mask's, with the bits of the
/// other that the mask has.
#[inline(always)]
fn exchanged<const SHIFT: u8>(low: u8x16, high: u8x16, mask: u8) -> (u8x16, u8x16)
    requires { AreApart SHIFT mask }
    ensures { IsExchange SHIFT mask low high result.0 result.1 }
{
    let change = ((low >> SHIFT) ^ high) & u8x16::splat(mask);
    (low ^ (change << SHIFT), high ^ change)
}
