//! What both directions mix columns by: rows that go up, doubles of bytes and sums of bytes.

ghost use Rattle.std.specs.Prelude.{◌≡◌, ℕ, ◌+◌, ◌%◌, ◌<◌, bit_xor};
ghost use Rattle.kr_aes.specs.Field.{product};
ghost use Rattle.kr_aes_bitsliced.specs.inner.Planes.{place_of, sliced_byte};

use crate::planes::Planes;
use crate::shuffle::{Shuffle, each_shuffled};
use std::simd::prelude::*;

/// Each row goes up by one, in a ring.
struct UpByOne;

impl Shuffle for UpByOne {
    ghost from = { λ row column. place_of ((row + 1) % 4) column };

    #[inline(always)]
    fn shuffled(plane: u8x16) -> u8x16 {
        plane.swizzle([4, 5, 6, 7, 8, 9, 10, 11, 12, 13, 14, 15, 0, 1, 2, 3])
    }
}

/// Each row of each plane goes up by one, in a ring.
#[inline(always)]
pub(crate) fn up_by_one(planes: Planes) -> Planes
    ensures { (b row column : ℕ) → b < 8 → row < 4 → column < 4
        → sliced_byte result b (place_of row column)
        ≡ sliced_byte planes b (place_of ((row + 1) % 4) column) }
{
    each_shuffled::<UpByOne>(planes)
}

/// Each row goes up by two, in a ring.
struct UpByTwo;

impl Shuffle for UpByTwo {
    ghost from = { λ row column. place_of ((row + 2) % 4) column };

    #[inline(always)]
    fn shuffled(plane: u8x16) -> u8x16 {
        plane.swizzle([8, 9, 10, 11, 12, 13, 14, 15, 0, 1, 2, 3, 4, 5, 6, 7])
    }
}

/// Each row of each plane goes up by two, in a ring.
#[inline(always)]
pub(crate) fn up_by_two(planes: Planes) -> Planes
    ensures { (b row column : ℕ) → b < 8 → row < 4 → column < 4
        → sliced_byte result b (place_of row column)
        ≡ sliced_byte planes b (place_of ((row + 2) % 4) column) }
{
    each_shuffled::<UpByTwo>(planes)
}

/// x times each byte (FIPS 197 section 4.3).
#[inline(always)]
pub(crate) fn doubled(planes: Planes) -> Planes
    ensures { (b p : ℕ) → b < 8 → p < 16
        → sliced_byte result b p ≡ product 2 (sliced_byte planes b p) }
{
    Planes {
        p0: planes.p7,
        p1: planes.p0 ^ planes.p7,
        p2: planes.p1,
        p3: planes.p2 ^ planes.p7,
        p4: planes.p3 ^ planes.p7,
        p5: planes.p4,
        p6: planes.p5,
        p7: planes.p6,
    }
}

/// The sums of planes.
#[inline(always)]
pub(crate) fn added(planes: Planes, others: Planes) -> Planes
    ensures { (b p : ℕ) → b < 8 → p < 16 → sliced_byte result b p
        ≡ bit_xor (sliced_byte planes b p) (sliced_byte others b p) }
{
    Planes {
        p0: planes.p0 ^ others.p0,
        p1: planes.p1 ^ others.p1,
        p2: planes.p2 ^ others.p2,
        p3: planes.p3 ^ others.p3,
        p4: planes.p4 ^ others.p4,
        p5: planes.p5 ^ others.p5,
        p6: planes.p6 ^ others.p6,
        p7: planes.p7 ^ others.p7,
    }
}
