//! ShiftRows and MixColumns on planes.

ghost use Rattle.std.specs.Prelude.{◌≡◌, ℕ, ◌+◌, ◌%◌, ◌<◌};
ghost use Rattle.kr_aes.specs.Cipher.{mix_columns, shift_rows};
ghost use Rattle.kr_aes_bitsliced.specs.inner.Planes.{place_of, sliced_block};

use crate::columns::{added, doubled, up_by_one, up_by_two};
use crate::planes::Planes;
use crate::shuffle::{Shuffle, each_shuffled};
use std::simd::prelude::*;

/// Row r goes r bytes to the left, in a ring.
struct RowsLeft;

impl Shuffle for RowsLeft {
    ghost from = { λ row column. place_of row ((column + row) % 4) };

    #[inline(always)]
    fn shuffled(plane: u8x16) -> u8x16 {
        plane.swizzle([0, 1, 2, 3, 5, 6, 7, 4, 10, 11, 8, 9, 15, 12, 13, 14])
    }
}

/// ShiftRows (FIPS 197 section 5.1.2) of each block.
#[inline(always)]
pub(crate) fn shift_rows(planes: Planes) -> Planes
    ensures { (b : ℕ) → b < 8 → sliced_block result b ≡ shift_rows (sliced_block planes b) }
{
    each_shuffled::<RowsLeft>(planes)
}

/// MixColumns (FIPS 197 section 5.1.3) of each block: with the sum of a byte and of the byte below,
/// twice this sum, the byte below, and the sum two rows below are added.
#[inline(always)]
pub(crate) fn mix_columns(planes: Planes) -> Planes
    ensures { (b : ℕ) → b < 8 → sliced_block result b ≡ mix_columns (sliced_block planes b) }
{
    let below = up_by_one(planes);
    let both = added(planes, below);
    added(added(doubled(both), below), up_by_two(both))
}
