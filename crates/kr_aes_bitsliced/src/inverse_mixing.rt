//! InvShiftRows and InvMixColumns on planes.

ghost use Rattle.std.specs.Prelude.{◌≡◌, ℕ, ◌+◌, ◌-◌, ◌%◌, ◌<◌};
ghost use Rattle.kr_aes.specs.InverseCipher.{inverse_mix_columns, inverse_shift_rows};
ghost use Rattle.kr_aes_bitsliced.specs.inner.Planes.{place_of, sliced_block};

use crate::columns::{added, doubled, up_by_two};
use crate::mixing::mix_columns;
use crate::planes::Planes;
use crate::shuffle::{Shuffle, each_shuffled};
use std::simd::prelude::*;

/// Row r goes r bytes to the right, in a ring.
struct RowsRight;

impl Shuffle for RowsRight {
    ghost from = { λ row column. place_of row ((column + 4 - row) % 4) };

    #[inline(always)]
    fn shuffled(plane: u8x16) -> u8x16 {
        plane.swizzle([0, 1, 2, 3, 7, 4, 5, 6, 10, 11, 8, 9, 13, 14, 15, 12])
    }
}

/// InvShiftRows of each block.
#[inline(always)]
pub(crate) fn inverse_shift_rows(planes: Planes) -> Planes
    ensures { (b : ℕ) → b < 8
        → sliced_block result b ≡ inverse_shift_rows (sliced_block planes b) }
{
    each_shuffled::<RowsRight>(planes)
}

/// InvMixColumns of each block: MixColumns, with 4 times the sum of a byte and of the byte two rows
/// below added to the byte before.
#[inline(always)]
pub(crate) fn inverse_mix_columns(planes: Planes) -> Planes
    ensures { (b : ℕ) → b < 8
        → sliced_block result b ≡ inverse_mix_columns (sliced_block planes b) }
{
    let fourth = doubled(doubled(added(planes, up_by_two(planes))));
    mix_columns(added(planes, fourth))
}
