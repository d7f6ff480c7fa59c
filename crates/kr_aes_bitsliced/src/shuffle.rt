//! Planes whose bytes change places, in each plane alike.

ghost use Rattle.std.specs.Prelude.{◌≡◌, ℕ, ◌<◌};
ghost use Rattle.kr_aes_bitsliced.specs.inner.Planes.{HasMoved, place_of, sliced_byte};

use crate::planes::Planes;
use std::simd::prelude::*;

/// A way in which the bytes of a plane change places.
pub(crate) trait Shuffle {
    // where the byte in a row and a column comes from
    ghost from: { ℕ → ℕ → ℕ };

    /// The plane with its bytes at their new places.
    fn shuffled(plane: u8x16) -> u8x16
        ensures { HasMoved from plane result };
}

/// The planes, each shuffled.
#[inline(always)]
pub(crate) fn each_shuffled<S: Shuffle>(planes: Planes) -> Planes
    ensures { (b row column : ℕ) → b < 8 → row < 4 → column < 4
        → sliced_byte result b (place_of row column)
        ≡ sliced_byte planes b (S.from row column) }
{
    Planes {
        p0: S::shuffled(planes.p0),
        p1: S::shuffled(planes.p1),
        p2: S::shuffled(planes.p2),
        p3: S::shuffled(planes.p3),
        p4: S::shuffled(planes.p4),
        p5: S::shuffled(planes.p5),
        p6: S::shuffled(planes.p6),
        p7: S::shuffled(planes.p7),
    }
}
