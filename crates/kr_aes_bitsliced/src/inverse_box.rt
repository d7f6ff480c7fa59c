//! InvSubBytes on planes: the inverse of the affine map, then the inverse in the field.

ghost use Rattle.std.specs.Prelude.{◌≡◌, ℕ, ◌<◌};
ghost use Rattle.kr_aes.specs.Cipher.{affine};
ghost use Rattle.kr_aes.specs.InverseCipher.{inverse_sbox};
ghost use Rattle.kr_aes_bitsliced.specs.inner.Nibbles.{byte_of_pair, nibble_at};
ghost use Rattle.kr_aes_bitsliced.specs.inner.Planes.{sliced_byte};

use crate::nibbles::Nibbles;
use crate::pairs;
use crate::planes::Planes;

/// The inverse S-box of each byte.
#[inline(always)]
pub(crate) fn inverse_sub_bytes(planes: Planes) -> Planes
    ensures { (b p : ℕ) → b < 8 → p < 16
        → sliced_byte result b p ≡ inverse_sbox (sliced_byte planes b p) }
{
    let (high, low) = parted(planes);
    let (new_high, new_low) = pairs::inverted(high, low);
    joined(new_high, new_low)
}

/// The two elements of the inverse of the affine map.
#[inline(always)]
fn parted(planes: Planes) -> (Nibbles, Nibbles)
    ensures { (b p : ℕ) → b < 8 → p < 16
        → affine (byte_of_pair (nibble_at result.0 b p) (nibble_at result.1 b p))
        ≡ sliced_byte planes b p }
{
    let x8 = planes.p2 ^ planes.p7;
    let x9 = planes.p1 ^ x8;
    let x10 = planes.p4 ^ planes.p6;
    let x11 = planes.p4 ^ x9;
    let x12 = planes.p5 ^ x11;
    let x13 = planes.p0 ^ x10;
    let x14 = planes.p5 ^ x13;
    let x15 = planes.p3 ^ x8;
    let x16 = planes.p3 ^ x12;
    let x17 = planes.p7 ^ x13;
    let x18 = planes.p6 ^ x9;
    let x19 = planes.p1 ^ x10;
    let high = Nibbles(!x9, !x14, x16, x18);
    let low = Nibbles(x12, x19, x15, x17);
    (high, low)
}

/// The byte of two elements.
#[inline(always)]
fn joined(high: Nibbles, low: Nibbles) -> Planes
    ensures { (b p : ℕ) → b < 8 → p < 16
        → sliced_byte result b p ≡ byte_of_pair (nibble_at high b p) (nibble_at low b p) }
{
    let Nibbles(y0, y1, y2, y3) = low;
    let Nibbles(y4, y5, y6, y7) = high;
    let y8 = y1 ^ y7;
    let y9 = y2 ^ y7;
    let y10 = y4 ^ y8;
    let y11 = y0 ^ y10;
    let y12 = y5 ^ y6;
    let y13 = y4 ^ y12;
    let y14 = y3 ^ y12;
    let y15 = y2 ^ y14;
    let y16 = y5 ^ y9;
    let y17 = y10 ^ y16;
    let y18 = y14 ^ y16;
    Planes {
        p0: y11,
        p1: y13,
        p2: y15,
        p3: y18,
        p4: y9,
        p5: y8,
        p6: y17,
        p7: y1,
    }
}
