//! SubBytes on planes: the inverse in the field, then the affine map.

ghost use Rattle.std.specs.Prelude.{◌≡◌, ℕ, ◌<◌};
ghost use Rattle.kr_aes.specs.Cipher.{affine, sbox};
ghost use Rattle.kr_aes_bitsliced.specs.inner.Nibbles.{byte_of_pair, nibble_at};
ghost use Rattle.kr_aes_bitsliced.specs.inner.Planes.{sliced_byte};

use crate::nibbles::Nibbles;
use crate::pairs;
use crate::planes::Planes;

/// SubBytes (FIPS 197 section 5.1.1): the S-box of each byte.
#[inline(always)]
pub(crate) fn sub_bytes(planes: Planes) -> Planes
    ensures { (b p : ℕ) → b < 8 → p < 16
        → sliced_byte result b p ≡ sbox (sliced_byte planes b p) }
{
    let (high, low) = parted(planes);
    let (new_high, new_low) = pairs::inverted(high, low);
    joined(new_high, new_low)
}

/// The two elements of the byte.
#[inline(always)]
fn parted(planes: Planes) -> (Nibbles, Nibbles)
    ensures { (b p : ℕ) → b < 8 → p < 16
        → byte_of_pair (nibble_at result.0 b p) (nibble_at result.1 b p)
        ≡ sliced_byte planes b p }
{
    let x8 = planes.p5 ^ planes.p7;
    let x9 = planes.p4 ^ x8;
    let x10 = planes.p5 ^ planes.p6;
    let x11 = planes.p2 ^ planes.p3;
    let x12 = x8 ^ x11;
    let x13 = planes.p4 ^ x10;
    let x14 = planes.p1 ^ x13;
    let x15 = x12 ^ x13;
    let x16 = planes.p1 ^ planes.p3;
    let x17 = x10 ^ x16;
    let x18 = planes.p0 ^ planes.p5;
    let x19 = x15 ^ x18;
    let high = Nibbles(x15, x12, x14, x8);
    let low = Nibbles(x19, planes.p7, x9, x17);
    (high, low)
}

/// The affine map of the byte of two elements.
#[inline(always)]
fn joined(high: Nibbles, low: Nibbles) -> Planes
    ensures { (b p : ℕ) → b < 8 → p < 16
        → sliced_byte result b p ≡ affine (byte_of_pair (nibble_at high b p) (nibble_at low b p)) }
{
    let Nibbles(y0, y1, y2, y3) = low;
    let Nibbles(y4, y5, y6, y7) = high;
    let y8 = y4 ^ y7;
    let y9 = y0 ^ y6;
    let y10 = y2 ^ y9;
    let y11 = y4 ^ y10;
    let y12 = y1 ^ y11;
    let y13 = y8 ^ y12;
    let y14 = y0 ^ y7;
    let y15 = y12 ^ y14;
    let y16 = y5 ^ y14;
    let y17 = y3 ^ y12;
    let y18 = y16 ^ y17;
    let y19 = y10 ^ y18;
    Planes {
        p0: !y16,
        p1: !y11,
        p2: y19,
        p3: y9,
        p4: y13,
        p5: !y15,
        p6: !y8,
        p7: y18,
    }
}
