//! The inverse in the field of 256 elements, by way of the field of 16. A byte is two elements of
//! the latter, h z + l with z^2 = z + 10, and its inverse is (h z + h + l) / (10 h^2 + l^2 + h l).

ghost use Rattle.std.specs.Prelude.{◌≡◌, ℕ, ◌<◌, bit_xor};
ghost use Rattle.kr_aes.specs.Field.{inverse};
ghost use Rattle.kr_aes_bitsliced.specs.inner.Nibbles.{byte_of_pair, nibble_at, nibble_product};

use crate::nibbles::{self, Nibbles};

/// The inverse of each byte, and 0 of 0.
#[inline(always)]
pub(crate) fn inverted(high: Nibbles, low: Nibbles) -> (Nibbles, Nibbles)
    ensures { (b p : ℕ) → b < 8 → p < 16
        → byte_of_pair (nibble_at result.0 b p) (nibble_at result.1 b p)
        ≡ inverse (byte_of_pair (nibble_at high b p) (nibble_at low b p)) }
{
    let norm = nibbles::sum(squares(high, low), nibbles::product(high, low));
    let inverse = nibbles::inverse(norm);
    let new_high = nibbles::product(high, inverse);
    let new_low = nibbles::product(nibbles::sum(high, low), inverse);
    (new_high, new_low)
}

/// 10 h^2 + l^2.
#[inline(always)]
fn squares(high: Nibbles, low: Nibbles) -> Nibbles
    ensures { (b p : ℕ) → b < 8 → p < 16 → nibble_at result b p ≡ bit_xor
        (nibble_product 10 (nibble_product (nibble_at high b p) (nibble_at high b p)))
        (nibble_product (nibble_at low b p) (nibble_at low b p)) }
{
    let Nibbles(h0, h1, h2, h3) = high;
    let Nibbles(l0, l1, l2, l3) = low;
    let h01 = h0 ^ h1;
    Nibbles(
        (h2 ^ h3) ^ (l0 ^ l2),
        h01 ^ l2,
        (h1 ^ h2) ^ (l1 ^ l3),
        (h01 ^ h2) ^ l3,
    )
}
