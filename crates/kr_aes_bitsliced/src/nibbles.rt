//! The field of 16 elements, of polynomials modulo x^4 + x + 1, on planes.

ghost use Rattle.std.specs.Prelude.{◌≡◌, ℕ, ◌+◌, ◌*◌, ◌%◌, ◌<◌, bit_xor};
ghost use Rattle.kr_aes_bitsliced.specs.inner.Nibbles.{bit_in, nibble_at, nibble_inverse, nibble_product};

use std::simd::prelude::*;

/// Elements of the field of 16: plane k has bit k of each.
#[derive(Clone, Copy)]
pub(crate) struct Nibbles(
    pub(crate) u8x16,
    pub(crate) u8x16,
    pub(crate) u8x16,
    pub(crate) u8x16,
);

/// Polynomials of degree 1: the planes of their two coefficients.
#[derive(Clone, Copy)]
struct Half {
    low: u8x16,
    high: u8x16,
}

/// The sum of each two elements.
#[inline(always)]
pub(crate) fn sum(a: Nibbles, b: Nibbles) -> Nibbles
    ensures { (block p : ℕ) → block < 8 → p < 16
        → nibble_at result block p ≡ bit_xor (nibble_at a block p) (nibble_at b block p) }
{
    Nibbles(a.0 ^ b.0, a.1 ^ b.1, a.2 ^ b.2, a.3 ^ b.3)
}

/// The product of each two elements, by three products of their halves, each of which is three.
#[inline(always)]
pub(crate) fn product(a: Nibbles, b: Nibbles) -> Nibbles
    ensures { (block p : ℕ) → block < 8 → p < 16
        → nibble_at result block p ≡ nibble_product (nibble_at a block p) (nibble_at b block p) }
{
    let (a_low, a_high, a_sum) = halves(a);
    let (b_low, b_high, b_sum) = halves(b);
    let (l0, l1, l2) = half_product(a_low, b_low);
    let (h0, h1, h2) = half_product(a_high, b_high);
    let (m0, m1, m2) = half_product(a_sum, b_sum);
    let x4 = h0 ^ m2 ^ l2 ^ h2;
    Nibbles(
        l0 ^ x4,
        l1 ^ x4 ^ h1,
        l2 ^ m0 ^ l0 ^ h0 ^ h1 ^ h2,
        m1 ^ l1 ^ h1 ^ h2,
    )
}

/// The low halves of elements, their high halves, and the sum of both.
#[inline(always)]
fn halves(whole: Nibbles) -> (Half, Half, Half)
    ensures low { result.0 ≡ record { low = whole.0; high = whole.1 } }
    ensures high { result.1 ≡ record { low = whole.2; high = whole.3 } }
    ensures sum_low { (block p : ℕ) → block < 8 → p < 16 → bit_in result.2.low block p
        ≡ (bit_in whole.0 block p + bit_in whole.2 block p) % 2 }
    ensures sum_high { (block p : ℕ) → block < 8 → p < 16 → bit_in result.2.high block p
        ≡ (bit_in whole.1 block p + bit_in whole.3 block p) % 2 }
{
    let Nibbles(x0, x1, x2, x3) = whole;
    let sum = Half {
        low: x0 ^ x2,
        high: x1 ^ x3,
    };
    (Half { low: x0, high: x1 }, Half { low: x2, high: x3 }, sum)
}

/// The coefficients of the product of two polynomials of degree 1.
#[inline(always)]
fn half_product(a: Half, b: Half) -> (u8x16, u8x16, u8x16)
    ensures low { (block p : ℕ) → block < 8 → p < 16
        → bit_in result.0 block p ≡ bit_in a.low block p * bit_in b.low block p }
    ensures middle { (block p : ℕ) → block < 8 → p < 16 → bit_in result.1 block p
        ≡ (bit_in a.low block p * bit_in b.high block p
        + bit_in a.high block p * bit_in b.low block p) % 2 }
    ensures high { (block p : ℕ) → block < 8 → p < 16
        → bit_in result.2 block p ≡ bit_in a.high block p * bit_in b.high block p }
{
    let low = a.low & b.low;
    let high = a.high & b.high;
    let middle = ((a.low ^ a.high) & (b.low ^ b.high)) ^ low ^ high;
    (low, middle, high)
}

/// The inverse of each element, and 0 of 0.
#[inline(always)]
pub(crate) fn inverse(a: Nibbles) -> Nibbles
    ensures { (block p : ℕ) → block < 8 → p < 16
        → nibble_at result block p ≡ nibble_inverse (nibble_at a block p) }
{
    let Nibbles(a0, a1, a2, a3) = a;
    let a01 = a0 & a1;
    let a02 = a0 & a2;
    let a12 = a1 & a2;
    let a03 = a0 & a3;
    let a13 = a1 & a3;
    let a23 = a2 & a3;
    Nibbles(
        a0 ^ a1 ^ a2 ^ a02 ^ a12 ^ (a01 & a2) ^ a3 ^ (a12 & a3),
        a01 ^ a02 ^ a12 ^ a3 ^ a13 ^ (a01 & a3),
        a01 ^ a2 ^ a02 ^ a3 ^ a03 ^ (a02 & a3),
        a1 ^ a2 ^ a3 ^ a03 ^ a13 ^ a23 ^ (a12 & a3),
    )
}
