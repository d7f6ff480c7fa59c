//! GHASH (SP 800-38D sections 6.3 and 6.4). A block is here the number of its bytes, the lowest
//! first, so that no bits change places on the way. A product by the hash subkey is the sum of 32
//! entries of tables, which are made once for a subkey: one entry for each half byte of the other
//! factor.

ghost use Rattle.std.specs.Prelude.{◌≡◌, ◌<◌, ◌≤◌, ◌%◌, ℕ, length, slice_index};
ghost use Rattle.std.specs.Int.{w128, reverse_bits};
ghost use Rattle.kr_modes.specs.Blocks.{blocks};
ghost use Rattle.kr_modes.specs.Gcm.{zero_padded};
ghost use Rattle.kr_modes.specs.Ghash.{ghash_blocks, polynomial, product};
ghost use Rattle.kr_modes.specs.inner.Tables.{IsTableOf, four_terms, polynomial_of, times_x, turned};

use crate::blocks::{self, BLOCK};

/// The tables of a subkey: 32 of 16 blocks, one for each half byte, from the first byte's high one.
pub(crate) type Products = [[u128; 16]; 32];

/// Two blocks.
const PAIR: usize = 2 * BLOCK;

/// From so many bytes on it pays to make the tables of the subkey's square.
const LONG: usize = 32768;

/// The coefficients of 1 + x + x^2 + x^7, the first one highest: the modulus without its x^128.
const MODULUS_LOW: u128 = 0xe1 << 120;

/// x times a polynomial, whose first coefficient is the highest bit: shifted, and less the modulus
/// where a bit came out.
#[inline(always)]
fn shifted(p: u128) -> u128
    ensures { reverse_bits w128 result ≡ times_x (reverse_bits w128 p) }
{
    (p >> 1) ^ (p % 2) * MODULUS_LOW
}

/// The block that stands for such a polynomial.
#[inline(always)]
fn polynomial_block(p: u128) -> u128
    ensures { polynomial_of result ≡ reverse_bits w128 p }
{
    let block = p.to_be_bytes();
    number(&block)
}

/// The products of `p` and each polynomial of degree below 4, by the half byte that it stands as.
#[inline(always)]
fn multiples(p: u128) -> [u128; 16]
    ensures { (v : ℕ) → v < 16
        → polynomial_of (slice_index result v) ≡ four_terms (turned v) (reverse_bits w128 p) }
{
    let q = shifted(p);
    let r = shifted(q);
    let a = polynomial_block(p);
    let b = polynomial_block(q);
    let c = polynomial_block(r);
    let d = polynomial_block(shifted(r));
    let ab = a ^ b;
    let cd = c ^ d;
    [
        0,
        d,
        c,
        cd,
        b,
        b ^ d,
        b ^ c,
        b ^ cd,
        a,
        a ^ d,
        a ^ c,
        a ^ cd,
        ab,
        ab ^ d,
        ab ^ c,
        ab ^ cd,
    ]
}

/// Makes the tables of a subkey.
pub(crate) fn fill(subkey: &[u8; BLOCK], products: &mut Products)
    ensures { IsTableOf products.new (polynomial subkey.now) }
{
    let mut power = u128::from_be_bytes(*subkey);
    for place in 0..32usize {
        products[place] = multiples(power);
        power = shifted(shifted(shifted(shifted(power))));
    }
}

/// The product of a block and the subkey that the tables are made of. The entries go into two sums,
/// so that fewer of them wait for each other.
#[inline(always)]
fn product(products: &Products, a: u128) -> u128
    ensures { (subkey : ℕ) → IsTableOf products.now subkey
        → polynomial_of result ≡ product (polynomial_of a) subkey }
{
    let bytes = a.to_le_bytes();
    let mut high = 0;
    let mut low = 0;
    for (i, byte) in bytes.iter().enumerate() {
        high ^= products[2 * i][(*byte / 16) as usize];
        low ^= products[2 * i + 1][(*byte % 16) as usize];
    }
    high ^ low
}

/// The value that the bytes, with zeros behind them, make of the value `start`.
pub(crate) fn absorb(products: &Products, start: u128, bytes: &[u8]) -> u128
    requires { length bytes.now ≤ 4194304 }
    ensures { (subkey : ℕ) → IsTableOf products.now subkey
        → polynomial_of result
        ≡ ghash_blocks subkey (polynomial_of start) (blocks (zero_padded bytes.now)) }
{
    if bytes.len() < LONG {
        return absorb_each(products, start, bytes);
    }
    let paired = bytes.len() / PAIR * PAIR;
    let value = absorb_pairs(products, start, &bytes[..paired]);
    absorb_each(products, value, &bytes[paired..])
}

/// The same for whole pairs of blocks. The first block of a pair is multiplied twice, which the
/// tables of the subkey's square do at once: so its entries and the second's don't wait for each
/// other. Inlined into its caller, LLVM would put all of them into one sum.
#[inline(never)]
fn absorb_pairs(products: &Products, start: u128, bytes: &[u8]) -> u128
    requires fits { length bytes.now ≤ 4194304 }
    requires pairs { length bytes.now % 32 ≡ 0 }
    ensures { (subkey : ℕ) → IsTableOf products.now subkey
        → polynomial_of result
        ≡ ghash_blocks subkey (polynomial_of start) (blocks (zero_padded bytes.now)) }
{
    let subkey = products[0][8];
    let square = product(products, subkey).to_le_bytes();
    let mut squares = [[0; 16]; 32];
    fill(&square, &mut squares);
    let mut value = start;
    for pair in 0..bytes.len() / PAIR {
        let first = blocks::whole_block(bytes, 2 * pair);
        let second = blocks::whole_block(bytes, 2 * pair + 1);
        let twice = product(&squares, value ^ number(&first));
        let once = product(products, number(&second));
        value = twice ^ once;
    }
    value
}

/// The same block by block.
#[inline(never)]
fn absorb_each(products: &Products, start: u128, bytes: &[u8]) -> u128
    requires { length bytes.now ≤ 4194304 }
    ensures { (subkey : ℕ) → IsTableOf products.now subkey
        → polynomial_of result
        ≡ ghash_blocks subkey (polynomial_of start) (blocks (zero_padded bytes.now)) }
{
    let whole = bytes.len() / BLOCK;
    let mut value = start;
    for index in 0..whole {
        let block = blocks::whole_block(bytes, index);
        value = product(products, value ^ number(&block));
    }
    if bytes.len() % BLOCK == 0 {
        return value;
    }
    let block = blocks::filled_block(bytes, whole, 0);
    product(products, value ^ number(&block))
}

/// The number of a block's bytes.
#[inline(always)]
fn number(block: &[u8; BLOCK]) -> u128
    ensures { polynomial_of result ≡ polynomial block.now }
{
    blocks::known(block);
    u128::from_le_bytes(*block)
}
