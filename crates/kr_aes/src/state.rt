//! The transformations of the state (FIPS 197 sections 5.1.1 to 5.1.4).

ghost use Rattle.std.specs.Prelude.{◌≡◌, ◌<◌, ◌≤◌, ◌+◌, ◌*◌, ◌/◌, ◌%◌};
ghost use Rattle.kr_aes.specs.Cipher.{add_round_key, column_sum, mix_columns, matrix_product, sbox, shift_rows, sub_bytes};

use crate::field;

const MIX_FACTORS: [u8; 4] = [2, 3, 1, 1];

pub(crate) fn sbox(b: u8) -> u8
    ensures { result ≡ sbox b }
{
    let c = field::inverse(b);
    c ^ c.rotate_left(1) ^ c.rotate_left(2) ^ c.rotate_left(3) ^ c.rotate_left(4) ^ 0x63
}

pub(crate) fn sub_bytes(block: &mut [u8; 16])
    ensures { block.new ≡ sub_bytes block.old }
{
    for byte in block.iter_mut() {
        *byte = sbox(*byte);
    }
}

pub(crate) fn shift_rows(block: &mut [u8; 16])
    ensures { block.new ≡ shift_rows block.old }
{
    let s = *block;
    *block = [
        s[0], s[5], s[10], s[15], s[4], s[9], s[14], s[3], s[8], s[13], s[2], s[7], s[12], s[1],
        s[6], s[11],
    ];
}

/// The sum of a column's cells, from one row downwards in a ring, each times its factor.
fn column_sum(factors: &[u8; 4], state: &[u8; 16], row: usize, column: usize) -> u8
    requires row { row < 4 }
    requires column { column < 4 }
    ensures { result ≡ column_sum factors.now state.now row column }
{
    let top = 4 * column;
    field::product(factors[0], state[row + top])
        ^ field::product(factors[1], state[(row + 1) % 4 + top])
        ^ field::product(factors[2], state[(row + 2) % 4 + top])
        ^ field::product(factors[3], state[(row + 3) % 4 + top])
}

pub(crate) fn mix(factors: &[u8; 4], block: &mut [u8; 16])
    ensures { block.new ≡ matrix_product factors.now block.old }
{
    let old = *block;
    for i in 0..16 {
        block[i] = column_sum(factors, &old, i % 4, i / 4);
    }
}

pub(crate) fn mix_columns(block: &mut [u8; 16])
    ensures { block.new ≡ mix_columns block.old }
{
    mix(&MIX_FACTORS, block)
}

pub(crate) fn add_round_key(words: &[u32; 60], round: usize, block: &mut [u8; 16])
    requires { round < 15 }
    ensures { block.new ≡ add_round_key words.now round block.old }
{
    for (i, byte) in block.iter_mut().enumerate() {
        *byte ^= words[4 * round + i / 4].to_be_bytes()[i % 4];
    }
}
