//! The rounds over the four words of a state's columns, by tables.

ghost use Rattle.std.specs.Prelude.{◌≡◌, ℕ, ◌<◌, List, [], ◌∷◌, slice_index};
ghost use Rattle.kr_aes.specs.Cipher.{add_round_key, mix_columns, sbox, shift_rows, sub_bytes};
ghost use Rattle.kr_aes.specs.EquivalentInverse.{inverse_mixed_word};
ghost use Rattle.kr_aes.specs.InverseCipher.{inverse_mix_columns, inverse_sbox, inverse_shift_rows, inverse_sub_bytes};
ghost use Rattle.kr_aes.specs.inner.Columns.{IsKeyed, block_of_columns, sbox_column, forward_byte, inverse_byte};

use crate::cells;

/// The word of the bytes, added to the key's.
#[inline(always)]
fn keyed(a: u8, b: u8, c: u8, d: u8, key: u32) -> u32
    ensures { IsKeyed (slice_index (a ∷ b ∷ c ∷ d ∷ [])) key result }
{
    u32::from_be_bytes([a, b, c, d]) ^ key
}

/// The column that a round makes of one byte of each word.
#[inline(always)]
fn forward(a: u32, b: u32, c: u32, d: u32, key: u32) -> u32
    ensures { IsKeyed (forward_byte a b c d) key result }
{
    cells::forward_0(a.to_be_bytes()[0])
        ^ cells::forward_1(b.to_be_bytes()[1])
        ^ cells::forward_2(c.to_be_bytes()[2])
        ^ cells::forward_3(d.to_be_bytes()[3])
        ^ key
}

/// The same in the last round, which doesn't mix columns.
#[inline(always)]
fn last_forward(a: u32, b: u32, c: u32, d: u32, key: u32) -> u32
    ensures { IsKeyed (slice_index (sbox_column sbox a b c d)) key result }
{
    keyed(
        cells::sbox(a.to_be_bytes()[0]),
        cells::sbox(b.to_be_bytes()[1]),
        cells::sbox(c.to_be_bytes()[2]),
        cells::sbox(d.to_be_bytes()[3]),
        key,
    )
}

/// The column that a round of the equivalent inverse cipher makes of one byte of each word.
#[inline(always)]
fn inverse(a: u32, b: u32, c: u32, d: u32, key: u32) -> u32
    ensures { IsKeyed (inverse_byte a b c d) key result }
{
    cells::inverse_0(a.to_be_bytes()[0])
        ^ cells::inverse_1(b.to_be_bytes()[1])
        ^ cells::inverse_2(c.to_be_bytes()[2])
        ^ cells::inverse_3(d.to_be_bytes()[3])
        ^ key
}

/// The same in the last round, which doesn't mix columns.
#[inline(always)]
fn last_inverse(a: u32, b: u32, c: u32, d: u32, key: u32) -> u32
    ensures { IsKeyed (slice_index (sbox_column inverse_sbox a b c d)) key result }
{
    keyed(
        cells::inverse_sbox(a.to_be_bytes()[0]),
        cells::inverse_sbox(b.to_be_bytes()[1]),
        cells::inverse_sbox(c.to_be_bytes()[2]),
        cells::inverse_sbox(d.to_be_bytes()[3]),
        key,
    )
}

/// The columns of a block with a round's key added.
#[inline(always)]
pub(crate) fn first(words: &[u32; 60], round: usize, block: &[u8; 16]) -> [u32; 4]
    requires { round < 15 }
    ensures { block_of_columns result ≡ add_round_key words.now round block.now }
{
    [
        keyed(block[0], block[1], block[2], block[3], words[4 * round]),
        keyed(block[4], block[5], block[6], block[7], words[4 * round + 1]),
        keyed(
            block[8],
            block[9],
            block[10],
            block[11],
            words[4 * round + 2],
        ),
        keyed(
            block[12],
            block[13],
            block[14],
            block[15],
            words[4 * round + 3],
        ),
    ]
}

#[inline(always)]
pub(crate) fn forward_round(words: &[u32; 60], round: usize, state: [u32; 4]) -> [u32; 4]
    requires { round < 15 }
    ensures { block_of_columns result ≡ add_round_key words.now round
        (mix_columns (shift_rows (sub_bytes (block_of_columns state)))) }
{
    let [a, b, c, d] = state;
    [
        forward(a, b, c, d, words[4 * round]),
        forward(b, c, d, a, words[4 * round + 1]),
        forward(c, d, a, b, words[4 * round + 2]),
        forward(d, a, b, c, words[4 * round + 3]),
    ]
}

#[inline(always)]
pub(crate) fn last_forward_round(words: &[u32; 60], round: usize, state: [u32; 4]) -> [u32; 4]
    requires { round < 15 }
    ensures { block_of_columns result ≡ add_round_key words.now round
        (shift_rows (sub_bytes (block_of_columns state))) }
{
    let [a, b, c, d] = state;
    [
        last_forward(a, b, c, d, words[4 * round]),
        last_forward(b, c, d, a, words[4 * round + 1]),
        last_forward(c, d, a, b, words[4 * round + 2]),
        last_forward(d, a, b, c, words[4 * round + 3]),
    ]
}

#[inline(always)]
pub(crate) fn inverse_round(words: &[u32; 60], round: usize, state: [u32; 4]) -> [u32; 4]
    requires { round < 15 }
    ensures { block_of_columns result ≡ add_round_key words.now round
        (inverse_mix_columns (inverse_shift_rows (inverse_sub_bytes (block_of_columns state)))) }
{
    let [a, b, c, d] = state;
    [
        inverse(a, d, c, b, words[4 * round]),
        inverse(b, a, d, c, words[4 * round + 1]),
        inverse(c, b, a, d, words[4 * round + 2]),
        inverse(d, c, b, a, words[4 * round + 3]),
    ]
}

#[inline(always)]
pub(crate) fn last_inverse_round(words: &[u32; 60], round: usize, state: [u32; 4]) -> [u32; 4]
    requires { round < 15 }
    ensures { block_of_columns result ≡ add_round_key words.now round
        (inverse_shift_rows (inverse_sub_bytes (block_of_columns state))) }
{
    let [a, b, c, d] = state;
    [
        last_inverse(a, d, c, b, words[4 * round]),
        last_inverse(b, a, d, c, words[4 * round + 1]),
        last_inverse(c, b, a, d, words[4 * round + 2]),
        last_inverse(d, c, b, a, words[4 * round + 3]),
    ]
}

#[inline(always)]
pub(crate) fn columns_to_block(columns: [u32; 4]) -> [u8; 16]
    ensures { result ≡ block_of_columns columns }
{
    let [a, b, c, d] = columns;
    let [a0, a1, a2, a3] = a.to_be_bytes();
    let [b0, b1, b2, b3] = b.to_be_bytes();
    let [c0, c1, c2, c3] = c.to_be_bytes();
    let [d0, d1, d2, d3] = d.to_be_bytes();
    [
        a0, a1, a2, a3, b0, b1, b2, b3, c0, c1, c2, c3, d0, d1, d2, d3,
    ]
}

/// InvMixColumns of a word: the inverse S-box in the tables takes back the S-box of each byte.
pub(crate) fn inverse_mixed_word(word: u32) -> u32
    ensures { result ≡ inverse_mixed_word word }
{
    cells::inverse_0(cells::sbox(word.to_be_bytes()[0]))
        ^ cells::inverse_1(cells::sbox(word.to_be_bytes()[1]))
        ^ cells::inverse_2(cells::sbox(word.to_be_bytes()[2]))
        ^ cells::inverse_3(cells::sbox(word.to_be_bytes()[3]))
}
