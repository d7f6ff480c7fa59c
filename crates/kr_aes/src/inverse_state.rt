//! The inverse transformations of the state (FIPS 197 sections 5.3.1 to 5.3.3).

ghost use Rattle.std.specs.Prelude.{◌≡◌};
ghost use Rattle.kr_aes.specs.InverseCipher.{inverse_mix_columns, inverse_sbox, inverse_shift_rows, inverse_sub_bytes};

use crate::{field, state};

const INVERSE_MIX_FACTORS: [u8; 4] = [0xe, 0xb, 0xd, 0x9];

fn inverse_sbox(b: u8) -> u8
    ensures { result ≡ inverse_sbox b }
{
    field::inverse(b.rotate_left(1) ^ b.rotate_left(3) ^ b.rotate_left(6) ^ 0x05)
}

pub(crate) fn inverse_sub_bytes(block: &mut [u8; 16])
    ensures { block.new ≡ inverse_sub_bytes block.old }
{
    for byte in block.iter_mut() {
        *byte = inverse_sbox(*byte);
    }
}

pub(crate) fn inverse_shift_rows(block: &mut [u8; 16])
    ensures { block.new ≡ inverse_shift_rows block.old }
{
    let s = *block;
    *block = [
        s[0], s[13], s[10], s[7], s[4], s[1], s[14], s[11], s[8], s[5], s[2], s[15], s[12], s[9],
        s[6], s[3],
    ];
}

pub(crate) fn inverse_mix_columns(block: &mut [u8; 16])
    ensures { block.new ≡ inverse_mix_columns block.old }
{
    state::mix(&INVERSE_MIX_FACTORS, block)
}
