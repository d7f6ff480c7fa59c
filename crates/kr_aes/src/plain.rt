//! The cipher and the inverse cipher byte by byte, as the standard writes them: what tests compare
//! the tables with.

ghost use Rattle.std.specs.Prelude.{◌≡◌, ℕ, List};
ghost use Rattle.kr_aes.specs.Cipher.{IsBlock, cipher};
ghost use Rattle.kr_aes.specs.InverseCipher.{inverse_cipher};
ghost use Rattle.kr_aes.specs.KeyExpansion.{IsSchedule};

use crate::{Rounds, inverse_state, state};

/// Puts the cipher of a block in its place (FIPS 197 section 5.1). The words and the rounds are
/// what `expand` gave for one key.
pub fn encrypt_block(words: &[u32; 60], rounds: Rounds, block: &mut [u8; 16])
    requires { IsSchedule words.now rounds }
    ensures { block.new ≡ cipher words.now rounds block.old }
{
    let last = rounds.count();
    state::add_round_key(words, 0, block);
    for round in 1..last {
        state::sub_bytes(block);
        state::shift_rows(block);
        state::mix_columns(block);
        state::add_round_key(words, round, block);
    }
    state::sub_bytes(block);
    state::shift_rows(block);
    state::add_round_key(words, last, block);
}

/// Puts the inverse cipher of a block in its place (FIPS 197 section 5.3). The words and the rounds
/// are what `expand` gave for one key.
pub fn decrypt_block(words: &[u32; 60], rounds: Rounds, block: &mut [u8; 16])
    requires { IsSchedule words.now rounds }
    ensures inverse { block.new ≡ inverse_cipher words.now rounds block.old }
    ensures undone { (plain : List ℕ) → IsBlock plain
        → block.old ≡ cipher words.now rounds plain → block.new ≡ plain }
{
    let count = rounds.count();
    state::add_round_key(words, count, block);
    for round in (1..count).rev() {
        inverse_state::inverse_shift_rows(block);
        inverse_state::inverse_sub_bytes(block);
        state::add_round_key(words, round, block);
        inverse_state::inverse_mix_columns(block);
    }
    inverse_state::inverse_shift_rows(block);
    inverse_state::inverse_sub_bytes(block);
    state::add_round_key(words, 0, block);
}
