//! Rounds of the equivalent inverse cipher without a loop, since LLVM keeps this loop's state in a
//! vector register, from which each byte must be taken out again.

ghost use Rattle.std.specs.Prelude.{◌≡◌, ℕ, ◌<◌, ◌+◌, ◌-◌, List};
ghost use Rattle.kr_aes.specs.Cipher.{round_count};
ghost use Rattle.kr_aes.specs.EquivalentInverse.{after_equivalent_rounds, equivalent_inverse_cipher};
ghost use Rattle.kr_aes.specs.inner.Columns.{DoesRounds, block_of_columns};

use crate::{Rounds, columns};

/// One more round behind those that are done, of `last` in all.
#[inline(always)]
fn next_inverse(inverse: &[u32; 60], last: usize, done: usize, state: [u32; 4]) -> [u32; 4]
    requires some { done + 1 < last }
    requires few { last < 15 }
    ensures { DoesRounds inverse.now last done 1 state result }
{
    columns::inverse_round(inverse, last - (done + 1), state)
}

/// Two more.
#[inline(always)]
pub(crate) fn two_inverse(
    inverse: &[u32; 60],
    last: usize,
    done: usize,
    state: [u32; 4],
) -> [u32; 4]
    requires some { done + 2 < last }
    requires few { last < 15 }
    ensures { DoesRounds inverse.now last done 2 state result }
{
    let one = next_inverse(inverse, last, done, state);
    next_inverse(inverse, last, done + 1, one)
}

/// The block that the last two rounds make.
#[inline(always)]
pub(crate) fn last_two_inverse(inverse: &[u32; 60], rounds: Rounds, state: [u32; 4]) -> [u8; 16]
    ensures { (block : List ℕ) → block_of_columns state
        ≡ after_equivalent_rounds inverse.now (round_count rounds) block (round_count rounds - 2)
        → result ≡ equivalent_inverse_cipher inverse.now rounds block }
{
    let last = rounds.count();
    let mixed = next_inverse(inverse, last, last - 2, state);
    let deciphered = columns::last_inverse_round(inverse, 0, mixed);
    columns::columns_to_block(deciphered)
}
