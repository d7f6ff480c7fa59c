//! The first two rounds of blocks that differ in their last byte alone, as counter blocks do: that
//! byte is in one cell of the first round, and so in one column of the second.

ghost use Rattle.std.specs.Prelude.{◌≡◌, ◌<◌, ◌++◌, [], ◌∷◌, All, take};
ghost use Rattle.kr_aes.specs.Begun.{BegunState};
ghost use Rattle.kr_aes.specs.Cipher.{after_rounds, cipher};
ghost use Rattle.kr_aes.specs.KeyExpansion.{IsSchedule};
ghost use Rattle.kr_aes.specs.inner.Columns.{block_of_columns};

use crate::{Rounds, cells, columns};
use std::marker::Model;

/// What the first two rounds make of all blocks with the same first 15 bytes, as far as their last
/// byte has no part in it.
#[derive(Drop)]
pub struct Begun<'a> {
    words: &'a [u32; 60],
    /// The block that it was begun with. Only contracts read it.
    block: [u8; 16],
    /// The first column behind the first round, without the last byte's part.
    head: u32,
    /// The columns behind the second round, each without the part of the first round's first.
    columns: [u32; 4],
}

impl<'a> Model for Begun<'a> {
    ghost use Rattle.std.specs.Prelude.{take};
    ghost use Rattle.kr_aes.specs.Begun.{BegunState};
    ghost use Rattle.kr_aes.specs.inner.TwoRounds.{IsBegun};

    ghost Value = { BegunState };

    ghost view = { λ begun. record { words = begun.words.now; front = take 15 begun.block } };

    ghost invariant = { λ begun.
        IsBegun begun.words.now begun.block begun.head begun.columns };
}

impl<'a> Begun<'a> {
    /// Begins the blocks that have the first 15 bytes of this one.
    pub fn new(words: &'a [u32; 60], block: &[u8; 16]) -> Begun<'a>
        ensures { result ≡ record { words = words.now; front = take 15 block.now } }
    {
        known(block);
        let state = columns::first(words, 0, block);
        let one = columns::forward_round(words, 1, state);
        let two = columns::forward_round(words, 2, one);
        let [_, _, _, last] = state;
        let [first, _, _, _] = one;
        let [a, b, c, d] = two;
        Begun {
            words,
            block: *block,
            head: first ^ cells::forward_3(last.to_be_bytes()[3]),
            columns: [
                a ^ cells::forward_0(first.to_be_bytes()[0]),
                b ^ cells::forward_3(first.to_be_bytes()[3]),
                c ^ cells::forward_2(first.to_be_bytes()[2]),
                d ^ cells::forward_1(first.to_be_bytes()[1]),
            ],
        }
    }

    /// The columns behind the second round of the block with this last byte.
    #[inline(always)]
    fn columns(&self, last: u8) -> [u32; 4]
        ensures { block_of_columns result
            ≡ after_rounds self.now.words (self.now.front ++ last ∷ []) 2 }
    {
        let first = self.head ^ cells::forward_3(last ^ self.words[3].to_be_bytes()[3]);
        let [a, b, c, d] = self.columns;
        [
            a ^ cells::forward_0(first.to_be_bytes()[0]),
            b ^ cells::forward_3(first.to_be_bytes()[3]),
            c ^ cells::forward_2(first.to_be_bytes()[2]),
            d ^ cells::forward_1(first.to_be_bytes()[1]),
        ]
    }

    /// The cipher of the block that has this last byte behind the 15 that it was begun for.
    #[inline(always)]
    pub fn encrypt_block(&self, rounds: Rounds, last: u8) -> [u8; 16]
        requires { IsSchedule self.now.words rounds }
        ensures { result ≡ cipher self.now.words rounds (self.now.front ++ last ∷ []) }
    {
        let words = self.words();
        let count = rounds.count();
        let mut state = self.columns(last);
        for round in 3..count {
            let next = columns::forward_round(words, round, state);
            state = next;
        }
        let ciphered = columns::last_forward_round(words, count, state);
        columns::columns_to_block(ciphered)
    }

    #[inline(always)]
    fn words(&self) -> &'a [u32; 60]
        ensures { result.now ≡ self.now.words }
    {
        self.words
    }
}

/// Each byte is below 256. The function does nothing.
fn known(bytes: &[u8])
    ensures { All (λ byte. byte < 256) bytes.now }
{}
