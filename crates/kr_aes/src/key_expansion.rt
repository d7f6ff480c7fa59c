//! The words of the key expansion (FIPS 197 section 5.2).

ghost use Rattle.std.specs.Prelude.{◌≡◌, ◌<◌, ◌≤◌, ◌+◌, ◌*◌, ◌/◌, ◌-◌, length};
ghost use Rattle.kr_aes.specs.KeyExpansion.{IsKeyLength, addend, next_word, power_of_x, rot_word, round_constant, sub_word};

use crate::cells::sbox;
use crate::tables::POWERS_OF_X;

fn sub_word(word: u32) -> u32
    ensures { result ≡ sub_word word }
{
    let [a, b, c, d] = word.to_be_bytes();
    u32::from_be_bytes([sbox(a), sbox(b), sbox(c), sbox(d)])
}

fn rot_word(word: u32) -> u32
    ensures { result ≡ rot_word word }
{
    let [a, b, c, d] = word.to_be_bytes();
    u32::from_be_bytes([b, c, d, a])
}

fn power_of_x(n: usize) -> u8
    requires { n < 15 }
    ensures { result ≡ power_of_x n }
{
    POWERS_OF_X[n]
}

fn round_constant(i: usize) -> u32
    requires some { 0 < i }
    requires few { i ≤ 15 }
    ensures { result ≡ round_constant i }
{
    u32::from_be_bytes([power_of_x(i - 1), 0, 0, 0])
}

#[tactic(auto, unfolding(crate::specs::KeyExpansion::addend))]
fn addend(key_words: usize, i: usize, previous: u32) -> u32
    requires some { 4 ≤ key_words }
    requires later { key_words ≤ i }
    requires below { i < 60 }
    ensures { result ≡ addend key_words i previous }
{
    if i % key_words == 0 {
        sub_word(rot_word(previous)) ^ round_constant(i / key_words)
    } else if key_words > 6 && i % key_words == 4 {
        sub_word(previous)
    } else {
        previous
    }
}

#[tactic(auto, unfolding(crate::specs::KeyExpansion::next_word))]
pub(crate) fn next_word(key: &[u8], words: &[u32; 60], i: usize) -> u32
    requires key { IsKeyLength (length key.now) }
    requires below { i < 60 }
    ensures { result ≡ next_word key.now words.now i }
{
    let key_words = key.len() / 4;
    if i < key_words {
        u32::from_be_bytes([key[4 * i], key[4 * i + 1], key[4 * i + 2], key[4 * i + 3]])
    } else {
        words[i - key_words] ^ addend(key_words, i, words[i - 1])
    }
}
