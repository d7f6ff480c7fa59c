//! The counter mode of GCM (GCTR, SP 800-38D section 6.5), which begins at the block that follows
//! J0. Long data go by eight blocks at once, and what they leave block by block.

ghost use Rattle.std.specs.Prelude.{◌≡◌, ◌≤◌, ◌<◌, ◌+◌, ◌-◌, ◌*◌, ◌^◌, List, ℕ, length, map, take, drop};
ghost use Rattle.std.specs.List.{range_with_len};
ghost use Rattle.kr_aes.specs.Cipher.{cipher};
ghost use Rattle.kr_aes.specs.KeyExpansion.{IsSchedule};
ghost use Rattle.kr_aes.specs.Begun.{BegunState};
ghost use Rattle.kr_aes_bitsliced.specs.KeyPlanes.{key_planes};
ghost use Rattle.kr_modes.specs.Gcm.{gctr, counter_block};
ghost use Rattle.kr_modes.specs.inner.Streamed.{IsStreamed};

use crate::blocks::{self, BLOCK};
use kr_aes::{Begun, Rounds};
use kr_aes_bitsliced::{KeyPlanes, Planes};

/// The length of a nonce in bytes.
pub(crate) const NONCE: usize = 12;

/// Eight blocks.
const EIGHT: usize = 8 * BLOCK;

/// From so many bytes on it pays to make the planes of the keys.
const LONG: usize = 256;

/// Writes the exclusive or of the bytes that stand behind the first `from` ones and the key stream
/// to the front of the buffer, so that no block is written over before it is read.
pub(crate) fn gctr(
    words: &[u32; 60],
    rounds: Rounds,
    nonce: &[u8; NONCE],
    buffer: &mut [u8],
    from: usize,
)
    requires schedule { IsSchedule words.now rounds }
    requires from { from ≤ length buffer.old }
    requires fits { length buffer.old ≤ 4194304 }
    ensures { let bytes = drop from buffer.old in
        take (length bytes) buffer.new ≡ gctr (cipher words.now rounds) nonce.now bytes }
{
    let size = buffer.len() - from;
    if size < LONG {
        gctr_each(words, rounds, nonce, buffer, from, 0);
        return;
    }
    let times = size / EIGHT;
    gctr_eights(words, rounds, nonce, buffer, from, times);
    gctr_each(words, rounds, nonce, buffer, from, 8 * times);
}

/// The same for so many times eight blocks, from the first on. It isn't inlined, since its keys
/// would then lie on the stack of each call.
#[inline(never)]
fn gctr_eights(
    words: &[u32; 60],
    rounds: Rounds,
    nonce: &[u8; NONCE],
    buffer: &mut [u8],
    from: usize,
    times: usize,
)
    requires from { from + 128 * times ≤ length buffer.old }
    requires fits { length buffer.old ≤ 4194304 }
    ensures { let bytes = drop from buffer.old in
        IsStreamed (cipher words.now rounds) nonce.now bytes buffer.new from (8 * times) }
{
    let mut keys = [Planes::default(); 15];
    kr_aes_bitsliced::slice_keys(words, &mut keys);
    for time in 0..times {
        gctr_eight(&keys, rounds, nonce, buffer, from, 8 * time);
    }
}

/// Eight blocks more, where so many are written.
#[inline(always)]
fn gctr_eight(
    keys: &KeyPlanes,
    rounds: Rounds,
    nonce: &[u8; NONCE],
    buffer: &mut [u8],
    from: usize,
    written: usize,
)
    requires from { from + 16 * written + 128 ≤ length buffer.old }
    requires fits { length buffer.old ≤ 4194304 }
    ensures { (words bytes : List ℕ) → let encipher = cipher words rounds in
        keys.now ≡ key_planes words
        → IsStreamed encipher nonce.now bytes buffer.old from written
        → IsStreamed encipher nonce.now bytes buffer.new from (written + 8) }
{
    let mut stream = counter_blocks(nonce, (written + 1) as u32);
    kr_aes_bitsliced::encrypt_eight(keys, rounds, &mut stream);
    for i in 0..8 {
        let index = written + i;
        let start = BLOCK * index;
        let block = blocks::whole_block(&buffer[from..], index);
        buffer[start..start + BLOCK].copy_from_slice(&blocks::vector_sum(&block, &stream[i]));
    }
}

/// All blocks that are left, one by one, where so many are written.
fn gctr_each(
    words: &[u32; 60],
    rounds: Rounds,
    nonce: &[u8; NONCE],
    buffer: &mut [u8],
    from: usize,
    written: usize,
)
    requires schedule { IsSchedule words.now rounds }
    requires from { from + 16 * written ≤ length buffer.old }
    requires fits { length buffer.old ≤ 4194304 }
    ensures { (bytes : List ℕ) → let encipher = cipher words.now rounds in
        IsStreamed encipher nonce.now bytes buffer.old from written
        → take (length bytes) buffer.new ≡ gctr encipher nonce.now bytes }
{
    let size = buffer.len() - from;
    let whole = size / BLOCK;
    let mut begun = Begun::new(words, &counter_block(nonce, written as u32));
    for index in written..whole {
        let start = BLOCK * index;
        let n = (index + 1) as u32;
        begun = begin_nth_block(begun, words, nonce, n);
        let mut block = begun.encrypt_block(rounds, ((n + 1) % 256) as u8);
        blocks::add(&mut block, &blocks::whole_block(&buffer[from..], index));
        buffer[start..start + BLOCK].copy_from_slice(&block);
    }
    if size % BLOCK != 0 {
        let mut block = blocks::filled_block(&buffer[from..], whole, 0);
        blocks::add(
            &mut block,
            &stream_block(words, rounds, nonce, (whole + 1) as u32),
        );
        buffer[BLOCK * whole..size].copy_from_slice(&block[..size % BLOCK]);
    }
}

/// The cipher of J0, counted up `n` times.
#[inline(always)]
pub(crate) fn stream_block(
    words: &[u32; 60],
    rounds: Rounds,
    nonce: &[u8; NONCE],
    n: u32,
) -> [u8; BLOCK]
    requires schedule { IsSchedule words.now rounds }
    requires fits { n + 1 < 2 ^ 32 }
    ensures { result ≡ cipher words.now rounds (counter_block nonce.now n) }
{
    let mut block = counter_block(nonce, n);
    kr_aes::encrypt_block(words, rounds, &mut block);
    block
}

/// J0, counted up `n` times.
#[inline(always)]
fn counter_block(nonce: &[u8; NONCE], n: u32) -> [u8; BLOCK]
    requires { n + 1 < 2 ^ 32 }
    ensures { result ≡ counter_block nonce.now n }
{
    let mut block = [0; BLOCK];
    block[..NONCE].copy_from_slice(nonce);
    block[NONCE..].copy_from_slice(&(1 + n).to_be_bytes());
    block
}

/// The eight counter blocks from that on. They are written over eight copies of the first: one by
/// one LLVM would copy the nonce's bytes five times for each.
#[inline(always)]
fn counter_blocks(nonce: &[u8; NONCE], n: u32) -> [[u8; BLOCK]; 8]
    requires { n + 8 < 2 ^ 32 }
    ensures { result ≡ map (counter_block nonce.now) (range_with_len n 8) }
{
    let mut blocks = [counter_block(nonce, n); 8];
    for i in 1..8 {
        set_block_count(&mut blocks[i], n + i as u32);
    }
    blocks
}

/// Puts another count behind the nonce of a counter block.
#[inline(always)]
fn set_block_count(block: &mut [u8; BLOCK], n: u32)
    requires { n + 1 < 2 ^ 32 }
    ensures { block.new ≡ counter_block (take 12 block.old) n }
{
    block[NONCE..].copy_from_slice(&(1 + n).to_be_bytes());
}

/// What is begun for the counter block after `n` counts. It is begun anew where the last byte is 0,
/// since the block before it differs elsewhere too.
#[inline(always)]
fn begin_nth_block<'a>(
    begun: Begun<'a>,
    words: &'a [u32; 60],
    nonce: &[u8; NONCE],
    n: u32,
) -> Begun<'a>
    requires some { 0 < n }
    requires fits { n + 1 < 2 ^ 32 }
    requires before { begun ≡ record {
      words = words.now;
      front = take 15 (counter_block nonce.now (n - 1));
    } }
    ensures { result ≡ record { words = words.now; front = take 15 (counter_block nonce.now n) } }
{
    if (n + 1) % 256 == 0 {
        Begun::new(words, &counter_block(nonce, n))
    } else {
        begun
    }
}
