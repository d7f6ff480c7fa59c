//! CBC (SP 800-38A section 6.2) with the padding of PKCS #7 (RFC 5652 section 6.3).

ghost use Rattle.std.specs.Prelude.{◌≡◌, ◌≢◌, ◌↔◌, ℕ, ◌≤◌, ◌<◌, ◌+◌, ◌-◌, ◌*◌, ◌/◌, ◌%◌, List, All, length, take, drop, replicate, IsTrue, IfOk, IfErr, IsErrOf, OnErr, IfSome, MatchOption, MatchResult};
ghost use Rattle.kr_aes.specs.Cipher.{cipher};
ghost use Rattle.kr_aes.specs.InverseCipher.{inverse_cipher};
ghost use Rattle.kr_aes.specs.KeyExpansion.{IsSchedule};
ghost use Rattle.kr_modes.specs.Cbc.{cbc, cbc_opened, uncbc};
ghost use Rattle.kr_aes_bitsliced.specs.KeyPlanes.{key_planes};
ghost use Rattle.kr_modes.specs.Padding.{pad, unpad};
ghost use Rattle.kr_modes.specs.inner.Opened.{opened_from};

use crate::blocks::{self, BLOCK};
use crate::{ModeNo, wiping};
use kr_aes::Rounds;
use kr_aes_bitsliced::{KeyPlanes, Planes};

/// The length in bytes of what `cbc_seal` makes of `n` bytes: 1 to 16 bytes of padding are added.
/// The data has at most 4,194,304 bytes.
pub fn cbc_length(n: usize) -> usize
    requires { n ≤ 4194304 }
    ensures { result ≡ n + 16 - n % 16 }
{
    n + BLOCK - n % BLOCK
}

/// Writes the CBC encryption of the padded data into `out`, without the IV. The words and the
/// rounds are what `kr_aes::expand` gave for one key.
pub fn cbc_seal(words: &[u32; 60], rounds: Rounds, iv: &[u8; 16], plain: &[u8], out: &mut [u8])
    requires schedule { IsSchedule words.now rounds }
    requires fits { length plain.now ≤ 4194304 }
    requires size { length out.old ≡ length plain.now + 16 - length plain.now % 16 }
    ensures { out.new ≡ cbc (cipher words.now rounds) iv.now (pad plain.now) }
{
    out[..plain.len()].copy_from_slice(plain);
    cbc_seal_in_place(words, rounds, iv, out, plain.len());
}

/// The same in one buffer: the data are its first `size` bytes, and any bytes stand behind them.
pub fn cbc_seal_in_place(
    words: &[u32; 60],
    rounds: Rounds,
    iv: &[u8; 16],
    buffer: &mut [u8],
    size: usize,
)
    requires schedule { IsSchedule words.now rounds }
    requires fits { size ≤ 4194304 }
    requires size { length buffer.old ≡ size + 16 - size % 16 }
    ensures { buffer.new ≡ cbc (cipher words.now rounds) iv.now (pad (take size buffer.old)) }
{
    let padding = (BLOCK - size % BLOCK) as u8;
    buffer[size..].fill(padding);
    let mut block = *iv;
    for index in 0..size / BLOCK + 1 {
        let start = BLOCK * index;
        blocks::add(&mut block, &blocks::whole_block(buffer, index));
        kr_aes::encrypt_block(words, rounds, &mut block);
        buffer[start..start + BLOCK].copy_from_slice(&block);
    }
}

/// Opens what `cbc_seal` sealed: the body is the IV and the blocks behind it. The length of the
/// data is answered, and the data stand at the front of `out`; behind them it is zero. After
/// `BadPadding` all of it is zero, so that nothing of what a wrong key made is left. A wrong key
/// isn't noticed where what it decrypts to is padded data. The words and the rounds are what
/// `kr_aes::expand` gave for one key.
pub fn cbc_unseal(
    words: &[u32; 60],
    rounds: Rounds,
    body: &[u8],
    out: &mut [u8],
) -> Result<usize, ModeNo>
    requires schedule { IsSchedule words.now rounds }
    requires fits { length body.now ≤ 4194304 }
    requires size { length out.old ≡ length body.now }
    ensures opened { MatchResult result
        (λ n. cbc_opened (inverse_cipher words.now rounds) body.now ≡ Ok (take n out.new))
        (λ why. cbc_opened (inverse_cipher words.now rounds) body.now ≡ Err why) }
    ensures within { IfOk result (λ n. n < length out.new) }
    ensures rest { IfOk result (λ n. drop n out.new ≡ replicate (length out.old - n) 0) }
    ensures kept { IfErr result (λ why. why ≢ ModeNo.BadPadding → out.new ≡ out.old) }
    ensures wiped { IsErrOf result ModeNo.BadPadding → out.new ≡ replicate (length out.old) 0 }
{
    if let Some(why) = refused_size(body.len()) {
        return Err(why);
    }
    out.copy_from_slice(body);
    open(words, rounds, out, 0)
}

/// The same in one buffer: the body stands behind its first `from` bytes, and the data stand at
/// its front afterwards, with zeros behind them. After `BadPadding` all of the buffer is zero.
pub fn cbc_unseal_in_place(
    words: &[u32; 60],
    rounds: Rounds,
    buffer: &mut [u8],
    from: usize,
) -> Result<usize, ModeNo>
    requires schedule { IsSchedule words.now rounds }
    requires fits { length buffer.old ≤ 4194304 }
    requires from { from ≤ length buffer.old }
    ensures opened { let body = drop from buffer.old in MatchResult result
        (λ n. cbc_opened (inverse_cipher words.now rounds) body ≡ Ok (take n buffer.new))
        (λ why. cbc_opened (inverse_cipher words.now rounds) body ≡ Err why) }
    ensures within { IfOk result (λ n. n < length buffer.new) }
    ensures rest { IfOk result (λ n. drop n buffer.new ≡ replicate (length buffer.old - n) 0) }
    ensures kept { IfErr result (λ why. why ≢ ModeNo.BadPadding → buffer.new ≡ buffer.old) }
    ensures wiped { IsErrOf result ModeNo.BadPadding
        → buffer.new ≡ replicate (length buffer.old) 0 }
{
    if let Some(why) = refused_size(buffer.len() - from) {
        return Err(why);
    }
    open(words, rounds, buffer, from)
}

/// Why bytes of such a length are no IV and whole blocks behind it.
fn refused_size(size: usize) -> Option<ModeNo>
    ensures { MatchOption result ((16 < size) × (size % 16 ≡ 0)) (λ why.
        (decipher : List ℕ → List ℕ) (body : List ℕ) → length body ≡ size
        → (cbc_opened decipher body ≡ Err why) × (why ≢ ModeNo.BadPadding)) }
{
    if size <= BLOCK {
        Some(ModeNo::Short)
    } else if size % BLOCK != 0 {
        Some(ModeNo::BadBlock)
    } else {
        None
    }
}

/// Writes the decryption of the blocks to the front of the buffer. The IV and the blocks stand
/// behind its first `from` bytes. The length of the data whose padding they are is answered, and
/// behind the data the buffer is zero.
fn open(words: &[u32; 60], rounds: Rounds, buffer: &mut [u8], from: usize) -> Result<usize, ModeNo>
    requires fits { length buffer.old ≤ 4194304 }
    requires from { from + 16 < length buffer.old }
    requires whole { (length buffer.old - from) % 16 ≡ 0 }
    ensures within { IfOk result (λ n. n < length buffer.new) }
    ensures rest { IfOk result (λ n. drop n buffer.new ≡ replicate (length buffer.old - n) 0) }
    ensures opened { let body = drop from buffer.old in MatchResult result
        (λ n. cbc_opened (inverse_cipher words.now rounds) body ≡ Ok (take n buffer.new))
        (λ why. cbc_opened (inverse_cipher words.now rounds) body ≡ Err why) }
    ensures why { IfErr result (λ why. why ≡ ModeNo.BadPadding) }
    ensures wiped { OnErr result (buffer.new ≡ replicate (length buffer.old) 0) }
{
    decrypt(words, rounds, buffer, from);
    match unpadded_length(&buffer[..buffer.len() - from - BLOCK]) {
        Some(length) => {
            wiping::wipe_behind(buffer, length);
            Ok(length)
        }
        None => {
            buffer.fill(0);
            Err(ModeNo::BadPadding)
        }
    }
}

/// Writes the decryption of the blocks behind the IV to the front of the buffer: eight at once, and
/// then those that are left. The IV stands behind the first `from` bytes, so that no block is
/// written over before it is read.
fn decrypt(words: &[u32; 60], rounds: Rounds, buffer: &mut [u8], from: usize)
    requires fits { length buffer.old ≤ 4194304 }
    requires from { from + 16 ≤ length buffer.old }
    requires whole { (length buffer.old - from) % 16 ≡ 0 }
    ensures { let body = drop from buffer.old in take (length body - 16) buffer.new
        ≡ uncbc (inverse_cipher words.now rounds) (take 16 body) (drop 16 body) }
{
    let count = (buffer.len() - from) / BLOCK - 1;
    decrypt_eights(words, rounds, buffer, from, count / 8);
    decrypt_each(words, rounds, buffer, from, count - count % 8);
}

/// Opens so many times eight blocks, from the first on.
fn decrypt_eights(words: &[u32; 60], rounds: Rounds, buffer: &mut [u8], from: usize, times: usize)
    requires fits { length buffer.old ≤ 4194304 }
    requires from { from + 16 + 128 * times ≤ length buffer.old }
    ensures { let decipher = inverse_cipher words.now rounds in
        opened_from decipher from (8 * times) buffer.new ≡ opened_from decipher from 0 buffer.old }
{
    if times == 0 {
        return;
    }
    let mut keys = [Planes::default(); 15];
    kr_aes_bitsliced::slice_keys(words, &mut keys);
    for time in 0..times {
        decrypt_eight(&keys, rounds, buffer, from, 8 * time);
    }
}

/// Opens eight blocks at once, where so many are opened.
fn decrypt_eight(keys: &KeyPlanes, rounds: Rounds, buffer: &mut [u8], from: usize, opened: usize)
    requires fits { length buffer.old ≤ 4194304 }
    requires from { from + 16 * opened + 144 ≤ length buffer.old }
    ensures { (words : List ℕ) → keys.now ≡ key_planes words
        → let decipher = inverse_cipher words rounds in
        opened_from decipher from (opened + 8) buffer.new
        ≡ opened_from decipher from opened buffer.old }
{
    let mut deciphered = blocks::eight_blocks(&buffer[from..], opened + 1);
    kr_aes_bitsliced::decrypt_eight(keys, rounds, &mut deciphered);
    for i in 0..8 {
        let place = opened + i;
        let start = BLOCK * place;
        let before = blocks::whole_block(&buffer[from..], place);
        buffer[start..start + BLOCK].copy_from_slice(&blocks::vector_sum(&deciphered[i], &before));
    }
}

/// Opens the blocks that are left, one by one, where so many are opened.
fn decrypt_each(words: &[u32; 60], rounds: Rounds, buffer: &mut [u8], from: usize, opened: usize)
    requires fits { length buffer.old ≤ 4194304 }
    requires from { from + 16 * opened + 16 ≤ length buffer.old }
    ensures { let decipher = inverse_cipher words.now rounds in
        let count = (length buffer.old - from) / 16 - 1 in
        opened_from decipher from count buffer.new ≡ opened_from decipher from opened buffer.old }
{
    let count = (buffer.len() - from) / BLOCK - 1;
    if opened == count {
        return;
    }
    let mut inverse = [0; 60];
    kr_aes::invert(words, rounds, &mut inverse);
    for index in opened..count {
        let start = BLOCK * index;
        let mut block = blocks::whole_block(&buffer[from..], index + 1);
        kr_aes::decrypt_block_by_inverse(&inverse, rounds, &mut block);
        blocks::add(&mut block, &blocks::whole_block(&buffer[from..], index));
        buffer[start..start + BLOCK].copy_from_slice(&block);
    }
}

/// The length of the data whose padding the bytes are.
fn unpadded_length(bytes: &[u8]) -> Option<usize>
    requires some { 0 < length bytes.now }
    requires whole { length bytes.now % 16 ≡ 0 }
    ensures within { IfSome result (λ n. n < length bytes.now) }
    ensures value { MatchOption result
        (unpad bytes.now ≡ None)
        (λ n. unpad bytes.now ≡ Some (take n bytes.now)) }
{
    let padding = bytes[bytes.len() - 1];
    if padding == 0 || padding as usize > BLOCK {
        return None;
    }
    let size = bytes.len() - padding as usize;
    if is_all(&bytes[size..], padding) {
        Some(size)
    } else {
        None
    }
}

fn is_all(bytes: &[u8], value: u8) -> bool
    ensures { IsTrue result ↔ All (λ byte. byte ≡ value) bytes.now }
{
    bytes.iter().all(|byte| *byte == value)
}
