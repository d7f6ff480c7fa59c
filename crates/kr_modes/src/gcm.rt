//! GCM (SP 800-38D sections 6.5 and 7) for nonces of 12 bytes.

ghost use Rattle.std.specs.Prelude.{◌≡◌, ◌↔◌, ◌≤◌, ◌<◌, ◌+◌, ◌-◌, ◌*◌, ◌^◌, ◌++◌, length, take, drop, replicate, IfOk, OnErr, IsTrue, MatchResult};
ghost use Rattle.std.specs.Int.{w64, to_be_bytes};
ghost use Rattle.kr_aes.specs.Cipher.{cipher};
ghost use Rattle.kr_aes.specs.KeyExpansion.{IsSchedule};
ghost use Rattle.kr_modes.specs.Gcm.{gctr, gcm, gcm_opened, gcm_tag};

use crate::blocks::{self, BLOCK};
use crate::gctr::{NONCE, gctr, stream_block};
use crate::{ModeNo, ghash, wiping};
use kr_aes::Rounds;

/// The length of a tag in bytes.
const TAG: usize = 16;

/// Writes the ciphertext and the tag of the data and the associated data into `out`. Under one key
/// no nonce may be used twice. The words and the rounds are what `kr_aes::expand` gave for one key.
pub fn gcm_seal(
    words: &[u32; 60],
    rounds: Rounds,
    nonce: &[u8; 12],
    aad: &[u8],
    plain: &[u8],
    out: &mut [u8],
)
    requires schedule { IsSchedule words.now rounds }
    requires aad_fits { length aad.now ≤ 4194304 }
    requires fits { length plain.now ≤ 4194304 }
    requires size { length out.old ≡ length plain.now + 16 }
    ensures { out.new ≡ gcm (cipher words.now rounds) nonce.now aad.now plain.now }
{
    out[..plain.len()].copy_from_slice(plain);
    gcm_seal_in_place(words, rounds, nonce, aad, out);
}

/// The same in one buffer: the data are all but its last 16 bytes, in whose place the tag comes.
pub fn gcm_seal_in_place(
    words: &[u32; 60],
    rounds: Rounds,
    nonce: &[u8; 12],
    aad: &[u8],
    buffer: &mut [u8],
)
    requires schedule { IsSchedule words.now rounds }
    requires aad_fits { length aad.now ≤ 4194304 }
    requires fits { length buffer.old ≤ 4194320 }
    requires tag { 16 ≤ length buffer.old }
    ensures { buffer.new ≡ gcm (cipher words.now rounds) nonce.now aad.now
        (take (length buffer.old - 16) buffer.old) }
{
    let size = buffer.len() - TAG;
    gctr(words, rounds, nonce, &mut buffer[..size], 0);
    let tag = compute_tag(words, rounds, nonce, aad, &buffer[..size]);
    buffer[size..].copy_from_slice(&tag);
}

/// Opens what `gcm_seal` sealed: the body is ciphertext and tag. The length of the data is
/// answered, and the data stand at the front of `out`; the rest of `out` stays as it was. The
/// words and the rounds are what `kr_aes::expand` gave for one key.
pub fn gcm_unseal(
    words: &[u32; 60],
    rounds: Rounds,
    nonce: &[u8; 12],
    aad: &[u8],
    body: &[u8],
    out: &mut [u8],
) -> Result<usize, ModeNo>
    requires schedule { IsSchedule words.now rounds }
    requires aad_fits { length aad.now ≤ 4194304 }
    requires fits { length body.now ≤ 4194304 }
    requires size { length out.old ≡ length body.now }
    ensures opened { MatchResult result
        (λ n. gcm_opened (cipher words.now rounds) nonce.now aad.now body.now ≡ Ok (take n out.new))
        (λ why. gcm_opened (cipher words.now rounds) nonce.now aad.now body.now ≡ Err why) }
    ensures within { IfOk result (λ n. n + 16 ≡ length body.now) }
    ensures rest { IfOk result (λ n. drop n out.new ≡ drop n out.old) }
    ensures kept { OnErr result (out.new ≡ out.old) }
{
    let size = checked_length(words, rounds, nonce, aad, body)?;
    out[..size].copy_from_slice(&body[..size]);
    gctr(words, rounds, nonce, &mut out[..size], 0);
    Ok(size)
}

/// The same in one buffer: the body stands behind its first `from` bytes, and the data stand at
/// its front afterwards, with zeros behind them.
pub fn gcm_unseal_in_place(
    words: &[u32; 60],
    rounds: Rounds,
    nonce: &[u8; 12],
    aad: &[u8],
    buffer: &mut [u8],
    from: usize,
) -> Result<usize, ModeNo>
    requires schedule { IsSchedule words.now rounds }
    requires aad_fits { length aad.now ≤ 4194304 }
    requires fits { length buffer.old ≤ 4194304 }
    requires from { from ≤ length buffer.old }
    ensures opened { let body = drop from buffer.old in MatchResult result
        (λ n. gcm_opened (cipher words.now rounds) nonce.now aad.now body ≡ Ok (take n buffer.new))
        (λ why. gcm_opened (cipher words.now rounds) nonce.now aad.now body ≡ Err why) }
    ensures within { IfOk result (λ n. from + n + 16 ≡ length buffer.new) }
    ensures rest { IfOk result (λ n. drop n buffer.new ≡ replicate (length buffer.old - n) 0) }
    ensures kept { OnErr result (buffer.new ≡ buffer.old) }
{
    let size = checked_length(words, rounds, nonce, aad, &buffer[from..])?;
    gctr(words, rounds, nonce, &mut buffer[..from + size], from);
    wiping::wipe_behind(buffer, size);
    Ok(size)
}

/// The length of the data of a body, whose tag is looked at.
fn checked_length(
    words: &[u32; 60],
    rounds: Rounds,
    nonce: &[u8; NONCE],
    aad: &[u8],
    body: &[u8],
) -> Result<usize, ModeNo>
    requires schedule { IsSchedule words.now rounds }
    requires aad_fits { length aad.now ≤ 4194304 }
    requires fits { length body.now ≤ 4194304 }
    ensures opened { let encipher = cipher words.now rounds in MatchResult result
        (λ n. gcm_opened encipher nonce.now aad.now body.now
        ≡ Ok (gctr encipher nonce.now (take n body.now)))
        (λ why. gcm_opened encipher nonce.now aad.now body.now ≡ Err why) }
    ensures within { IfOk result (λ n. n + 16 ≡ length body.now) }
{
    if body.len() < TAG {
        return Err(ModeNo::Short);
    }
    let size = body.len() - TAG;
    let tag = compute_tag(words, rounds, nonce, aad, &body[..size]);
    if !is_same(&tag, &body[size..]) {
        return Err(ModeNo::BadTag);
    }
    Ok(size)
}

/// Whether both are the same. It goes through all 16 bytes whatever it finds and decides once, so
/// that its time doesn't tell how many bytes of a forged tag are right.
fn is_same(tag: &[u8; TAG], other: &[u8]) -> bool
    requires { length other.now ≡ 16 }
    ensures { IsTrue result ↔ (other.now ≡ tag.now) }
{
    let mut difference = 0;
    for (i, byte) in tag.iter().enumerate() {
        difference |= *byte ^ other[i];
    }
    difference == 0
}

/// The two lengths in bits.
fn length_block(aad_size: usize, size: usize) -> [u8; BLOCK]
    requires aad_fits { aad_size ≤ 4194304 }
    requires fits { size ≤ 4194304 }
    ensures { result ≡ to_be_bytes w64 (8 * aad_size) ++ to_be_bytes w64 (8 * size) }
{
    let mut block = [0; BLOCK];
    block[..8].copy_from_slice(&(8 * aad_size as u64).to_be_bytes());
    block[8..].copy_from_slice(&(8 * size as u64).to_be_bytes());
    block
}

/// The tag of the associated data and the ciphertext.
fn compute_tag(
    words: &[u32; 60],
    rounds: Rounds,
    nonce: &[u8; NONCE],
    aad: &[u8],
    ciphertext: &[u8],
) -> [u8; TAG]
    requires schedule { IsSchedule words.now rounds }
    requires aad_fits { length aad.now ≤ 4194304 }
    requires fits { length ciphertext.now ≤ 4194304 }
    ensures { result ≡ gcm_tag (cipher words.now rounds) nonce.now aad.now ciphertext.now }
{
    let mut subkey = [0; BLOCK];
    kr_aes::encrypt_block(words, rounds, &mut subkey);
    let mut products = [[0; 16]; 32];
    ghash::fill(&subkey, &mut products);
    let value = ghash::absorb(&products, 0, aad);
    let value = ghash::absorb(&products, value, ciphertext);
    let value = ghash::absorb(&products, value, &length_block(aad.len(), ciphertext.len()));
    let mut tag = value.to_le_bytes();
    blocks::add(&mut tag, &stream_block(words, rounds, nonce, 0));
    tag
}
