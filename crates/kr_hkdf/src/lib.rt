//! HMAC-SHA256 (RFC 2104) and HKDF-Expand over it (RFC 5869, section 2.3). Nothing is allocated.
#![tactic(auto)]

ghost use Rattle.std.specs.Prelude.{◌≡◌, ℕ, ◌≤◌, List, [], ◌∷◌, ◌++◌, length};
ghost use Rattle.kr_hkdf.specs.Hkdf.{hkdf_expand};
ghost use Rattle.kr_hkdf.specs.Hmac.{hmac};
ghost use Rattle.kr_hkdf.specs.inner.KeyedHasher.{Holds};

mod keyed_hash;

use keyed_hash::KeyedHasher;

/// The length of a SHA-256 digest in bytes: HashLen of RFC 5869.
const HASH_LENGTH: usize = 32;

/// The HMAC-SHA256 code of `message` under `key` (RFC 2104), not truncated. Both may have any
/// length; the RFC advises against keys of fewer than 32 bytes.
pub fn hmac(key: &[u8], message: &[u8]) -> [u8; 32]
    ensures { result ≡ hmac key.now message.now }
{
    let mut hasher = KeyedHasher::new(key);
    hasher.update(message);
    hasher.finalize()
}

/// HKDF-Expand with HMAC-SHA256 (RFC 5869, section 2.3): fills `out` with keying material from the
/// pseudorandom key `prk`, for the application's context `info`. The most that the RFC allows is
/// 8,160 bytes, 255 blocks of 32, since a byte numbers them.
pub fn expand(prk: &[u8], info: &[u8], out: &mut [u8])
    requires output_fits { length out.old ≤ 8160 }
    requires info_fits { length info.now ≤ 1048576 }
    ensures { out.new ≡ hkdf_expand prk.now info.now (length out.old) }
{
    let keyed = KeyedHasher::new(prk);
    for index in 0..out.len().div_ceil(HASH_LENGTH) {
        let start = HASH_LENGTH * index;
        let end = out.len().min(start + HASH_LENGTH);
        // T(0) is empty, and each later block still stands before `start`.
        let previous = &out[start.saturating_sub(HASH_LENGTH)..start];
        let block = output_block(&keyed, previous, info, (index + 1) as u8);
        out[start..end].copy_from_slice(&block[..end - start]);
    }
}

/// The block of output that follows `previous`: T(n) of the RFC, where `previous` is T(n - 1).
fn output_block(keyed: &KeyedHasher, previous: &[u8], info: &[u8], counter: u8) -> [u8; 32]
    ensures { (prk : List ℕ) → Holds keyed.now prk []
        → result ≡ hmac prk (previous.now ++ info.now ++ counter ∷ []) }
{
    // Neither hasher takes memory, so the copy can't fail.
    let mut hasher = keyed.clone().unwrap();
    hasher.update(previous);
    hasher.update(info);
    hasher.update(&[counter]);
    hasher.finalize()
}
