//! Keyed hashing (RFC 2104) with SHA-256: HMAC of a text that comes in pieces.

ghost use Rattle.std.specs.Prelude.{◌≡◌, ℕ, ◌-◌, ◌≤◌, List, [], ◌++◌, length, map, replicate, bit_xor};
ghost use Rattle.kr_hkdf.specs.Hmac.{hmac, key_block};

use sha2::{Digest, Sha256};

/// The length of a block of SHA-256 in bytes: B of RFC 2104.
const BLOCK_LENGTH: usize = 64;

/// The byte that ipad of RFC 2104 repeats.
const INNER_PAD: u8 = 0x36;

/// The byte that opad of RFC 2104 repeats.
const OUTER_PAD: u8 = 0x5c;

/// HMAC-SHA256 under a key, over a text that comes in pieces. Both hashers have taken in the key's
/// block, so a copy authenticates another text without hashing the key again.
#[derive(Clone, Drop)]
pub(crate) struct KeyedHasher {
    inner: Sha256,
    outer: Sha256,
}

impl KeyedHasher {
    ghost use Rattle.kr_hkdf.specs.inner.KeyedHasher.{Holds};

    /// A hasher of the empty text.
    pub(crate) fn new(key: &[u8]) -> KeyedHasher
        ensures { Holds result key.now [] }
    {
        let block = key_block(key);
        KeyedHasher {
            inner: Sha256::new_with_prefix(padded(block, INNER_PAD)),
            outer: Sha256::new_with_prefix(padded(block, OUTER_PAD)),
        }
    }

    /// Adds `piece` to the text.
    pub(crate) fn update(&mut self, piece: &[u8])
        ensures { (key text : List ℕ) → Holds self.old key text
            → Holds self.new key (text ++ piece.now) }
    {
        self.inner.update(piece);
    }

    /// The code of the text.
    #[tactic(auto, unfolding(crate::specs::Hmac::hmac))]
    pub(crate) fn finalize(self) -> [u8; 32]
        ensures { (key text : List ℕ) → Holds self key text → result ≡ hmac key text }
    {
        let mut outer = self.outer;
        outer.update(self.inner.finalize());
        outer.finalize()
    }
}

/// The key, hashed if it is longer than a block, with zeros behind it.
fn key_block(key: &[u8]) -> [u8; BLOCK_LENGTH]
    ensures { result ≡ key_block key.now }
{
    if key.len() > BLOCK_LENGTH {
        zero_filled(&Sha256::digest(key))
    } else {
        zero_filled(key)
    }
}

/// The key with zeros behind it, up to the length of a block.
fn zero_filled(key: &[u8]) -> [u8; BLOCK_LENGTH]
    requires { length key.now ≤ 64 }
    ensures { result ≡ key.now ++ replicate (64 - length key.now) 0 }
{
    let mut block = [0; BLOCK_LENGTH];
    block[..key.len()].copy_from_slice(key);
    block
}

/// Each byte of `block` XOR `pad`.
fn padded(mut block: [u8; BLOCK_LENGTH], pad: u8) -> [u8; BLOCK_LENGTH]
    ensures { result ≡ map (λ byte. bit_xor byte pad) block }
{
    for byte in block.iter_mut() {
        *byte ^= pad;
    }
    block
}
