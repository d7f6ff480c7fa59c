//! The keys of a schedule as planes.

ghost use Rattle.std.specs.Prelude.{◌≡◌, ◌<◌};
ghost use Rattle.kr_aes_bitsliced.specs.KeyPlanes.{key_plane, key_planes, round_planes};

use crate::planes::Planes;
use std::simd::prelude::*;

/// The planes of fifteen keys, as `slice_keys` makes them.
pub type KeyPlanes = [Planes; 15];

/// Writes the planes of the keys that a schedule's words are, by which eight blocks are ciphered or
/// deciphered at once: a byte of a plane is 255 where the key's byte has the plane's bit, and else
/// 0.
pub fn slice_keys(words: &[u32; 60], keys: &mut KeyPlanes)
    ensures { keys.new ≡ key_planes words.now }
{
    for round in 0..15 {
        keys[round] = round_planes(words, round);
    }
}

/// The planes of a round's key.
fn round_planes(words: &[u32; 60], round: usize) -> Planes
    requires { round < 15 }
    ensures { result ≡ round_planes words.now round }
{
    Planes {
        p0: plane(words, round, 0),
        p1: plane(words, round, 1),
        p2: plane(words, round, 2),
        p3: plane(words, round, 3),
        p4: plane(words, round, 4),
        p5: plane(words, round, 5),
        p6: plane(words, round, 6),
        p7: plane(words, round, 7),
    }
}

/// One bit of each byte of a round's key.
fn plane(words: &[u32; 60], round: usize, bit: u32) -> u8x16
    requires round { round < 15 }
    requires bit { bit < 8 }
    ensures { result ≡ key_plane words.now round bit }
{
    let mut bytes = [0; 16];
    for i in 0..16 {
        let key = words[4 * round + i % 4].to_be_bytes()[i / 4];
        bytes[i] = 255 * ((key >> bit) & 1);
    }
    u8x16::from_array(bytes)
}
