//! Wrapping and unwrapping under a key as it stands.
ghost use Rattle.std.specs.Prelude.{◌≡◌, ◌≤◌, ◌+◌, length, take, IfOk, MatchResult, Ok, Err};
ghost use Rattle.kr_aes.specs.Cipher.{cipher};
ghost use Rattle.kr_aes.specs.InverseCipher.{inverse_cipher};
ghost use Rattle.kr_aes.specs.KeyExpansion.{IsKeyLength, IsSchedule, padded_schedule};
ghost use Rattle.kr_keywrap.specs.KeyWrap.{IsWrappable, key_unwrap, key_wrap};
ghost use Rattle.kr_keywrap.specs.Keys.{rounds_of, unwrapped_under, wrapped_under};

use crate::key_wrap::{WrapNo, unwrap_key, wrap};
use kr_aes::Rounds;
use kr_base::{Bytes, NoMemory};
use std::alloc::Global;

/// The most bytes that can be wrapped.
pub(crate) const ROOM: usize = 1016;

/// Expands a key of 16, 24 or 32 bytes.
pub(crate) fn expand(kek: &[u8], words: &mut [u32; 60]) -> Rounds
    requires { IsKeyLength (length kek.now) }
    ensures words { words.new ≡ padded_schedule kek.now }
    ensures rounds { result ≡ rounds_of kek.now }
    ensures schedule { IsSchedule words.new result }
{
    match kr_aes::expand(kek, words) {
        Ok(rounds) => rounds,
        Err(_) => unreachable!(),
    }
}

/// The wrap of plain bytes under an expanded key.
pub(crate) fn wrap_bytes(
    alloc: Global,
    words: &[u32; 60],
    rounds: Rounds,
    plain: &[u8],
) -> Result<Bytes, NoMemory>
    requires schedule { IsSchedule words.now rounds }
    requires wrappable { IsWrappable (length plain.now) }
    ensures wrapped { IfOk result (λ out. out ≡ key_wrap (cipher words.now rounds) plain.now) }
    ensures size { IfOk result (λ out. length out ≡ length plain.now + 8) }
{
    let mut out = vec![in alloc; 0; plain.len() + 8]?;
    wrap(words, rounds, plain, &mut out);
    Ok(Bytes::from_vec(out))
}

/// Unwraps a body under an expanded key to the front of the room, and answers how many bytes they
/// are.
pub(crate) fn unwrap_by_words(
    words: &[u32; 60],
    rounds: Rounds,
    body: &[u8],
    room: &mut [u8; ROOM],
) -> Result<usize, WrapNo>
    requires { IsSchedule words.now rounds }
    ensures within { IfOk result (λ n. n ≤ 1016) }
    ensures unwrapped { MatchResult result
        (λ n. key_unwrap (inverse_cipher words.now rounds) body.now ≡ Ok (take n room.new))
        (λ why. key_unwrap (inverse_cipher words.now rounds) body.now ≡ Err why) }
{
    let size = body.len().saturating_sub(8);
    if size > ROOM {
        return Err(WrapNo::Length);
    }
    match unwrap_key(words, rounds, body, &mut room[..size]) {
        Ok(()) => Ok(size),
        Err(why) => Err(why),
    }
}

/// The wrap of plain bytes under a key.
pub(crate) fn wrap_by_key(alloc: Global, kek: &[u8], plain: &[u8]) -> Result<Bytes, NoMemory>
    requires key { IsKeyLength (length kek.now) }
    requires wrappable { IsWrappable (length plain.now) }
    ensures wrapped { IfOk result (λ out. out ≡ wrapped_under kek.now plain.now) }
    ensures size { IfOk result (λ out. length out ≡ length plain.now + 8) }
{
    let mut words = [0; 60];
    let rounds = expand(kek, &mut words);
    wrap_bytes(alloc, &words, rounds, plain)
}

/// Unwraps a body under a key to the front of the room, and answers how many bytes they are.
pub(crate) fn unwrap_by_key(kek: &[u8], body: &[u8], room: &mut [u8; ROOM]) -> Result<usize, WrapNo>
    requires { IsKeyLength (length kek.now) }
    ensures within { IfOk result (λ n. n ≤ 1016) }
    ensures unwrapped { MatchResult result
        (λ n. unwrapped_under kek.now body.now ≡ Ok (take n room.new))
        (λ why. unwrapped_under kek.now body.now ≡ Err why) }
{
    let mut words = [0; 60];
    let rounds = expand(kek, &mut words);
    unwrap_by_words(&words, rounds, body, room)
}
