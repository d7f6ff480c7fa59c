//! What stored values read as.
ghost use Rattle.std.specs.Prelude.{◌≡◌, ◌≤◌, true, false, length, take, drop};
ghost use Rattle.kr_aes.specs.KeyExpansion.{IsKeyLength, padded_schedule};
ghost use Rattle.kr_base.specs.Limits.{path_limit, value_limit};
ghost use Rattle.kr_config.specs.Providers.{is_provider, is_kms};
ghost use Rattle.kr_modes.specs.Cbc.{cbc_opened};
ghost use Rattle.kr_modes.specs.Gcm.{gcm_opened};
ghost use Rattle.kr_provider.specs.Ciphers.{cipher_under, inverse_under};
ghost use Rattle.kr_provider.specs.Envelopes.{Envelope};
ghost use Rattle.kr_provider.specs.Reading.{body_refusal, gcm_reading, provider_reading, body_reading, refused};
ghost use Rattle.kr_provider.specs.inner.Scan.{HasWords};
ghost use Rattle.kr_provider.specs.inner.Sources.{Gives};

use crate::refusal::{UnsealNo, ValueNo};
use crate::rounds::key_rounds;
use crate::sealing::NONCE;
use kr_base::Bytes;
use kr_config::Who;
use kr_modes::{ModeNo, cbc_unseal_in_place, gcm_unseal_in_place};

/// The data of the body by a provider that is no plugin, whose key's words are given. The body
/// stands behind the first `from` bytes of the value, and the data are made in the value's buffer.
pub(crate) fn unseal_body(
    who: &Who,
    words: &[u32; 60],
    path: &str,
    value: Bytes,
    from: usize,
) -> Result<Bytes, UnsealNo>
    requires provider { is_provider who.now ≡ true }
    requires no_plugin { is_kms who.now ≡ false }
    requires words { HasWords who.now words.now }
    requires path { length path.now ≤ path_limit }
    requires from { from ≤ length value }
    requires bare { who.now ≡ Who.Identity → from ≡ 0 }
    requires fits { length value ≤ value_limit }
    ensures { (envelope : Envelope) → Gives
        (provider_reading envelope who.now path.now (drop from value)) result }
{
    match who {
        Who::Identity => Ok(value),
        Who::Aescbc(_, secret) => by_aescbc(secret.as_slice(), words, value, from),
        Who::Aesgcm(_, secret) => {
            by_aesgcm(secret.as_slice(), words, path.as_bytes(), value, from)
        }
        Who::Kms(_) => unreachable!(),
    }
}

/// The data of a body of aescbc, which stands behind the first `from` bytes.
fn by_aescbc(secret: &[u8], words: &[u32; 60], value: Bytes, from: usize) -> Result<Bytes, UnsealNo>
    requires key { IsKeyLength (length secret.now) }
    requires words { words.now ≡ padded_schedule secret.now }
    requires from { from ≤ length value }
    requires fits { length value ≤ value_limit }
    ensures { Gives (body_reading (cbc_opened (inverse_under secret.now) (drop from value)))
        result }
{
    let rounds = key_rounds(secret);
    let mut buffer = value.into_vec();
    match cbc_unseal_in_place(words, rounds, buffer.as_mut_slice(), from) {
        Ok(length) => Ok(front_bytes(buffer, length)),
        Err(why) => Err(UnsealNo::Refused(mode_refusal(why))),
    }
}

/// The data of a body of aesgcm, which stands behind the first `from` bytes.
pub(crate) fn by_aesgcm(
    secret: &[u8],
    words: &[u32; 60],
    path: &[u8],
    value: Bytes,
    from: usize,
) -> Result<Bytes, UnsealNo>
    requires key { IsKeyLength (length secret.now) }
    requires words { words.now ≡ padded_schedule secret.now }
    requires path { length path.now ≤ path_limit }
    requires from { from ≤ length value }
    requires fits { length value ≤ value_limit }
    ensures { Gives (gcm_reading secret.now path.now (drop from value)) result }
{
    let bytes = value.as_slice();
    if bytes.len() - from < NONCE {
        return Err(UnsealNo::Refused(mode_refusal(ModeNo::Short)));
    }
    let start = from + NONCE;
    let mut nonce = [0u8; NONCE];
    nonce.copy_from_slice(&bytes[from..start]);
    by_gcm(secret, words, &nonce, path, value, start)
}

/// The data of ciphertext and tag, which stand behind the first `from` bytes.
fn by_gcm(
    secret: &[u8],
    words: &[u32; 60],
    nonce: &[u8; NONCE],
    path: &[u8],
    value: Bytes,
    from: usize,
) -> Result<Bytes, UnsealNo>
    requires key { IsKeyLength (length secret.now) }
    requires words { words.now ≡ padded_schedule secret.now }
    requires path { length path.now ≤ path_limit }
    requires from { from ≤ length value }
    requires fits { length value ≤ value_limit }
    ensures { Gives (body_reading
        (gcm_opened (cipher_under secret.now) nonce.now path.now (drop from value))) result }
{
    let rounds = key_rounds(secret);
    let mut buffer = value.into_vec();
    match gcm_unseal_in_place(words, rounds, nonce, path, buffer.as_mut_slice(), from) {
        Ok(length) => Ok(front_bytes(buffer, length)),
        Err(why) => Err(UnsealNo::Refused(mode_refusal(why))),
    }
}

/// The first bytes of the buffer, in it.
fn front_bytes(mut buffer: Vec<u8>, length: usize) -> Bytes
    ensures { result ≡ take length buffer.items }
{
    buffer.truncate(length);
    Bytes::from_vec(buffer)
}

/// The refusal of a body.
pub(crate) fn mode_refusal(why: ModeNo) -> ValueNo
    ensures { body_refusal why ≡ refused result }
{
    match why {
        ModeNo::Short => ValueNo::Short,
        ModeNo::BadBlock => ValueNo::BadBlock,
        ModeNo::BadPadding => ValueNo::BadPadding,
        ModeNo::BadTag => ValueNo::BadTag,
    }
}
