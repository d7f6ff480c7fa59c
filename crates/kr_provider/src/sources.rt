//! The data of a plugin's value, by its object and what the object's source was unwrapped to.
ghost use Rattle.std.specs.Prelude.{◌≡◌, ◌≤◌, length, drop, IfOk};
ghost use Rattle.kr_base.specs.Limits.{path_limit, value_limit};
ghost use Rattle.kr_envelope.specs.declared.object.SourceKind.TheVariants.{Seed};
ghost use Rattle.kr_provider.specs.Reading.{body_under, gcm_reading, source_reading};
ghost use Rattle.kr_provider.specs.inner.Sources.{Gives, IsObjectIn, IsRefusalOf};

use crate::refusal::{UnsealNo, ValueNo};
use crate::unsealing::by_aesgcm;
use crate::value_keys::{SEED, value_key};
use kr_aes::expand;
use kr_base::Bytes;
use kr_envelope::{EncryptedObject, ObjectNo, SourceKind};
use std::alloc::Global;

/// The object that the body of a plugin's value spells.
pub(crate) fn read_object(alloc: Global, body: &[u8]) -> Result<EncryptedObject, UnsealNo>
    ensures is { IsObjectIn body.now result }
    ensures fits { IfOk result (λ object. length object.encrypted ≤ length body.now) }
{
    match EncryptedObject::read(alloc, body) {
        Ok(object) => Ok(object),
        Err(why) => Err(envelope_refusal(why)),
    }
}

/// The refusal of an object, or that there was no memory for it.
fn envelope_refusal(why: ObjectNo) -> UnsealNo
    ensures { IsRefusalOf why result }
{
    match why {
        ObjectNo::Wire { at: _at } => UnsealNo::Refused(ValueNo::Wire),
        ObjectNo::KeyId => UnsealNo::Refused(ValueNo::KeyId),
        ObjectNo::Source => UnsealNo::Refused(ValueNo::Source),
        ObjectNo::Annotations => UnsealNo::Refused(ValueNo::Annotations),
        ObjectNo::SourceType => UnsealNo::Refused(ValueNo::SourceType),
        ObjectNo::NoData => UnsealNo::Refused(ValueNo::NoData),
        ObjectNo::NotUtf8 { at: _at } => UnsealNo::Refused(ValueNo::NotUtf8),
        ObjectNo::NoMemory => UnsealNo::NoMemory,
    }
}

/// The data under an unwrapped source, made in the sealed data's buffer.
pub(crate) fn by_source(
    kind: SourceKind,
    source: &[u8],
    path: &str,
    encrypted: Bytes,
) -> Result<Bytes, UnsealNo>
    requires path { length path.now ≤ path_limit }
    requires fits { length encrypted ≤ value_limit }
    ensures { Gives (source_reading kind source.now path.now encrypted) result }
{
    if source.len() != SEED {
        return Err(UnsealNo::Refused(ValueNo::SeedLength));
    }
    match kind {
        SourceKind::Key => by_key(source, path, encrypted, 0),
        SourceKind::Seed => by_seed(source, path, encrypted),
    }
}

/// The data under a key that no page has: nonce, ciphertext and tag, behind the first `from` bytes.
fn by_key(key: &[u8], path: &str, sealed: Bytes, from: usize) -> Result<Bytes, UnsealNo>
    requires key { length key.now ≡ 32 }
    requires path { length path.now ≤ path_limit }
    requires from { from ≤ length sealed }
    requires fits { length sealed ≤ value_limit }
    ensures { Gives (gcm_reading key.now path.now (drop from sealed)) result }
{
    let mut words = [0u32; 60];
    let Ok(_) = expand(key, &mut words) else {
        unreachable!();
    };
    by_aesgcm(key, &words, path.as_bytes(), sealed, from)
}

/// The data under a seed: the info, and the body under the key that the seed makes with it.
fn by_seed(seed: &[u8], path: &str, encrypted: Bytes) -> Result<Bytes, UnsealNo>
    requires path { length path.now ≤ path_limit }
    requires fits { length encrypted ≤ value_limit }
    ensures { Gives (body_under Seed seed.now path.now encrypted) result }
{
    let bytes = encrypted.as_slice();
    if bytes.len() < SEED {
        return Err(UnsealNo::Refused(ValueNo::Short));
    }
    let key = value_key(seed, &bytes[..SEED]);
    by_key(&key, path, encrypted, SEED)
}
