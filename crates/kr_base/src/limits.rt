//! The limits of what is read, wrapped, sealed and stored.
ghost use Rattle.std.specs.Prelude.{◌≡◌, ◌↔◌, IsTrue};
ghost use Rattle.kr_base.specs.Limits.{IsShort, AreFew, is_short, are_few};

use crate::bytes::Bytes;
use crate::text::Text;

/// The most bytes of a path.
pub const PATH_LIMIT: usize = 1_024;

/// The most bytes of a name, and of a resource.
pub const NAME_LIMIT: usize = 253;

/// The most bytes of a key id, and of a wrapped source.
pub const SHORT_LIMIT: usize = 1_024;

/// The most annotations.
pub const ANNOTATIONS_LIMIT: usize = 256;

/// The most bytes of the keys and values of annotations in all.
pub const ANNOTATIONS_SIZE_LIMIT: usize = 32_768;

/// The most bytes of an object's data.
pub const DATA_LIMIT: u64 = 2_097_152;

/// The most bytes of a stored value.
pub const VALUE_LIMIT: u64 = 2_162_688;

/// The most bytes of a configuration.
pub const CONFIG_LIMIT: u64 = 1_048_576;

/// The most lines that a journal may have.
pub const JOURNAL_LIMIT: u64 = 4_000_000;

/// The most bytes of a store's file.
pub const STORE_LIMIT: u64 = 67_108_864;

/// Whether a key id or a wrapped source is of a size that may be: 1 to 1,024 bytes.
pub fn is_short(bytes: &[u8]) -> bool
    ensures rule { IsTrue result ↔ IsShort bytes.now }
    ensures test { result ≡ is_short bytes.now }
{
    !bytes.is_empty() && bytes.len() <= SHORT_LIMIT
}

/// Whether there are no more annotations than may be: 256, of 32,768 bytes in all.
pub fn are_few(pairs: &[(Text, Bytes)]) -> bool
    ensures rule { IsTrue result ↔ AreFew pairs.now }
    ensures test { result ≡ are_few pairs.now }
{
    within_limits(pairs)
}

fn within_limits(pairs: &[(Text, Bytes)]) -> bool
    ensures { result ≡ are_few pairs.now }
{
    if pairs.len() > ANNOTATIONS_LIMIT {
        return false;
    }
    let mut room = ANNOTATIONS_SIZE_LIMIT;
    for (key, value) in pairs {
        let key = key.as_str().len();
        let value = value.as_slice().len();
        if key > room || value > room - key {
            return false;
        }
        room -= key + value;
    }
    true
}
