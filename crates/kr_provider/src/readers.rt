//! Which provider of a list reads a value.
ghost use Rattle.std.specs.Prelude.{◌≡◌, ◌≢◌, ℕ, ◌++◌, List, true, false, not, drop, length, MatchOption, IfSome, Some, None};
ghost use Rattle.kr_provider.specs.Readers.{is_reader, body_by, reader_place, reader_in};

use crate::prefixes::behind_prefix;
use kr_config::Who;
use kr_envelope::{Kind, MARK};

/// The place of the provider whose prefix the bytes begin with, or of identity where they don't
/// begin `k8s:enc:`; none where the list holds no such provider.
pub fn find_reader(list: &[Who], bytes: &[u8]) -> Option<usize>
    ensures { result ≡ reader_place list.now bytes.now }
{
    list.iter().position(|who| reads(who, bytes))
}

/// Whether the provider reads the value.
fn reads(who: &Who, bytes: &[u8]) -> bool
    ensures { result ≡ is_reader bytes.now who.now }
{
    value_body(who, bytes).is_some()
}

/// What the provider reads: the bytes behind its prefix, for identity all of a value without one.
/// None where the value is another provider's.
pub(crate) fn value_body<'a>(who: &Who, bytes: &'a [u8]) -> Option<&'a [u8]>
    ensures { MatchOption result (is_reader bytes.now who.now ≡ false)
        (λ body. (is_reader bytes.now who.now ≡ true) × (body.now ≡ body_by who.now bytes.now)) }
{
    match who {
        Who::Identity => bare(bytes),
        Who::Aescbc(name, _) => behind_prefix(Kind::Aescbc, name.as_str(), bytes),
        Who::Aesgcm(name, _) => behind_prefix(Kind::Aesgcm, name.as_str(), bytes),
        Who::Kms(name) => behind_prefix(Kind::Kms, name.as_str(), bytes),
    }
}

/// A value that begins as no prefix does.
fn bare<'a>(bytes: &'a [u8]) -> Option<&'a [u8]>
    ensures { MatchOption result (is_reader bytes.now Who.Identity ≡ false)
        (λ body. (is_reader bytes.now Who.Identity ≡ true) × (body.now ≡ bytes.now)) }
{
    if bytes.starts_with(MARK) {
        None
    } else {
        Some(bytes)
    }
}
