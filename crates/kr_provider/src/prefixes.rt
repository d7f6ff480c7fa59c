//! What stands behind the prefix of a stored value.
ghost use Rattle.std.specs.Prelude.{◌≡◌, true, false, drop, length, MatchOption};
ghost use Rattle.kr_envelope.specs.Prefixes.{begins, prefix};

use kr_envelope::Kind;

/// What stands behind the prefix of this kind and name, where the bytes begin with it.
pub(crate) fn behind_prefix<'a>(kind: Kind, name: &str, bytes: &'a [u8]) -> Option<&'a [u8]>
    ensures { let start = prefix kind name.now in
        MatchOption result (begins start bytes.now ≡ false)
        (λ rest. (begins start bytes.now ≡ true) × (rest.now ≡ drop (length start) bytes.now)) }
{
    let Some(named) = bytes.strip_prefix(kind.head()) else {
        return None;
    };
    let Some(ended) = named.strip_prefix(name.as_bytes()) else {
        return None;
    };
    let Some(rest) = ended.strip_prefix(b":") else {
        return None;
    };
    Some(rest)
}
