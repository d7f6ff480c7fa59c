//! The published seeds.
ghost use Rattle.std.specs.Prelude.{◌≡◌, ◌&&◌, not, MatchOption, None, Some, Ok, position};
ghost use Rattle.std.specs.Str.{bytes_eq};
ghost use Rattle.kr_kms.specs.Cache.{key_eq};
ghost use Rattle.kr_kms.specs.Opens.{key_of};
ghost use Rattle.kr_provider.specs.Envelopes.{seed_key};
ghost use Rattle.kr_provider.specs.Publication.{seed_of};
ghost use Rattle.kr_provider.specs.Reading.{is_current, is_seed};

use kr_envelope::{EncryptedObject, SourceKind};
use kr_kms::SeedRow;

/// The seed of the plugin of this name, if it has one.
pub(crate) fn plugin_seed<'a>(seeds: &'a [SeedRow], name: &str) -> Option<&'a SeedRow>
    ensures { MatchOption result (seed_of name.now seeds.now ≡ None)
        (λ row. seed_of name.now seeds.now ≡ Some row.now) }
{
    match find_plugin_seed(seeds, name) {
        Some(at) => Some(&seeds[at]),
        None => None,
    }
}

/// Where the seed of the plugin of this name stands.
fn find_plugin_seed(seeds: &[SeedRow], name: &str) -> Option<usize>
    ensures { result ≡ position (λ row. bytes_eq row.name name.now) seeds.now }
{
    seeds.iter().position(|row| row.name.as_str() == name)
}

/// Whether the seed is the object's: name, key id, annotations and source are the same.
pub(crate) fn is_object_seed(row: &SeedRow, name: &str, object: &EncryptedObject) -> bool
    ensures { result ≡ key_eq (key_of row.now) (seed_key name.now object.now) }
{
    row.name.as_str() == name
        && (row.key_id == object.key_id
            && (row.annotations == object.annotations && row.source == object.source))
}

/// Whether a value of the plugin is stale: another provider is the list's first, or the object is
/// another than the published seed would make.
pub(crate) fn is_stale(first: bool, row: &SeedRow, object: &EncryptedObject) -> bool
    ensures { result ≡ not (first && is_current (Some row.now) (Ok object.now)) }
{
    !(first && is_current(row, object))
}

/// Whether the object is as the published seed of its plugin would have it.
fn is_current(row: &SeedRow, object: &EncryptedObject) -> bool
    ensures { result ≡ is_current (Some row.now) (Ok object.now) }
{
    object.key_id == row.key_id && is_seed(object.kind)
}

/// Whether the source is a seed, and no key.
fn is_seed(kind: SourceKind) -> bool
    ensures { result ≡ is_seed kind }
{
    match kind {
        SourceKind::Key => false,
        SourceKind::Seed => true,
    }
}
