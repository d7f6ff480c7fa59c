//! What stored values hold by the adopted configuration.
ghost use Rattle.std.specs.Prelude.{◌≡◌, ℕ, ◌≤◌, List, length, Contains, Some, IsSome, Ok, IfSome};
ghost use Rattle.kr_base.specs.Limits.{path_limit, value_limit};
ghost use Rattle.kr_config.specs.declared.who.Who.{Who};
ghost use Rattle.kr_kms.specs.Cache.{seed_at};
ghost use Rattle.kr_kms.specs.declared.seeds.SeedRow.{SeedRow};
ghost use Rattle.kr_base.specs.Walks.{Talk};
ghost use Rattle.kr_provider.specs.AskedLinks.{Among};
ghost use Rattle.kr_provider.specs.Envelopes.{seed_key};
ghost use Rattle.kr_provider.specs.Exchanges.{ReadsBy};
ghost use Rattle.kr_provider.specs.KeyPages.{secrets_in};
ghost use Rattle.kr_provider.specs.Names.{HasAdoptedLinks, names_of};
ghost use Rattle.kr_provider.specs.Publication.{IsProviderList, list_at, seed_of};
ghost use Rattle.kr_provider.specs.Reading.{source_reading};
ghost use Rattle.kr_provider.specs.Unsealing.{HeedsCache, IsSeedOf, UnsealsBy};
ghost use Rattle.kr_provider.specs.inner.Scan.{AreAmong, AreNamedIn, HaveSeeds};
ghost use Rattle.kr_provider.specs.inner.Sources.{Gives, GivesSource, IsReadBy, OpensSource, UnsealsObject};
ghost use Rattle.kr_provider.specs.inner.Sources.{OpensSourceBy, UnsealsObjectBy};

use crate::adoption::Adoption;
use crate::links::Links;
use crate::readers::{find_reader, value_body};
use crate::refusal::{Opened, UnsealNo, ValueNo};
use crate::seeds::{is_object_seed, is_stale, plugin_seed};
use crate::sources::{by_source, read_object};
use crate::unsealing::unseal_body;
use kr_base::{Bytes, Text};
use kr_config::Who;
use kr_envelope::EncryptedObject;
use kr_kms::{Kms, KmsNo, SeedCache, SeedRow};
use std::alloc::Global;

/// What the value holds by the list of the resource, made in the value's buffer.
pub(crate) fn unseal_for_resource<L: Kms>(
    alloc: Global,
    adoption: &Adoption,
    links: &mut Links<L>,
    cache: &mut SeedCache,
    resource: &str,
    path: &str,
    value: Bytes,
) -> Result<Opened, UnsealNo>
    requires adopted { IsSome adoption.now.published }
    requires links { HasAdoptedLinks (names_of L.link links.old) adoption.now.published }
    requires path { length path.now ≤ path_limit }
    requires fits { length value ≤ value_limit }
    ensures opened { IfSome adoption.now.published (λ p. UnsealsBy L.link p.seeds
        (list_at p resource.now) path.now value links.old result links.new) }
    ensures cached { IfSome adoption.now.published (λ p. HeedsCache cache.old.rows
        p.seeds (list_at p resource.now) path.now value links.old result links.new) }
    ensures exchanged { IfSome adoption.now.published (λ p. Talk (Among L.step) links.old links.new
        (ReadsBy p.seeds (list_at p resource.now) path.now value cache.old result cache.new)) }
{
    let published = adoption.published();
    let list = published.listed(resource);
    let seeds = published.seeds();
    unseal_by_list(alloc, adoption, seeds, list, links, cache, path, value)
}

/// What the value holds by a list of providers.
fn unseal_by_list<L: Kms>(
    alloc: Global,
    adoption: &Adoption,
    seeds: &[SeedRow],
    list: &[Who],
    links: &mut Links<L>,
    cache: &mut SeedCache,
    path: &str,
    value: Bytes,
) -> Result<Opened, UnsealNo>
    requires adopted { IsSome adoption.now.published }
    requires among { IfSome adoption.now.published (λ p. AreAmong (secrets_in p.rows) list.now) }
    requires list { IsProviderList list.now }
    requires seeds { HaveSeeds seeds.now list.now }
    requires links { AreNamedIn (names_of L.link links.old) list.now }
    requires path { length path.now ≤ path_limit }
    requires fits { length value ≤ value_limit }
    ensures opened { UnsealsBy L.link seeds.now list.now path.now value links.old result
        links.new }
    ensures cached { HeedsCache cache.old.rows seeds.now list.now path.now value links.old
        result links.new }
    ensures exchanged { Talk (Among L.step) links.old links.new
        (ReadsBy seeds.now list.now path.now value cache.old result cache.new) }
{
    let bytes = value.as_slice();
    let Some(place) = find_reader(list, bytes) else {
        return Err(UnsealNo::Refused(ValueNo::NoProvider));
    };
    let reader = &list[place];
    let Some(body) = value_body(reader, bytes) else {
        unreachable!();
    };
    let first = place == 0;
    match reader {
        Who::Kms(name) => {
            let Some(row) = plugin_seed(seeds, name.as_str()) else {
                unreachable!();
            };
            by_plugin(alloc, name.as_str(), row, links, cache, first, path, body)
        }
        _ => {
            let from = bytes.len() - body.len();
            match unseal_body(reader, adoption.words(reader), path, value, from) {
                Ok(plain) => Ok(Opened {
                    plain,
                    stale: !first,
                }),
                Err(why) => Err(why),
            }
        }
    }
}

/// What a value holds that the plugin of this name reads.
fn by_plugin<L: Kms>(
    alloc: Global,
    name: &str,
    row: &SeedRow,
    links: &mut Links<L>,
    cache: &mut SeedCache,
    first: bool,
    path: &str,
    body: &[u8],
) -> Result<Opened, UnsealNo>
    requires link { Contains (names_of L.link links.old) name.now }
    requires path { length path.now ≤ path_limit }
    requires fits { length body.now ≤ value_limit }
    ensures opened { (seeds : List SeedRow) (list : List Who) (bytes : List ℕ)
        → seed_of name.now seeds ≡ Some row.now
        → IsReadBy list bytes (Who.Kms name.now) body.now first
        → UnsealsBy L.link seeds list path.now bytes links.old result links.new }
    ensures cached { (seeds : List SeedRow) (list : List Who) (bytes : List ℕ)
        → seed_of name.now seeds ≡ Some row.now
        → IsReadBy list bytes (Who.Kms name.now) body.now first
        → HeedsCache cache.old.rows seeds list path.now bytes links.old result links.new }
    ensures exchanged { (seeds : List SeedRow) (list : List Who) (bytes : List ℕ)
        → seed_of name.now seeds ≡ Some row.now
        → IsReadBy list bytes (Who.Kms name.now) body.now first
        → Talk (Among L.step) links.old links.new
        (ReadsBy seeds list path.now bytes cache.old result cache.new) }
{
    let object = read_object(alloc, body)?;
    let stale = is_stale(first, row, &object);
    let plain = unseal_object(alloc, name, row, object, links, cache, path)?;
    Ok(Opened { plain, stale })
}

/// The data of an object of the plugin of this name: under the published seed, where that is the
/// object's, and else under the source as it was unwrapped.
fn unseal_object<L: Kms>(
    alloc: Global,
    name: &str,
    row: &SeedRow,
    object: EncryptedObject,
    links: &mut Links<L>,
    cache: &mut SeedCache,
    path: &str,
) -> Result<Bytes, UnsealNo>
    requires link { Contains (names_of L.link links.old) name.now }
    requires path { length path.now ≤ path_limit }
    requires fits { length object.encrypted ≤ value_limit }
    ensures opened { UnsealsObject L.link row.now name.now object path.now links.old
        result links.new }
    ensures cached { (source : List ℕ)
        → seed_at cache.old.rows (seed_key name.now object) ≡ Some source
        → (links.new ≡ links.old) × ((IsSeedOf row.now name.now object → ⊥)
        → Gives (source_reading object.kind source path.now object.encrypted) result) }
    ensures exchanged { Talk (Among L.step) links.old links.new
        (UnsealsObjectBy row.now name.now object path.now cache.old result cache.new) }
{
    if is_object_seed(row, name, &object) {
        return by_source(object.kind, row.seed.as_slice(), path, object.encrypted);
    }
    let source = open_source(alloc, name, &object, links, cache)?;
    by_source(object.kind, source.as_slice(), path, object.encrypted)
}

/// What the plugin of this name unwraps the source of an object to. Its name is copied before it is
/// asked, so that its fault is always told.
fn open_source<L: Kms>(
    alloc: Global,
    name: &str,
    object: &EncryptedObject,
    links: &mut Links<L>,
    cache: &mut SeedCache,
) -> Result<Bytes, UnsealNo>
    requires link { Contains (names_of L.link links.old) name.now }
    ensures opened { OpensSource L.link name.now object.now links.old result links.new }
    ensures cached { (source : List ℕ)
        → seed_at cache.old.rows (seed_key name.now object.now) ≡ Some source
        → (links.new ≡ links.old) × GivesSource source result }
    ensures exchanged { Talk (Among L.step) links.old links.new
        (OpensSourceBy name.now object.now cache.old result cache.new) }
{
    let asked = match Text::copy(alloc, name) {
        Ok(asked) => asked,
        Err(_) => return Err(UnsealNo::NoMemory),
    };
    match links.fetch(cache, name, object) {
        Ok(source) => Ok(source),
        Err(KmsNo::NoMemory) => Err(UnsealNo::NoMemory),
        Err(KmsNo::Failed) => Err(UnsealNo::PluginFailed { name: asked }),
    }
}
