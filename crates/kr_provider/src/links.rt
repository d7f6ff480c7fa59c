//! Links to plugins.
ghost use Rattle.std.specs.Prelude.{◌≡◌, ◌↔◌, ◌≤◌, ◌<◌, [], ◌∷◌, ◌++◌, Contains, Some, IsTrue, IfErr, OnOk, OnErr, MatchOption, length, position};
ghost use Rattle.std.specs.List.{list_all, list_any};
ghost use Rattle.std.specs.Str.{bytes_eq};
ghost use Rattle.kr_config.specs.Kept.{rows_of};
ghost use Rattle.kr_base.specs.Walks.{Talk};
ghost use Rattle.kr_kms.specs.Cache.{Fetches, FetchesBy};
ghost use Rattle.kr_kms.specs.Calls.{asked_key};
ghost use Rattle.kr_kms.specs.Health.{TellsKeyId, TellsKeyIdBy};
ghost use Rattle.kr_kms.specs.Seeds.{MakesSeed, MakesSeedBy};
ghost use Rattle.kr_provider.specs.AskedLinks.{Among, AsksOne, HasLinkWith};
ghost use Rattle.kr_provider.specs.Names.{AreDistinct, HasLinks, names_of};
ghost use Rattle.kr_provider.specs.inner.Scan.{is_served};

use kr_base::{Bytes, Dice, NoMemory, Text};
use kr_config::{Entry, Settings, Who};
use kr_envelope::EncryptedObject;
use kr_kms::{Kms, KmsNo, SeedCache, SeedNo, SeedRow, healthy_key_id, make_seed};
use std::alloc::Global;
use std::marker::Model;

/// Links to plugins of distinct names, which may be links that can't be dropped. Contracts see the
/// list of them.
#[derive(Drop)]
pub struct Links<L: Kms> {
    items: Vec<L>,
}

impl<L: Kms> Model for Links<L> {
    ghost use Rattle.std.specs.Prelude.{List};
    ghost use Rattle.kr_provider.specs.Names.{AreDistinct};

    ghost Value = { List L };

    ghost view = { λ links. links.items.items };

    ghost invariant = { λ links. AreDistinct L.link links.items.items };
}

impl<L: Kms> Links<L> {
    /// No link, and no memory yet.
    pub fn new(alloc: Global) -> Links<L>
        ensures { result ≡ [] }
    {
        Links {
            items: Vec::new(alloc),
        }
    }

    /// Puts the link at the end. A link that found no memory comes back.
    pub fn add(&mut self, link: L) -> Result<(), (NoMemory, L)>
        requires { ¬ Contains (names_of L.link self.old) (L.link link).name }
        ensures ok { OnOk result (self.new ≡ self.old ++ link ∷ []) }
        ensures err { OnErr result (self.new ≡ self.old) }
        ensures returned { IfErr result (λ refused. refused.1 ≡ link) }
    {
        match self.items.push(link) {
            Ok(()) => Ok(()),
            Err(refused) => Err((NoMemory, refused.value)),
        }
    }

    /// Whether there is a link to the plugin of this name.
    pub fn has(&self, name: &str) -> bool
        ensures named { IsTrue result ↔ Contains (names_of L.link self.now) name.now }
        ensures distinct { AreDistinct L.link self.now }
    {
        any_named(self.items.as_slice(), name)
    }

    /// Whether there is a link to each plugin that the settings name.
    pub fn serve(&self, settings: &Settings) -> bool
        ensures { IsTrue result ↔ HasLinks (names_of L.link self.now)
            (rows_of settings.now.entries.0) }
    {
        serve_entries(self.items.as_slice(), settings.entries.as_slice())
    }

    /// How often the link to the plugin of this name failed so far, up to the greatest number.
    pub fn faults(&self, name: &str) -> u64
        requires { Contains (names_of L.link self.now) name.now }
        ensures { HasLinkWith L.link name.now (λ link. result ≡ link.count) self.now }
    {
        link_faults(self.items.as_slice(), name)
    }

    /// Tells what its type keeps: the names are distinct.
    pub fn known(&self)
        ensures { AreDistinct L.link self.now }
    {
        let _some = self.items.as_slice();
    }

    /// Takes the last link.
    pub fn take(&mut self) -> Option<L>
        ensures { MatchOption result ((self.old ≡ []) × (self.new ≡ []))
            (λ last. self.old ≡ self.new ++ last ∷ []) }
    {
        self.items.pop()
    }

    /// Ends links of which all were taken.
    pub fn end(self)
        requires { self ≡ [] }
    {
        self.items.destroy_empty();
    }

    /// Where the link to the plugin of this name stands, which is there.
    fn place(&self, name: &str) -> usize
        requires { Contains (names_of L.link self.now) name.now }
        ensures place { position (λ link. bytes_eq (L.link link).name name.now) self.now
            ≡ Some result }
        ensures within { result < length self.now }
    {
        plugin_link_place(self.items.as_slice(), name)
    }

    /// The id of the key that the plugin of this name wraps with.
    pub(crate) fn key_id(&mut self, alloc: Global, name: &str) -> Result<Text, SeedNo>
        requires { Contains (names_of L.link self.old) name.now }
        ensures told { AsksOne L.link name.now
            (λ old new. TellsKeyId (L.link old) result (L.link new)) self.old self.new }
        ensures exchanged { Talk (Among L.step) self.old self.new (TellsKeyIdBy name.now result) }
    {
        let at = self.place(name);
        healthy_key_id(alloc, &mut self.items[at])
    }

    /// A seed of the plugin of this name.
    pub(crate) fn make_seed<D: Dice>(
        &mut self,
        alloc: Global,
        name: &str,
        dice: &mut D,
    ) -> Result<SeedRow, SeedNo>
        requires { Contains (names_of L.link self.old) name.now }
        ensures made { AsksOne L.link name.now
            (λ old new. MakesSeed D.left D.count (L.link old) dice.old result (L.link new)
            dice.new) self.old self.new }
        ensures later { D.count dice.old ≤ D.count dice.new }
        ensures exchanged { Talk (Among L.step) self.old self.new
            (MakesSeedBy D.left D.count name.now dice.old result dice.new) }
    {
        let at = self.place(name);
        make_seed(alloc, &mut self.items[at], dice)
    }

    /// The unwrapped source of an object of the plugin of this name, through the cache.
    pub(crate) fn fetch(
        &mut self,
        cache: &mut SeedCache,
        name: &str,
        object: &EncryptedObject,
    ) -> Result<Bytes, KmsNo>
        requires { Contains (names_of L.link self.old) name.now }
        ensures fetched { AsksOne L.link name.now (λ old new. Fetches L.link old cache.old
            (asked_key name.now object.now.key_id object.now.annotations object.now.source)
            result new cache.new) self.old self.new }
        ensures exchanged { Talk (Among L.step) self.old self.new (FetchesBy
            (asked_key name.now object.now.key_id object.now.annotations object.now.source)
            cache.old result cache.new) }
    {
        let at = self.place(name);
        cache.fetch(
            &mut self.items[at],
            object.key_id.as_str(),
            &object.annotations,
            object.source.as_slice(),
        )
    }
}

/// Whether one of the links is to the plugin of this name.
fn any_named<L: Kms>(links: &[L], name: &str) -> bool
    ensures { result ≡ list_any (λ link. bytes_eq (L.link link).name name.now) links.now }
{
    links.iter().any(|link| link.name() == name)
}

/// Whether there is a link to each plugin of the entries.
fn serve_entries<L: Kms>(links: &[L], entries: &[Entry]) -> bool
    ensures { result ≡ list_all
        (λ entry. list_all (is_served L.link links.now) entry.providers.0) entries.now }
{
    entries
        .iter()
        .all(|entry| serve_list(links, entry.providers.as_slice()))
}

/// Whether there is a link to each plugin of the list.
fn serve_list<L: Kms>(links: &[L], list: &[Who]) -> bool
    ensures { result ≡ list_all (is_served L.link links.now) list.now }
{
    list.iter().all(|who| is_served(links, who))
}

/// Whether the provider is no plugin, or there is a link to it.
fn is_served<L: Kms>(links: &[L], who: &Who) -> bool
    ensures { result ≡ is_served L.link links.now who.now }
{
    match who {
        Who::Identity => true,
        Who::Aescbc(_, _) => true,
        Who::Aesgcm(_, _) => true,
        Who::Kms(name) => any_named(links, name.as_str()),
    }
}

/// How often the link to the plugin of this name failed so far.
fn link_faults<L: Kms>(links: &[L], name: &str) -> u64
    requires { Contains (names_of L.link links.now) name.now }
    ensures { HasLinkWith L.link name.now (λ link. result ≡ link.count) links.now }
{
    let at = plugin_link_place(links, name);
    links[at].faults()
}

/// Where the link to the plugin of this name stands, which is there.
fn plugin_link_place<L: Kms>(links: &[L], name: &str) -> usize
    requires { Contains (names_of L.link links.now) name.now }
    ensures place { position (λ link. bytes_eq (L.link link).name name.now) links.now
        ≡ Some result }
    ensures within { result < length links.now }
{
    let Some(at) = find_plugin_link(links, name) else {
        unreachable!();
    };
    at
}

/// Where the link to the plugin of this name stands, if there is one.
fn find_plugin_link<L: Kms>(links: &[L], name: &str) -> Option<usize>
    ensures { result ≡ position (λ link. bytes_eq (L.link link).name name.now) links.now }
{
    links.iter().position(|link| link.name() == name)
}
