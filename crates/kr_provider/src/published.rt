//! Published configurations.
ghost use Rattle.std.specs.Prelude.{◌≡◌, ◌≤◌, [], true, false, Ok};
ghost use Rattle.std.specs.List.{list_any};
ghost use Rattle.kr_config.specs.Kept.{plugins_in, rows_of};
ghost use Rattle.kr_config.specs.Providers.{is_kms, is_provider};
ghost use Rattle.kr_base.specs.Walks.{Talk};
ghost use Rattle.kr_provider.specs.AskedLinks.{Among, AskedOnly};
ghost use Rattle.kr_provider.specs.Exchanges.{PublishesBy};
ghost use Rattle.kr_provider.specs.Names.{HasLinks, names_of};
ghost use Rattle.kr_provider.specs.Publication.{IsProviderList, names_plugin};
ghost use Rattle.kr_provider.specs.Publishing.{Publishes};
ghost use Rattle.kr_provider.specs.Readers.{writer_of};

use crate::links::Links;
use crate::making::make_seeds;
use crate::refusal::PublishNo;
use kr_base::{Dice, List, Shared};
use kr_config::{Entry, Settings, Who};
use kr_kms::{Kms, SeedRow};
use std::alloc::Global;
use std::marker::Model;

/// Settings with one wrapped seed for each plugin that they name, by the bytes of its name.
#[derive(Drop)]
pub struct Published {
    /// The settings, which whoever holds the configuration shares.
    pub settings: Shared<Settings>,
    /// The seeds with their wrapped sources.
    pub seeds: List<SeedRow>,
}

impl Model for Published {
    ghost use Rattle.kr_config.specs.Kept.{rows_of};
    ghost use Rattle.kr_provider.specs.Publication.{Publication, IsPublished};

    ghost Value = { Publication };

    ghost view = { λ published. record {
      rows = rows_of published.settings.entries.0;
      seeds = published.seeds.0;
    } };

    ghost invariant = { λ published. IsPublished (record {
      rows = rows_of published.settings.entries.0;
      seeds = published.seeds.0;
    }) };
}

impl Published {
    ghost use Rattle.std.specs.Prelude.{true, All};
    ghost use Rattle.kr_config.specs.Kept.{plugins_in};
    ghost use Rattle.kr_config.specs.Providers.{is_provider};
    ghost use Rattle.kr_kms.specs.Seeds.{IsSeedRow};
    ghost use Rattle.kr_provider.specs.KeyPages.{secrets_in};
    ghost use Rattle.kr_provider.specs.Publication.{IsProviderList, IsPublished, list_at, writer_at};
    ghost use Rattle.kr_provider.specs.inner.Scan.{AreAmong, AreNamedIn, HasSeed, HaveSeeds, IsAmong};

    /// The entries of the settings.
    pub(crate) fn entries(&self) -> &[Entry]
        ensures rows { rows_of result.now ≡ self.now.rows }
        ensures kept { IsPublished self.now }
    {
        self.settings.get().entries.as_slice()
    }

    /// The seeds.
    pub(crate) fn seeds(&self) -> &[SeedRow]
        ensures { result.now ≡ self.now.seeds }
    {
        self.seeds.as_slice()
    }

    /// The providers of the resource.
    pub fn resource_list(&self, resource: &str) -> &[Who]
        ensures list { result.now ≡ list_at self.now resource.now }
        ensures kept { IsPublished self.now }
    {
        self.settings.get().resource_list(resource)
    }

    /// The provider that writes values of the resource.
    pub(crate) fn resource_writer(&self, resource: &str) -> &Who
        ensures writer { result.now ≡ writer_at self.now resource.now }
        ensures provider { is_provider result.now ≡ true }
        ensures among { IsAmong (secrets_in self.now.rows) result.now }
        ensures seed { HasSeed self.now.seeds result.now }
        ensures rows { All IsSeedRow self.now.seeds }
    {
        let list = self.listed(resource);
        list_writer(list)
    }

    /// The providers of the resource, with what settings keep of them.
    pub(crate) fn listed(&self, resource: &str) -> &[Who]
        ensures list { result.now ≡ list_at self.now resource.now }
        ensures rules { IsProviderList result.now }
        ensures among { AreAmong (secrets_in self.now.rows) result.now }
        ensures named { AreNamedIn (plugins_in self.now.rows) result.now }
        ensures seeds { HaveSeeds self.now.seeds result.now }
        ensures rows { All IsSeedRow self.now.seeds }
    {
        self.resource_list(resource)
    }

    /// Tells what its type keeps: the rules of settings, and a wrapped seed for each plugin.
    pub fn known(&self)
        ensures { IsPublished self.now }
    {
        let _entries = self.entries();
    }
}

/// The first of a list.
fn list_writer(list: &[Who]) -> &Who
    requires { IsProviderList list.now }
    ensures writer { result.now ≡ writer_of list.now }
    ensures provider { is_provider result.now ≡ true }
{
    &list[0]
}

/// Publishes settings: for each plugin that they name, in the order of the names' bytes, it asks
/// the status, draws a seed and lets the plugin wrap it. The first refusal ends it. Settings that
/// name no plugin need no memory.
pub fn publish<L: Kms, D: Dice>(
    alloc: Global,
    settings: Shared<Settings>,
    links: &mut Links<L>,
    dice: &mut D,
) -> Result<Published, PublishNo>
    requires links { HasLinks (names_of L.link links.old) (rows_of settings.entries.0) }
    ensures published { Publishes L.link D.left D.count (rows_of settings.entries.0)
        links.old dice.old result links.new dice.new }
    ensures asked { AskedOnly L.link (plugins_in (rows_of settings.entries.0)) links.old links.new }
    ensures later { D.count dice.old ≤ D.count dice.new }
    ensures none { names_plugin (rows_of settings.entries.0) ≡ false
        → (result ≡ Ok (record { rows = rows_of settings.entries.0; seeds = [] }))
        × (links.new ≡ links.old) × (dice.new ≡ dice.old) }
    ensures exchanged { Talk (Among L.step) links.old links.new
        (PublishesBy D.left D.count (rows_of settings.entries.0) dice.old result dice.new) }
{
    let seeds = match make_seeds(alloc, settings.get(), links, dice) {
        Ok(seeds) => seeds,
        Err(why) => {
            drop(settings);
            return Err(why);
        }
    };
    Ok(Published { settings, seeds })
}

/// Whether the settings name a plugin.
pub fn names_plugin(settings: &Settings) -> bool
    ensures { result ≡ names_plugin (rows_of settings.now.entries.0) }
{
    any_names(settings.entries.as_slice())
}

/// Whether one of the entries names a plugin.
fn any_names(entries: &[Entry]) -> bool
    ensures { result ≡ list_any (λ entry. list_any is_kms entry.providers.0) entries.now }
{
    entries
        .iter()
        .any(|entry| has_plugin(entry.providers.as_slice()))
}

/// Whether one of the providers is a plugin.
fn has_plugin(providers: &[Who]) -> bool
    ensures { result ≡ list_any is_kms providers.now }
{
    providers.iter().any(|who| who.is_kms())
}
