//! The bench of one worker: it seals and unseals by the configuration that it adopted last.
ghost use Rattle.std.specs.Prelude.{◌≡◌, ◌↔◌, ◌≤◌, ◌<◌, [], ◌∷◌, length, Contains, Some, None, IsErr, IsSome, IfOk, IfErr, IfSome, OnOk, OnErr};
ghost use Rattle.kr_base.specs.Limits.{path_limit, value_limit};
ghost use Rattle.kr_config.specs.Kept.{count_entry_keys, plugins_in, rows_of};
ghost use Rattle.kr_base.specs.Walks.{Talk};
ghost use Rattle.kr_provider.specs.AskedLinks.{Among, AskedOnly};
ghost use Rattle.kr_provider.specs.BenchKeys.{AdoptCall, ClearsKeys, Does, adoption_of};
ghost use Rattle.kr_provider.specs.Exchanges.{PublishesBy, ReadsBy, TellsKeyIdAt};
ghost use Rattle.kr_provider.specs.KeyPages.{HoldKeys, adopted_secrets, size_of, free_pages};
ghost use Rattle.kr_provider.specs.Names.{HasLinks, names_of};
ghost use Rattle.kr_provider.specs.Publication.{list_at, writer_at};
ghost use Rattle.kr_provider.specs.Publishing.{Publishes, TellsKeyIdOf};
ghost use Rattle.kr_provider.specs.Sealing.{Seals, IsSealing};
ghost use Rattle.kr_provider.specs.Unsealing.{HeedsCache, UnsealsBy};

use crate::adoption::Adoption;
use crate::links::Links;
use crate::making::plugin_refusal;
use crate::published::{Published, publish};
use crate::refusal::{Opened, PagesFull, PublishNo, SealNo, UnsealNo};
use crate::sealing::{seal_value, value_overhead};
use crate::values::unseal_for_resource;
use kr_base::{Bytes, Dice, NoMemory, Shared, Text};
use kr_config::Settings;
use kr_kms::{Kms, SeedCache};
use std::alloc::Global;
use std::marker::Model;

/// Links, a random source, the configuration that was adopted last with a page for each of its
/// keys, and the seeds that plugins unwrapped. It can't be dropped: `close` gives the links and the
/// random source back.
pub struct Bench<L: Kms, D: Dice> {
    links: Links<L>,
    dice: D,
    adoption: Adoption,
    cache: SeedCache,
}

impl<L: Kms, D: Dice> Model for Bench<L, D> {
    ghost use Rattle.kr_provider.specs.BenchState.{BenchState};
    ghost use Rattle.kr_provider.specs.Names.{HasAdoptedLinks, names_of};

    ghost Value = { BenchState L D };

    ghost view = { λ bench. record {
      links = bench.links;
      dice = bench.dice;
      published = bench.adoption.published;
      pages = bench.adoption.pages;
      cache = bench.cache;
    } };

    // There is a link to each plugin of the configuration.
    ghost invariant = { λ bench. HasAdoptedLinks
        (names_of L.link bench.links) bench.adoption.published };
}

impl<L: Kms, D: Dice> Bench<L, D> {
    /// A bench that adopted nothing yet. `pages` is how many expanded keys it may keep, for which
    /// it makes the room, and `cache` how many unwrapped seeds. Where there is no memory the links
    /// and the random source come back.
    pub fn new(
        alloc: Global,
        links: Links<L>,
        dice: D,
        pages: u32,
        cache: u32,
    ) -> Result<Bench<L, D>, (NoMemory, Links<L>, D)>
        requires cache { 1 ≤ cache }
        ensures ok { IfOk result (λ bench. bench ≡ record {
          links = links;
          dice = dice;
          published = None;
          pages = free_pages pages;
          cache = record { rows = []; size = cache };
        }) }
        ensures returned { IfErr result (λ refused. (refused.1 ≡ links) × (refused.2 ≡ dice)) }
    {
        let Ok(cache) = SeedCache::new(alloc, cache) else {
            return Err((NoMemory, links, dice));
        };
        match Adoption::new(alloc, pages) {
            Ok(adoption) => Ok(Bench {
                links,
                dice,
                adoption,
                cache,
            }),
            Err(why) => {
                drop(cache);
                Err((why, links, dice))
            }
        }
    }

    /// Adopts a published configuration in place of the one before: the pages go back, and each key
    /// is expanded into one. It takes no memory. Where there are more keys than pages nothing
    /// changes.
    pub fn adopt(&mut self, published: Shared<Published>) -> Result<(), PagesFull>
        requires links { HasLinks (names_of L.link self.old.links) published.rows }
        ensures full { IsErr result ↔ (size_of self.old.pages < count_entry_keys published.rows) }
        ensures unchanged { OnErr result (self.new ≡ self.old) }
        ensures kept { OnOk result (self.new
            ≡ record self.old { published = Some published; pages = self.new.pages }) }
        ensures keys { HoldKeys (adopted_secrets self.new.published) self.new.pages }
        ensures size { size_of self.new.pages ≡ size_of self.old.pages }
        ensures does { Does self.old (AdoptCall published) self.new }
    {
        let adopted = self.adoption.adopt(published);
        let _count = self.adoption.keys();
        adopted
    }

    /// Lets the adopted configuration go, if there is one: each of its pages goes back and is zero.
    /// Links, random source and unwrapped seeds stay. It takes no memory.
    pub fn let_go(&mut self)
        ensures kept { self.new ≡ record self.old { published = None; pages = self.new.pages } }
        ensures cleared { ClearsKeys (adoption_of self.old) (adoption_of self.new) }
    {
        self.adoption.let_go();
    }

    /// How many keys stand expanded in a page: those of the adopted configuration.
    pub fn keys(&self) -> usize
        ensures out { result ≡ length self.now.pages.out }
        ensures keys { HoldKeys (adopted_secrets self.now.published) self.now.pages }
    {
        self.adoption.keys()
    }

    /// How often the random source failed so far, up to the greatest number.
    pub fn dice_faults(&self) -> u64
        ensures { result ≡ D.count self.now.dice }
    {
        self.dice.faults()
    }

    /// The value of the data for the resource at the path, which may be empty, by the writer of the
    /// resource's list. No plugin is asked.
    pub fn seal(
        &mut self,
        alloc: Global,
        resource: &str,
        path: &str,
        plain: &[u8],
    ) -> Result<Bytes, SealNo>
        requires adopted { IsSome self.old.published }
        requires path { length path.now ≤ path_limit }
        ensures sealed { IfSome self.old.published (λ p. Seals D.left D.count p.seeds
            (writer_at p resource.now) path.now plain.now self.old.dice self.new.dice result) }
        ensures sealing { IfSome self.old.published (λ p. IfOk result
            (λ value. IsSealing p resource.now path.now plain.now value)) }
        ensures size { IfOk result (λ value. length value ≤ value_limit) }
        ensures later { D.count self.old.dice ≤ D.count self.new.dice }
        ensures kept { self.new ≡ record self.old { dice = self.new.dice } }
    {
        let beside = writer_overhead(&self.adoption, resource, plain.len());
        match with_room(alloc, plain, beside) {
            Ok(plain) => seal_for_resource(
                alloc,
                &self.adoption,
                resource,
                path,
                plain,
                &mut self.dice,
            ),
            Err(_) => Err(SealNo::NoMemory),
        }
    }

    /// The same, in the buffer of data that are given away. It grows by what is missing alone,
    /// since its room stays with the value.
    pub fn seal_in_place(
        &mut self,
        alloc: Global,
        resource: &str,
        path: &str,
        plain: Bytes,
    ) -> Result<Bytes, SealNo>
        requires adopted { IsSome self.old.published }
        requires path { length path.now ≤ path_limit }
        ensures sealed { IfSome self.old.published (λ p. Seals D.left D.count p.seeds
            (writer_at p resource.now) path.now plain self.old.dice self.new.dice result) }
        ensures sealing { IfSome self.old.published (λ p. IfOk result
            (λ value. IsSealing p resource.now path.now plain value)) }
        ensures size { IfOk result (λ value. length value ≤ value_limit) }
        ensures later { D.count self.old.dice ≤ D.count self.new.dice }
        ensures kept { self.new ≡ record self.old { dice = self.new.dice } }
    {
        let beside = writer_overhead(&self.adoption, resource, plain.as_slice().len());
        match grown(plain, beside) {
            Ok(plain) => seal_for_resource(
                alloc,
                &self.adoption,
                resource,
                path,
                plain,
                &mut self.dice,
            ),
            Err(_) => Err(SealNo::NoMemory),
        }
    }

    /// What the stored value of the resource at the path, which may be empty, holds. The first
    /// refusal that applies is the answer: `NoProvider` where no provider of the list reads it; for
    /// a plugin those of its object, then that the plugin failed, then `SeedLength`; those of its
    /// body.
    pub fn unseal(
        &mut self,
        alloc: Global,
        resource: &str,
        path: &str,
        bytes: &[u8],
    ) -> Result<Opened, UnsealNo>
        requires adopted { IsSome self.old.published }
        requires path { length path.now ≤ path_limit }
        requires fits { length bytes.now ≤ value_limit }
        ensures opened { IfSome self.old.published (λ p. UnsealsBy L.link p.seeds
            (list_at p resource.now) path.now bytes.now self.old.links result self.new.links) }
        ensures cached { IfSome self.old.published (λ p. HeedsCache self.old.cache.rows
            p.seeds (list_at p resource.now) path.now bytes.now self.old.links result
            self.new.links) }
        ensures exchanged { IfSome self.old.published (λ p. Talk (Among L.step) self.old.links
            self.new.links (ReadsBy p.seeds (list_at p resource.now) path.now bytes.now
            self.old.cache result self.new.cache)) }
        ensures kept { self.new
            ≡ record self.old { links = self.new.links; cache = self.new.cache } }
    {
        match Bytes::copy(alloc, bytes) {
            Ok(value) => self.unseal_in_place(alloc, resource, path, value),
            Err(_) => Err(UnsealNo::NoMemory),
        }
    }

    /// The same, in the buffer of a stored value that is given away.
    pub fn unseal_in_place(
        &mut self,
        alloc: Global,
        resource: &str,
        path: &str,
        value: Bytes,
    ) -> Result<Opened, UnsealNo>
        requires adopted { IsSome self.old.published }
        requires path { length path.now ≤ path_limit }
        requires fits { length value ≤ value_limit }
        ensures opened { IfSome self.old.published (λ p. UnsealsBy L.link p.seeds
            (list_at p resource.now) path.now value self.old.links result self.new.links) }
        ensures cached { IfSome self.old.published (λ p. HeedsCache self.old.cache.rows
            p.seeds (list_at p resource.now) path.now value self.old.links result
            self.new.links) }
        ensures exchanged { IfSome self.old.published (λ p. Talk (Among L.step) self.old.links
            self.new.links (ReadsBy p.seeds (list_at p resource.now) path.now value
            self.old.cache result self.new.cache)) }
        ensures kept { self.new
            ≡ record self.old { links = self.new.links; cache = self.new.cache } }
    {
        unseal_for_resource(
            alloc,
            &self.adoption,
            &mut self.links,
            &mut self.cache,
            resource,
            path,
            value,
        )
    }

    /// The id of the key that the plugin of this name wraps with now.
    pub fn key_id(&mut self, alloc: Global, name: &str) -> Result<Text, PublishNo>
        requires link { Contains (names_of L.link self.old.links) name.now }
        ensures told { TellsKeyIdOf L.link name.now self.old.links result self.new.links }
        ensures asked { AskedOnly L.link (name.now ∷ []) self.old.links self.new.links }
        ensures exchanged { Talk (Among L.step) self.old.links self.new.links
            (TellsKeyIdAt name.now result) }
        ensures kept { self.new ≡ record self.old { links = self.new.links } }
    {
        plugin_key_id(alloc, name, &mut self.links)
    }

    /// Publishes settings with the bench's own links and random source. The adopted configuration
    /// stays.
    pub fn publish(
        &mut self,
        alloc: Global,
        settings: Shared<Settings>,
    ) -> Result<Published, PublishNo>
        requires links { HasLinks (names_of L.link self.old.links) (rows_of settings.entries.0) }
        ensures published { Publishes L.link D.left D.count (rows_of settings.entries.0)
            self.old.links self.old.dice result self.new.links self.new.dice }
        ensures asked { AskedOnly L.link (plugins_in (rows_of settings.entries.0)) self.old.links
            self.new.links }
        ensures later { D.count self.old.dice ≤ D.count self.new.dice }
        ensures exchanged { Talk (Among L.step) self.old.links self.new.links
            (PublishesBy D.left D.count (rows_of settings.entries.0) self.old.dice result
            self.new.dice) }
        ensures kept { self.new
            ≡ record self.old { links = self.new.links; dice = self.new.dice } }
    {
        publish(alloc, settings, &mut self.links, &mut self.dice)
    }

    /// Gives the links and the random source back.
    pub fn close(self) -> (Links<L>, D)
        ensures { (result.0 ≡ self.links) × (result.1 ≡ self.dice) }
    {
        let Bench {
            links,
            dice,
            adoption,
            cache: _,
        } = self;
        adoption.end();
        (links, dice)
    }
}

/// The value by the writer of the resource's list, made in the data's buffer.
fn seal_for_resource<D: Dice>(
    alloc: Global,
    adoption: &Adoption,
    resource: &str,
    path: &str,
    plain: Bytes,
    dice: &mut D,
) -> Result<Bytes, SealNo>
    requires adopted { IsSome adoption.now.published }
    requires path { length path.now ≤ path_limit }
    ensures sealed { IfSome adoption.now.published (λ p. Seals D.left D.count p.seeds
        (writer_at p resource.now) path.now plain dice.old dice.new result) }
    ensures sealing { IfSome adoption.now.published (λ p. IfOk result
        (λ value. IsSealing p resource.now path.now plain value)) }
    ensures size { IfOk result (λ value. length value ≤ value_limit) }
    ensures later { D.count dice.old ≤ D.count dice.new }
{
    let published = adoption.published();
    let writer = published.resource_writer(resource);
    let words = adoption.words(writer);
    plain.known();
    seal_value(alloc, writer, published.seeds(), words, path, plain, dice)
}

/// How many bytes a value of the resource has beside so many bytes of data.
fn writer_overhead(adoption: &Adoption, resource: &str, size: usize) -> usize
    requires { IsSome adoption.now.published }
{
    let published = adoption.published();
    value_overhead(published.resource_writer(resource), published.seeds(), size)
}

/// The data, with room for so many bytes beside them.
fn grown(plain: Bytes, beside: usize) -> Result<Bytes, NoMemory>
    ensures { IfOk result (λ same. same ≡ plain) }
{
    let mut bytes = plain.into_vec();
    match bytes.reserve_exact(beside) {
        Ok(()) => Ok(Bytes::from_vec(bytes)),
        Err(_) => {
            drop(bytes);
            Err(NoMemory)
        }
    }
}

/// A copy of the data, with room for so many bytes beside them.
fn with_room(alloc: Global, plain: &[u8], beside: usize) -> Result<Bytes, NoMemory>
    ensures { IfOk result (λ copy. copy ≡ plain.now) }
{
    let Ok(mut copy) = Vec::with_capacity(alloc, plain.len().saturating_add(beside)) else {
        return Err(NoMemory);
    };
    match copy.extend_from_slice(plain) {
        Ok(()) => Ok(Bytes::from_vec(copy)),
        Err(_) => {
            drop(copy);
            Err(NoMemory)
        }
    }
}

/// The id of the key that the plugin of this name wraps with now.
fn plugin_key_id<L: Kms>(alloc: Global, name: &str, links: &mut Links<L>) -> Result<Text, PublishNo>
    requires { Contains (names_of L.link links.old) name.now }
    ensures told { TellsKeyIdOf L.link name.now links.old result links.new }
    ensures asked { AskedOnly L.link (name.now ∷ []) links.old links.new }
    ensures exchanged { Talk (Among L.step) links.old links.new (TellsKeyIdAt name.now result) }
{
    let Ok(own) = Text::copy(alloc, name) else {
        return Err(PublishNo::NoMemory);
    };
    match links.key_id(alloc, name) {
        Ok(key_id) => {
            drop(own);
            Ok(key_id)
        }
        Err(why) => Err(plugin_refusal(own, why)),
    }
}
