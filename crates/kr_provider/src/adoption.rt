//! The configuration that a bench adopted last, and the pages of its keys.
ghost use Rattle.std.specs.Prelude.{◌≡◌, ◌↔◌, ◌<◌, [], Some, None, length, IsErr, IsSome, IfOk, IfSome, OnOk, OnErr};
ghost use Rattle.kr_config.specs.Kept.{count_entry_keys};
ghost use Rattle.kr_provider.specs.KeyPages.{HoldKeys, adopted_secrets, secrets_in, size_of, free_pages};
ghost use Rattle.kr_provider.specs.inner.Scan.{HasWords, IsAmong};

use crate::adopted::{count_keys, keep_all, provider_key_words};
use crate::key_pages::KeyPages;
use crate::published::Published;
use crate::refusal::PagesFull;
use kr_base::{NoMemory, Shared};
use kr_config::Who;
use std::alloc::Global;
use std::marker::Model;

/// A published configuration, if one was adopted, with a page for each of its keys.
pub(crate) struct Adoption {
    published: Option<Shared<Published>>,
    pages: KeyPages,
}

impl Model for Adoption {
    ghost use Rattle.kr_provider.specs.BenchState.{Adoption};
    ghost use Rattle.kr_provider.specs.KeyPages.{HoldKeys, adopted_secrets};

    ghost Value = { Adoption };

    ghost view = { λ adoption. record {
      published = adoption.published;
      pages = adoption.pages;
    } };

    ghost invariant = { λ adoption. HoldKeys (adopted_secrets adoption.published) adoption.pages };
}

impl Adoption {
    /// No configuration yet, and so many pages.
    pub(crate) fn new(alloc: Global, pages: u32) -> Result<Adoption, NoMemory>
        ensures { IfOk result
            (λ adoption. adoption ≡ record { published = None; pages = free_pages pages }) }
    {
        let pages = KeyPages::new(alloc, pages)?;
        Ok(Adoption {
            published: None,
            pages,
        })
    }

    /// Adopts a configuration, where there are as many pages as it has keys: the pages go back, and
    /// each key is expanded into one.
    pub(crate) fn adopt(&mut self, published: Shared<Published>) -> Result<(), PagesFull>
        ensures full { IsErr result ↔ (size_of self.old.pages < count_entry_keys published.rows) }
        ensures unchanged { OnErr result (self.new ≡ self.old) }
        ensures kept { OnOk result (self.new.published ≡ Some published) }
        ensures size { size_of self.new.pages ≡ size_of self.old.pages }
    {
        if self.pages.size() < count_keys(published.get().entries()) {
            drop(published);
            return Err(PagesFull);
        }
        self.pages.clear();
        keep_all(published.get().entries(), &mut self.pages);
        self.published = Some(published);
        Ok(())
    }

    /// Lets the configuration go: its pages go back.
    pub(crate) fn let_go(&mut self)
        ensures none { self.new.published ≡ None }
        ensures keys { HoldKeys [] self.new.pages }
        ensures size { size_of self.new.pages ≡ size_of self.old.pages }
    {
        self.published = None;
        self.pages.clear()
    }

    /// How many keys there are.
    pub(crate) fn keys(&self) -> usize
        ensures out { result ≡ length self.now.pages.out }
        ensures keys { HoldKeys (adopted_secrets self.now.published) self.now.pages }
    {
        self.pages.count()
    }

    /// The configuration.
    pub(crate) fn published(&self) -> &Published
        requires { IsSome self.now.published }
        ensures { self.now.published ≡ Some result.now }
    {
        let Some(published) = &self.published else {
            unreachable!();
        };
        published.get()
    }

    /// The words of the key of a provider of the configuration.
    pub(crate) fn words(&self, who: &Who) -> &[u32; 60]
        requires adopted { IsSome self.now.published }
        requires among { IfSome self.now.published (λ p. IsAmong (secrets_in p.rows) who.now) }
        ensures { HasWords who.now result.now }
    {
        provider_key_words(self.published().entries(), &self.pages, who)
    }

    /// Gives all pages back.
    pub(crate) fn end(self) {
        let Adoption {
            published: _,
            pages,
        } = self;
        pages.end();
    }
}
