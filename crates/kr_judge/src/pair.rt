//! Pairs of a resource and a provider, with the paths that need them.
ghost use Rattle.std.specs.Prelude.{◌≡◌, ◌≢◌, [], true, false, IfOk};
ghost use Rattle.std.specs.BTreeMap.{is_at};
ghost use Rattle.std.specs.Set.{remove_key};
ghost use Rattle.kr_config.specs.Nexts.{name_cmp};
ghost use Rattle.kr_judge.specs.inner.Indexes.{is_pair};

use crate::path_set::PathSet;
use crate::provider_lists::is_same;
use kr_base::{NoMemory, Shared, Text};
use kr_config::Who;
use std::alloc::Global;

/// A resource and a provider, and the paths of the resource that need the provider.
#[derive(Drop)]
pub struct Pair {
    pub resource: Text,
    /// Shared with other pairs of the provider, since a key's secret is in it.
    pub who: Shared<Who>,
    pub paths: PathSet,
    /// Whether its place is among those that may be free.
    pub listed: bool,
}

impl Pair {
    /// A pair without paths, whose place is listed.
    pub fn new(alloc: Global, resource: &str, who: Shared<Who>) -> Result<Pair, NoMemory>
        ensures { IfOk result (λ pair. pair ≡ record {
          resource = resource.now;
          who = who;
          paths = [];
          listed = true;
        }) }
    {
        match Text::copy(alloc, resource) {
            Ok(resource) => Ok(Pair {
                resource,
                who,
                paths: PathSet::new(alloc),
                listed: true,
            }),
            Err(NoMemory) => {
                drop(who);
                Err(NoMemory)
            }
        }
    }

    /// Whether it is of this resource and this provider.
    pub fn matches_labels(&self, resource: &str, who: &Who) -> bool
        ensures { result ≡ is_pair resource.now who.now self.now }
    {
        self.resource.as_str() == resource && is_same(self.who.get(), who)
    }

    /// Whether no path needs it.
    #[tactic(auto, using(crate::proofs::Frees::no_paths, crate::proofs::Frees::some_paths))]
    pub fn is_free(&self) -> bool
        ensures yes { result ≡ true → self.now.paths ≡ [] }
        ensures no { result ≡ false → self.now.paths ≢ [] }
    {
        self.paths.len() == 0
    }

    /// Its place is no longer listed.
    pub fn unlist(&mut self)
        ensures { self.new ≡ record self.old { listed = false } }
    {
        self.listed = false;
    }

    /// Takes the path from its paths. Tells whether its place is to be listed now.
    pub fn take(&mut self, path: &str) -> bool
        ensures resource { self.new.resource ≡ self.old.resource }
        ensures who { self.new.who ≡ self.old.who }
        ensures paths { self.new.paths ≡ remove_key (is_at (name_cmp path.now)) self.old.paths }
        ensures stays { result ≡ false → self.new.listed ≡ self.old.listed }
        ensures empty { result ≡ false → self.new.paths ≡ [] → self.new.listed ≡ true }
        ensures now { result ≡ true
            → (self.old.listed ≡ false) × (self.new.listed ≡ true) }
    {
        self.paths.remove(path);
        if self.listed || !self.is_free() {
            return false;
        }
        self.listed = true;
        true
    }
}
