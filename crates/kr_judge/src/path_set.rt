//! Paths in their order.
ghost use Rattle.std.specs.Prelude.{◌≡◌, [], length, OnOk, OnErr};
ghost use Rattle.std.specs.Option.{option_map};
ghost use Rattle.std.specs.BTreeMap.{is_at};
ghost use Rattle.std.specs.BTreeSet.{insert_key};
ghost use Rattle.std.specs.Set.{remove_key};
ghost use Rattle.kr_config.specs.Nexts.{name_cmp};
ghost use Rattle.kr_judge.specs.Verdicts.{first};

use kr_base::NoMemory;
use kr_paths::{Path, PathMap};
use std::alloc::Global;
use std::marker::Model;

/// Paths in their order, each once. Contracts see the list of them.
#[derive(Drop)]
pub struct PathSet {
    // The numbers say nothing.
    paths: PathMap,
}

impl Model for PathSet {
    ghost use Rattle.std.specs.Prelude.{ℕ, List};
    ghost use Rattle.std.specs.Map.{keys_of};

    ghost Value = { List (List ℕ) };

    ghost view = { λ set. keys_of set.paths };
}

impl PathSet {
    /// No paths.
    pub(crate) fn new(alloc: Global) -> PathSet
        ensures { result ≡ [] }
    {
        PathSet {
            paths: PathMap::new(alloc),
        }
    }

    /// How many there are.
    #[tactic(auto, using(crate::proofs::Keys::keys_length))]
    pub fn len(&self) -> usize
        ensures { result ≡ length self.now }
    {
        self.paths.len()
    }

    /// The first path.
    pub fn first(&self) -> Option<&str>
        ensures { option_map (λ path. path.now) result ≡ first self.now }
    {
        match self.paths.first() {
            Some((path, _)) => Some(path.as_str()),
            None => None,
        }
    }

    /// Puts the path to its place, unless it is there. It is shared, not copied.
    #[tactic(auto, using(crate::proofs::Keys::key_put))]
    pub(crate) fn insert(&mut self, path: &Path) -> Result<(), NoMemory>
        ensures ok { OnOk result (self.new ≡ insert_key name_cmp self.old path.now) }
        ensures err { OnErr result (self.new ≡ self.old) }
    {
        match self.paths.insert(path.share()?, 0) {
            Ok(()) => Ok(()),
            Err(NoMemory) => Err(NoMemory),
        }
    }

    /// Takes the path away where it is there.
    #[tactic(auto, using(crate::proofs::Keys::key_gone))]
    pub(crate) fn remove(&mut self, path: &str)
        ensures { self.new ≡ remove_key (is_at (name_cmp path.now)) self.old }
    {
        let _was_there = self.paths.remove(path);
    }
}
