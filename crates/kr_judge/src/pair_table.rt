//! The pairs of resources and providers that some path needs, found by their resource.
ghost use Rattle.std.specs.Prelude.{◌≡◌, ◌≢◌, ℕ, ◌<◌, [], length, position, Contains, IfOk, IfSome, IfNone, OnOk, OnErr};
ghost use Rattle.std.specs.BTreeMap.{is_at};
ghost use Rattle.std.specs.BTreeSet.{insert_key};
ghost use Rattle.std.specs.Set.{remove_key};
ghost use Rattle.kr_config.specs.Nexts.{name_cmp};
ghost use Rattle.kr_judge.specs.inner.Indexes.{is_pair, labels_of, AreApart, AreAsBefore, IsChangedAt, IsMoved};
ghost use Rattle.kr_judge.specs.inner.Places.{label_at, paths_at, AreWithin, GrowsFor};

use crate::free_places::{find_free, take_path};
use crate::new_pairs::{add_pair, give_place, new_pair};
use crate::pair::Pair;
use crate::path_set::PathSet;
use crate::place_map::PlaceMap;
use kr_base::NoMemory;
use kr_config::Who;
use kr_paths::Path;
use std::alloc::Global;
use std::marker::Model;

/// Pairs at places that stay, as contracts see them: for each resource the places of its pairs, and
/// the places that may be free, in room that is reserved.
#[derive(Drop)]
pub struct PairTable {
    pairs: Vec<Pair>,
    groups: PlaceMap,
    free: Vec<usize>,
    alloc: Global,
}

impl Model for PairTable {
    ghost use Rattle.std.specs.Prelude.{◌≤◌, List, vec_len, vec_capacity};
    ghost use Rattle.kr_judge.specs.declared.pair.Pair.{Pair};
    ghost use Rattle.kr_judge.specs.inner.Places.{AreGrouped, AreFree};

    ghost Value = { List Pair };

    ghost view = { λ table. table.pairs.items };

    ghost invariant = { λ table. AreGrouped table.groups table.pairs.items
        × AreFree table.free.items table.pairs.items
        × (vec_len table.pairs ≤ vec_capacity table.free) };
}

impl PairTable {
    /// No pairs.
    #[tactic(auto, using(crate::proofs::Groups::none_grouped, crate::proofs::Frees::none_free))]
    pub fn new(alloc: Global) -> PairTable
        ensures { result ≡ [] }
    {
        PairTable {
            pairs: Vec::new(alloc),
            groups: PlaceMap::new(alloc),
            free: Vec::new(alloc),
            alloc,
        }
    }

    /// All pairs by their places.
    pub fn as_slice(&self) -> &[Pair]
        ensures { result.now ≡ self.now }
    {
        self.pairs.as_slice()
    }

    /// The place of the pair of this resource and this provider.
    #[tactic(auto, using(crate::proofs::Groups::found_first, crate::proofs::Groups::found_none))]
    pub fn find(&self, resource: &str, who: &Who) -> Option<usize>
        requires { AreApart (labels_of self.now) }
        ensures { result ≡ position (is_pair resource.now who.now) self.now }
    {
        find_pair(
            self.pairs.as_slice(),
            self.groups.resource_places(resource),
            resource,
            who,
        )
    }

    /// The place of the pair of this resource and this provider. Where there is none, one that no
    /// path needs gives its place to it; only where each has a path there is one pair more.
    pub fn pair_place(&mut self, resource: &str, who: &Who) -> Result<usize, NoMemory>
        requires { AreApart (labels_of self.old) }
        ensures place { IfOk result (λ place. (place < length self.new)
            × (label_at self.new place ≡ (resource.now, who.now))) }
        ensures before { AreAsBefore self.old self.new }
        ensures apart { AreApart (labels_of self.new) }
        ensures grows { GrowsFor self.old self.new }
    {
        if let Some(place) = self.find(resource, who) {
            return Ok(place);
        }
        let pair = new_pair(self.pairs.as_slice(), self.alloc, resource, who)?;
        let free = find_free(&mut self.pairs, &mut self.free);
        match free {
            Some(place) => {
                give_place(&mut self.pairs, &mut self.groups, self.alloc, place, pair)?;
                Ok(place)
            }
            None => {
                let place = self.pairs.len();
                let (pairs, groups) = (&mut self.pairs, &mut self.groups);
                add_pair(pairs, groups, &mut self.free, self.alloc, pair)?;
                Ok(place)
            }
        }
    }

    /// Puts the path among those of the pair.
    pub fn put_path(&mut self, place: usize, path: &Path) -> Result<(), NoMemory>
        requires { place < length self.old }
        ensures ok { OnOk result (IsChangedAt (λ paths. insert_key name_cmp paths path.now) place
            self.old self.new) }
        ensures err { OnErr result (self.new ≡ self.old) }
        ensures length { length self.new ≡ length self.old }
    {
        self.pairs[place].paths.insert(path)
    }

    /// Takes the path from those of the pair.
    pub fn take_path(&mut self, place: usize, path: &str)
        requires { place < length self.old }
        ensures taken { IsChangedAt (remove_key (is_at (name_cmp path.now))) place
            self.old self.new }
        ensures length { length self.new ≡ length self.old }
    {
        take_path(&mut self.pairs, &mut self.free, place, path);
    }

    /// Takes the path from those of one pair, unless the other is the same.
    #[tactic(auto, using(crate::proofs::Pairs::as_it_is, crate::proofs::Pairs::as_other))]
    pub fn take_unless(&mut self, own: usize, place: usize, path: &str)
        requires { own < length self.old }
        ensures moved { IsMoved (remove_key (is_at (name_cmp path.now))) own place
            self.old self.new }
        ensures labels { labels_of self.new ≡ labels_of self.old }
        ensures length { length self.new ≡ length self.old }
    {
        if own == place {
            return;
        }
        self.take_path(own, path);
    }

    /// The paths of the pair at the place.
    pub fn paths(&self, place: usize) -> &PathSet
        requires { place < length self.now }
        ensures { result.now ≡ paths_at self.now place }
    {
        &self.pairs[place].paths
    }
}

/// Of these places that of the pair of this resource and this provider.
#[tactic(auto, using(crate::proofs::Groups::among_within))]
fn find_pair(pairs: &[Pair], places: &[usize], resource: &str, who: &Who) -> Option<usize>
    requires { AreWithin places.now (length pairs.now) }
    ensures some { IfSome result (λ place. (place < length pairs.now)
        × (label_at pairs.now place ≡ (resource.now, who.now))) }
    ensures none { IfNone result ((place : ℕ) → Contains places.now place
        → label_at pairs.now place ≢ (resource.now, who.now)) }
{
    for place in places {
        if pairs[*place].matches_labels(resource, who) {
            return Some(*place);
        }
    }
    None
}
