//! The places of each resource's pairs.
ghost use Rattle.std.specs.Prelude.{◌≡◌, ◌≢◌, ◌++◌, ◌==◌, [], ◌∷◌, not, None, Some, IsSome, IsOk, IfOk, OnOk, OnErr};
ghost use Rattle.std.specs.List.{filter};
ghost use Rattle.std.specs.Str.{bytes_eq};
ghost use Rattle.kr_judge.specs.inner.Places.{group_at, places_at, IsPutAt, AreLeftAt, MovesTo};

use kr_base::{NoMemory, Text};
use std::alloc::Global;
use std::collections::BTreeMap;
use std::marker::Model;

/// Places at each of some resources. Contracts see the list of both, in the order of the resources.
#[derive(Drop)]
pub struct PlaceMap {
    groups: BTreeMap<String, Vec<usize>>,
}

impl Model for PlaceMap {
    ghost use Rattle.std.specs.Prelude.{map};
    ghost use Rattle.std.specs.String.{string_bytes};
    ghost use Rattle.kr_judge.specs.inner.Places.{Groups};

    ghost Value = { Groups };

    ghost view = { λ own. map (λ e. (string_bytes e.0, e.1.items)) own.groups.entries };
}

impl PlaceMap {
    /// No resources.
    pub fn new(alloc: Global) -> PlaceMap
        ensures { result ≡ [] }
    {
        PlaceMap {
            groups: BTreeMap::new(alloc),
        }
    }

    /// The places at the resource.
    pub fn resource_places(&self, resource: &str) -> &[usize]
        ensures { result.now ≡ places_at self.now resource.now }
    {
        match self.groups.get(resource) {
            Some(places) => places.as_slice(),
            None => &[],
        }
    }

    /// Puts the places at the resource. Only a resource that isn't there takes memory.
    fn put(&mut self, resource: Text, places: Vec<usize>) -> Result<(), NoMemory>
        ensures ok { OnOk result (IsPutAt resource (Some places.items) self.old self.new) }
        ensures err { OnErr result (self.new ≡ self.old) }
        ensures there { IsSome (group_at self.old resource) → IsOk result }
    {
        match self.groups.insert(resource.into_string(), places) {
            Ok(before) => {
                drop(before);
                Ok(())
            }
            Err(_) => Err(NoMemory),
        }
    }

    /// Takes the resource away.
    fn remove(&mut self, resource: &str)
        ensures { IsPutAt resource.now None self.old self.new }
    {
        let places = self.groups.remove(resource);
        drop(places);
    }

    /// One more place at the resource.
    pub fn add(&mut self, alloc: Global, resource: &str, place: usize) -> Result<(), NoMemory>
        ensures ok { OnOk result (IsPutAt resource.now
            (Some (places_at self.old resource.now ++ place ∷ [])) self.old self.new) }
        ensures err { OnErr result (self.new ≡ self.old) }
    {
        let all = with_place(alloc, self.resource_places(resource), place)?;
        let key = Text::copy(alloc, resource)?;
        self.put(key, all)
    }

    /// The place leaves the one resource and comes to the other.
    pub fn move_place(
        &mut self,
        alloc: Global,
        from: &str,
        to: &str,
        place: usize,
    ) -> Result<(), NoMemory>
        ensures ok { OnOk result
            (MovesTo (bytes_eq from.now to.now) place from.now to.now self.old self.new) }
        ensures err { OnErr result (self.new ≡ self.old) }
    {
        if from == to {
            return Ok(());
        }
        let rest = without_place(alloc, self.resource_places(from), place)?;
        let key = Text::copy(alloc, from)?;
        self.add(alloc, to, place)?;
        self.leave(key, rest);
        Ok(())
    }

    /// These places are left at the resource. It takes no memory.
    #[tactic(auto, using(crate::proofs::Groups::left_none, crate::proofs::Groups::left_some))]
    fn leave(&mut self, resource: Text, rest: Vec<usize>)
        requires { rest.items ≢ [] → IsSome (group_at self.old resource) }
        ensures { AreLeftAt resource rest.items self.old self.new }
    {
        if rest.is_empty() {
            self.remove(resource.as_str());
            drop((resource, rest));
            return;
        }
        match self.put(resource, rest) {
            Ok(()) => {}
            Err(NoMemory) => unreachable!(),
        }
    }
}

/// A copy of the places.
fn copied(alloc: Global, places: &[usize]) -> Result<Vec<usize>, NoMemory>
    ensures { IfOk result (λ all. all.items ≡ places.now) }
{
    let mut all = Vec::new(alloc);
    all.extend_from_slice(places)?;
    Ok(all)
}

/// The places, and behind them one more.
fn with_place(alloc: Global, places: &[usize], place: usize) -> Result<Vec<usize>, NoMemory>
    ensures { IfOk result (λ all. all.items ≡ places.now ++ place ∷ []) }
{
    let mut all = copied(alloc, places)?;
    all.push(place)?;
    Ok(all)
}

/// The places but one.
fn without_place(alloc: Global, places: &[usize], place: usize) -> Result<Vec<usize>, NoMemory>
    ensures { IfOk result (λ rest. rest.items ≡ filter (λ n. not (n == place)) places.now) }
{
    let mut rest = copied(alloc, places)?;
    rest.retain(|own| *own != place);
    Ok(rest)
}
