//! Numbers at paths.
ghost use Rattle.std.specs.Prelude.{◌≡◌, ◌<◌, ◌≤◌, ◌+◌, [], length, get_or, drop, true, false, Some, IsSome, IsOk, OnOk, OnErr};
ghost use Rattle.std.specs.Option.{option_map};
ghost use Rattle.std.specs.Map.{lookup, remove_entry};
ghost use Rattle.std.specs.BTreeMap.{insert_entry, is_at};
ghost use Rattle.kr_paths.specs.Paths.{path_cmp, AreSorted, first, successor};
ghost use Rattle.kr_paths.specs.inner.Parts.{AreParts, IsSpot, joined};

use crate::part::PathPart;
use crate::path::Path;
use crate::spot::{Spot, find, find_part};
use kr_base::NoMemory;
use std::alloc::Global;
use std::marker::Model;

/// A number at each of some paths. Contracts see the list of both, in the order of the paths. A
/// path is looked up without memory, and kept by one word.
#[derive(Drop)]
pub struct PathMap {
    parts: Vec<PathPart>,
    count: usize,
    alloc: Global,
}

impl Model for PathMap {
    ghost use Rattle.std.specs.Prelude.{◌≡◌, ℕ, List, length};
    ghost use Rattle.kr_paths.specs.inner.Parts.{AreParts, joined};

    ghost Value = { List (List ℕ × ℕ) };

    ghost view = { λ own. joined own.parts.items };

    ghost invariant = { λ own. AreParts own.parts.items
        × (own.count ≡ length (joined own.parts.items)) };
}

impl PathMap {
    /// No paths.
    pub fn new(alloc: Global) -> PathMap
        ensures { result ≡ [] }
    {
        PathMap {
            parts: Vec::new(alloc),
            count: 0,
            alloc,
        }
    }

    /// What is known of each map: its paths ascend. It does nothing.
    pub fn known(&self)
        ensures { AreSorted self.now }
    {
        let _ = &self.parts;
    }

    /// The number at the path.
    pub fn get(&self, path: &str) -> Option<usize>
        ensures { result ≡ lookup (is_at (path_cmp path.now)) self.now }
    {
        if self.parts.is_empty() {
            return None;
        }
        let spot = find(self.parts.as_slice(), path);
        if !spot.there {
            return None;
        }
        Some(self.parts[spot.part].number(spot.place))
    }

    /// How many paths there are.
    pub fn len(&self) -> usize
        ensures { result ≡ length self.now }
    {
        self.count
    }

    /// The first path and its number.
    pub fn first(&self) -> Option<(&Path, usize)>
        ensures { option_map (λ entry. (entry.0.now, entry.1)) result ≡ first self.now }
    {
        match self.parts.first() {
            Some(part) => part.first(),
            None => None,
        }
    }

    /// The least path above this one, and its number.
    #[tactic(auto, using(crate::proofs::Nexts::next_own, crate::proofs::Nexts::next_part))]
    pub fn successor(&self, path: &str) -> Option<(&Path, usize)>
        ensures { option_map (λ entry. (entry.0.now, entry.1)) result
            ≡ successor path.now self.now }
    {
        if self.parts.is_empty() {
            return None;
        }
        let at = find_part(self.parts.as_slice(), path);
        match self.parts[at].first_successor(path) {
            Some(entry) => Some(entry),
            None => following_entry(self.parts.as_slice(), at),
        }
    }

    /// Puts the number at the path. Only a path that isn't there takes memory.
    pub fn insert(&mut self, path: Path, number: usize) -> Result<(), NoMemory>
        ensures ok { OnOk result (self.new ≡ insert_entry path_cmp self.old path number) }
        ensures err { OnErr result (self.new ≡ self.old) }
        ensures there { IsSome (lookup (is_at (path_cmp path)) self.old) → IsOk result }
        ensures sorted { AreSorted self.new }
    {
        if self.parts.is_empty() {
            put_first(&mut self.parts, self.alloc, path, number)?;
            self.count = 1;
            return Ok(());
        }
        let spot = find(self.parts.as_slice(), path.as_str());
        if spot.there {
            self.parts[spot.part].set_number(spot.place, number);
            return Ok(());
        }
        if self.count == usize::MAX {
            return Err(NoMemory);
        }
        put_new(&mut self.parts, spot, path, number)?;
        self.count += 1;
        Ok(())
    }

    /// Takes the path's number away.
    pub fn remove(&mut self, path: &str) -> Option<usize>
        ensures place { result ≡ lookup (is_at (path_cmp path.now)) self.old }
        ensures removed { self.new ≡ remove_entry (is_at (path_cmp path.now)) self.old }
        ensures sorted { AreSorted self.new }
    {
        if self.parts.is_empty() {
            return None;
        }
        let spot = find(self.parts.as_slice(), path);
        if !spot.there {
            return None;
        }
        let number = remove_path(&mut self.parts, spot, path);
        self.count -= 1;
        Some(number)
    }
}

/// The first entry behind the part at this place.
#[tactic(auto, using(crate::proofs::Nexts::first_from, crate::proofs::Nexts::first_past))]
fn following_entry(parts: &[PathPart], at: usize) -> Option<(&Path, usize)>
    requires parts { AreParts parts.now }
    requires at { at < length parts.now }
    ensures { option_map (λ entry. (entry.0.now, entry.1)) result
        ≡ first (joined (drop (at + 1) parts.now)) }
{
    match parts.get(at + 1) {
        Some(part) => part.first(),
        None => None,
    }
}

/// The first part, of one entry.
fn put_first(
    parts: &mut Vec<PathPart>,
    alloc: Global,
    path: Path,
    number: usize,
) -> Result<(), NoMemory>
    requires { parts.old.items ≡ [] }
    ensures ok { OnOk result
        (joined parts.new.items ≡ insert_entry path_cmp (joined parts.old.items) path number) }
    ensures err { OnErr result (parts.new.items ≡ parts.old.items) }
    ensures parts { AreParts parts.new.items }
{
    let part = PathPart::from_entry(alloc, path, number)?;
    parts.push(part)?;
    Ok(())
}

/// Parts the part at this place in two.
fn halve(parts: &mut Vec<PathPart>, at: usize) -> Result<(), NoMemory>
    requires parts { AreParts parts.old.items }
    requires at { at < length parts.old.items }
    requires long { 2 ≤ length (get_or parts.old.items at []) }
    ensures same { joined parts.new.items ≡ joined parts.old.items }
    ensures parts { AreParts parts.new.items }
    ensures some { 0 < length parts.new.items }
{
    parts.reserve(1)?;
    let half = parts[at].len() / 2;
    let rest = parts[at].split_off(half)?;
    match parts.insert(at + 1, rest) {
        Ok(()) => Ok(()),
        Err(_) => unreachable!(),
    }
}

/// Puts a path that isn't there, and belongs at the spot. A part that is full is halved before.
fn put_new(parts: &mut Vec<PathPart>, spot: Spot, path: Path, number: usize) -> Result<(), NoMemory>
    requires parts { AreParts parts.old.items }
    requires spot { IsSpot path parts.old.items spot }
    requires new { spot.there ≡ false }
    ensures ok { OnOk result
        (joined parts.new.items ≡ insert_entry path_cmp (joined parts.old.items) path number) }
    ensures err { OnErr result (joined parts.new.items ≡ joined parts.old.items) }
    ensures parts { AreParts parts.new.items }
{
    if !parts[spot.part].is_full() {
        return insert_path(parts, spot, path, number);
    }
    halve(parts, spot.part)?;
    let spot = find(parts.as_slice(), path.as_str());
    insert_path(parts, spot, path, number)
}

/// Puts a path that isn't there, and belongs at the spot.
fn insert_path(
    parts: &mut Vec<PathPart>,
    spot: Spot,
    path: Path,
    number: usize,
) -> Result<(), NoMemory>
    requires parts { AreParts parts.old.items }
    requires spot { IsSpot path parts.old.items spot }
    requires new { spot.there ≡ false }
    ensures ok { OnOk result
        (joined parts.new.items ≡ insert_entry path_cmp (joined parts.old.items) path number) }
    ensures err { OnErr result (parts.new.items ≡ parts.old.items) }
    ensures parts { AreParts parts.new.items }
{
    parts[spot.part].insert(spot.place, path, number)
}

/// Takes the entry at the spot, where the path stands, away. Tells its number.
fn remove_path(parts: &mut Vec<PathPart>, spot: Spot, path: &str) -> usize
    requires parts { AreParts parts.old.items }
    requires spot { IsSpot path.now parts.old.items spot }
    requires there { spot.there ≡ true }
    ensures number { Some result ≡ lookup (is_at (path_cmp path.now)) (joined parts.old.items) }
    ensures removed { joined parts.new.items
        ≡ remove_entry (is_at (path_cmp path.now)) (joined parts.old.items) }
    ensures parts { AreParts parts.new.items }
{
    let _path = path;
    let number = parts[spot.part].remove(spot.place);
    if parts[spot.part].len() == 0 {
        drop(parts.remove(spot.part));
    }
    number
}
