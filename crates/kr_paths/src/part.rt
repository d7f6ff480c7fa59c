//! A part of a map: some entries, in the order of their paths.
ghost use Rattle.std.specs.Prelude.{◌≡◌, ◌<◌, ◌≤◌, ◌+◌, ◌++◌, [], ◌∷◌, length, get_or, slice_set, take, drop, true, IfOk, OnOk, OnErr};
ghost use Rattle.std.specs.Option.{option_map};
ghost use Rattle.std.specs.List.{insert, remove};
ghost use Rattle.kr_paths.specs.Paths.{AreSorted, first, successor};
ghost use Rattle.kr_paths.specs.inner.Parts.{IsFound, is_above, with_number};

use crate::path::Path;
use kr_base::NoMemory;
use std::alloc::Global;
use std::cmp::Ordering;
use std::marker::Model;

/// How many entries a part has at most.
const MOST: usize = 512;

/// Paths with their numbers. Contracts see the list of both.
#[derive(Drop)]
pub(crate) struct PathPart {
    entries: Vec<(Path, usize)>,
}

impl Model for PathPart {
    ghost use Rattle.std.specs.Prelude.{ℕ, List};

    ghost Value = { List (List ℕ × ℕ) };

    ghost view = { λ part. part.entries.items };
}

impl PathPart {
    /// A part of one entry.
    pub fn from_entry(alloc: Global, path: Path, number: usize) -> Result<PathPart, NoMemory>
        ensures { IfOk result (λ part. part ≡ (path, number) ∷ []) }
    {
        let mut entries = Vec::new(alloc);
        entries.push((path, number))?;
        Ok(PathPart { entries })
    }

    /// How many entries it has.
    pub fn len(&self) -> usize
        ensures { result ≡ length self.now }
    {
        self.entries.len()
    }

    /// Whether it is to be halved before an entry comes to it.
    pub fn is_full(&self) -> bool
        ensures { result ≡ true → 2 ≤ length self.now }
    {
        self.entries.len() >= MOST
    }

    /// Whether its first path is above this one.
    pub fn is_above(&self, path: &str) -> bool
        ensures { result ≡ is_above path.now self.now }
    {
        match self.entries.first() {
            Some(entry) => path < entry.0.as_str(),
            None => false,
        }
    }

    /// Where the path stands, or else before which entry it belongs.
    pub fn find(&self, path: &str) -> Result<usize, usize>
        requires { AreSorted self.now }
        ensures { IsFound path.now self.now result }
    {
        let mut low = 0;
        let mut high = self.entries.len();
        while low < high {
            let middle = low + (high - low) / 2;
            match path.cmp(self.entries[middle].0.as_str()) {
                Ordering::Less => high = middle,
                Ordering::Equal => return Ok(middle),
                Ordering::Greater => low = middle + 1,
            }
        }
        Err(low)
    }

    /// The first entry.
    pub fn first(&self) -> Option<(&Path, usize)>
        ensures { option_map (λ entry. (entry.0.now, entry.1)) result ≡ first self.now }
    {
        match self.entries.first() {
            Some(entry) => Some((&entry.0, entry.1)),
            None => None,
        }
    }

    /// The first entry whose path is above this one.
    #[tactic(auto, using(crate::proofs::Nexts::there_fits, crate::proofs::Nexts::after_there, crate::proofs::Nexts::after_gap))]
    pub fn first_successor(&self, path: &str) -> Option<(&Path, usize)>
        requires { AreSorted self.now }
        ensures { option_map (λ entry. (entry.0.now, entry.1)) result
            ≡ successor path.now self.now }
    {
        match self.find(path) {
            Ok(at) => self.entry_past_place(at),
            Err(at) => self.entry(at),
        }
    }

    /// The entry behind that at this place, if there is one.
    fn entry_past_place(&self, at: usize) -> Option<(&Path, usize)>
        requires { at < length self.now }
        ensures { option_map (λ entry. (entry.0.now, entry.1)) result
            ≡ first (drop (at + 1) self.now) }
    {
        match self.entries.get(at + 1) {
            Some(entry) => Some((&entry.0, entry.1)),
            None => None,
        }
    }

    /// The entry at this place, if there is one.
    fn entry(&self, at: usize) -> Option<(&Path, usize)>
        ensures { option_map (λ entry. (entry.0.now, entry.1)) result ≡ first (drop at self.now) }
    {
        match self.entries.get(at) {
            Some(entry) => Some((&entry.0, entry.1)),
            None => None,
        }
    }

    /// The number of the entry at this place.
    pub fn number(&self, at: usize) -> usize
        requires { at < length self.now }
        ensures { result ≡ (get_or self.now at ([], 0)).1 }
    {
        self.entries[at].1
    }

    /// Gives the entry at this place another number.
    pub fn set_number(&mut self, at: usize, number: usize)
        requires { at < length self.old }
        ensures { self.new ≡ with_number self.old at number }
    {
        self.entries[at].1 = number;
    }

    /// Puts an entry before that at this place.
    pub fn insert(&mut self, at: usize, path: Path, number: usize) -> Result<(), NoMemory>
        requires { at ≤ length self.old }
        ensures ok { OnOk result (self.new ≡ insert self.old at (path, number)) }
        ensures err { OnErr result (self.new ≡ self.old) }
    {
        match self.entries.insert(at, (path, number)) {
            Ok(()) => Ok(()),
            Err(_) => Err(NoMemory),
        }
    }

    /// Takes the entry at this place away, and tells its number.
    pub fn remove(&mut self, at: usize) -> usize
        requires { at < length self.old }
        ensures number { result ≡ (get_or self.old at ([], 0)).1 }
        ensures removed { self.new ≡ remove self.old at }
    {
        let (_, number) = self.entries.remove(at);
        number
    }

    /// Keeps the entries before this place, and gives the others up.
    pub fn split_off(&mut self, at: usize) -> Result<PathPart, NoMemory>
        requires { at ≤ length self.old }
        ensures rest { IfOk result (λ rest. rest ≡ drop at self.old) }
        ensures kept { OnOk result (self.new ≡ take at self.old) }
        ensures err { OnErr result (self.new ≡ self.old) }
    {
        let entries = self.entries.split_off(at)?;
        Ok(PathPart { entries })
    }
}
