//! A mapping that is open.
ghost use Rattle.std.specs.Prelude.{◌≡◌, ℕ, IfOk, List, [], ◌∷◌, ◌++◌};
ghost use Rattle.std.specs.List.{list_any};
ghost use Rattle.std.specs.Ordering.{nat_cmp};
ghost use Rattle.std.specs.Cmp.Lexicographic.{slice_cmp};
ghost use Rattle.std.specs.Str.{bytes_eq};
ghost use Rattle.std.specs.BTreeSet.{contains};
ghost use Rattle.kr_yaml.specs.Forms.{keys as keys_of};
ghost use Rattle.kr_yaml.specs.Shown.{member_views};

use crate::place_error::PlaceError;
use crate::tree::{Member, Tree};
use kr_base::{List, NoMemory, Text};
use std::alloc::Global;
use std::collections::BTreeSet;

/// A mapping whose last member is open.
#[derive(Drop)]
pub struct OpenMapping {
    /// Its column.
    pub column: usize,
    /// The members before the last.
    pub done: List<Member>,
    /// The key of the last member.
    pub key: Text,
    /// All keys, in order, so that a key that stands twice is found at once.
    pub keys: BTreeSet<Text>,
    ghost known: { (k : List ℕ) → contains (slice_cmp nat_cmp) keys k
        ≡ list_any (λ x. bytes_eq x k) (keys_of (member_views done.0) ++ key ∷ []) },
}

impl OpenMapping {
    ghost use Rattle.std.specs.Prelude.{MatchResult, true, false};
    ghost use Rattle.kr_yaml.specs.Shown.{view};
    ghost use Rattle.kr_yaml.specs.inner.Open.{members, close};
    ghost use Rattle.kr_yaml.specs.inner.Frames.{mapping_frame};
    ghost use Rattle.kr_yaml.specs.inner.Adds.{Adds};

    /// A mapping with a first key.
    pub fn begin(alloc: Global, column: usize, key: Text) -> Result<OpenMapping, NoMemory>
        ensures { IfOk result (λ m. mapping_frame m ≡ members column [] key) }
    {
        let mut keys = BTreeSet::new(alloc);
        let copy = match Text::copy(alloc, key.as_str()) {
            Ok(copy) => copy,
            Err(_) => {
                drop(keys);
                drop(key);
                return Err(NoMemory);
            }
        };
        match keys.insert(copy) {
            Ok(_) => {}
            Err(refused) => {
                drop(refused);
                drop(keys);
                drop(key);
                return Err(NoMemory);
            }
        }
        Ok(OpenMapping {
            column,
            done: List::new(alloc),
            key,
            keys,
        })
    }

    /// Closes the last member with its value, and begins one more.
    pub fn add(self, alloc: Global, value: Tree, key: Text) -> Result<OpenMapping, PlaceError>
        ensures { Adds (mapping_frame self) (view value) key result }
    {
        let Ok(copy) = Text::copy(alloc, key.as_str()) else {
            drop(self);
            drop(value);
            drop(key);
            return Err(PlaceError::NoMemory);
        };
        let OpenMapping {
            column,
            done,
            key: last,
            mut keys,
        } = self;
        let member = Member { key: last, value };
        let is_new = match keys.insert(copy) {
            Ok(is_new) => is_new,
            Err(refused) => {
                drop(refused);
                drop((done, member, key, keys));
                return Err(PlaceError::NoMemory);
            }
        };
        if !is_new {
            drop((done, member, key, keys));
            return Err(PlaceError::DuplicateKey);
        }
        match with_member(done, member) {
            Ok(done) => Ok(OpenMapping {
                column,
                done,
                key,
                keys,
            }),
            Err(NoMemory) => {
                drop(key);
                drop(keys);
                Err(PlaceError::NoMemory)
            }
        }
    }

    /// Closes the mapping with the value of its last member.
    pub fn close(self, value: Tree) -> Result<Tree, NoMemory>
        ensures { IfOk result (λ tree. view tree ≡ close (mapping_frame self) (view value)) }
    {
        let OpenMapping {
            column: _column,
            done,
            key,
            keys,
        } = self;
        drop(keys);
        match with_member(done, Member { key, value }) {
            Ok(done) => Ok(Tree::Members(done)),
            Err(NoMemory) => Err(NoMemory),
        }
    }
}

/// The members with one more.
fn with_member(done: List<Member>, member: Member) -> Result<List<Member>, NoMemory>
    ensures { IfOk result (λ more. more.0 ≡ done.0 ++ member ∷ []) }
{
    let mut more = done;
    match more.push(member) {
        Ok(()) => Ok(more),
        Err(refused) => {
            drop(refused);
            drop(more);
            Err(NoMemory)
        }
    }
}
