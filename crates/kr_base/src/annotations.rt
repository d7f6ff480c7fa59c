//! Annotations: values under texts.
ghost use Rattle.std.specs.Prelude.{◌≡◌, ◌++◌, [], IfOk, OnOk, OnErr};
ghost use Rattle.std.specs.Cmp.{partial_equiv_from_equiv};
ghost use Rattle.std.specs.Hash.{same_Alike};
ghost use Rattle.kr_base.specs.Pairs.{IsSortedByKey, with_pair, pairs_eq, pairs_equiv, pairs_decide, fed_by};
ghost use Rattle.kr_base.specs.inner.Places.{IsPlaceOf};

use crate::bytes::Bytes;
use crate::errors::NoMemory;
use crate::text::Text;
use std::alloc::Global;
use std::hash::{Hash, Hasher};
use std::marker::Model;

/// Values under texts, as a plugin annotates what it wrapped. Contracts see it as the pairs in the
/// order of their keys' bytes, each key once.
#[derive(Debug, Drop)]
pub struct Annotations {
    pairs: Vec<(Text, Bytes)>,
}

impl Model for Annotations {
    ghost use Rattle.kr_base.specs.Pairs.{Pairs, IsSortedByKey};

    ghost Value = { Pairs };

    ghost view = { λ annotations. annotations.pairs.items };

    ghost invariant = { λ annotations. IsSortedByKey annotations.pairs.items };
}

impl Annotations {
    /// No pairs, and no memory yet.
    pub fn new(alloc: Global) -> Annotations
        ensures { result ≡ [] }
    {
        Annotations {
            pairs: Vec::new(alloc),
        }
    }

    /// A copy of its own.
    pub fn copy(&self, alloc: Global) -> Result<Annotations, NoMemory>
        ensures { IfOk result (λ copy. copy ≡ self.now) }
    {
        let pairs = copied(alloc, &self.pairs)?;
        Ok(Annotations { pairs })
    }

    /// Puts the pair at its key's place, and replaces the value of a key that is there.
    pub fn insert(&mut self, key: Text, value: Bytes) -> Result<(), NoMemory>
        ensures ok { OnOk result (self.new ≡ with_pair self.old key value) }
        ensures err { OnErr result (self.new ≡ self.old) }
    {
        match key_place(&self.pairs, &key) {
            Ok(at) => {
                self.pairs[at] = (key, value);
                return Ok(());
            }
            Err(at) => match self.pairs.insert(at, (key, value)) {
                Ok(()) => return Ok(()),
                Err(_) => return Err(NoMemory),
            },
        }
    }

    /// Lends the pairs.
    pub fn pairs(&self) -> &[(Text, Bytes)]
        ensures pairs { result.now ≡ self.now }
        ensures sorted { IsSortedByKey self.now }
    {
        self.pairs.as_slice()
    }
}

impl PartialEq for Annotations {
    ghost eq = { pairs_eq };

    ghost laws = { partial_equiv_from_equiv pairs_equiv };

    fn eq(&self, other: &Annotations) -> bool {
        self.pairs() == other.pairs()
    }
}

impl Eq for Annotations {
    ghost laws = { pairs_equiv };
}

impl Hash for Annotations {
    ghost hash_input = { fed_by };

    ghost respects_eq = { (same_Alike fed_by pairs_decide).fed };

    fn hash<H: Hasher>(&self, state: &mut H) {
        self.pairs().hash(state);
    }
}

fn copied(alloc: Global, pairs: &[(Text, Bytes)]) -> Result<Vec<(Text, Bytes)>, NoMemory>
    ensures { IfOk result (λ copy. copy.items ≡ pairs.now) }
{
    let mut copy = Vec::new(alloc);
    for (key, value) in pairs {
        let key = Text::copy(alloc, key.as_str())?;
        let value = Bytes::copy(alloc, value.as_slice())?;
        copy.push((key, value))?;
    }
    Ok(copy)
}

/// Where the key stands, or else before which pair it belongs.
fn key_place(pairs: &[(Text, Bytes)], key: &Text) -> Result<usize, usize>
    requires { IsSortedByKey pairs.now }
    ensures { IsPlaceOf pairs.now key.now result }
{
    let mut low = 0;
    let mut high = pairs.len();
    while low < high {
        let middle = low + (high - low) / 2;
        if key.cmp(&pairs[middle].0).is_gt() {
            low = middle + 1;
        } else {
            high = middle;
        }
    }
    if low == pairs.len() {
        return Err(low);
    }
    if key.cmp(&pairs[low].0).is_eq() {
        Ok(low)
    } else {
        Err(low)
    }
}
