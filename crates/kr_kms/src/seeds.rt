//! Seeds, what names them, and how they are made.
ghost use Rattle.std.specs.Prelude.{◌≡◌, ◌≤◌, IfOk, IsUtf8, length, All};
ghost use Rattle.kr_kms.specs.Calls.{IsSameLink, AsksLink, asked_key};
ghost use Rattle.kr_kms.specs.Limits.{IsWithinLimits};
ghost use Rattle.kr_base.specs.Walks.{Talk};
ghost use Rattle.kr_kms.specs.Seeds.{IsSeedRow, MakesSeed, MakesSeedBy, row_with};
ghost use Rattle.kr_kms.specs.inner.Wrapping.{IsDrawn, IsRowOf, WrapsSeedBy};

use crate::health::{SeedNo, healthy_key_id};
use crate::plugin::{Kms, KmsNo, Wrapped};
use kr_base::{Annotations, Bytes, Dice, NoMemory, Text, both};
use std::alloc::Global;

/// The bytes of a seed.
const SEED_SIZE: usize = 32;

/// What a plugin is told of a wrapped source when it unwraps it, with the plugin's own name. It
/// names one seed.
#[derive(Drop, PartialEq, Eq, Hash)]
pub struct SeedKey {
    pub name: Text,
    pub key_id: Text,
    pub annotations: Annotations,
    pub source: Bytes,
}

impl SeedKey {
    /// The key of a source that a plugin of this name wrapped.
    pub fn new(
        alloc: Global,
        name: &str,
        key_id: &str,
        annotations: &Annotations,
        source: &[u8],
    ) -> Result<SeedKey, NoMemory>
        ensures { IfOk result (λ key. key
            ≡ asked_key name.now key_id.now annotations.now source.now) }
    {
        let ((name, key_id), (annotations, source)) = both(
            both(Text::copy(alloc, name), Text::copy(alloc, key_id)),
            both(annotations.copy(alloc), Bytes::copy(alloc, source)),
        )?;
        Ok(SeedKey {
            name,
            key_id,
            annotations,
            source,
        })
    }

    /// One more key like it.
    pub fn copy(&self, alloc: Global) -> Result<SeedKey, NoMemory>
        ensures { IfOk result (λ key. key ≡ self.now) }
    {
        SeedKey::new(
            alloc,
            self.name.as_str(),
            self.key_id.as_str(),
            &self.annotations,
            self.source.as_slice(),
        )
    }
}

/// A seed with its wrapped source: the plugin's name, the id of the key under which it wrapped, its
/// annotations.
#[derive(Drop)]
pub struct SeedRow {
    pub name: Text,
    pub key_id: Text,
    pub annotations: Annotations,
    pub source: Bytes,
    pub seed: Bytes,
}

/// Draws a seed and wraps it, once the plugin's status shows it healthy. The row has the key id of
/// the wrap, which may be a newer one than the status told.
pub fn make_seed<L: Kms, D: Dice>(
    alloc: Global,
    link: &mut L,
    dice: &mut D,
) -> Result<SeedRow, SeedNo>
    ensures same { IsSameLink (L.link link.old) (L.link link.new) }
    ensures made { MakesSeed D.left D.count (L.link link.old) dice.old result
        (L.link link.new) dice.new }
    ensures later { D.count dice.old ≤ D.count dice.new }
    ensures asked { Talk L.step link.old link.new
        (MakesSeedBy D.left D.count (L.link link.old).name dice.old result dice.new) }
{
    drop(healthy_key_id(alloc, link)?);
    let seed = draw_seed(alloc, dice)?;
    match wrap_seed(alloc, link, seed) {
        Ok(row) => Ok(row),
        Err(KmsNo::Failed) => Err(SeedNo::Failed),
        Err(KmsNo::NoMemory) => Err(SeedNo::NoMemory),
    }
}

/// Draws the bytes of a seed.
fn draw_seed<D: Dice>(alloc: Global, dice: &mut D) -> Result<Bytes, SeedNo>
    ensures drawn { IsDrawn D.left D.count dice.old result dice.new }
    ensures later { D.count dice.old ≤ D.count dice.new }
{
    let Ok(mut seed) = vec![in alloc; 0; SEED_SIZE] else {
        return Err(SeedNo::NoMemory);
    };
    match dice.fill(seed.as_mut_slice()) {
        Ok(()) => Ok(Bytes::from_vec(seed)),
        Err(_) => {
            drop(seed);
            Err(SeedNo::DiceFailed)
        }
    }
}

/// Wraps a seed by the link, and names the link's plugin beside it.
fn wrap_seed<L: Kms>(alloc: Global, link: &mut L, seed: Bytes) -> Result<SeedRow, KmsNo>
    requires size { length seed ≡ 32 }
    ensures asks { AsksLink (L.link link.old) result (L.link link.new) }
    ensures row { IfOk result (λ row. IsRowOf (L.link link.old).name seed row) }
    ensures asked { Talk L.step link.old link.new
        (WrapsSeedBy (L.link link.old).name seed result) }
{
    let Ok(name) = Text::copy(alloc, link.name()) else {
        drop(seed);
        return Err(KmsNo::NoMemory);
    };
    match link.wrap(alloc, seed.as_slice()) {
        Ok(wrapped) => Ok(wrapped_seed_row(name, wrapped, seed)),
        Err(why) => {
            drop(name);
            drop(seed);
            Err(why)
        }
    }
}

/// Puts a seed beside what a plugin made of it.
fn wrapped_seed_row(name: Text, wrapped: Wrapped, seed: Bytes) -> SeedRow
    requires limits { IsWithinLimits wrapped }
    requires size { length seed ≡ 32 }
    ensures fields { result ≡ row_with name seed wrapped }
    ensures row { IsSeedRow result }
{
    let Wrapped {
        cipher,
        key_id,
        annotations,
    } = wrapped;
    // Lending it tells that it is a text.
    let _text = key_id.as_str();
    tell_texts(annotations.pairs());
    SeedRow {
        name,
        key_id,
        annotations,
        source: cipher,
        seed,
    }
}

/// Tells that the key of each pair is a text.
fn tell_texts(pairs: &[(Text, Bytes)])
    ensures { All (λ pair. IsUtf8 pair.0) pairs.now }
{
    for pair in pairs {
        let _text = pair.0.as_str();
    }
}
