//! A new pair: in place of one that no path needs, or one more.
ghost use Rattle.std.specs.Prelude.{◌≡◌, ◌<◌, ◌≤◌, [], ◌∷◌, ◌++◌, true, length, slice_set, IfOk, OnOk, OnErr, vec_len, vec_capacity};
ghost use Rattle.kr_judge.specs.inner.Places.{AreGrouped, AreFree};

use crate::pair::Pair;
use crate::place_map::PlaceMap;
use crate::provider_lists::is_same;
use kr_base::{NoMemory, Shared};
use kr_config::Who;
use std::alloc::Global;

/// Among how many of the last pairs a provider is looked for, at most.
const LAST: usize = 64;

/// A pair of the resource and the provider, without paths, whose place is listed.
pub fn new_pair(pairs: &[Pair], alloc: Global, resource: &str, who: &Who) -> Result<Pair, NoMemory>
    ensures { IfOk result (λ pair. pair ≡ record {
      resource = resource.now;
      who = who.now;
      paths = [];
      listed = true;
    }) }
{
    let own = shared_provider(pairs, alloc, who)?;
    Pair::new(alloc, resource, own)
}

/// The provider as one of the last pairs has it, and else a copy: so a key's secret isn't there
/// once a pair.
#[tactic(auto, using(crate::proofs::Members::is_one))]
fn shared_provider(pairs: &[Pair], alloc: Global, who: &Who) -> Result<Shared<Who>, NoMemory>
    ensures { IfOk result (λ own. own ≡ who.now) }
{
    let begin = pairs.len().saturating_sub(LAST);
    for pair in &pairs[begin..] {
        if is_same(pair.who.get(), who) {
            return pair.who.share();
        }
    }
    match Shared::new(alloc, who.copy(alloc)?) {
        Ok(own) => Ok(own),
        Err(refused) => {
            drop(refused);
            Err(NoMemory)
        }
    }
}

/// The pair takes the place of the one that stands there.
pub fn give_place(
    pairs: &mut Vec<Pair>,
    groups: &mut PlaceMap,
    alloc: Global,
    place: usize,
    pair: Pair,
) -> Result<(), NoMemory>
    requires place { place < length pairs.old.items }
    requires grouped { AreGrouped groups.old pairs.old.items }
    ensures ok { OnOk result (pairs.new.items ≡ slice_set pairs.old.items place pair) }
    ensures err { OnErr result (pairs.new.items ≡ pairs.old.items) }
    ensures grouped { AreGrouped groups.new pairs.new.items }
    ensures length { vec_len pairs.new ≡ vec_len pairs.old }
{
    let from = pairs[place].resource.as_str();
    match groups.move_place(alloc, from, pair.resource.as_str(), place) {
        Ok(()) => {
            pairs[place] = pair;
            Ok(())
        }
        Err(NoMemory) => {
            drop(pair);
            Err(NoMemory)
        }
    }
}

/// One pair more, whose place is among those that may be free.
pub fn add_pair(
    pairs: &mut Vec<Pair>,
    groups: &mut PlaceMap,
    free: &mut Vec<usize>,
    alloc: Global,
    pair: Pair,
) -> Result<(), NoMemory>
    requires listed { pair.listed ≡ true }
    requires grouped { AreGrouped groups.old pairs.old.items }
    requires free { AreFree free.old.items pairs.old.items }
    requires room { vec_len pairs.old ≤ vec_capacity free.old }
    ensures ok { OnOk result (pairs.new.items ≡ pairs.old.items ++ pair ∷ []) }
    ensures err { OnErr result (pairs.new.items ≡ pairs.old.items) }
    ensures grouped { AreGrouped groups.new pairs.new.items }
    ensures free { AreFree free.new.items pairs.new.items }
    ensures room { vec_len pairs.new ≤ vec_capacity free.new }
{
    let place = pairs.len();
    match pairs.reserve(1) {
        Ok(()) => {}
        Err(_) => {
            drop(pair);
            return Err(NoMemory);
        }
    }
    let more = place + 1 - free.len();
    match free.reserve(more) {
        Ok(()) => {}
        Err(_) => {
            drop(pair);
            return Err(NoMemory);
        }
    }
    match groups.add(alloc, pair.resource.as_str(), place) {
        Ok(()) => {}
        Err(NoMemory) => {
            drop(pair);
            return Err(NoMemory);
        }
    }
    pairs.push_reserved(pair);
    free.push_reserved(place);
    Ok(())
}
