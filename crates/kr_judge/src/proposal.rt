//! Paths that are put to and taken from the needs, in the map of all and in the set of their pair.
ghost use Rattle.std.specs.Prelude.{◌≡◌, ◌<◌, length, None, Some, IfOk, OnErr};
ghost use Rattle.std.specs.Map.{remove_entry};
ghost use Rattle.std.specs.BTreeMap.{is_at, insert_entry};
ghost use Rattle.kr_config.specs.Nexts.{name_cmp};
ghost use Rattle.kr_judge.specs.inner.Indexes.{IsIndexed, labels_of, without_proposed};

use crate::pair_table::PairTable;
use kr_base::NoMemory;
use kr_paths::{Path, PathMap};

/// A path that would need the pair at the place.
#[derive(Drop)]
pub struct Proposal {
    pub path: Path,
    pub place: usize,
    /// Whether nothing is needed at the path yet.
    pub fresh: bool,
}

/// Puts the path among those of the pair, and gives it a place where it has none.
pub fn make_proposal(
    places: &mut PathMap,
    pairs: &mut PairTable,
    path: &Path,
    place: usize,
) -> Result<Proposal, NoMemory>
    requires indexed { IsIndexed places.old pairs.old None }
    requires place { place < length pairs.old }
    ensures is { IfOk result (λ made. (made.path ≡ path.now) × (made.place ≡ place)) }
    ensures made { IfOk result (λ made. IsIndexed places.new pairs.new (Some made)) }
    ensures fresh { IfOk result (λ made. without_proposed (Some made) places.new ≡ places.old) }
    ensures indexed { OnErr result (IsIndexed places.new pairs.new None) }
    ensures same { OnErr result (places.new ≡ places.old) }
    ensures labels { labels_of pairs.new ≡ labels_of pairs.old }
{
    let text = path.as_str();
    let kept = path.share()?;
    let key = match kept.share() {
        Ok(key) => key,
        Err(NoMemory) => {
            drop(kept);
            return Err(NoMemory);
        }
    };
    match pairs.put_path(place, &kept) {
        Ok(()) => {}
        Err(NoMemory) => {
            drop((kept, key));
            return Err(NoMemory);
        }
    }
    match places.get(text) {
        Some(_own) => {
            drop(key);
            Ok(Proposal {
                path: kept,
                place,
                fresh: false,
            })
        }
        None => match places.insert(key, place) {
            Ok(()) => Ok(Proposal {
                path: kept,
                place,
                fresh: true,
            }),
            Err(NoMemory) => {
                pairs.take_path(place, text);
                drop(kept);
                Err(NoMemory)
            }
        },
    }
}

/// The path needs the pair, and no longer another.
#[tactic(auto, using(crate::proofs::IndexSteps::there, crate::proofs::IndexSteps::fits))]
pub fn keep_proposal(places: &mut PathMap, pairs: &mut PairTable, proposal: Proposal)
    requires { IsIndexed places.old pairs.old (Some proposal) }
    ensures indexed { IsIndexed places.new pairs.new None }
    ensures places { places.new ≡ insert_entry name_cmp places.old proposal.path proposal.place }
    ensures labels { labels_of pairs.new ≡ labels_of pairs.old }
{
    let Some(own) = places.get(proposal.path.as_str()) else {
        unreachable!();
    };
    pairs.take_unless(own, proposal.place, proposal.path.as_str());
    match places.insert(proposal.path, proposal.place) {
        Ok(()) => {}
        Err(_) => unreachable!(),
    }
}

/// The path leaves the pair, unless it needed it before.
#[tactic(auto, using(crate::proofs::IndexSteps::there, crate::proofs::IndexSteps::place_fits))]
pub fn unmake_proposal(places: &mut PathMap, pairs: &mut PairTable, proposal: Proposal)
    requires { IsIndexed places.old pairs.old (Some proposal) }
    ensures indexed { IsIndexed places.new pairs.new None }
    ensures places { places.new ≡ without_proposed (Some proposal) places.old }
    ensures labels { labels_of pairs.new ≡ labels_of pairs.old }
{
    if proposal.fresh {
        let _own = places.remove(proposal.path.as_str());
        pairs.take_path(proposal.place, proposal.path.as_str());
        return;
    }
    let Some(own) = places.get(proposal.path.as_str()) else {
        unreachable!();
    };
    if own == proposal.place {
        return;
    }
    pairs.take_path(proposal.place, proposal.path.as_str());
}

/// The path needs nothing.
#[tactic(auto, using(crate::proofs::IndexSteps::fits_none))]
pub fn drop_path(places: &mut PathMap, pairs: &mut PairTable, path: &str)
    requires { IsIndexed places.old pairs.old None }
    ensures indexed { IsIndexed places.new pairs.new None }
    ensures places { places.new ≡ remove_entry (is_at (name_cmp path.now)) places.old }
    ensures labels { labels_of pairs.new ≡ labels_of pairs.old }
{
    match places.remove(path) {
        Some(place) => pairs.take_path(place, path),
        None => {}
    }
}
