//! The needs of what is stored, by path and by pairs of a resource and a provider.
ghost use Rattle.std.specs.Prelude.{◌≡◌, [], None, IsSome, IfSome, IfNone, OnOk, OnErr, Some};
ghost use Rattle.std.specs.Option.{option_map};
ghost use Rattle.kr_config.specs.Kept.{rows_of};
ghost use Rattle.kr_judge.specs.Boards.{AreByPath, drop_need, settle_need};
ghost use Rattle.kr_judge.specs.Scans.{paths_with};
ghost use Rattle.kr_judge.specs.Verdicts.{dropped_needs, first};
ghost use Rattle.kr_judge.specs.inner.Earliest.{stored_by};
ghost use Rattle.kr_judge.specs.inner.Indexes.{GrowsWith};

use crate::first_dropped::first_dropped;
use crate::pair_table::PairTable;
use crate::path_set::PathSet;
use crate::proposal::{Proposal, drop_path, keep_proposal, make_proposal, unmake_proposal};
use kr_base::NoMemory;
use kr_config::{Settings, Who};
use kr_paths::{Path, PathMap};
use std::alloc::Global;
use std::marker::Model;

/// The needs, and at most one proposal of a need. What is kept by path and what is kept by pairs is
/// the same; while there is a proposal, it stands in both already, so that settling it takes no
/// memory.
#[derive(Drop)]
pub struct NeedIndex {
    places: PathMap,
    pairs: PairTable,
    proposal: Option<Proposal>,
}

impl Model for NeedIndex {
    ghost use Rattle.std.specs.Prelude.{length};
    ghost use Rattle.kr_judge.specs.inner.Indexes.{NeedsState, IsIndexed, AreApart, needs_of, labels_of, without_proposed, proposed_need};

    ghost Value = { NeedsState };

    ghost view = { λ index. record {
      needs = needs_of (labels_of index.pairs) (without_proposed index.proposal index.places);
      proposal = proposed_need (labels_of index.pairs) index.proposal;
      pairs = length index.pairs;
    } };

    ghost invariant = { λ index. IsIndexed index.places index.pairs index.proposal
        × AreApart (labels_of index.pairs) };
}

impl NeedIndex {
    /// No needs and no proposal.
    #[tactic(auto, using(crate::proofs::IndexSteps::none_yet, crate::proofs::Scans::apart_nil))]
    pub fn new(alloc: Global) -> NeedIndex
        ensures { result ≡ record { needs = []; proposal = None; pairs = 0 } }
    {
        NeedIndex {
            places: PathMap::new(alloc),
            pairs: PairTable::new(alloc),
            proposal: None,
        }
    }

    /// What is known of all needs. It does nothing.
    #[tactic(auto, using(crate::proofs::Indexed::by_path))]
    pub fn known(&self)
        ensures { AreByPath self.now.needs }
    {
        // Read, so that the check sees the fields.
        let _pairs = self.pairs.as_slice();
    }

    /// Proposes a need. There are never more pairs than were needed at one time and one: one comes
    /// only where all that are there are needed.
    #[tactic(auto, using(crate::proofs::Scans::apart_same))]
    pub fn propose(&mut self, path: &Path, resource: &str, who: &Who) -> Result<(), NoMemory>
        requires { self.old.proposal ≡ None }
        ensures ok { OnOk result (self.new ≡ record self.old {
          proposal = Some (record { path = path.now; resource = resource.now; who = who.now });
          pairs = self.new.pairs;
        }) }
        ensures err { OnErr result (self.new ≡ record self.old { pairs = self.new.pairs }) }
        ensures grows { GrowsWith self.old.needs self.old.pairs self.new.pairs }
    {
        let place = self.pairs.pair_place(resource, who)?;
        let made = make_proposal(&mut self.places, &mut self.pairs, path, place)?;
        self.proposal = Some(made);
        Ok(())
    }

    /// Makes the proposal the need of its path, or drops it. It takes no memory.
    #[tactic(auto, using(crate::proofs::IndexViews::unmade_view, crate::proofs::Scans::apart_same))]
    pub fn settle(&mut self, keep: bool)
        requires { IsSome self.old.proposal }
        ensures { self.new ≡ record {
          needs = settle_need keep self.old.needs self.old.proposal;
          proposal = None;
          pairs = self.old.pairs;
        } }
    {
        let Some(proposal) = self.proposal.take() else {
            return;
        };
        if keep {
            keep_proposal(&mut self.places, &mut self.pairs, proposal);
        } else {
            unmake_proposal(&mut self.places, &mut self.pairs, proposal);
        }
    }

    /// Nothing is needed at the path.
    #[tactic(auto, using(crate::proofs::Scans::apart_same))]
    pub fn drop_need(&mut self, path: &str)
        requires { self.old.proposal ≡ None }
        ensures { self.new ≡ record self.old { needs = drop_need self.old.needs path.now } }
    {
        drop_path(&mut self.places, &mut self.pairs, path);
    }

    /// The path and the provider of the first need that the new settings don't read.
    pub fn first_dropped<'a>(&'a self, settings: &Settings) -> Option<(&'a str, &'a Who)>
        requires { self.now.proposal ≡ None }
        ensures { option_map (λ lost. (lost.0.now, lost.1.now)) result
            ≡ option_map stored_by
            (first (dropped_needs (rows_of settings.now.entries.0) self.now.needs)) }
    {
        first_dropped(self.pairs.as_slice(), settings)
    }

    /// The paths whose needs are of the resource and the provider, a proposed one among them.
    #[tactic(auto, using(crate::proofs::Scans::kept_there, crate::proofs::Scans::kept_none))]
    pub fn paths(&self, resource: &str, who: &Who) -> Option<&PathSet>
        ensures some { IfSome result (λ paths. paths.now
            ≡ paths_with self.now.proposal resource.now who.now self.now.needs) }
        ensures none { IfNone result
            (paths_with self.now.proposal resource.now who.now self.now.needs ≡ []) }
    {
        match self.pairs.find(resource, who) {
            Some(place) => Some(self.pairs.paths(place)),
            None => None,
        }
    }
}
