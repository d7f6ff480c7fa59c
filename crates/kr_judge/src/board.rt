//! The board: what a verdict on new settings stands on.
ghost use Rattle.std.specs.Prelude.{◌≡◌, ◌<◌, ◌≤◌, [], length, true, IsTrue, None, Some, IsSome, IfSome, IfNone, IfOk, OnOk, OnErr, MatchResult, ◌≢◌};
ghost use Rattle.std.specs.List.{list_any};
ghost use Rattle.kr_config.specs.Kept.{rows_of};
ghost use Rattle.kr_judge.specs.Boards.{without_current, given_to, is_replica_current, held_more, held_less, changed_at, MayHold, IsHeld, HasOneCurrent, AreByPath, set_need, drop_need, settle_need};
ghost use Rattle.kr_judge.specs.Scans.{live_numbers, paths_with};
ghost use Rattle.kr_judge.specs.Verdicts.{verdict};
ghost use Rattle.kr_judge.specs.declared.verdict.Verdict.TheVariants.{Pass};

use crate::generation_list::GenerationList;
use crate::judging;
use crate::need_index::NeedIndex;
use crate::path_set::PathSet;
use crate::verdict::Verdict;
use kr_base::{NoMemory, Shared};
use kr_config::{Settings, Who};
use kr_paths::Path;
use std::alloc::Global;
use std::marker::Model;

/// What a verdict stands on: the generations of settings, what stored data need, and at most one
/// proposal of a need, which stands while the data are written.
#[derive(Drop)]
pub struct Board {
    generations: GenerationList,
    needs: NeedIndex,
    alloc: Global,
}

impl Model for Board {
    ghost use Rattle.kr_judge.specs.Boards.{BoardState};

    ghost Value = { BoardState };

    ghost view = { λ board. record {
      generations = board.generations.generations;
      needs = board.needs.needs;
      proposal = board.needs.proposal;
      room = board.generations.room;
    } };
}

impl Board {
    /// A board of no generations and no needs, with room for so many generations.
    pub fn new(alloc: Global, generations: u32) -> Result<Board, NoMemory>
        ensures { IfOk result (λ board. board ≡ record {
          generations = [];
          needs = [];
          proposal = None;
          room = generations;
        }) }
    {
        Ok(Board {
            generations: GenerationList::new(alloc, generations)?,
            needs: NeedIndex::new(alloc),
            alloc,
        })
    }

    /// What stands at the path needs the provider in the list of the resource. The path is shared,
    /// not copied.
    pub fn set_need(&mut self, path: &Path, resource: &str, who: &Who) -> Result<(), NoMemory>
        requires { self.old.proposal ≡ None }
        ensures ok { OnOk result (self.new ≡ record self.old {
          needs = set_need self.old.needs
              (record { path = path.now; resource = resource.now; who = who.now });
        }) }
        ensures err { OnErr result (self.new ≡ self.old) }
    {
        self.needs.propose(path, resource, who)?;
        self.needs.settle(true);
        Ok(())
    }

    /// Nothing stands at the path.
    pub fn drop_need(&mut self, path: &str)
        requires { self.old.proposal ≡ None }
        ensures { self.new ≡ record self.old { needs = drop_need self.old.needs path.now } }
    {
        self.needs.drop_need(path);
    }

    /// Proposes a need, so that it can be settled without memory. The path is shared, not copied.
    pub fn propose(&mut self, path: &Path, resource: &str, who: &Who) -> Result<(), NoMemory>
        requires { self.old.proposal ≡ None }
        ensures ok { OnOk result (self.new ≡ record self.old {
          proposal = Some (record { path = path.now; resource = resource.now; who = who.now });
        }) }
        ensures err { OnErr result (self.new ≡ self.old) }
    {
        self.needs.propose(path, resource, who)
    }

    /// Makes the proposal the need of its path, or drops it. It takes no memory.
    pub fn settle(&mut self, keep: bool)
        requires { IsSome self.old.proposal }
        ensures { self.new ≡ record self.old {
          needs = settle_need keep self.old.needs self.old.proposal;
          proposal = None;
        } }
    {
        self.needs.settle(keep);
    }

    /// Makes the next generation, the current one of its replica, and tells its number.
    pub fn add(&mut self, replica: u32, settings: Shared<Settings>) -> u32
        requires { length self.old.generations < self.old.room }
        ensures number { result ≡ length self.old.generations }
        ensures added { self.new ≡ record self.old {
          generations = given_to replica (rows_of settings.entries.0) self.old.generations;
        } }
    {
        self.generations.add(replica, settings)
    }

    /// One more holds the generation.
    pub fn hold(&mut self, generation: u32)
        requires { MayHold generation self.old.generations }
        ensures { self.new ≡ record self.old {
          generations = changed_at held_more generation self.old.generations;
        } }
    {
        self.generations.hold(generation);
    }

    /// One fewer holds the generation.
    pub fn release(&mut self, generation: u32)
        requires { IsHeld generation self.old.generations }
        ensures { self.new ≡ record self.old {
          generations = changed_at held_less generation self.old.generations;
        } }
    {
        self.generations.release(generation);
    }

    /// The replica, which has a current generation, has none any more.
    pub fn leave(&mut self, replica: u32)
        requires { IsTrue (list_any (is_replica_current replica) self.old.generations) }
        ensures { self.new ≡ record self.old {
          generations = without_current replica self.old.generations;
        } }
    {
        self.generations.leave(replica);
    }

    /// What is known of every board. It does nothing.
    pub fn known(&self)
        ensures by_path { AreByPath self.now.needs }
        ensures one_current { HasOneCurrent self.now.generations }
        ensures fits { length self.now.generations ≤ self.now.room }
    {
        self.needs.known();
        self.generations.known();
    }

    /// The numbers of the live generations, in their order. They are kept, in room that is there.
    pub fn live(&self) -> &[u32]
        ensures { result.now ≡ live_numbers self.now.generations }
    {
        self.generations.live()
    }

    /// The paths whose data need the provider in the list of the resource, in their order. They are
    /// kept with their number; while there is a proposal of such a need, its path is among them.
    pub fn paths(&self, resource: &str, who: &Who) -> Option<&PathSet>
        ensures some { IfSome result (λ paths. paths.now
            ≡ paths_with self.now.proposal resource.now who.now self.now.needs) }
        ensures none { IfNone result
            (paths_with self.now.proposal resource.now who.now self.now.needs ≡ []) }
    {
        self.needs.paths(resource, who)
    }

    /// The first reason against new settings of the replica. It looks at the state that taking them
    /// up would make.
    pub fn judge(&self, replica: u32, settings: &Settings) -> Result<Verdict, NoMemory>
        requires { self.now.proposal ≡ None }
        ensures judged { MatchResult result
            (λ told. told ≡ verdict self.now replica (rows_of settings.now.entries.0))
            (λ _. verdict self.now replica (rows_of settings.now.entries.0) ≢ Pass) }
    {
        judging::judge(
            self.alloc,
            &self.generations,
            &self.needs,
            replica,
            settings,
        )
    }
}
