//! A board, and what its calls ask to be known of it.
ghost use Rattle.std.specs.Prelude.{◌≡◌, None};

use kr_base::Shared;
use kr_config::{Settings, Who};
use kr_judge::{Board, PathSet, Verdict};
use kr_paths::Path;
use std::alloc::Global;
use std::marker::Model;
use test_support::Wrong;

/// What comes behind it where a replica takes settings up.
#[derive(Clone, Copy)]
pub enum Then {
    /// Nothing.
    Stays,
    /// One holds them.
    IsHeld,
    /// The replica leaves.
    Leaves,
}

/// A board without a proposal, with how many generations it has, and has room for.
#[derive(Drop)]
pub struct Play {
    board: Board,
    added: u32,
    room: u32,
}

impl Model for Play {
    ghost use Rattle.std.specs.Prelude.{◌≡◌, length, None};
    ghost use Rattle.kr_judge.specs.Boards.{BoardState};

    ghost Value = { BoardState };

    ghost view = { λ play. play.board };

    ghost invariant = { λ play. (play.board.proposal ≡ None)
        × (length play.board.generations ≡ play.added)
        × (play.board.room ≡ play.room) };
}

impl Play {
    /// A board with nothing live and no needs, with room for as many generations.
    pub fn new(alloc: Global, room: u32) -> Result<Play, Wrong> {
        Ok(Play {
            board: Board::new(alloc, room)?,
            added: 0,
            room,
        })
    }

    /// The replica takes the settings up, where there is room.
    #[tactic(auto, using(crate::proofs::Plays::length_added, crate::proofs::Plays::length_left, crate::proofs::Plays::length_held, crate::proofs::Plays::may_hold, crate::proofs::Plays::has_current))]
    pub fn add(
        &mut self,
        replica: u32,
        settings: Shared<Settings>,
        then: Then,
    ) -> Result<(), Wrong> {
        if self.added >= self.room {
            return Err(Wrong::Form);
        }
        let number = self.board.add(replica, settings);
        self.added += 1;
        match then {
            Then::Stays => Ok(()),
            Then::IsHeld => {
                self.board.hold(number);
                Ok(())
            }
            Then::Leaves => {
                self.board.leave(replica);
                Ok(())
            }
        }
    }

    /// The need of the path, in place of the one it had.
    pub fn set_need(&mut self, path: &Path, resource: &str, who: &Who) -> Result<(), Wrong> {
        match self.board.set_need(path, resource, who) {
            Ok(()) => Ok(()),
            Err(_) => Err(Wrong::Memory),
        }
    }

    /// Proposes the need, and keeps it or lets it go.
    pub fn propose(
        &mut self,
        path: &Path,
        resource: &str,
        who: &Who,
        keep: bool,
    ) -> Result<(), Wrong> {
        match self.board.propose(path, resource, who) {
            Ok(()) => {}
            Err(_) => return Err(Wrong::Memory),
        }
        self.board.settle(keep);
        Ok(())
    }

    /// The path has no need any more.
    pub fn drop_need(&mut self, path: &str) {
        self.board.drop_need(path);
    }

    /// The verdict, after as many judgements.
    pub fn judge(&self, times: u32, replica: u32, settings: &Settings) -> Result<Verdict, Wrong> {
        for _ in 1..times {
            drop(self.board.judge(replica, settings)?);
        }
        Ok(self.board.judge(replica, settings)?)
    }

    /// The numbers of what is live.
    pub fn live(&self) -> &[u32] {
        self.board.live()
    }

    /// The paths whose needs are of the resource and the provider.
    pub fn paths(&self, resource: &str, who: &Who) -> Option<&PathSet> {
        self.board.paths(resource, who)
    }
}
