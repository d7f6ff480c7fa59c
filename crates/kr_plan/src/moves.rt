//! Plans and their moves.
ghost use Rattle.std.specs.Prelude.{◌≡◌, ◌++◌, IfOk, OnOk};
ghost use Rattle.kr_plan.specs.Plans.{reloads, replica_moves};

use kr_base::{List, NoMemory, Shared};
use kr_config::Settings;
use std::alloc::Global;

/// Which settings a replica takes up.
#[derive(Clone, Copy, Debug, PartialEq, Eq)]
pub enum Phase {
    /// Those that write as before, and read what either configuration reads.
    Wide,
    /// Those that write as the target does, and read the same.
    Turned,
    /// Those of the target.
    Target,
}

/// A step of a rollout.
#[derive(Clone, Copy, Debug, PartialEq, Eq)]
pub enum Move {
    /// The replica takes up the settings of the phase.
    Reload {
        /// Its number, from 0.
        replica: u32,
        /// Which settings.
        phase: Phase,
    },
    /// What is stored is written anew by the settings of the last phase.
    Rewrite,
}

/// How all replicas get from one configuration to another.
#[derive(Drop)]
pub struct Plan {
    /// The settings of the first phase.
    pub wide: Shared<Settings>,
    /// Those of the second; the third has the target's own.
    pub turned: Shared<Settings>,
    /// What is done, in order.
    pub moves: List<Move>,
}

/// The moves of so many replicas.
pub fn replica_moves(alloc: Global, replicas: u32) -> Result<List<Move>, NoMemory>
    ensures { IfOk result (λ moves. moves.0 ≡ replica_moves replicas) }
{
    let mut moves = Vec::new(alloc);
    push_reloads(&mut moves, Phase::Wide, replicas)?;
    push_reloads(&mut moves, Phase::Turned, replicas)?;
    moves.push(Move::Rewrite)?;
    push_reloads(&mut moves, Phase::Target, replicas)?;
    Ok(List::from_vec(moves))
}

/// Adds the reloads of all replicas with the settings of the phase.
fn push_reloads(moves: &mut Vec<Move>, phase: Phase, replicas: u32) -> Result<(), NoMemory>
    ensures { OnOk result (moves.new.items ≡ moves.old.items ++ reloads phase replicas) }
{
    for replica in 0..replicas {
        moves.push(Move::Reload { replica, phase })?;
    }
    Ok(())
}
