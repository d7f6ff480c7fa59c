//! The verdict on a configuration, with what it takes to heed it.
ghost use Rattle.std.specs.Prelude.{◌≡◌, None, IfOk};
ghost use Rattle.kr_rollout.specs.inner.Membership.{IsJudgement};

use kr_base::{NoMemory, Shared};
use kr_config::Settings;
use kr_judge::{Board, Verdict};
use kr_opening::is_refusal;
use kr_provider::Published;
use std::alloc::Global;

/// What the board says of a replica's new configuration. All is there that taking it up or refusing
/// it needs, so that neither wants memory.
#[derive(Drop)]
pub(crate) enum Judgement {
    /// It fits: its settings for the board, and itself for the generation.
    Fits {
        settings: Shared<Settings>,
        published: Shared<Published>,
    },
    /// It is refused for this reason: one for the answer, one for the line.
    Refused {
        told: Verdict,
        kept: Verdict,
    },
}

/// Judges the configuration for the replica.
pub(crate) fn judge(
    alloc: Global,
    board: &Board,
    replica: u32,
    published: &Shared<Published>,
) -> Result<Judgement, NoMemory>
    requires idle { board.now.proposal ≡ None }
    ensures { IfOk result (IsJudgement board.now replica published.now) }
{
    let settings = &published.get().settings;
    let told = board.judge(replica, settings.get())?;
    if is_refusal(&told) {
        match told.copy(alloc) {
            Ok(kept) => return Ok(Judgement::Refused { told, kept }),
            Err(NoMemory) => {
                drop(told);
                return Err(NoMemory);
            }
        }
    }
    drop(told);
    let settings = settings.share()?;
    match published.share() {
        Ok(published) => Ok(Judgement::Fits {
            settings,
            published,
        }),
        Err(NoMemory) => {
            drop(settings);
            Err(NoMemory)
        }
    }
}
