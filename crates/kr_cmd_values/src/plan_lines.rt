//! The lines of a plan's moves, and its settings as a line.
ghost use Rattle.std.specs.Prelude.{◌≡◌, ◌++◌, IfOk};
ghost use Rattle.kr_config.specs.Kept.{rows_of};
ghost use Rattle.kr_config.specs.Texts.{settings_text};
ghost use Rattle.kr_cmd_messages.specs.Texts.{line};
ghost use Rattle.kr_cmd_steps.specs.PlanLines.{phase_text, move_text, move_lines};

use kr_base::{Bytes, NoMemory};
use kr_cmd_messages::{add, add_number};
use kr_config::{Settings, settings_text};
use kr_plan::{Move, Phase};
use std::alloc::Global;

/// A line for each move.
#[tactic(auto, using(crate::proofs::Listings::moves_more, crate::proofs::Listings::moves_all))]
pub fn move_lines(alloc: Global, moves: &[Move]) -> Result<Bytes, NoMemory>
    ensures { IfOk result (λ text. text ≡ move_lines moves.now) }
{
    let mut text = Vec::new(alloc);
    for step in moves {
        add_move(&mut text, *step)?;
        add(&mut text, "\n")?;
    }
    Ok(Bytes::from_vec(text))
}

/// The settings as the text of a configuration, in a line.
pub fn text_line(alloc: Global, settings: &Settings) -> Result<Bytes, NoMemory>
    ensures { IfOk result (λ text. text ≡ line (settings_text (rows_of settings.now.entries.0))) }
{
    let mut text = settings_text(alloc, settings)?.into_vec();
    add(&mut text, "\n")?;
    Ok(Bytes::from_vec(text))
}

fn add_move(text: &mut Vec<u8>, step: Move) -> Result<(), NoMemory>
    ensures { IfOk result (λ done. text.new.items ≡ text.old.items ++ move_text step) }
{
    match step {
        Move::Reload { replica, phase } => {
            add(text, "reload ")?;
            add_number(text, replica as usize)?;
            add(text, " ")?;
            add(text, phase_text(phase))
        }
        Move::Rewrite => add(text, "rewrite"),
    }
}

fn phase_text(phase: Phase) -> &'static str
    ensures { result.now ≡ phase_text phase }
{
    match phase {
        Phase::Wide => "wide",
        Phase::Turned => "turned",
        Phase::Target => "to",
    }
}
