//! test_rollout: reads what happens to stores and to rollouts over them, an event a line, and
//! prints each line of the journal, so that it can be compared with another implementation.
#![tactic(auto)]

mod alone;
mod asking;
mod board;
mod configuration;
mod hand;
mod line_text;
mod play;
mod reading;
mod request;
mod sealing;
mod stored;
mod table;
mod terms;

use play::Play;
use std::io;
use test_support::answer_all;

fn main(rt: HostRuntime) -> io::Result<()> {
    let mut play = Play::new(rt.alloc());
    let answered = answer_all(rt.alloc(), &mut play, rt.stdin(), rt.stdout());
    play.finish();
    answered
}
