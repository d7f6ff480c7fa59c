//! test_judge: reads what happens to boards, a call a line, and prints what they answer, so that
//! many verdicts can be compared with another implementation, and their speed be measured.
#![tactic(auto)]

mod acting;
mod asking;
mod named;
mod play;
mod printing;

use acting::Judging;
use std::io;
use test_support::answer_all;

fn main(rt: HostRuntime) -> io::Result<()> {
    let mut judging = Judging::new(rt.alloc());
    let answered = answer_all(rt.alloc(), &mut judging, rt.stdin(), rt.stdout());
    drop(judging);
    answered
}
