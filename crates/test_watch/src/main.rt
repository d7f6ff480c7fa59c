//! test_watch: reads what happens to watches, a call a line, and prints what they answer, so that
//! many answers can be compared with another implementation, and their speed be measured.
#![tactic(auto)]

mod acting;
mod play;
mod printing;

use acting::Watching;
use std::io;
use test_support::answer_all;

fn main(rt: HostRuntime) -> io::Result<()> {
    let mut watching = Watching::new();
    let answered = answer_all(rt.alloc(), &mut watching, rt.stdin(), rt.stdout());
    drop(watching);
    answered
}
