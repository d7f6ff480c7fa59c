//! test_fleet_output: reads what happened in a fleet, an event or a reply a line, and prints the
//! fleet's output as kr_script writes it, so that it can be compared with another implementation.
#![tactic(auto)]

mod answered;
mod asked;
mod configuration;
mod fleet_output;
mod reading;
mod told;
mod verdict;

use fleet_output::FleetOutput;
use std::io;
use test_support::answer_all;

fn main(rt: HostRuntime) -> io::Result<()> {
    let mut output = FleetOutput::new(rt.alloc(), None);
    let answered = answer_all(rt.alloc(), &mut output, rt.stdin(), rt.stdout());
    drop(output);
    answered
}
