//! The lines, of words parted by single spaces. What isn't of the form is answered by `line`.
//!
//!     fleet HEX                the fleet file; nothing happened yet
//!     event SEAT DID | GAVE    an event of the worker, with its answer
//!     reply TOLD               a reply of the worker at hand, the first one at the beginning
//!     next                     the worker behind it is at hand
//!     print                    prints the output
//!     # TEXT                   says nothing
use crate::answered::parse_gave;
use crate::asked::parse_did;
use crate::fleet_output::FleetOutput;
use crate::told::parse_told;
use kr_base::both;
use kr_rollout::Line;
use kr_script::read_script;
use std::alloc::{AllocError, Global};
use std::mem;
use test_support::{Answers, Wrong, answer_or_line, first_word, parse_hex, split_number};

impl Answers for FleetOutput {
    fn answer(&mut self, alloc: Global, line: &str) -> Result<Vec<u8>, AllocError> {
        answer_or_line(alloc, act(alloc, self, line))
    }
}

fn act(alloc: Global, page: &mut FleetOutput, line: &str) -> Result<Vec<u8>, Wrong> {
    let (key, rest) = first_word(line);
    match key {
        "#" => Ok(Vec::new(alloc)),
        "fleet" => {
            let begun = begin(alloc, rest)?;
            drop(mem::replace(page, begun));
            Ok(Vec::new(alloc))
        }
        _ => act_by_words(alloc, page, key, rest),
    }
}

/// What happened in the fleet at hand; there is none before its file.
fn act_by_words(
    alloc: Global,
    page: &mut FleetOutput,
    key: &str,
    rest: &str,
) -> Result<Vec<u8>, Wrong> {
    if key == "print" {
        return page.print(alloc);
    }
    if !page.has_script() {
        return Err(Wrong::Form);
    }
    match key {
        "event" => page.add_line(parse_line(alloc, rest)?)?,
        "reply" => page.add_reply(parse_told(alloc, rest)?)?,
        "next" => page.end_worker(alloc)?,
        _ => return Err(Wrong::Form),
    }
    Ok(Vec::new(alloc))
}

/// `HEX`.
fn begin(alloc: Global, rest: &str) -> Result<FleetOutput, Wrong> {
    let file = parse_hex(alloc, rest)?;
    let script = read_script(alloc, file.as_slice());
    drop(file);
    match script {
        Ok(script) => Ok(FleetOutput::new(alloc, Some(script))),
        Err(why) => {
            drop(why);
            Err(Wrong::Form)
        }
    }
}

/// `SEAT DID | GAVE`.
fn parse_line(alloc: Global, rest: &str) -> Result<Line, Wrong> {
    let (seat, rest) = split_number(rest)?;
    let Some((did, gave)) = rest.split_once(" | ") else {
        return Err(Wrong::Form);
    };
    match both(parse_gave(alloc, gave), parse_did(alloc, did)) {
        Ok((gave, did)) => Ok(Line {
            seat,
            did,
            held: None,
            gave,
            faults: 0,
        }),
        Err(why) => Err(why),
    }
}
