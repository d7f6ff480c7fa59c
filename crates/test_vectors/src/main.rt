//! test_vectors: reads a case a line, an operation with its operands in hex, and prints what the
//! crates answer, so that many cases of another implementation can be compared.
#![tactic(auto)]

mod case;
mod laws;
mod outcome;
mod reading;
mod running;

use reading::LineError;
use std::alloc::{AllocError, Global};
use std::io::{self, BufRead, BufReader, BufWriter, Write};

/// What is printed for a line: the outcome of its case, or `line` where it isn't one.
fn answer(alloc: Global, line: &str) -> Result<String, AllocError> {
    match reading::parse_case(alloc, line) {
        Ok(case) => running::outcome(alloc, &case)?.text(alloc),
        Err(LineError::Form) => format!(in alloc; "line"),
        Err(LineError::Memory) => Err(AllocError),
    }
}

fn main(rt: HostRuntime) -> io::Result<()> {
    let alloc = rt.alloc();
    let mut output = BufWriter::new(alloc, rt.stdout())?;
    for line in BufReader::new(alloc, rt.stdin())?.lines(alloc) {
        let text = answer(alloc, line?.as_str())?;
        output.write_all(text.as_bytes())?;
        output.write_all(b"\n")?;
    }
    output.flush()
}
