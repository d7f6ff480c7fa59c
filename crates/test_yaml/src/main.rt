//! test_yaml: reads a document a line, in hex, and prints the tree that kr_yaml reads in it or the
//! refusal, so that many documents can be compared with another implementation.
#![tactic(auto)]

mod answer;
mod laws;
mod writing;

use std::io::{self, BufRead, BufReader, BufWriter, Write};

fn main(rt: HostRuntime) -> io::Result<()> {
    let alloc = rt.alloc();
    let mut output = BufWriter::new(alloc, rt.stdout())?;
    for line in BufReader::new(alloc, rt.stdin())?.lines(alloc) {
        let text = answer::answer(alloc, line?.as_str())?;
        output.write_all(text.as_bytes())?;
        output.write_all(b"\n")?;
    }
    output.flush()
}
