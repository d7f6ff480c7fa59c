//! test_script: reads a fleet file a line, in hex, and prints what kr_script reads in it, so that
//! many files can be compared with another implementation.
#![tactic(auto)]

mod answer;
mod writing;

use std::io::{self, BufRead, BufReader, BufWriter, Write};

fn main(rt: HostRuntime) -> io::Result<()> {
    let alloc = rt.alloc();
    let mut output = BufWriter::new(alloc, rt.stdout())?;
    for line in BufReader::new(alloc, rt.stdin())?.lines(alloc) {
        let text = answer::answer(alloc, line?.as_str())?;
        output.write_all(text.as_bytes())?;
        output.write_all(b"\n")?;
    }
    output.flush()
}
