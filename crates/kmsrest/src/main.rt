//! kmsrest: the storage encryption layer of the Kubernetes API server, as a command line tool.
#![tactic(auto)]

use kr_base::write_all;
use kr_edge::{RealWorld, StdSink, StdSource, SystemFiles, hold_standard_streams};
use kr_top::run;
use std::io::ErrorKind;
use std::process::ExitCode;
use words::words;

mod words;

fn main(rt: HostRuntime) -> ExitCode {
    let alloc = rt.alloc();
    let held = hold_standard_streams(&rt);
    let mut errors = StdSink::new(rt.stderr());
    if held.is_err() {
        let _told = write_all(&mut errors, b"kmsrest: fault files 1\n");
        return ExitCode::from(4);
    }
    let words = match words(&rt) {
        Ok(words) => words,
        // A word that isn't UTF-8 is no command's.
        Err(error) if error.kind() == ErrorKind::InvalidData => Vec::new(alloc),
        Err(_) => {
            return match write_all(&mut errors, b"kmsrest: memory\n") {
                Ok(()) => ExitCode::from(5),
                Err(_) => ExitCode::from(4),
            };
        }
    };
    let mut world = RealWorld::new(alloc, SystemFiles::new(&rt));
    let mut input = StdSource::new(rt.stdin());
    let mut output = StdSink::new(rt.stdout());
    ExitCode::from(run(
        &rt,
        alloc,
        words.as_slice(),
        &mut world,
        &mut input,
        &mut output,
        &mut errors,
    ))
}
