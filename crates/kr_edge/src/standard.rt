//! The descriptors of standard input, output and error.

use std::fs::{File, OpenOptions};
use std::io;
use std::os::fd::{AsRawFd, IntoRawFd};
use std::rt::Files;

/// What stands in for a stream that is closed.
const NOTHING: &str = "/dev/null";

/// Makes sure that the descriptors 0, 1 and 2 are open, so that no store, random device or pipe
/// takes the number of one that the program was started without, and gets its lines. What is opened
/// for them stays open, the wrong way round: 0 can't be read, 1 and 2 can't be written to, so that
/// a use of what was closed is still a fault, and neither an empty input nor a lost output.
pub fn hold_standard_streams<R: Files<File = File>>(files: &R) -> io::Result<()> {
    let first = match OpenOptions::new().write(true).open(files, NOTHING) {
        Ok(first) => first,
        Err(error) => return Err(error),
    };
    match first.as_raw_fd() {
        // The number of standard input.
        0 => {
            let _held = first.into_raw_fd();
        }
        // That of standard output or error, which what may only be read has to take.
        1 | 2 => drop(first),
        _ => {
            drop(first);
            return Ok(());
        }
    }
    for _ in 0..3 {
        let next = match OpenOptions::new().read(true).open(files, NOTHING) {
            Ok(next) => next,
            Err(error) => return Err(error),
        };
        if next.as_raw_fd() > 2 {
            drop(next);
            return Ok(());
        }
        let _held = next.into_raw_fd();
    }
    Ok(())
}
