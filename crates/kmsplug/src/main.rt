//! kmsplug: an example of a plugin. It answers the lines of its standard input on its standard
//! output, and wraps under a key that stands here for all to read: it keeps nothing secret.
#![tactic(auto)]

use kr_edge::{StdSink, StdSource};
use kr_keywrap::serve;
use std::process::ExitCode;

/// The id of its key.
const KEY_ID: &str = "example-1";

/// Its key, the bytes 00 to 1f.
const KEK: [u8; 32] = [
    0x00, 0x01, 0x02, 0x03, 0x04, 0x05, 0x06, 0x07, 0x08, 0x09, 0x0a, 0x0b, 0x0c, 0x0d, 0x0e, 0x0f,
    0x10, 0x11, 0x12, 0x13, 0x14, 0x15, 0x16, 0x17, 0x18, 0x19, 0x1a, 0x1b, 0x1c, 0x1d, 0x1e, 0x1f,
];

fn main(rt: HostRuntime) -> ExitCode {
    let alloc = rt.alloc();
    let mut input = StdSource::new(rt.stdin());
    let mut output = StdSink::new(rt.stdout());
    ExitCode::from(serve(alloc, &KEK, KEY_ID, &mut input, &mut output))
}
