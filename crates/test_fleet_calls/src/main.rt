//! test_fleet_calls: reads calls of replicas over a core, a line each, and prints what they answer,
//! so that it can be compared with another implementation.
#![tactic(auto)]

mod between;
mod call;
mod case;
mod desk;
mod linked;
mod naming;
mod opening;
mod stored;
mod telling;
mod two;

use naming::Names;
use std::io::{self, BufWriter, Write};
use std::sync::Wait;
use test_support::Page;

fn main(rt: HostRuntime) -> io::Result<()> {
    let alloc = rt.alloc();
    let mut output = BufWriter::new(alloc, rt.stdout())?;
    let text = io::read_to_string(alloc, rt.stdin())?;
    let mut names = Names::new(alloc);
    let done = run_all(&rt, &mut names, text.as_str(), &mut output);
    drop(names);
    drop(text);
    done?;
    output.flush()
}

/// Runs the cases, of which an empty line ends each.
fn run_all<R: Wait, W: Write>(
    rt: &R,
    names: &mut Names,
    text: &str,
    output: &mut W,
) -> io::Result<()> {
    for case in text.split("\n\n") {
        if !case.is_empty() {
            print_page(answered(rt, names, case), output)?;
        }
    }
    Ok(())
}

/// What comes of a case, and an empty line.
fn answered<R: Wait>(rt: &R, names: &mut Names, case: &str) -> Page {
    let mut page = Page::new(names.alloc);
    if let Err(why) = case::run(rt, names, case, &mut page) {
        page.told_wrong("case", why);
    }
    page.end_line();
    page
}

/// Prints a page, if all of it is there.
fn print_page<W: Write>(page: Page, output: &mut W) -> io::Result<()> {
    match page.into_bytes() {
        Ok(bytes) => {
            let printed = output.write_all(bytes.as_slice());
            drop(bytes);
            printed
        }
        Err(_) => Err(io::ErrorKind::OutOfMemory.into()),
    }
}
