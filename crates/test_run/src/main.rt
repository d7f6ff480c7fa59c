//! test_run: reads whole calls of `run` over the world in memory, a case in some lines, and prints
//! what each leaves, so that many calls can be compared with another implementation.
#![tactic(auto)]

mod calling;
mod case;
mod lists;
mod opening;
mod plugin;
mod printing;
mod reading;
mod spelling;
mod streams;
mod world;

use crate::case::Case;
use crate::reading::add_line;
use anyhow::{Result, bail};
use std::alloc::Global;
use std::io::{BufRead, BufReader, BufWriter, Write};
use std::mem;
use std::sync::Wait;
use std::thread::Threads;
use test_support::Wrong;

/// Makes the case's call, if there is one, and writes the line of what it left.
fn finish<R: Threads + Wait + Sync, W: Write>(
    rt: &R,
    alloc: Global,
    output: &mut W,
    current: &Option<Case>,
) -> Result<()> {
    let Some(case) = current else {
        return Ok(());
    };
    match calling::run_case(rt, alloc, case) {
        Ok(left) => {
            let line = printing::case_report(alloc, case, &left);
            drop(left);
            write_line(output, line?)
        }
        Err(_) => bail!("memory"),
    }
}

fn write_line<W: Write>(output: &mut W, line: String) -> Result<()> {
    let written = output.write_all(line.as_bytes());
    drop(line);
    written?;
    output.write_all(b"\n")?;
    Ok(())
}

/// Begins the case of this name.
fn begin(alloc: Global, current: &mut Option<Case>, name: &str) -> Result<()> {
    let case = Case::new(alloc, name)?;
    drop(mem::replace(current, Some(case)));
    Ok(())
}

/// Does what the line of this number says.
fn take<R: Threads + Wait + Sync, W: Write>(
    rt: &R,
    alloc: Global,
    output: &mut W,
    current: &mut Option<Case>,
    number: u64,
    line: &str,
) -> Result<()> {
    if let Some(name) = line.strip_prefix("case ") {
        finish(rt, alloc, output, current)?;
        return begin(alloc, current, name);
    }
    match add_line(alloc, current, line) {
        Ok(()) => Ok(()),
        Err(Wrong::Form) => bail!("line {number} isn't of the form"),
        Err(Wrong::Memory) => bail!("memory"),
    }
}

/// Does what all lines say.
fn take_all<R: Threads + Wait + Sync, I: BufRead + Drop, W: Write>(
    rt: &R,
    alloc: Global,
    input: I,
    output: &mut W,
    current: &mut Option<Case>,
) -> Result<()> {
    let mut number = 0u64;
    for line in input.lines(alloc) {
        let line = line?;
        number = number.saturating_add(1);
        let done = take(rt, alloc, output, current, number, line.as_str());
        drop(line);
        done?;
    }
    finish(rt, alloc, output, current)?;
    output.flush()?;
    Ok(())
}

fn main(rt: HostRuntime) -> Result<()> {
    let alloc = rt.alloc();
    let mut output = BufWriter::new(alloc, rt.stdout())?;
    let input = BufReader::new(alloc, rt.stdin())?;
    let mut current: Option<Case> = None;
    let done = take_all(&rt, alloc, input, &mut output, &mut current);
    drop(current);
    done
}
