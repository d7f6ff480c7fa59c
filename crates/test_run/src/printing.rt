//! The line that is printed for a call.
use crate::calling::Left;
use crate::case::Case;
use kr_base::whole;
use sha2::{Digest, Sha256};
use std::alloc::{AllocError, Global};

/// How many bytes are printed at most; of more, only their number and digest are.
const MOST: usize = 2048;

/// The case's name, and what the call left.
pub fn case_report(alloc: Global, case: &Case, left: &Left) -> Result<String, AllocError> {
    let mut line = String::new(alloc);
    let done = add_all(alloc, &mut line, case, left);
    whole(line, done)
}

fn add_all(alloc: Global, line: &mut String, case: &Case, left: &Left) -> Result<(), AllocError> {
    line.push_str(case.name.as_str())?;
    add(line, format!(in alloc; " status={}", left.status))?;
    add_bytes(alloc, line, " output=", left.output.as_slice())?;
    add_bytes(alloc, line, " errors=", left.errors.as_slice())?;
    add(
        line,
        format!(in alloc;
            " left={} faults={}:{}:{}:{}",
            left.input, left.input_faults, left.output_faults, left.error_faults, left.file_faults
        ),
    )?;
    add_objects(alloc, line, left)?;
    add_links(alloc, line, left)
}

/// Adds a text that was made.
fn add(line: &mut String, text: Result<String, AllocError>) -> Result<(), AllocError> {
    match text {
        Ok(text) => {
            let added = line.push_str(text.as_str());
            drop(text);
            added
        }
        Err(why) => Err(why),
    }
}

/// Adds bytes behind a label.
fn add_bytes(
    alloc: Global,
    line: &mut String,
    label: &str,
    bytes: &[u8],
) -> Result<(), AllocError> {
    line.push_str(label)?;
    add(line, bytes_text(alloc, bytes))
}

/// What is left of random sources and of tapes.
fn add_objects(alloc: Global, line: &mut String, left: &Left) -> Result<(), AllocError> {
    for dice in left.dice.as_slice() {
        let text = match dice.home {
            Some((bytes, faults)) => format!(in alloc; " dice:{}={bytes}:{faults}", dice.seat),
            None => format!(in alloc; " dice:{}=out", dice.seat),
        };
        add(line, text)?;
    }
    for tape in left.tapes.as_slice() {
        let name = tape.name.as_str();
        match &tape.home {
            Some((bytes, faults)) => {
                add(line, format!(in alloc; " tape:{name}="))?;
                add_bytes(alloc, line, "", bytes.as_slice())?;
                add(line, format!(in alloc; ":{faults}"))?;
            }
            None => add(line, format!(in alloc; " tape:{name}=out"))?,
        }
    }
    Ok(())
}

/// The links that were asked for, and what is left of those that there are.
fn add_links(alloc: Global, line: &mut String, left: &Left) -> Result<(), AllocError> {
    for asked in left.asked.as_slice() {
        let name = asked.name.as_str();
        let program = asked.program.as_str();
        add(
            line,
            format!(in alloc; " link:{}:{name}={program}", asked.seat),
        )?;
    }
    for link in left.links.as_slice() {
        let name = link.name.as_str();
        let text = match link.home {
            Some((made, faults)) => {
                format!(in alloc; " plugin:{}:{name}={made}:{faults}", link.seat)
            }
            None => format!(in alloc; " plugin:{}:{name}=out", link.seat),
        };
        add(line, text)?;
    }
    Ok(())
}

/// Bytes in hex, `-` for none; of many their number and their SHA-256.
fn bytes_text(alloc: Global, bytes: &[u8]) -> Result<String, AllocError> {
    if bytes.is_empty() {
        return "-".to_string(alloc);
    }
    if bytes.len() <= MOST {
        return hex::encode(alloc, bytes);
    }
    let digest = hex::encode(alloc, Sha256::digest(bytes))?;
    let text = format!(in alloc; "{}:{digest}", bytes.len());
    drop(digest);
    text
}
