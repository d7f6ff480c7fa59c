//! Bytes as a case spells them: a text, in which a backslash begins what can't stand there. `\n`,
//! `\r`, `\t`, `\s` and `\b` are LF, CR, a tab, a space and a backslash, `\e` is nothing; `\(HEX)`
//! is bytes in hex, `\(N*HEX)` N times these.
use hex::FromHexError;
use std::alloc::{AllocError, Global};
use test_support::{Wrong, parse_number};

/// The bytes that the text spells.
pub fn spelled_bytes(alloc: Global, text: &str) -> Result<Vec<u8>, Wrong> {
    let mut bytes = Vec::new(alloc);
    add_bytes(alloc, &mut bytes, text)?;
    Ok(bytes)
}

/// Adds the bytes that the text spells.
pub fn add_bytes(alloc: Global, bytes: &mut Vec<u8>, text: &str) -> Result<(), Wrong> {
    let mut is_first = true;
    for piece in text.split('\\') {
        if is_first {
            bytes.extend_from_slice(piece.as_bytes())?;
            is_first = false;
        } else {
            add_spelled(alloc, bytes, piece)?;
        }
    }
    Ok(())
}

/// Adds a piece that stood behind a backslash.
fn add_spelled(alloc: Global, bytes: &mut Vec<u8>, piece: &str) -> Result<(), Wrong> {
    if let Some(rest) = piece.strip_prefix('(') {
        let Some((inside, plain)) = rest.split_once(')') else {
            return Err(Wrong::Form);
        };
        add_hex(alloc, bytes, inside)?;
        bytes.extend_from_slice(plain.as_bytes())?;
        return Ok(());
    }
    for (letter, byte) in [
        ('n', b'\n'),
        ('r', b'\r'),
        ('t', b'\t'),
        ('s', b' '),
        ('b', b'\\'),
    ] {
        if let Some(plain) = piece.strip_prefix(letter) {
            bytes.push(byte).map_err(AllocError::from)?;
            bytes.extend_from_slice(plain.as_bytes())?;
            return Ok(());
        }
    }
    let Some(plain) = piece.strip_prefix('e') else {
        return Err(Wrong::Form);
    };
    bytes.extend_from_slice(plain.as_bytes())?;
    Ok(())
}

/// Adds bytes in hex, which may be told to come so many times.
fn add_hex(alloc: Global, bytes: &mut Vec<u8>, inside: &str) -> Result<(), Wrong> {
    let Some((times, digits)) = inside.split_once('*') else {
        let piece = decoded(alloc, inside)?;
        bytes.extend_from_slice(piece.as_slice())?;
        return Ok(());
    };
    let times = parse_number(times)?;
    let piece = decoded(alloc, digits)?;
    for _ in 0..times {
        bytes.extend_from_slice(piece.as_slice())?;
    }
    Ok(())
}

fn decoded(alloc: Global, digits: &str) -> Result<Vec<u8>, Wrong> {
    match hex::decode(alloc, digits) {
        Ok(bytes) => Ok(bytes),
        Err(FromHexError::OutOfMemory) => Err(Wrong::Memory),
        Err(_) => Err(Wrong::Form),
    }
}
