//! The lines: a call, and behind it what it is made with, parted by single spaces. What isn't of
//! the form is answered by `line`.
//!
//!     watch KEEP REVISION             a watch that keeps so many changes, in place of the last one
//!     seed PATH RESOURCE REVISION HEX a live row of the opening; `-`: no data, `?`: unread ones
//!     put PATH RESOURCE HEX           a line of the journal that wrote the next row,
//!     delete PATH                     each of
//!     replace PATH                    the three kinds
//!     list RESOURCE AFTER LIMIT       prints a page; `-` for the empty path
//!     since REVISION                  prints the changes, or why there are none
//!     again TIMES CALL ..             makes one of these calls as often; of questions the last
//!                                     answer is printed
//!     # TEXT                          says nothing
use crate::play::{Play, Wrote};
use crate::printing::{page_lines, since_lines};
use std::alloc::{AllocError, Global};
use std::mem;
use test_support::{
    Answers, Wrong, answer_or_line, first_word, own_text_or_empty, parse_hex, parse_long,
    parse_number, split_number, two_words,
};

/// The watch at hand, if there is one.
#[derive(Drop)]
pub struct Watching {
    current: Option<Play>,
}

impl Watching {
    /// No watch yet.
    pub fn new() -> Watching {
        Watching { current: None }
    }
}

impl Answers for Watching {
    fn answer(&mut self, alloc: Global, line: &str) -> Result<Vec<u8>, AllocError> {
        answer_or_line(alloc, act(alloc, &mut self.current, line))
    }
}

fn act(alloc: Global, current: &mut Option<Play>, line: &str) -> Result<Vec<u8>, Wrong> {
    let (key, rest) = first_word(line);
    match key {
        "#" => Ok(Vec::new(alloc)),
        "watch" => silent(alloc, begin(alloc, current, rest)),
        _ => match current {
            Some(play) => act_by_words(alloc, play, key, rest),
            None => Err(Wrong::Form),
        },
    }
}

/// Nothing is printed.
fn silent(alloc: Global, done: Result<(), Wrong>) -> Result<Vec<u8>, Wrong> {
    match done {
        Ok(()) => Ok(Vec::new(alloc)),
        Err(why) => Err(why),
    }
}

/// `KEEP REVISION`.
fn begin(alloc: Global, current: &mut Option<Play>, rest: &str) -> Result<(), Wrong> {
    let (keep, revision) = split_number(rest)?;
    let play = Play::new(alloc, keep, parse_long(revision)?)?;
    drop(mem::replace(current, Some(play)));
    Ok(())
}

/// Makes a call on the watch, once or as often as the line says.
fn act_by_words(alloc: Global, play: &mut Play, key: &str, rest: &str) -> Result<Vec<u8>, Wrong> {
    match key {
        "seed" => silent(alloc, seed(alloc, play, rest)),
        "again" => again(alloc, play, rest),
        _ => make(alloc, play, 1, key, rest),
    }
}

/// `TIMES CALL ..`.
fn again(alloc: Global, play: &mut Play, rest: &str) -> Result<Vec<u8>, Wrong> {
    let (times, rest) = split_number(rest)?;
    let (key, rest) = first_word(rest);
    make(alloc, play, times, key, rest)
}

fn make(
    alloc: Global,
    play: &mut Play,
    times: u32,
    key: &str,
    rest: &str,
) -> Result<Vec<u8>, Wrong> {
    match key {
        "put" => silent(alloc, put(alloc, play, times, rest)),
        "delete" => silent(alloc, play.note(alloc, times, Wrote::Delete, rest)),
        "replace" => silent(alloc, play.note(alloc, times, Wrote::Replace, rest)),
        "list" => list(alloc, play, times, rest),
        "since" => later_changes(alloc, play, times, rest),
        _ => Err(Wrong::Form),
    }
}

/// `PATH RESOURCE REVISION HEX`.
fn seed(alloc: Global, play: &mut Play, rest: &str) -> Result<(), Wrong> {
    let (path, rest) = two_words(rest)?;
    let (resource, rest) = two_words(rest)?;
    let (revision, plain) = two_words(rest)?;
    let revision = parse_long(revision)?;
    if plain == "?" {
        return play.seed(alloc, path, resource, revision, None);
    }
    let plain = parse_hex(alloc, plain)?;
    let done = play.seed(alloc, path, resource, revision, Some(plain.as_slice()));
    drop(plain);
    done
}

/// `PATH RESOURCE HEX`.
fn put(alloc: Global, play: &mut Play, times: u32, rest: &str) -> Result<(), Wrong> {
    let (path, rest) = two_words(rest)?;
    let (resource, plain) = two_words(rest)?;
    let plain = parse_hex(alloc, plain)?;
    let wrote = Wrote::Put {
        resource,
        plain: plain.as_slice(),
    };
    let done = play.note(alloc, times, wrote, path);
    drop(plain);
    done
}

/// `RESOURCE AFTER LIMIT`.
fn list(alloc: Global, play: &Play, times: u32, rest: &str) -> Result<Vec<u8>, Wrong> {
    let (resource, rest) = two_words(rest)?;
    let (after, limit) = two_words(rest)?;
    let limit = parse_number(limit)?;
    let after = own_text_or_empty(alloc, after)?;
    let page = play.list(times, resource, after.as_str(), limit);
    drop(after);
    let page = page?;
    let lines = page_lines(alloc, &page);
    drop(page);
    lines
}

/// `REVISION`.
fn later_changes(alloc: Global, play: &Play, times: u32, rest: &str) -> Result<Vec<u8>, Wrong> {
    let told = play.later_changes(times, parse_long(rest)?);
    let lines = since_lines(alloc, &told);
    drop(told);
    lines
}
