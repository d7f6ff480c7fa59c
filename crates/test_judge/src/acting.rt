//! The lines: a call, and behind it what it is made with, parted by single spaces. What isn't of
//! the form is answered by `line`.
//!
//!     settings NAME JSON            a configuration in one line
//!     board ROOM                    a board in place of the last one
//!     add REPLICA NAME              the replica takes the settings up,
//!     hold REPLICA NAME             and one holds them from then on,
//!     leave REPLICA NAME            or it leaves behind that
//!     need PATH RESOURCE NAME       the data need what the settings write the resource by
//!     keep PATH RESOURCE NAME       the same, as a proposal that is kept
//!     undo PATH RESOURCE NAME       a proposal that isn't
//!     drop PATH                     nothing stands at the path any more
//!     judge REPLICA NAME            prints the verdict
//!     again TIMES REPLICA NAME      prints the last verdict of as many
//!     live                          prints the numbers of the live generations
//!     paths RESOURCE NAME           prints how many paths need the provider, and the first
//!     # TEXT                        says nothing
use crate::asking::ask;
use crate::named::{NamedSettings, writer};
use crate::play::{Play, Then};
use kr_paths::Path;
use std::alloc::{AllocError, Global};
use std::mem;
use test_support::{
    Answers, Wrong, answer_or_line, first_word, parse_number, split_number, two_words,
};

/// The settings that lines named, and the board at hand, if there is one.
#[derive(Drop)]
pub struct Judging {
    named: NamedSettings,
    current: Option<Play>,
}

impl Judging {
    /// Nothing yet.
    pub fn new(alloc: Global) -> Judging {
        Judging {
            named: NamedSettings::new(alloc),
            current: None,
        }
    }
}

impl Answers for Judging {
    fn answer(&mut self, alloc: Global, line: &str) -> Result<Vec<u8>, AllocError> {
        answer_or_line(alloc, act(alloc, &mut self.named, &mut self.current, line))
    }
}

fn act(
    alloc: Global,
    named: &mut NamedSettings,
    current: &mut Option<Play>,
    line: &str,
) -> Result<Vec<u8>, Wrong> {
    let (key, rest) = first_word(line);
    match key {
        "#" => Ok(Vec::new(alloc)),
        "settings" => silent(alloc, named.add_settings(alloc, rest)),
        "board" => silent(alloc, begin(alloc, current, rest)),
        _ => match current {
            Some(play) => act_by_words(alloc, named, play, key, rest),
            None => Err(Wrong::Form),
        },
    }
}

/// Nothing is printed.
fn silent(alloc: Global, done: Result<(), Wrong>) -> Result<Vec<u8>, Wrong> {
    match done {
        Ok(()) => Ok(Vec::new(alloc)),
        Err(why) => Err(why),
    }
}

/// Makes a call on the board.
fn act_by_words(
    alloc: Global,
    named: &NamedSettings,
    play: &mut Play,
    key: &str,
    rest: &str,
) -> Result<Vec<u8>, Wrong> {
    match key {
        "add" => silent(alloc, add(named, play, rest, Then::Stays)),
        "hold" => silent(alloc, add(named, play, rest, Then::IsHeld)),
        "leave" => silent(alloc, add(named, play, rest, Then::Leaves)),
        "need" => silent(alloc, set_need(alloc, named, play, rest)),
        "keep" => silent(alloc, propose(alloc, named, play, rest, true)),
        "undo" => silent(alloc, propose(alloc, named, play, rest, false)),
        "drop" => {
            play.drop_need(rest);
            Ok(Vec::new(alloc))
        }
        _ => ask(alloc, named, play, key, rest),
    }
}

/// `ROOM`.
fn begin(alloc: Global, current: &mut Option<Play>, rest: &str) -> Result<(), Wrong> {
    let play = Play::new(alloc, parse_number(rest)?)?;
    drop(mem::replace(current, Some(play)));
    Ok(())
}

/// `REPLICA NAME`.
fn add(named: &NamedSettings, play: &mut Play, rest: &str, then: Then) -> Result<(), Wrong> {
    let (replica, name) = split_number(rest)?;
    play.add(replica, named.share(name)?, then)
}

/// `PATH RESOURCE NAME`.
fn set_need(
    alloc: Global,
    named: &NamedSettings,
    play: &mut Play,
    rest: &str,
) -> Result<(), Wrong> {
    let (path, rest) = two_words(rest)?;
    let (resource, name) = two_words(rest)?;
    let who = writer(named, resource, name)?;
    let path = Path::copy(alloc, path)?;
    play.set_need(&path, resource, who)
}

/// `PATH RESOURCE NAME`.
fn propose(
    alloc: Global,
    named: &NamedSettings,
    play: &mut Play,
    rest: &str,
    keep: bool,
) -> Result<(), Wrong> {
    let (path, rest) = two_words(rest)?;
    let (resource, name) = two_words(rest)?;
    let who = writer(named, resource, name)?;
    let path = Path::copy(alloc, path)?;
    play.propose(&path, resource, who, keep)
}
