//! What is asked of a board, which stays as it is.
use crate::named::{NamedSettings, writer};
use crate::play::Play;
use crate::printing::{numbers_line, paths_line, verdict_line};
use std::alloc::Global;
use test_support::{Wrong, split_number, two_words};

/// Takes the line's words apart, and asks the play what they ask.
pub fn ask(
    alloc: Global,
    named: &NamedSettings,
    play: &Play,
    key: &str,
    rest: &str,
) -> Result<Vec<u8>, Wrong> {
    match key {
        "judge" => judge(alloc, named, play, 1, rest),
        "again" => {
            let (times, rest) = split_number(rest)?;
            judge(alloc, named, play, times, rest)
        }
        "live" => numbers_line(alloc, play.live()),
        "paths" => tell_paths(alloc, named, play, rest),
        _ => Err(Wrong::Form),
    }
}

/// `REPLICA NAME`.
fn judge(
    alloc: Global,
    named: &NamedSettings,
    play: &Play,
    times: u32,
    rest: &str,
) -> Result<Vec<u8>, Wrong> {
    let (replica, name) = split_number(rest)?;
    let verdict = play.judge(times, replica, named.find_named(name)?.get())?;
    let line = verdict_line(alloc, &verdict);
    drop(verdict);
    line
}

/// `RESOURCE NAME`.
fn tell_paths(
    alloc: Global,
    named: &NamedSettings,
    play: &Play,
    rest: &str,
) -> Result<Vec<u8>, Wrong> {
    let (resource, name) = two_words(rest)?;
    paths_line(alloc, play.paths(resource, writer(named, resource, name)?))
}
