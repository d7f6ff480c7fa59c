//! The words of `watch`.
ghost use Rattle.std.specs.Prelude.{◌≡◌, IfOk, codes};
ghost use Rattle.kr_words.specs.Arguments.{IsNumberAt};
ghost use Rattle.kr_words.specs.Grammar.{IsWithinPage, texts};
ghost use Rattle.kr_words.specs.Rules.{IsCommand};
ghost use Rattle.kr_words.specs.declared.command.Verb.{Verb};
ghost use Rattle.kr_cmd_messages.specs.WatchAsked.{IsSince};
ghost use Rattle.kr_cmd_messages.specs.inner.WatchAnswers.{IsWatchAsked, IsWatchOf};

use crate::fleet_words::{FleetWords, named_fleet};
use crate::reading::words_behind;
use crate::refusal::Stop;
use kr_base::{NoMemory, Text};
use kr_words::{CommandWords, Verb};
use std::alloc::Global;

/// Which fleet is to be run, and what of it is to be shown.
#[derive(Drop)]
pub struct WatchWords {
    /// The fleet.
    pub fleet: FleetWords,
    /// The resource whose objects are listed.
    pub resource: Text,
    /// How many objects a page has.
    pub limit: u32,
    /// The revision since which changes are shown in place of pages.
    pub since: Option<u64>,
}

/// The watch that the words ask for, if they ask for one.
#[tactic(auto, using(crate::proofs::NoneAsked::stops_watch))]
pub fn read_watch(alloc: Global, words: &[String]) -> Result<Option<WatchWords>, Stop>
    ensures { IsWatchAsked (texts words.now) result }
{
    let read = match words_behind(alloc, "watch", words) {
        Ok(read) => read,
        Err(stop) => return Err(stop),
    };
    let words = match read {
        Some(words) => words,
        None => return Ok(None),
    };
    match watch_request(alloc, words) {
        Ok(asked) => Ok(asked),
        Err(NoMemory) => Err(Stop::NoMemory),
    }
}

/// The watch of the words, if they are those of `watch`.
fn watch_request(alloc: Global, words: CommandWords) -> Result<Option<WatchWords>, NoMemory>
    requires command { IsCommand words.verb words.options.0 }
    requires small { IsWithinPage words.options.0 }
    ensures { IfOk result (λ asked. IsWatchOf words.verb words.options.0 asked) }
{
    let Verb::Watch = words.verb else {
        drop(words);
        return Ok(None);
    };
    let Some(resource) = words.value("resource") else {
        drop(words);
        return Ok(None);
    };
    let resource = Text::copy(alloc, resource)?;
    let limit = watch_limit(&words);
    let since = since_number(&words);
    let Some(fleet) = named_fleet(alloc, words)? else {
        return Ok(None);
    };
    Ok(Some(WatchWords {
        fleet,
        resource,
        limit,
        since,
    }))
}

fn watch_limit(words: &CommandWords) -> u32
    requires command { IsCommand words.now.verb words.now.options.0 }
    requires verb { words.now.verb ≡ Verb.Watch }
    requires small { IsWithinPage words.now.options.0 }
    ensures { IsNumberAt words.now.options.0 (codes "limit") result }
{
    let Some(limit) = words.limit() else {
        unreachable!();
    };
    limit as u32
}

fn since_number(words: &CommandWords) -> Option<u64>
    requires { IsCommand words.now.verb words.now.options.0 }
    ensures { IsSince words.now.options.0 result }
{
    match words.value("since") {
        Some(_) => words.since_revision(),
        None => None,
    }
}
