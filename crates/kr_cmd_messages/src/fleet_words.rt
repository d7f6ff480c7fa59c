//! The words of `fleet`.
ghost use Rattle.std.specs.Prelude.{IfOk};
ghost use Rattle.kr_words.specs.Grammar.{texts};
ghost use Rattle.kr_cmd_messages.specs.inner.FleetAnswers.{IsFleetAsked, IsFleetOf, NamesFleet};

use crate::options::Options;
use crate::reading::words_behind;
use crate::refusal::Stop;
use kr_base::{NoMemory, Text};
use kr_words::{CommandWords, Verb};
use std::alloc::Global;

/// Which fleet is to be run.
#[derive(Drop)]
pub struct FleetWords {
    /// The name of the fleet file.
    pub file: Text,
    /// The name of the store's file.
    pub store: Text,
    /// All options of the words, which give the programs of plugins.
    pub options: Options,
}

/// The fleet that the words ask for, if they ask for one.
#[tactic(auto, using(crate::proofs::NoneAsked::stops_fleet))]
pub fn read_fleet(alloc: Global, words: &[String]) -> Result<Option<FleetWords>, Stop>
    ensures { IsFleetAsked (texts words.now) result }
{
    let read = match words_behind(alloc, "fleet", words) {
        Ok(read) => read,
        Err(stop) => return Err(stop),
    };
    let words = match read {
        Some(words) => words,
        None => return Ok(None),
    };
    match fleet_request(alloc, words) {
        Ok(asked) => Ok(asked),
        Err(NoMemory) => Err(Stop::NoMemory),
    }
}

/// The fleet of the words, if they are those of `fleet`.
fn fleet_request(alloc: Global, words: CommandWords) -> Result<Option<FleetWords>, NoMemory>
    ensures { IfOk result (λ asked. IsFleetOf words.verb words.options.0 asked) }
{
    let Verb::Fleet = words.verb else {
        return Ok(None);
    };
    named_fleet(alloc, words)
}

/// The fleet that options name, if they name one.
pub(crate) fn named_fleet(
    alloc: Global,
    words: CommandWords,
) -> Result<Option<FleetWords>, NoMemory>
    ensures { IfOk result (λ fleet. NamesFleet words.options.0 fleet) }
{
    let Some(file) = words.value("file") else {
        return Ok(None);
    };
    let Some(store) = words.value("store") else {
        return Ok(None);
    };
    let file = Text::copy(alloc, file)?;
    let store = Text::copy(alloc, store)?;
    Ok(Some(FleetWords {
        file,
        store,
        options: Options::new(words),
    }))
}
