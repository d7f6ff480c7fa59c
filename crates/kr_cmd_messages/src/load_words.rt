//! The words of `gen`.
ghost use Rattle.std.specs.Prelude.{◌≡◌, IfOk, codes};
ghost use Rattle.kr_words.specs.Arguments.{IsNumberAt};
ghost use Rattle.kr_words.specs.Grammar.{IsWithinSize, texts};
ghost use Rattle.kr_words.specs.Rules.{IsCommand};
ghost use Rattle.kr_words.specs.declared.command.Verb.{Verb};
ghost use Rattle.kr_cmd_messages.specs.inner.LoadAnswers.{IsLoadAsked, IsLoadOf};

use crate::reading::words_behind;
use crate::refusal::Stop;
use kr_base::{NoMemory, Text};
use kr_words::{CommandWords, Verb};
use std::alloc::Global;

/// Which load is to be generated.
#[derive(Drop)]
pub struct LoadWords {
    /// What all its random bytes come of.
    pub seed: u64,
    /// How many objects each worker puts and gets.
    pub size: u32,
    /// The name of the store's file.
    pub store: Text,
}

/// The load that the words ask for, if they ask for one.
#[tactic(auto, using(crate::proofs::NoneAsked::stops_load))]
pub fn read_load(alloc: Global, words: &[String]) -> Result<Option<LoadWords>, Stop>
    ensures { IsLoadAsked (texts words.now) result }
{
    let read = match words_behind(alloc, "gen", words) {
        Ok(read) => read,
        Err(stop) => return Err(stop),
    };
    let words = match read {
        Some(words) => words,
        None => return Ok(None),
    };
    match load_asked(alloc, &words) {
        Ok(asked) => Ok(asked),
        Err(NoMemory) => Err(Stop::NoMemory),
    }
}

/// The load of the words, if they are those of `gen`.
fn load_asked(alloc: Global, words: &CommandWords) -> Result<Option<LoadWords>, NoMemory>
    requires command { IsCommand words.now.verb words.now.options.0 }
    requires small { IsWithinSize words.now.options.0 }
    ensures { IfOk result (λ asked. IsLoadOf words.now.verb words.now.options.0 asked) }
{
    let Verb::Gen = words.verb else {
        return Ok(None);
    };
    let Some(store) = words.value("store") else {
        return Ok(None);
    };
    let store = Text::copy(alloc, store)?;
    Ok(Some(LoadWords {
        seed: load_seed(words),
        size: load_size(words),
        store,
    }))
}

fn load_seed(words: &CommandWords) -> u64
    requires command { IsCommand words.now.verb words.now.options.0 }
    requires verb { words.now.verb ≡ Verb.Gen }
    ensures { IsNumberAt words.now.options.0 (codes "seed") result }
{
    let Some(seed) = words.seed() else {
        unreachable!();
    };
    seed
}

fn load_size(words: &CommandWords) -> u32
    requires command { IsCommand words.now.verb words.now.options.0 }
    requires verb { words.now.verb ≡ Verb.Gen }
    requires small { IsWithinSize words.now.options.0 }
    ensures { IsNumberAt words.now.options.0 (codes "size") result }
{
    let Some(size) = words.size() else {
        unreachable!();
    };
    size as u32
}
