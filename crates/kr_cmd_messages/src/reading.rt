//! The words of a call, read as a command's; what refuses them stops the call.
ghost use Rattle.kr_words.specs.Grammar.{texts};
ghost use Rattle.kr_cmd_messages.specs.inner.Reading.{AreRead, AreReadBehind};

use crate::refusal::{BadWords, Stop};
use kr_words::{CommandWords, WordsNo, read_words};
use std::alloc::Global;

/// The command of the words with its options.
pub(crate) fn command_words(alloc: Global, words: &[String]) -> Result<CommandWords, Stop>
    ensures { AreRead (texts words.now) result }
{
    match read_words(alloc, words) {
        Ok(words) => Ok(words),
        Err(WordsNo::Usage) => Err(Stop::Words(BadWords::Usage)),
        Err(WordsNo::Replicas) => Err(Stop::Words(BadWords::Replicas)),
        Err(WordsNo::Size) => Err(Stop::Words(BadWords::Size)),
        Err(WordsNo::Page) => Err(Stop::Words(BadWords::Page)),
        Err(WordsNo::NoMemory) => Err(Stop::NoMemory),
    }
}

/// The same where the first word is `name`; other words aren't read.
pub(crate) fn words_behind(
    alloc: Global,
    name: &str,
    words: &[String],
) -> Result<Option<CommandWords>, Stop>
    ensures { AreReadBehind name.now (texts words.now) result }
{
    let Some(first) = words.first() else {
        return Ok(None);
    };
    if first.as_str() != name {
        return Ok(None);
    }
    match command_words(alloc, words) {
        Ok(words) => Ok(Some(words)),
        Err(stop) => Err(stop),
    }
}
