//! The options that words spell.
ghost use Rattle.std.specs.Prelude.{◌≡◌, [], ◌∷◌, ◌++◌, OnOk, MatchOption};
ghost use Rattle.kr_words.specs.Grammar.{texts, BeginsWithOption};
ghost use Rattle.kr_words.specs.inner.Spelling.{IsPlain, ReadsOptions, BeginNoOption};

use kr_base::{List, NoMemory, Text};
use std::alloc::Global;

/// Why words weren't read as options.
pub enum SpellingNo {
    /// They spell none.
    Usage,
    /// There was no memory for the options.
    NoMemory,
}

/// The options that the words spell.
pub fn read_options(alloc: Global, words: &[String]) -> Result<List<(Text, Text)>, SpellingNo>
    ensures { ReadsOptions (texts words.now) result }
{
    let mut options = List::new(alloc);
    let mut rest = words;
    while !rest.is_empty() {
        let Some((name, value, tail)) = first_option(rest) else {
            drop(options);
            return Err(SpellingNo::Usage);
        };
        match push_option(alloc, &mut options, name, value) {
            Ok(()) => {}
            Err(NoMemory) => {
                drop(options);
                return Err(SpellingNo::NoMemory);
            }
        }
        rest = tail;
    }
    Ok(options)
}

/// The name and the value of the option with which the words begin, and the words behind it.
fn first_option(words: &[String]) -> Option<(&str, &str, &[String])>
    ensures { MatchOption result
        (BeginNoOption (texts words.now))
        (λ found. IsPlain found.0.now
        × BeginsWithOption (texts words.now) (found.0.now, found.1.now) (texts found.2.now)) }
{
    let (word, rest) = words.split_first()?;
    let option = word.as_str().strip_prefix("--")?;
    match option.split_once('=') {
        Some((name, value)) => Some((name, value, rest)),
        None => {
            let (value, rest) = rest.split_first()?;
            Some((option, value.as_str(), rest))
        }
    }
}

/// Puts a copy of the option at the end.
fn push_option(
    alloc: Global,
    options: &mut List<(Text, Text)>,
    name: &str,
    value: &str,
) -> Result<(), NoMemory>
    ensures { OnOk result (options.new.0 ≡ options.old.0 ++ (name.now, value.now) ∷ []) }
{
    let Ok(name) = Text::copy(alloc, name) else {
        return Err(NoMemory);
    };
    let Ok(value) = Text::copy(alloc, value) else {
        drop(name);
        return Err(NoMemory);
    };
    match options.push((name, value)) {
        Ok(()) => Ok(()),
        Err(refused) => {
            drop(refused);
            Err(NoMemory)
        }
    }
}
