//! The reader of a command line.
ghost use Rattle.kr_words.specs.Grammar.{texts, ReadsWords, HasFewReplicas, MeanOneCommand};
ghost use Rattle.kr_words.specs.Arguments.{IsWithin};
ghost use Rattle.kr_words.specs.Names.{option_text};
ghost use Rattle.kr_words.specs.inner.Spelling.{HasNoSmall, HasNoFewReplicas};
ghost use Rattle.kr_words.specs.Numerals.{IsDecimal};
ghost use Rattle.std.specs.Prelude.{ℕ, ◌≤◌, ◌<◌, MatchBool};

use crate::command::{CommandWords, WordsNo, count_named, first_value};
use crate::name::{OptionName, parse_verb};
use crate::numeral::parse_numeral;
use crate::rules::is_command;
use crate::spelling::{SpellingNo, read_options};
use kr_base::Text;
use std::alloc::Global;

/// The most replicas of a command line.
const REPLICA_LIMIT: usize = 16;

/// The greatest size of a command line.
const SIZE_LIMIT: u64 = 10_000;

/// The most items of a page.
const PAGE_LIMIT: u64 = 10_000;

/// Reads the words of a command line, those behind the program's name. Words that mean no command
/// are refused first, then too many replicas, then a size that is too large, then pages of too many
/// items.
pub fn read_words(alloc: Global, words: &[String]) -> Result<CommandWords, WordsNo>
    ensures { ReadsWords (texts words.now) result }
{
    let Some((word, rest)) = words.split_first() else {
        return Err(WordsNo::Usage);
    };
    let Some(verb) = parse_verb(word.as_str()) else {
        return Err(WordsNo::Usage);
    };
    let options = match read_options(alloc, rest) {
        Ok(options) => options,
        Err(SpellingNo::Usage) => return Err(WordsNo::Usage),
        Err(SpellingNo::NoMemory) => return Err(WordsNo::NoMemory),
    };
    if !is_command(verb, options.as_slice()) {
        drop(options);
        return Err(WordsNo::Usage);
    }
    if !has_few_replicas(options.as_slice()) {
        drop(options);
        return Err(WordsNo::Replicas);
    }
    if !fits_limit(options.as_slice(), OptionName::Size, SIZE_LIMIT) {
        drop(options);
        return Err(WordsNo::Size);
    }
    if !fits_limit(options.as_slice(), OptionName::Limit, PAGE_LIMIT) {
        drop(options);
        return Err(WordsNo::Page);
    }
    Ok(CommandWords { verb, options })
}

/// Whether there are no more replicas than may be, by their files and by their number.
fn has_few_replicas(options: &[(Text, Text)]) -> bool
    ensures { MatchBool result (HasFewReplicas options.now) (HasNoFewReplicas options.now) }
{
    if count_named(options, OptionName::Replica) > REPLICA_LIMIT {
        return false;
    }
    fits_limit(options, OptionName::Replicas, REPLICA_LIMIT as u64)
}

/// Whether nothing stands at the name, or a number up to the limit. Where it is a number, it is
/// above the limit else, also one that is too long for its type.
fn fits_limit(options: &[(Text, Text)], name: OptionName, limit: u64) -> bool
    ensures { MatchBool result
        (IsWithin options.now (option_text name) limit)
        (HasNoSmall options.now (option_text name) limit) }
{
    match first_value(options, name.text()) {
        Some(number) => is_at_most(number, limit),
        None => true,
    }
}

/// Whether the text is a number up to the limit, in decimal digits.
fn is_at_most(text: &str, limit: u64) -> bool
    ensures { MatchBool result
        ((n : ℕ) × IsDecimal text.now n × (n ≤ limit))
        ((n : ℕ) → IsDecimal text.now n → limit < n) }
{
    match parse_numeral(text) {
        Some(number) => number <= limit,
        None => false,
    }
}

/// The words of one command line mean at most one command with its options.
pub fn one_meaning()
    ensures { MeanOneCommand }
{}
