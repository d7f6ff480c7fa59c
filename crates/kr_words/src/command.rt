//! The commands, a command with its options, and first values.
ghost use Rattle.std.specs.Prelude.{◌≡◌};
ghost use Rattle.std.specs.Option.{option_copied};
ghost use Rattle.kr_words.specs.Names.{option_text};
ghost use Rattle.kr_words.specs.Options.{value_of, count_options};

use crate::name::OptionName;
use kr_base::{List, Text};

/// A command of the program.
#[derive(Clone, Copy)]
pub enum Verb {
    /// Encrypts the input.
    Encrypt,
    /// Decrypts the input.
    Decrypt,
    /// Shows a configuration.
    Check,
    /// Shows what a stored value is.
    Inspect,
    /// Puts the input into a store, encrypted.
    Put,
    /// Gets a value from a store, decrypted.
    Get,
    /// Tells what each value of a store reads as.
    Verify,
    /// Lists the rows of a store; its word is `list`.
    Rows,
    /// Copies a store of the first format into a new one of the second.
    Migrate,
    /// Judges a reload of one replica of many.
    Judge,
    /// Plans a rollout from one configuration to another.
    Plan,
    /// Writes the stale rows of a store anew.
    Rewrite,
    /// Runs the replicas of a fleet file.
    Fleet,
    /// Generates a load over a new store.
    Gen,
    /// Runs the replicas of a fleet file, and shows what a watch of them shows.
    Watch,
}

/// What a command line means: a command and its options as pairs of a name without dashes and a
/// value, in the order of the words.
#[derive(Drop)]
pub struct CommandWords {
    /// Which command.
    pub verb: Verb,
    /// Its options, as they stand.
    pub options: List<(Text, Text)>,
}

/// Why words weren't read.
#[derive(Clone, Copy)]
pub enum WordsNo {
    /// The words mean no command.
    Usage,
    /// There are more than 16 replicas, by their files or by their number.
    Replicas,
    /// The size is above 10,000.
    Size,
    /// A page has more than 10,000 items.
    Page,
    /// There was no memory for the options.
    NoMemory,
}

impl CommandWords {
    /// The value of the first option of that name.
    pub fn value(&self, name: &str) -> Option<&str>
        ensures { option_copied result ≡ value_of self.now.options.0 name.now }
    {
        first_value(self.options.as_slice(), name)
    }
}

/// The value of the first option of that name.
pub fn first_value<'a>(options: &'a [(Text, Text)], name: &str) -> Option<&'a str>
    ensures { option_copied result ≡ value_of options.now name.now }
{
    options
        .iter()
        .find(|option| option.0.as_str() == name)
        .map(|option| option.1.as_str())
}

/// How many options have that name.
pub fn count_options(options: &[(Text, Text)], name: &str) -> usize
    ensures { result ≡ count_options options.now name.now }
{
    options
        .iter()
        .filter(|option| option.0.as_str() == name)
        .count()
}

/// How many options have the name.
pub(crate) fn count_named(options: &[(Text, Text)], name: OptionName) -> usize
    ensures { result ≡ count_options options.now (option_text name) }
{
    count_options(options, name.text())
}
