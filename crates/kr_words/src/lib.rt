//! The command line of kmsrest: which words mean a command with its options, and the reader of
//! them.
#![tactic(auto)]

mod arguments;
mod command;
mod name;
mod numeral;
mod read;
mod rules;
mod spelling;

pub use arguments::Reload;
pub use command::{CommandWords, Verb, WordsNo};
pub use read::{one_meaning, read_words};
