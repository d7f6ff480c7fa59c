//! The command that words ask for, how it ends, and what is said of that.
#![tactic(auto)]

mod command;
mod fleet_words;
mod load_words;
mod message;
mod options;
mod reading;
mod refusal;
mod report;
mod text;
mod watch_words;

pub use command::{
    Command, Conversion, Direction, JudgeWords, Lookup, Migration, Planning, Rewriting,
    ShownSettings, Verification, read_command,
};
pub use fleet_words::{FleetWords, read_fleet};
pub use load_words::{LoadWords, read_load};
pub use message::tell;
pub use options::Options;
pub use refusal::{BadWords, Breach, Done, Ended, Limit, Object, Outcome, Refusal, Stop};
pub use report::{RewriteCounts, add_count, report_text, write_report};
pub use text::{add, add_number, add_pair, visible};
pub use watch_words::{WatchWords, read_watch};
