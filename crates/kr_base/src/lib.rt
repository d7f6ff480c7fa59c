//! What every crate of kmsrest stands on: byte strings, texts and lists that contracts see as plain
//! lists, the traits of the outside with their counts of faults, the rules for names, paths and
//! resources, and the limits.
#![tactic(auto)]

mod annotations;
mod bytes;
mod call_log;
mod errors;
mod fault_count;
mod input_bytes;
mod limits;
mod list;
mod mem_dice;
mod mem_sink;
mod mem_source;
mod mem_tape;
mod rules;
mod seeded_dice;
mod shared;
mod text;
mod together;
mod traits;
mod transfer;
mod visible;

pub use annotations::Annotations;
pub use bytes::Bytes;
pub use call_log::CallLog;
pub use errors::{Failed, NoMemory, ReadNo, Spent};
pub use fault_count::FaultCount;
pub use limits::{
    ANNOTATIONS_LIMIT, ANNOTATIONS_SIZE_LIMIT, CONFIG_LIMIT, DATA_LIMIT, JOURNAL_LIMIT, NAME_LIMIT,
    PATH_LIMIT, SHORT_LIMIT, STORE_LIMIT, VALUE_LIMIT, are_few, is_short,
};
pub use list::List;
pub use mem_dice::MemDice;
pub use mem_sink::MemSink;
pub use mem_source::MemSource;
pub use mem_tape::MemTape;
pub use rules::{name_ok, path_ok, resource_ok};
pub use seeded_dice::SeededDice;
pub use shared::Shared;
pub use text::{Text, tell_text};
pub use together::{both, whole};
pub use traits::{Dice, Sink, Source, Tape};
pub use transfer::{read_all, write_all, write_each};
pub use visible::push_visible;
