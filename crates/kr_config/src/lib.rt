//! The configuration of the encryption: provider lists of resources, and resource classes.
#![tactic(auto)]

mod borrowed_class;
mod class;
mod class_index;
mod class_table;
mod counts;
mod laws;
mod next_plugin;
mod pattern;
mod place;
mod provider;
mod read_element;
mod read_entry;
mod read_pattern;
mod reading;
mod refusal;
mod settings;
mod tree;
mod values;
mod who;
mod writing;
mod yaml;

pub use borrowed_class::{BorrowedClass, comes_earlier, copy_class, first_class};
pub use class::Class;
pub use class_index::ClassPlace;
pub use class_table::ClassTable;
pub use counts::{count_entry_keys, count_plugins};
pub use laws::{
    class_entries_give_their_lists, classes_narrow, one_meaning, texts_are_read_as_meant,
};
pub use pattern::Pattern;
pub use place::ConfigPlace;
pub use reading::read;
pub use refusal::{ConfigErr, ConfigNo, Counted, Rule, YamlRule};
pub use settings::{Entry, Settings};
pub use who::Who;
pub use writing::settings_text;
