//! The steps that commands are made of, and the phases that do them. A command's steps are an
//! interaction tree: data that say what it asks of its environment, and how it goes on by each
//! answer.
#![tactic(auto)]

mod bench;
mod finding;
mod phases;
mod programs;
mod publication;
mod starts;
mod stores;
mod work;

pub use bench::adopted;
pub use finding::Finding;
pub use phases::{
    close_dice, close_link, configure, load_settings, open_dice, open_link, show, take_input,
    write_output,
};
pub use programs::{
    Program, Programs, linked_settings, program_plugins, settings_programs, without_program,
};
pub use publication::publish_settings;
pub use starts::start_stop;
pub use stores::{
    add_delete, add_put, close_tape, load_store, open_tape, return_tape, settle_tape, write_stop,
};
pub use work::{Task, make, split_first_program, take_last};
