//! The fleet file: which replicas there are, and what each worker does at one of them; and the
//! fleet's output.
#![tactic(auto)]

mod draft;
mod fleet_output;
mod head;
mod journal_text;
mod laws;
mod line_error;
mod line_text;
mod lines;
mod reading;
mod reply_text;
mod script;
mod script_line;
mod statement;
mod told;
mod words;

pub use fleet_output::write_fleet;
pub use laws::{one_meaning, told_apart};
pub use reading::read_script;
pub use script::{Part, Script, ScriptLine, ScriptNo};
pub use told::{Told, WriteNo};
