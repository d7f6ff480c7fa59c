//! Texts in a small profile of YAML, read into trees.
#![tactic(auto)]

mod bytes;
mod characters;
mod laws;
mod line;
mod line_error;
mod open;
mod open_mapping;
mod place_error;
mod progress;
mod put;
mod reading;
mod scalar;
mod standing;
mod token;
mod tree;
mod yaml_no;

pub use laws::{one_answer, read_as_written};
pub use reading::read;
pub use tree::{Member, Tree};
pub use yaml_no::YamlNo;
