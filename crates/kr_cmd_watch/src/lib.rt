//! The command `watch`: a fleet, and what a watch of its journal shows.
#![tactic(auto)]

mod following;
mod page_text;
mod texts;
mod watching;

pub use watching::watch;
