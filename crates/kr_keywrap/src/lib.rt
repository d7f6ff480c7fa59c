//! The key wrap of RFC 3394, and an example plugin on it: a link in memory under a ring's keys,
//! and the loop that serves a plugin's lines.
#![tactic(auto)]

mod answer;
mod key_link;
mod key_wrap;
mod keys;
pub mod laws;
mod pending;
mod ring;
mod serving;

pub use key_link::KeyLink;
pub use key_wrap::{WrapNo, unwrap_key, wrap};
pub use ring::{ExampleRing, Ring};
pub use serving::{Served, serve};
