//! Providers at work: what an object's data are sealed as for a resource, and what a stored value
//! reads as. The API server calls what a provider does a transformer (`value.Transformer`); a bench
//! has those of one configuration, with their keys.
#![tactic(auto)]

mod adopted;
mod adoption;
mod bench;
mod check;
pub mod exchange_laws;
mod key_pages;
pub mod laws;
mod links;
mod making;
mod prefixes;
mod published;
mod readers;
mod refusal;
mod rounds;
mod sealing;
mod seed_sealing;
mod seeds;
mod sources;
mod unsealing;
mod value_keys;
mod values;

pub use bench::Bench;
pub use check::provider_check;
pub use kr_base::Shared;
pub use links::Links;
pub use published::{Published, names_plugin, publish};
pub use readers::find_reader;
pub use refusal::{Opened, PagesFull, PublishNo, SealNo, UnsealNo, ValueNo};
