//! A file for each tested subject.
mod envelope;
mod kms;
mod lines;
mod making;
mod store;
mod world;
