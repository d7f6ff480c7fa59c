//! A file for each tested crate.
mod aes;
mod base;
mod pages;
mod turn;
