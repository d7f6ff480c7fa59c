//! The words of the command line.

use std::env::{self, Env, FillError};
use std::io;

/// The arguments behind the program's name, which need not be UTF-8.
#[derive(Drop)]
struct BehindName<'a, R> {
    rt: &'a R,
}

impl<R: Env> Env for BehindName<'_, R> {
    fn arg(&self, i: usize, buf: &mut [u8]) -> Result<usize, FillError> {
        match i.checked_add(1) {
            Some(next) => self.rt.arg(next, buf),
            None => Err(FillError::NotPresent),
        }
    }

    fn var(&self, name: &str, buf: &mut [u8]) -> Result<usize, FillError> {
        self.rt.var(name, buf)
    }

    fn var_at(&self, i: usize, buf: &mut [u8]) -> Result<usize, FillError> {
        self.rt.var_at(i, buf)
    }
}

/// The words behind the program's name. One that isn't UTF-8 is an error.
pub fn words(rt: &(impl Env + AllocGlobal)) -> io::Result<Vec<String>> {
    let mut words = Vec::new(rt.alloc());
    for word in env::args(&(BehindName { rt }, rt.alloc()))? {
        words.push(word)?;
    }
    Ok(words)
}
