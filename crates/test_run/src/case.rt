//! One call of `run`, and the world that it is made in.
use kr_base::{List, NoMemory};
use std::alloc::{AllocError, Global};

/// An object of the outside whose calls may fail.
#[derive(Clone, Copy, PartialEq, Eq)]
pub enum Object {
    /// What the call reads.
    Input,
    /// What it writes.
    Output,
    /// Where it writes what went wrong.
    Errors,
    /// The world, in calls of every kind.
    Files,
    /// The random source of a seat.
    Dice(u32),
}

/// A tape's calls: those that read it, that write it, or that settle it.
#[derive(Clone, Copy, PartialEq, Eq)]
pub enum TapeCalls {
    /// To read bytes.
    Reads,
    /// To put bytes, or to cut it.
    Writes,
    /// To settle what was written.
    Settles,
}

/// A plugin in memory, to which there is a link of a seat.
#[derive(Drop)]
pub struct Plugin {
    /// The seat of the link.
    pub seat: u32,
    /// The plugin's name.
    pub name: String,
    /// The key id that it has at first.
    pub key_id: String,
    /// What it masks by, beside its key id.
    pub salt: u8,
    /// The version that its status tells.
    pub version: String,
    /// What its status tells of its health.
    pub healthz: String,
    /// Further key ids, each with the number of the call from which on it has them.
    pub key_ids: Vec<(u64, String)>,
    /// Which calls fail, by their numbers from 1.
    pub fails: Vec<u64>,
}

/// A call: its words, the named files and tapes, the input, the random bytes of seats, and plugins.
#[derive(Drop)]
pub struct Case {
    /// The case's name.
    pub name: String,
    /// The words of the call.
    pub words: Vec<String>,
    /// The files by their names.
    pub files: Vec<(String, Vec<u8>)>,
    /// The bytes of the input.
    pub input: Vec<u8>,
    /// The random bytes of each seat.
    pub dice: Vec<(u32, Vec<u8>)>,
    /// The tapes by their names.
    pub tapes: Vec<(String, Vec<u8>)>,
    /// Names of tapes that aren't there, which the call may make.
    pub absent: Vec<String>,
    /// The plugins, each with the seat of its link.
    pub plugins: Vec<Plugin>,
    /// Which calls fail, by their numbers from 1.
    pub fails: Vec<(Object, u64)>,
    /// The same of the tape of a name.
    pub tape_fails: Vec<(TapeCalls, String, u64)>,
    /// How many bytes the output has room for.
    pub room: usize,
    /// How many bytes one call of input, output and errors carries at most.
    pub step: usize,
}

/// The room of an output, where a case names none.
const ROOM: usize = 4_194_304;

impl Case {
    /// A call without words, files, input and random bytes, in which nothing fails.
    pub fn new(alloc: Global, name: &str) -> Result<Case, AllocError> {
        Ok(Case {
            name: String::from_str(alloc, name)?,
            words: Vec::new(alloc),
            files: Vec::new(alloc),
            input: Vec::new(alloc),
            dice: Vec::new(alloc),
            tapes: Vec::new(alloc),
            absent: Vec::new(alloc),
            plugins: Vec::new(alloc),
            fails: Vec::new(alloc),
            tape_fails: Vec::new(alloc),
            room: ROOM,
            step: 1,
        })
    }

    /// The numbers of the object's calls that fail.
    pub fn failing_calls(&self, alloc: Global, object: Object) -> Result<List<u64>, NoMemory> {
        let mut numbers = Vec::new(alloc);
        for (other, number) in &self.fails {
            if *other == object {
                numbers.push(*number)?;
            }
        }
        Ok(List::from_vec(numbers))
    }

    /// The numbers of such calls of the tape that fail.
    pub fn failing_tape_calls(
        &self,
        alloc: Global,
        calls: TapeCalls,
        name: &str,
    ) -> Result<List<u64>, NoMemory> {
        let mut numbers = Vec::new(alloc);
        for (kind, other, number) in &self.tape_fails {
            if *kind == calls && other.as_str() == name {
                numbers.push(*number)?;
            }
        }
        Ok(List::from_vec(numbers))
    }
}
