//! A line of text in memory, to which pieces are added.
ghost use Rattle.std.specs.Prelude.{◌≡◌, ◌++◌, [], IfOk, MatchResult, Some, length, decimal, codes};
ghost use Rattle.kr_base.specs.Visible.{visible};
ghost use Rattle.kr_judge.specs.Texts.{verdict_text};
ghost use Rattle.kr_script.specs.Output.{two, three};

use itoa::Buffer;
use kr_base::{Failed, FaultCount, NoMemory, Sink, push_visible};
use kr_judge::Verdict;
use std::alloc::Global;

/// A line of text in memory. As a sink it fails where there is no memory.
#[derive(Drop)]
pub struct LineText {
    pub bytes: Vec<u8>,
    pub faults: FaultCount,
}

impl Sink for LineText {
    ghost use Rattle.std.specs.Prelude.{Some};

    ghost held = { λ text. Some text.bytes.items };

    ghost count = { λ text. text.faults };

    fn write(&mut self, bytes: &[u8]) -> Result<usize, Failed> {
        match self.bytes.extend_from_slice(bytes) {
            Ok(()) => Ok(bytes.len()),
            Err(_) => {
                self.faults.rise();
                Err(Failed)
            }
        }
    }

    fn faults(&self) -> u64 {
        self.faults.count()
    }
}

impl LineText {
    /// An empty line. It takes no memory yet.
    pub fn new(alloc: Global) -> LineText
        ensures { result.bytes.items ≡ [] }
    {
        LineText {
            bytes: Vec::new(alloc),
            faults: FaultCount::new(),
        }
    }

    /// Begins the text anew, in the memory that it has.
    pub fn clear(&mut self)
        ensures { self.new.bytes.items ≡ [] }
    {
        self.bytes.clear();
    }

    /// Adds the piece.
    pub fn add(&mut self, piece: &str) -> Result<(), NoMemory>
        ensures { IfOk result (λ done. self.new.bytes.items ≡ self.old.bytes.items ++ piece.now) }
    {
        match self.bytes.extend_from_slice(piece.as_bytes()) {
            Ok(()) => Ok(()),
            Err(_) => Err(NoMemory),
        }
    }

    /// Adds the number in decimal digits.
    pub fn add_number(&mut self, number: u64) -> Result<(), NoMemory>
        ensures { IfOk result (λ done. self.new.bytes.items
            ≡ self.old.bytes.items ++ decimal number) }
    {
        let mut buffer = Buffer::new();
        self.add(buffer.format(number))
    }

    /// Adds the word and a space.
    pub fn add_spaced(&mut self, word: &str) -> Result<(), NoMemory>
        ensures { IfOk result (λ done. self.new.bytes.items
            ≡ self.old.bytes.items ++ (word.now ++ codes " ")) }
    {
        self.add(word)?;
        self.add(" ")
    }

    /// Adds the word and a number behind it.
    pub fn add_counted(&mut self, word: &str, number: u64) -> Result<(), NoMemory>
        ensures { IfOk result (λ done. self.new.bytes.items
            ≡ self.old.bytes.items ++ two word.now (decimal number)) }
    {
        self.add_spaced(word)?;
        self.add_number(number)
    }

    /// Adds two words.
    pub fn add_two(&mut self, first: &str, second: &str) -> Result<(), NoMemory>
        ensures { IfOk result (λ done. self.new.bytes.items
            ≡ self.old.bytes.items ++ two first.now second.now) }
    {
        self.add_spaced(first)?;
        self.add(second)
    }

    /// Adds two words and a number behind them.
    pub fn add_placed(&mut self, word: &str, name: &str, number: u64) -> Result<(), NoMemory>
        ensures { IfOk result (λ done. self.new.bytes.items
            ≡ self.old.bytes.items ++ three word.now name.now (decimal number)) }
    {
        self.add_spaced(word)?;
        self.add_counted(name, number)
    }

    /// Adds three words.
    pub fn add_three(&mut self, first: &str, second: &str, third: &str) -> Result<(), NoMemory>
        ensures { IfOk result (λ done. self.new.bytes.items
            ≡ self.old.bytes.items ++ three first.now second.now third.now) }
    {
        self.add_spaced(first)?;
        self.add_two(second, third)
    }

    /// Adds a foreign text as it is printed.
    pub fn add_visible(&mut self, foreign: &str) -> Result<(), NoMemory>
        ensures { IfOk result (λ done. self.new.bytes.items
            ≡ self.old.bytes.items ++ visible foreign.now) }
    {
        push_visible(&mut self.bytes, foreign)
    }

    /// Adds the verdict's text.
    pub fn add_verdict(&mut self, verdict: &Verdict) -> Result<(), NoMemory>
        ensures { IfOk result (λ done. self.new.bytes.items
            ≡ self.old.bytes.items ++ verdict_text verdict.now) }
    {
        match verdict.write(self) {
            Ok(()) => Ok(()),
            Err(Failed) => Err(NoMemory),
        }
    }
}
