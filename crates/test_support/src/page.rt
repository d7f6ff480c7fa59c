//! What is printed: lines of words.
use crate::wrong::Wrong;
use itoa::Buffer;
use kr_base::{Bytes, List, MemSink};
use kr_judge::Verdict;
use std::alloc::Global;

/// How many bytes of a verdict are printed; a page with a longer one isn't whole.
const ROOM: usize = 4096;

/// Lines in the making. What finds no memory is left out, and the page remembers that, so that it
/// is told once and not at each word.
#[derive(Drop)]
pub struct Page {
    bytes: Vec<u8>,
    /// Whether the line at hand has a word.
    begun: bool,
    /// Whether all that was added is there.
    whole: bool,
}

impl Page {
    /// No line.
    pub fn new(alloc: Global) -> Page {
        Page {
            bytes: Vec::new(alloc),
            begun: false,
            whole: true,
        }
    }

    /// Adds bytes, if there is memory.
    fn put(&mut self, bytes: &[u8]) {
        if self.bytes.extend_from_slice(bytes).is_err() {
            self.whole = false;
        }
    }

    /// Something that was to be added found no memory.
    pub fn lack(&mut self) {
        self.whole = false;
    }

    /// Adds a word to the line; the empty one is `-`.
    pub fn word(&mut self, word: &str) {
        self.piece(if word.is_empty() { "-" } else { word }.as_bytes());
    }

    /// Adds a word of these bytes.
    fn piece(&mut self, bytes: &[u8]) {
        if self.begun {
            self.put(b" ");
        }
        self.begun = true;
        self.put(bytes);
    }

    /// Adds a number as a word of its own.
    pub fn number(&mut self, number: u64) {
        let mut digits = Buffer::new();
        self.word(digits.format(number));
    }

    /// Adds a number, or `-` for none.
    pub fn option(&mut self, number: Option<u32>) {
        match number {
            Some(number) => self.number(number as u64),
            None => self.word(""),
        }
    }

    /// Adds a word with a number.
    pub fn counted(&mut self, word: &str, number: u64) {
        self.word(word);
        self.number(number);
    }

    /// Adds a word with a text.
    pub fn named(&mut self, word: &str, text: &str) {
        self.word(word);
        self.word(text);
    }

    /// Adds bytes in hex, `-` for none.
    pub fn digits(&mut self, alloc: Global, bytes: &[u8]) {
        match hex::encode(alloc, bytes) {
            Ok(digits) => {
                self.word(digits.as_str());
                drop(digits);
            }
            Err(_) => self.lack(),
        }
    }

    /// Adds a verdict's text.
    pub fn verdict(&mut self, alloc: Global, verdict: &Verdict) {
        match MemSink::new(Bytes::new(alloc), ROOM, List::new(alloc)) {
            Ok(mut sink) => {
                if verdict.write(&mut sink).is_err() {
                    self.lack();
                }
                self.piece(sink.bytes());
                drop(sink);
            }
            Err(_) => self.lack(),
        }
    }

    /// Ends the line, so that the next word begins another.
    pub fn end_line(&mut self) {
        self.begun = false;
        self.put(b"\n");
    }

    /// Adds the lines of another page.
    pub fn add(&mut self, other: &Page) {
        self.put(other.bytes.as_slice());
        if !other.whole {
            self.whole = false;
        }
    }

    /// Ends the line of what has no answer: with this word, where it isn't of the form.
    pub fn told_wrong(&mut self, word: &str, why: Wrong) {
        match why {
            Wrong::Form => self.word(word),
            Wrong::Memory => self.lack(),
        }
        self.end_line();
    }

    /// All that was added, if there was memory for it.
    pub fn into_bytes(self) -> Result<Vec<u8>, Wrong> {
        let Page { bytes, whole, .. } = self;
        if whole {
            Ok(bytes)
        } else {
            drop(bytes);
            Err(Wrong::Memory)
        }
    }
}
