//! The words of a line, parted by single spaces.
use crate::wrong::Wrong;
use hex::FromHexError;
use kr_base::{Bytes, List, Text, both, whole};
use std::alloc::Global;

/// Puts an item that was made at the end.
pub fn add<T: Drop>(all: &mut List<T>, item: Result<T, Wrong>) -> Result<(), Wrong> {
    all.push(item?)?;
    Ok(())
}

/// A word to be kept.
pub fn kept(alloc: Global, word: &str) -> Result<Text, Wrong> {
    Ok(Text::copy(alloc, word)?)
}

/// The first word, and what stands behind the space, of which there may be nothing.
pub fn first_word(text: &str) -> (&str, &str) {
    match text.split_once(' ') {
        Some(words) => words,
        None => (text, ""),
    }
}

/// The first word, and what stands behind the space.
pub fn two_words(text: &str) -> Result<(&str, &str), Wrong> {
    match text.split_once(' ') {
        Some(words) => Ok(words),
        None => Err(Wrong::Form),
    }
}

/// `PATH RESOURCE HEX`.
pub fn split_put(alloc: Global, text: &str) -> Result<((Text, Text), Bytes), Wrong> {
    let (path, rest) = two_words(text)?;
    let (resource, plain) = two_words(rest)?;
    let names = both(
        own_text_or_empty(alloc, path),
        own_text_or_empty(alloc, resource),
    );
    match both(names, parse_hex(alloc, plain)) {
        Ok((names, plain)) => Ok((names, Bytes::from_vec(plain))),
        Err(why) => Err(why),
    }
}

/// The first line, and those behind it, of which there may be none.
pub fn two_lines(text: &str) -> (&str, &str) {
    match text.split_once('\n') {
        Some(lines) => lines,
        None => (text, ""),
    }
}

/// What stands behind the key.
pub fn strip_key<'a>(key: &str, line: &'a str) -> Result<&'a str, Wrong> {
    let (word, rest) = two_words(line)?;
    if word == key {
        Ok(rest)
    } else {
        Err(Wrong::Form)
    }
}

/// A number of 32 bits in digits.
pub fn parse_number(text: &str) -> Result<u32, Wrong> {
    match text.parse::<u32>() {
        Ok(number) => Ok(number),
        Err(_) => Err(Wrong::Form),
    }
}

/// A number of 32 bits in digits, and what stands behind the space.
pub fn split_number(text: &str) -> Result<(u32, &str), Wrong> {
    let (number, rest) = two_words(text)?;
    Ok((parse_number(number)?, rest))
}

/// A number of 64 bits in digits.
pub fn parse_long(text: &str) -> Result<u64, Wrong> {
    match text.parse::<u64>() {
        Ok(number) => Ok(number),
        Err(_) => Err(Wrong::Form),
    }
}

/// Numbers of 64 bits parted by commas; `-` stands for none.
pub fn parse_longs(alloc: Global, word: &str) -> Result<List<u64>, Wrong> {
    if word == "-" {
        return Ok(List::new(alloc));
    }
    Ok(List::from_vec(parse_each(alloc, word)?))
}

/// Numbers of 32 bits parted by commas.
pub fn parse_numbers(alloc: Global, word: &str) -> Result<Vec<u32>, Wrong> {
    parse_each(alloc, word)
}

/// What stands in digits between commas.
trait Number: Drop {
    /// The number of these digits.
    fn of_digits(text: &str) -> Result<Self, Wrong>;
}

impl Number for u32 {
    fn of_digits(text: &str) -> Result<u32, Wrong> {
        parse_number(text)
    }
}

impl Number for u64 {
    fn of_digits(text: &str) -> Result<u64, Wrong> {
        parse_long(text)
    }
}

fn parse_each<N: Number>(alloc: Global, word: &str) -> Result<Vec<N>, Wrong> {
    let mut numbers = Vec::new(alloc);
    let done = add_each(&mut numbers, word);
    whole(numbers, done)
}

fn add_each<N: Number>(numbers: &mut Vec<N>, word: &str) -> Result<(), Wrong> {
    for part in word.split(',') {
        numbers.push(N::of_digits(part)?)?;
    }
    Ok(())
}

/// A number of 32 bits; `-` stands for none.
pub fn parse_option(word: &str) -> Result<Option<u32>, Wrong> {
    if word == "-" {
        return Ok(None);
    }
    Ok(Some(parse_number(word)?))
}

/// The text of a word; `-` stands for the empty one.
pub fn text_or_empty(word: &str) -> &str {
    if word == "-" { "" } else { word }
}

/// The same as a text of its own.
pub fn own_text_or_empty(alloc: Global, word: &str) -> Result<Text, Wrong> {
    kept(alloc, text_or_empty(word))
}

/// The bytes of digits in hex; `-` stands for none.
pub fn parse_hex(alloc: Global, word: &str) -> Result<Vec<u8>, Wrong> {
    match hex::decode(alloc, text_or_empty(word)) {
        Ok(bytes) => Ok(bytes),
        Err(FromHexError::OutOfMemory) => Err(Wrong::Memory),
        Err(_) => Err(Wrong::Form),
    }
}
