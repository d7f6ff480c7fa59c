//! Texts that are written a piece at a time.
ghost use Rattle.std.specs.Prelude.{◌≡◌, ◌⊎◌, ◌++◌, IfOk, OnErr, decimal};
ghost use Rattle.kr_base.specs.Visible.{visible};

use itoa::Buffer;
use kr_base::{NoMemory, Text, push_visible};
use std::alloc::Global;

/// Adds the piece.
pub fn add(text: &mut Vec<u8>, piece: &str) -> Result<(), NoMemory>
    ensures added { IfOk result (λ done. text.new.items ≡ text.old.items ++ piece.now) }
    ensures kept { OnErr result (text.new.items ≡ text.old.items) }
{
    match text.extend_from_slice(piece.as_bytes()) {
        Ok(()) => Ok(()),
        Err(_) => Err(NoMemory),
    }
}

/// Adds the two pieces.
pub fn add_pair(text: &mut Vec<u8>, first: &str, second: &str) -> Result<(), NoMemory>
    ensures added { IfOk result
        (λ done. text.new.items ≡ text.old.items ++ (first.now ++ second.now)) }
    ensures kept { OnErr result ((text.new.items ≡ text.old.items)
        ⊎ (text.new.items ≡ text.old.items ++ first.now)) }
{
    add(text, first)?;
    add(text, second)
}

/// Adds the number in decimal digits.
pub fn add_number(text: &mut Vec<u8>, number: usize) -> Result<(), NoMemory>
    ensures added { IfOk result (λ done. text.new.items ≡ text.old.items ++ decimal number) }
    ensures kept { OnErr result (text.new.items ≡ text.old.items) }
{
    let mut buffer = Buffer::new();
    add(text, buffer.format(number))
}

/// A foreign text as it is printed.
pub fn visible(alloc: Global, foreign: &str) -> Result<Text, NoMemory>
    ensures { IfOk result (λ copy. copy ≡ visible foreign.now) }
{
    let Ok(mut bytes) = Vec::with_capacity(alloc, foreign.len()) else {
        return Err(NoMemory);
    };
    push_visible(&mut bytes, foreign)?;
    match String::from_utf8(bytes) {
        Ok(string) => Ok(Text::from_string(string)),
        Err(_) => unreachable!(),
    }
}

/// Copies of two texts.
pub(crate) fn copy_two(alloc: Global, first: &str, second: &str) -> Result<(Text, Text), NoMemory>
    ensures { IfOk result (λ copies. (copies.0 ≡ first.now) × (copies.1 ≡ second.now)) }
{
    let first = Text::copy(alloc, first)?;
    match Text::copy(alloc, second) {
        Ok(second) => Ok((first, second)),
        Err(_) => {
            drop(first);
            Err(NoMemory)
        }
    }
}

/// Copies of three texts.
pub(crate) fn copy_three(
    alloc: Global,
    first: &str,
    second: &str,
    third: &str,
) -> Result<(Text, Text, Text), NoMemory>
    ensures { IfOk result (λ copies. (copies.0 ≡ first.now) × (copies.1 ≡ second.now)
        × (copies.2 ≡ third.now)) }
{
    let (first, second) = copy_two(alloc, first, second)?;
    match Text::copy(alloc, third) {
        Ok(third) => Ok((first, second, third)),
        Err(_) => {
            drop(first);
            drop(second);
            Err(NoMemory)
        }
    }
}

/// Copies of four texts.
pub(crate) fn copy_four(
    alloc: Global,
    first: &str,
    second: &str,
    third: &str,
    fourth: &str,
) -> Result<(Text, Text, Text, Text), NoMemory>
    ensures { IfOk result (λ copies. (copies.0 ≡ first.now) × (copies.1 ≡ second.now)
        × (copies.2 ≡ third.now) × (copies.3 ≡ fourth.now)) }
{
    let (first, second) = copy_two(alloc, first, second)?;
    match copy_two(alloc, third, fourth) {
        Ok((third, fourth)) => Ok((first, second, third, fourth)),
        Err(_) => {
            drop(first);
            drop(second);
            Err(NoMemory)
        }
    }
}
