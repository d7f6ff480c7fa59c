//! What is printed for a line.
ghost use Rattle.std.specs.Prelude.{◌≡◌, IfOk, Err};
ghost use Rattle.std.specs.String.{string_bytes};
ghost use Rattle.test_yaml.specs.Answers.{Answers, Prints, TellsDocument, TellsText, refusal_text};

use crate::writing::write_tree;
use hex::FromHexError;
use itoa::Buffer;
use kr_yaml::YamlNo;
use std::alloc::{AllocError, Global};

/// The tree of the document that the line stands for, or why there is none.
pub fn answer(alloc: Global, line: &str) -> Result<String, AllocError>
    ensures { IfOk result (λ text. Answers line.now (string_bytes text)) }
{
    if line == "-" {
        return of_document(alloc, &[]);
    }
    if line.is_empty() {
        return "line".to_string(alloc);
    }
    match hex::decode(alloc, line) {
        Ok(document) => of_document(alloc, document.as_slice()),
        Err(FromHexError::OutOfMemory) => Err(AllocError),
        Err(_) => "line".to_string(alloc),
    }
}

fn of_document(alloc: Global, document: &[u8]) -> Result<String, AllocError>
    ensures { IfOk result (λ text. TellsDocument document.now (string_bytes text)) }
{
    match str::from_utf8(document) {
        Ok(text) => of_text(alloc, text),
        Err(_) => "NotUtf8".to_string(alloc),
    }
}

fn of_text(alloc: Global, text: &str) -> Result<String, AllocError>
    ensures { IfOk result (λ answer. TellsText text.now (string_bytes answer)) }
{
    match kr_yaml::read(alloc, text) {
        Ok(tree) => {
            let mut out = String::new(alloc);
            write_tree(alloc, &mut out, &tree)?;
            Ok(out)
        }
        Err(why) => refusal(alloc, why),
    }
}

/// A refusal's text. Want of memory has none, and ends the program.
fn refusal(alloc: Global, why: YamlNo) -> Result<String, AllocError>
    ensures { IfOk result (λ text. Prints (Err why) (string_bytes text)) }
{
    match why {
        YamlNo::Outside { line } => numbered(alloc, "Outside", line),
        YamlNo::Indent { line } => numbered(alloc, "Indent", line),
        YamlNo::DuplicateKey { line } => numbered(alloc, "DuplicateKey", line),
        YamlNo::Deep { line } => numbered(alloc, "Deep", line),
        YamlNo::NoMemory => Err(AllocError),
    }
}

fn numbered(alloc: Global, name: &str, line: u32) -> Result<String, AllocError>
    ensures { IfOk result (λ text. string_bytes text ≡ refusal_text name.now line) }
{
    let mut text = name.to_string(alloc)?;
    text.push_str(" ")?;
    let mut digits = Buffer::new();
    text.push_str(digits.format(line))?;
    Ok(text)
}
