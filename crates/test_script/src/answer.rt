//! What is printed for a line.
ghost use Rattle.std.specs.Prelude.{◌≡◌, IfOk, Err};
ghost use Rattle.std.specs.String.{string_bytes};
ghost use Rattle.test_script.specs.Answers.{Answers, Prints, TellsFile};

use crate::writing::write_script;
use hex::FromHexError;
use itoa::Buffer;
use kr_script::{ScriptNo, read_script};
use std::alloc::{AllocError, Global};

/// What the file that the line stands for says, or why it isn't read.
pub fn answer(alloc: Global, line: &str) -> Result<String, AllocError>
    ensures { IfOk result (λ text. Answers line.now (string_bytes text)) }
{
    if line == "-" {
        return of_file(alloc, &[]);
    }
    if line.is_empty() {
        return "line".to_string(alloc);
    }
    match hex::decode(alloc, line) {
        Ok(file) => of_file(alloc, file.as_slice()),
        Err(FromHexError::OutOfMemory) => Err(AllocError),
        Err(_) => "line".to_string(alloc),
    }
}

#[tactic(auto, using(crate::proofs::Told::refused))]
fn of_file(alloc: Global, file: &[u8]) -> Result<String, AllocError>
    ensures { IfOk result (λ text. TellsFile file.now (string_bytes text)) }
{
    match read_script(alloc, file) {
        Ok(script) => {
            let mut out = String::new(alloc);
            write_script(alloc, &mut out, &script)?;
            Ok(out)
        }
        Err(why) => refusal(alloc, why),
    }
}

/// A refusal's text. Want of memory has none, and ends the program.
fn refusal(alloc: Global, why: ScriptNo) -> Result<String, AllocError>
    ensures { IfOk result (λ text. Prints (Err why) (string_bytes text)) }
{
    match why {
        ScriptNo::Breach { line } => {
            let mut text = "Breach ".to_string(alloc)?;
            let mut digits = Buffer::new();
            text.push_str(digits.format(line))?;
            Ok(text)
        }
        ScriptNo::Replicas => "Replicas".to_string(alloc),
        ScriptNo::Workers => "Workers".to_string(alloc),
        ScriptNo::TooLarge => "TooLarge".to_string(alloc),
        ScriptNo::NoMemory => Err(AllocError),
    }
}
