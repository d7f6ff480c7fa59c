//! What a case comes to, and how it is printed.

ghost use Rattle.std.specs.Prelude.{◌≡◌, IfOk, string_bytes};
ghost use Rattle.test_vectors.specs.Words.{outcome_text};

use kr_keywrap::WrapNo;
use kr_modes::ModeNo;
use std::alloc::{AllocError, Global};

/// What a case comes to.
#[derive(Drop)]
pub enum Outcome {
    /// What was asked for.
    Bytes(Vec<u8>),
    /// The key hasn't 16, 24 or 32 bytes.
    KeyLength,
    /// Why a sealed value is not opened.
    Refused(ModeNo),
    /// Why a key is not unwrapped.
    NotWrapped(WrapNo),
}

impl Outcome {
    /// The bytes in hex, or `-` where there are none, or the refusal's name.
    pub fn text(&self, alloc: Global) -> Result<String, AllocError>
        ensures { IfOk result (λ text. string_bytes text ≡ outcome_text self.now) }
    {
        let name = match self {
            Outcome::Bytes(bytes) if bytes.is_empty() => "-",
            Outcome::Bytes(bytes) => return hex::encode(alloc, bytes.as_slice()),
            Outcome::KeyLength => "KeyLength",
            Outcome::Refused(ModeNo::Short) => "Short",
            Outcome::Refused(ModeNo::BadBlock) => "BadBlock",
            Outcome::Refused(ModeNo::BadPadding) => "BadPadding",
            Outcome::Refused(ModeNo::BadTag) => "BadTag",
            Outcome::NotWrapped(WrapNo::Length) => "Length",
            Outcome::NotWrapped(WrapNo::Check) => "Check",
        };
        name.to_string(alloc)
    }
}
