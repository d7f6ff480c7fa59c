//! Why a line isn't taken.
ghost use Rattle.std.specs.Prelude.{◌≡◌};
ghost use Rattle.kr_script.specs.inner.Reading.{at_line};

use crate::script::ScriptNo;
use kr_base::NoMemory;

/// Why a line isn't taken.
#[derive(Clone, Copy)]
pub enum ScriptLineError {
    /// It can't stand there.
    Form,
    /// It is the 17th replica.
    Replicas,
    /// It is the 65th worker.
    Workers,
    /// Its object has too many bytes of data.
    TooLarge,
    NoMemory,
}

impl ScriptLineError {
    /// The refusal of the file, where the line has this number.
    pub fn refusal_on_line(self, line: u64) -> ScriptNo
        ensures { result ≡ at_line line self }
    {
        match self {
            ScriptLineError::Form => ScriptNo::Breach { line },
            ScriptLineError::Replicas => ScriptNo::Replicas,
            ScriptLineError::Workers => ScriptNo::Workers,
            ScriptLineError::TooLarge => ScriptNo::TooLarge,
            ScriptLineError::NoMemory => ScriptNo::NoMemory,
        }
    }
}

impl From<NoMemory> for ScriptLineError {
    ghost use Rattle.kr_script.specs.declared.line_error.ScriptLineError.{ScriptLineError};

    ghost from_gives = { λ _ why. why ≡ ScriptLineError.NoMemory };

    fn from(_none: NoMemory) -> ScriptLineError {
        ScriptLineError::NoMemory
    }
}
