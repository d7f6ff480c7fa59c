//! Paths that are shared.
ghost use Rattle.std.specs.Prelude.{◌≡◌, IfOk};

use kr_base::{NoMemory, Shared, Text};
use std::alloc::Global;
use std::fmt::{Debug, Formatter, Result as FormatResult, Write};
use std::marker::Model;

/// A path that several owners hold. Contracts see it as the list of its bytes.
#[derive(Drop)]
pub struct Path {
    text: Shared<Text>,
}

impl Model for Path {
    ghost use Rattle.std.specs.Prelude.{ℕ, List};

    ghost Value = { List ℕ };

    ghost view = { λ path. path.text };
}

impl Path {
    /// The first owner of a copy of the path.
    pub fn copy(alloc: Global, path: &str) -> Result<Path, NoMemory>
        ensures { IfOk result (λ copy. copy ≡ path.now) }
    {
        Path::from_text(alloc, Text::copy(alloc, path)?)
    }

    /// The first owner of the path, which is taken over as it stands.
    pub fn from_text(alloc: Global, path: Text) -> Result<Path, NoMemory>
        ensures { IfOk result (λ own. own ≡ path) }
    {
        match Shared::new(alloc, path) {
            Ok(text) => Ok(Path { text }),
            Err(_) => Err(NoMemory),
        }
    }

    /// One more owner.
    pub fn share(&self) -> Result<Path, NoMemory>
        ensures { IfOk result (λ more. more ≡ self.now) }
    {
        Ok(Path {
            text: self.text.share()?,
        })
    }

    /// Lends the path.
    pub fn as_str(&self) -> &str
        ensures { result.now ≡ self.now }
    {
        self.text.get().as_str()
    }
}

impl Debug for Path {
    fn fmt<W: Write>(&self, f: &mut Formatter<W>) -> FormatResult {
        let text = self.as_str();
        Debug::fmt(&text, f)
    }
}
