//! The statements of a fleet file, and the words that they begin with.
ghost use Rattle.std.specs.Prelude.{◌≡◌};
ghost use Rattle.kr_script.specs.inner.Drafts.{keyword_of};

use crate::script::ScriptLine;
use kr_base::Text;

/// What a line says.
#[derive(Drop)]
pub enum Statement {
    /// The first line: `fleet 1`.
    Head,
    Replica { name: Text, file: Text },
    /// A worker at the replica with this number.
    Worker { name: Text, replica: u32 },
    /// A line of the worker before it.
    Line(ScriptLine),
}

/// The word that a line begins with.
#[derive(Clone, Copy)]
pub enum Keyword {
    Fleet,
    Replica,
    Worker,
    Put,
    Get,
    Delete,
    Rewrite,
    Reload,
    Refresh,
    Join,
    Leave,
}

impl Keyword {
    /// The keyword of a word.
    pub fn read(word: &str) -> Option<Keyword>
        ensures { result ≡ keyword_of word.now }
    {
        match word {
            "fleet" => Some(Keyword::Fleet),
            "replica" => Some(Keyword::Replica),
            "worker" => Some(Keyword::Worker),
            "put" => Some(Keyword::Put),
            "get" => Some(Keyword::Get),
            "delete" => Some(Keyword::Delete),
            "rewrite" => Some(Keyword::Rewrite),
            "reload" => Some(Keyword::Reload),
            "refresh" => Some(Keyword::Refresh),
            "join" => Some(Keyword::Join),
            "leave" => Some(Keyword::Leave),
            _ => None,
        }
    }
}
