//! The first line, and the names of workers.
ghost use Rattle.std.specs.Prelude.{◌≡◌, map};
ghost use Rattle.std.specs.List.{list_any};
ghost use Rattle.std.specs.Str.{bytes_eq};
ghost use Rattle.kr_script.specs.Fleets.{worker_of};
ghost use Rattle.kr_script.specs.Rows.{words_of};
ghost use Rattle.kr_script.specs.inner.Drafts.{head_of, knows_worker};
ghost use Rattle.kr_script.specs.inner.Reading.{Finds};

use crate::line_error::ScriptLineError;
use crate::script::Part;
use crate::statement::{Keyword, Statement};
use crate::words::one_word;

/// The statement of a file's first line.
pub fn head(keyword: Keyword, rest: &str) -> Result<Statement, ScriptLineError>
    ensures { Finds (head_of keyword (words_of rest.now)) result }
{
    match keyword {
        Keyword::Fleet => match one_word(rest) {
            Some("1") => Ok(Statement::Head),
            _ => Err(ScriptLineError::Form),
        },
        _ => Err(ScriptLineError::Form),
    }
}

/// Whether one of the workers has the name.
pub fn knows(workers: &[Part], name: &str) -> bool
    ensures { result ≡ knows_worker (map worker_of workers.now) name.now }
{
    has(workers, name)
}

fn has(workers: &[Part], name: &str) -> bool
    ensures { result ≡ list_any (λ worker. bytes_eq worker.name name.now) workers.now }
{
    workers.iter().any(|worker| worker.name.as_str() == name)
}
