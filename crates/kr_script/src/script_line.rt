//! Reading the lines of workers.
ghost use Rattle.std.specs.Prelude.{◌≡◌, ◌≤◌, length, option_and_then};
ghost use Rattle.kr_script.specs.Rows.{words_of};
ghost use Rattle.kr_script.specs.Statements.{data_of};
ghost use Rattle.kr_script.specs.inner.Drafts.{one_word, two_words, place_from, replica_number};
ghost use Rattle.kr_script.specs.inner.Drafts.{put_in, get_in, delete_in, reload_in, join_in};
ghost use Rattle.kr_script.specs.inner.Drafts.{leave_in, line_in};
ghost use Rattle.kr_script.specs.inner.Reading.{Finds, FindsAs};

use crate::line_error::ScriptLineError;
use crate::script::ScriptLine;
use crate::statement::Keyword;
use crate::words::{is_blank, one_word, three_words, two_words};
use base64::DecodeAllocError;
use base64::engine::general_purpose::STANDARD;
use kr_base::{Bytes, Text, path_ok, resource_ok};
use std::alloc::Global;

/// A line of a worker: the words behind its keyword. `Form` where there is none of this form, or
/// names no replica of these.
pub fn read_line(
    alloc: Global,
    replicas: &[(Text, Text)],
    keyword: Keyword,
    rest: &str,
) -> Result<ScriptLine, ScriptLineError>
    requires { length replicas.now ≤ 16 }
    ensures { Finds (line_in replicas.now keyword (words_of rest.now)) result }
{
    match keyword {
        Keyword::Put => match three_words(rest) {
            Some((resource, path, word)) => read_put(alloc, resource, path, word),
            None => Err(ScriptLineError::Form),
        },
        Keyword::Get => {
            let path = read_path(alloc, rest)?;
            Ok(ScriptLine::Get { path })
        }
        Keyword::Delete => {
            let path = read_path(alloc, rest)?;
            Ok(ScriptLine::Delete { path })
        }
        Keyword::Rewrite if is_blank(rest) => Ok(ScriptLine::Rewrite),
        Keyword::Reload => {
            let (replica, file) = read_replica_file(alloc, replicas, rest)?;
            Ok(ScriptLine::Reload { replica, file })
        }
        Keyword::Refresh if is_blank(rest) => Ok(ScriptLine::Refresh),
        Keyword::Join => {
            let (replica, file) = read_replica_file(alloc, replicas, rest)?;
            Ok(ScriptLine::Join { replica, file })
        }
        Keyword::Leave => match one_word(rest) {
            Some(name) => read_leave(replicas, name),
            None => Err(ScriptLineError::Form),
        },
        _ => Err(ScriptLineError::Form),
    }
}

fn read_put(
    alloc: Global,
    resource: &str,
    path: &str,
    word: &str,
) -> Result<ScriptLine, ScriptLineError>
    ensures { Finds (put_in (resource.now, path.now, word.now)) result }
{
    if !resource_ok(resource) || !path_ok(path) {
        return Err(ScriptLineError::Form);
    }
    let plain = read_data(alloc, word)?;
    let Ok(resource) = Text::copy(alloc, resource) else {
        drop(plain);
        return Err(ScriptLineError::NoMemory);
    };
    let Ok(path) = Text::copy(alloc, path) else {
        drop(resource);
        drop(plain);
        return Err(ScriptLineError::NoMemory);
    };
    Ok(ScriptLine::Put {
        resource,
        path,
        plain,
    })
}

/// `-`, or the data in strict standard base64.
fn read_data(alloc: Global, word: &str) -> Result<Bytes, ScriptLineError>
    ensures { Finds (data_of word.now) result }
{
    if word == "-" {
        return Ok(Bytes::new(alloc));
    }
    match STANDARD.decode(alloc, word.as_bytes()) {
        Ok(plain) => Ok(Bytes::from_vec(plain)),
        Err(DecodeAllocError::OutOfMemory) => Err(ScriptLineError::NoMemory),
        Err(DecodeAllocError::DecodeError(_)) => Err(ScriptLineError::Form),
    }
}

/// The path that a get or a delete names.
fn read_path(alloc: Global, rest: &str) -> Result<Text, ScriptLineError>
    ensures get { FindsAs ScriptLine.Get
        (option_and_then get_in (one_word (words_of rest.now))) result }
    ensures delete { FindsAs ScriptLine.Delete
        (option_and_then delete_in (one_word (words_of rest.now))) result }
{
    let Some(path) = one_word(rest) else {
        return Err(ScriptLineError::Form);
    };
    if !path_ok(path) {
        return Err(ScriptLineError::Form);
    }
    Ok(Text::copy(alloc, path)?)
}

/// The replica that a reload or a join names, and the name of its file.
fn read_replica_file(
    alloc: Global,
    replicas: &[(Text, Text)],
    rest: &str,
) -> Result<(u32, Text), ScriptLineError>
    requires { length replicas.now ≤ 16 }
    ensures reload { FindsAs (λ named. ScriptLine.Reload named.0 named.1)
        (option_and_then (reload_in replicas.now) (two_words (words_of rest.now))) result }
    ensures join { FindsAs (λ named. ScriptLine.Join named.0 named.1)
        (option_and_then (join_in replicas.now) (two_words (words_of rest.now))) result }
{
    let Some((name, file)) = two_words(rest) else {
        return Err(ScriptLineError::Form);
    };
    let Some(replica) = replica_number(replicas, name) else {
        return Err(ScriptLineError::Form);
    };
    Ok((replica, Text::copy(alloc, file)?))
}

fn read_leave(replicas: &[(Text, Text)], name: &str) -> Result<ScriptLine, ScriptLineError>
    requires { length replicas.now ≤ 16 }
    ensures { Finds (leave_in replicas.now name.now) result }
{
    match replica_number(replicas, name) {
        Some(replica) => Ok(ScriptLine::Leave { replica }),
        None => Err(ScriptLineError::Form),
    }
}

/// The number of the replica of that name.
#[tactic(auto, using(crate::proofs::Places::place_here, crate::proofs::Places::place_more, crate::proofs::Places::place_none))]
pub fn replica_number(replicas: &[(Text, Text)], name: &str) -> Option<u32>
    requires { length replicas.now ≤ 16 }
    ensures { result ≡ replica_number replicas.now name.now }
{
    for (number, replica) in replicas.iter().enumerate() {
        if replica.0.as_str() == name {
            return Some(number as u32);
        }
    }
    None
}
