//! Reading a text.
ghost use Rattle.std.specs.Prelude.{◌≡◌, ◌<◌, ◌&&◌, true, IfOk, IfErr};
ghost use Rattle.std.specs.Str.Lines.{lines};
ghost use Rattle.kr_yaml.specs.inner.Seen.{token_view, token_views, list_tokens};
ghost use Rattle.kr_yaml.specs.inner.Gives.{Gives};
ghost use Rattle.std.specs.Option.{option_map};
ghost use Rattle.kr_yaml.specs.Bytes.{behind_three};
ghost use Rattle.kr_yaml.specs.inner.TextReading.{marks, begins_blank, continues_text, marks_more};
ghost use Rattle.kr_yaml.specs.inner.TextReading.{is_foreign, line_tokens};
ghost use Rattle.kr_yaml.specs.Bytes.{is_empty};
ghost use Rattle.kr_yaml.specs.inner.TextReading.{tokens_from};
ghost use Rattle.kr_yaml.specs.Texts.{text_tokens};
ghost use Rattle.kr_yaml.specs.inner.Progress.{Moves, Extends, ReadsLines};
ghost use Rattle.kr_yaml.specs.Reads.{Reads, OnlyTree, NoTree, ReadsText, IsOnlyTree, HasNoTree};
ghost use Rattle.kr_yaml.specs.Shown.{view};

use crate::bytes::{closes, is_blank_or_comment, skip, strip_mark};
use crate::characters::are_allowed;
use crate::line::tokenize_line;
use crate::line_error::LineError;
use crate::place_error::PlaceError;
use crate::progress::Progress;
use crate::put::{close_nodes, put};
use crate::standing::Standing;
use crate::token::LineToken;
use crate::tree::Tree;
use crate::yaml_no::YamlNo;
use kr_base::{List, NoMemory};
use std::alloc::Global;

/// What stands behind three of this character.
fn behind_three(mark: char, line: &str) -> Option<&str>
    requires { mark < 128 }
    ensures { option_map (λ rest. rest.now) result ≡ behind_three mark line.now }
{
    match strip_mark(line, mark) {
        Some(rest) => match strip_mark(rest, mark) {
            Some(rest) => strip_mark(rest, mark),
            None => None,
        },
        None => None,
    }
}

/// Whether a line is three of this character, and perhaps a comment.
fn marks(mark: char, line: &str) -> bool
    requires { mark < 128 }
    ensures { result ≡ marks mark line.now }
{
    match behind_three(mark, line) {
        Some(rest) => closes(rest),
        None => false,
    }
}

fn begins_blank(bytes: &[u8]) -> bool
    ensures { result ≡ begins_blank bytes.now }
{
    match bytes {
        [] => false,
        [byte, ..] => *byte == b' ' || *byte == b'\t',
    }
}

fn continues_text(rest: &str) -> bool
    ensures { result ≡ continues_text rest.now }
{
    begins_blank(rest.as_bytes()) && !closes(rest)
}

/// Whether a line is three of this character, a blank, and more than a comment.
fn marks_more(mark: char, line: &str) -> bool
    requires { mark < 128 }
    ensures { result ≡ marks_more mark line.now }
{
    match behind_three(mark, line) {
        Some(rest) => continues_text(rest),
        None => false,
    }
}

/// Whether a line holds what a reader of YAML might take for the end of the line or of the
/// document.
fn is_foreign(line: &str) -> bool
    ensures { result ≡ is_foreign line.now }
{
    !are_allowed(line) || marks_more('-', line) || marks_more('.', line)
}

fn line_tokens(alloc: Global, first: bool, line: &str) -> Result<List<LineToken>, LineError>
    ensures { Gives list_tokens (line_tokens first line.now) result }
{
    if is_foreign(line) {
        return Err(LineError::Form);
    }
    if marks('-', line) {
        if first {
            return Ok(List::new(alloc));
        }
        return Err(LineError::Form);
    }
    if marks('.', line) && !first {
        return Err(LineError::Form);
    }
    tokenize_line(alloc, line)
}

fn is_empty(line: &str) -> bool
    ensures { result ≡ is_empty line.now }
{
    is_blank_or_comment(skip(line).as_bytes())
}

fn is_still_first(first: bool, line: &str) -> bool
    ensures { result ≡ (first && is_empty line.now) }
{
    first && is_empty(line)
}

/// Puts a token more, unless there was a breach.
fn step(
    alloc: Global,
    progress: Progress,
    line: u32,
    token: LineToken,
) -> Result<Progress, NoMemory>
    ensures { IfOk result (λ new. Moves progress line (token_view token) new) }
{
    let standing = match progress {
        Progress::Going(standing) => standing,
        Progress::Broken(why) => return Ok(Progress::Broken(why)),
    };
    let Standing { nodes, value } = standing;
    match put(alloc, nodes, value, token) {
        Ok((nodes, value)) => Ok(Progress::Going(Standing { nodes, value })),
        Err(PlaceError::Indent) => Ok(Progress::Broken(YamlNo::Indent { line })),
        Err(PlaceError::DuplicateKey) => Ok(Progress::Broken(YamlNo::DuplicateKey { line })),
        Err(PlaceError::Deep) => Ok(Progress::Broken(YamlNo::Deep { line })),
        Err(PlaceError::NoMemory) => Err(NoMemory),
    }
}

/// Puts the tokens of a line.
#[tactic(auto, using(crate::proofs::Following::extends_none, crate::proofs::Following::extends_more))]
fn steps(
    alloc: Global,
    progress: Progress,
    line: u32,
    tokens: List<LineToken>,
) -> Result<Progress, NoMemory>
    ensures { IfOk result (λ new. Extends progress line (token_views tokens.0) new) }
{
    let mut progress = progress;
    'tokens: for token in tokens.into_vec() {
        progress = match step(alloc, progress, line, token) {
            Ok(progress) => progress,
            Err(_) => return Err(NoMemory),
        };
    }
    Ok(progress)
}

/// Reads the lines up to the first that isn't of the profile.
#[tactic(auto, using(crate::proofs::Following::reading_begins))]
fn read_lines(alloc: Global, text: &str) -> Result<Progress, YamlNo>
    ensures { ReadsLines (tokens_from 1 true (lines text.now)) result }
{
    let mut progress = Progress::Going(Standing {
        nodes: Vec::new(alloc),
        value: None,
    });
    let mut number: u32 = 1;
    let mut first = true;
    'each: for line in text.lines() {
        let tokens = match line_tokens(alloc, first, line) {
            Ok(tokens) => tokens,
            Err(LineError::Form) => {
                drop(progress);
                return Err(YamlNo::Outside { line: number });
            }
            Err(LineError::NoMemory) => {
                drop(progress);
                return Err(YamlNo::NoMemory);
            }
        };
        progress = match steps(alloc, progress, number, tokens) {
            Ok(progress) => progress,
            Err(_) => return Err(YamlNo::NoMemory),
        };
        first = is_still_first(first, line);
        number = number.saturating_add(1);
    }
    Ok(progress)
}

/// Reads a text of the profile. The first line that isn't of it is looked for in all lines; then
/// the first breach of the tokens decides. Where it refuses, but for want of memory, there is no
/// tree. The clause `tokens` is for callers' proofs: `text_tokens` computes what the lines have.
pub fn read(alloc: Global, text: &str) -> Result<Tree, YamlNo>
    ensures reads { ReadsText text.now result }
    ensures only { IfOk result (λ tree. IsOnlyTree text.now (view tree)) }
    ensures none { IfErr result (λ why. HasNoTree text.now why) }
    ensures tokens { Reads (text_tokens text.now) result }
{
    read_tokens(alloc, text)
}

/// The same by the tokens as they are computed.
#[tactic(auto, unfolding(crate::specs::Texts::text_tokens))]
fn read_tokens(alloc: Global, text: &str) -> Result<Tree, YamlNo>
    ensures reads { Reads (text_tokens text.now) result }
    ensures only { IfOk result (λ tree. OnlyTree (text_tokens text.now) (view tree)) }
    ensures none { IfErr result (λ why. NoTree (text_tokens text.now) why) }
{
    let progress = read_lines(alloc, text)?;
    let standing = match progress {
        Progress::Going(standing) => standing,
        Progress::Broken(why) => return Err(why),
    };
    let Standing { mut nodes, value } = standing;
    match close_nodes(&mut nodes, 0, value) {
        Ok(tree) => Ok(tree),
        Err(_) => Err(YamlNo::NoMemory),
    }
}
