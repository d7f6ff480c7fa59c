//! The tokens of a line.
ghost use Rattle.std.specs.Prelude.{◌≡◌, IfOk, length, map};
ghost use Rattle.std.specs.Option.{option_map};
ghost use Rattle.kr_yaml.specs.Lines.{Token, dash, leaf, pair};
ghost use Rattle.kr_yaml.specs.inner.LineReading.{scalars, flow_list, flow_mapping, list_alone};
ghost use Rattle.kr_yaml.specs.inner.LineReading.{mapping_alone, leaf_value, key_value, member_token};
ghost use Rattle.kr_yaml.specs.inner.LineReading.{key_token, content_token, Head, head, strip_dash};
ghost use Rattle.kr_yaml.specs.inner.LineReading.{tokens_in, tokenize_line};
ghost use Rattle.kr_yaml.specs.Shown.{view};
ghost use Rattle.kr_yaml.specs.inner.Seen.{token_view, token_views, lent_trees, lent_tree};
ghost use Rattle.kr_yaml.specs.inner.Seen.{list_tokens, IsHead};
ghost use Rattle.kr_yaml.specs.inner.Gives.{Gives};

use crate::bytes::{closes, is_blank_or_comment, opens, skip, strip_mark};
use crate::line_error::LineError;
use crate::scalar::{Context, Scalar, is_merge, leading_scalar, scalar_tree};
use crate::token::LineToken;
use crate::tree::Tree;
use kr_base::{List, NoMemory, Text};
use std::alloc::Global;

/// The scalars of a flow list, and what stands behind its closing bracket.
fn scalars(alloc: Global, text: &str) -> Result<(List<Tree>, &str), LineError>
    ensures { Gives lent_trees (scalars (length text.now) text.now) result }
{
    let mut trees = List::new(alloc);
    let mut rest = text;
    'scalars: for step in 0..text.len() {
        let (scalar, after) = match leading_scalar(alloc, Context::Flow, skip(rest)) {
            Ok(found) => found,
            Err(why) => {
                drop(trees);
                return Err(why);
            }
        };
        match trees.push(scalar_tree(scalar)) {
            Ok(()) => {}
            Err(refused) => {
                drop(refused);
                drop(trees);
                return Err(LineError::NoMemory);
            }
        }
        let after = skip(after);
        match strip_mark(after, ',') {
            Some(more) => rest = more,
            None => match strip_mark(after, ']') {
                Some(more) => return Ok((trees, more)),
                None => {
                    drop(trees);
                    return Err(LineError::Form);
                }
            },
        }
    }
    drop(trees);
    Err(LineError::Form)
}

/// The flow list behind its opening bracket, and what stands behind it.
#[tactic(auto, unfolding(crate::specs::inner::LineReading::flow_list))]
fn flow_list(alloc: Global, text: &str) -> Result<(Tree, &str), LineError>
    ensures { Gives lent_tree (flow_list text.now) result }
{
    if let Some(rest) = strip_mark(text, ']') {
        return Ok((Tree::Items(List::new(alloc)), rest));
    }
    match scalars(alloc, text) {
        Ok((trees, rest)) => Ok((Tree::Items(trees), rest)),
        Err(why) => Err(why),
    }
}

/// A flow list behind its opening bracket, up to the end of the line.
fn list_alone(alloc: Global, text: &str) -> Result<Tree, LineError>
    ensures { Gives view (list_alone text.now) result }
{
    match flow_list(alloc, text) {
        Ok((tree, rest)) => {
            if closes(rest) {
                Ok(tree)
            } else {
                Err(LineError::Form)
            }
        }
        Err(why) => Err(why),
    }
}

/// An empty mapping behind its opening brace, up to the end of the line.
fn mapping_alone(alloc: Global, text: &str) -> Result<Tree, LineError>
    ensures { Gives view (mapping_alone text.now) result }
{
    match strip_mark(text, '}') {
        Some(rest) => {
            if closes(rest) {
                Ok(Tree::Members(List::new(alloc)))
            } else {
                Err(LineError::Form)
            }
        }
        None => Err(LineError::Form),
    }
}

/// A scalar or a flow value up to the end of the line.
#[tactic(auto, unfolding(crate::specs::inner::LineReading::leaf_value))]
fn leaf_value(alloc: Global, text: &str) -> Result<Tree, LineError>
    ensures { Gives view (leaf_value text.now) result }
{
    if let Some(rest) = strip_mark(text, '[') {
        return list_alone(alloc, rest);
    }
    if let Some(rest) = strip_mark(text, '{') {
        return mapping_alone(alloc, rest);
    }
    match leading_scalar(alloc, Context::Line, text) {
        Ok((scalar, rest)) => {
            if closes(rest) {
                Ok(scalar_tree(scalar))
            } else {
                Err(LineError::Form)
            }
        }
        Err(why) => Err(why),
    }
}

/// What stands behind the `:` of a key.
#[tactic(auto, unfolding(crate::specs::inner::LineReading::key_value))]
fn key_value(alloc: Global, text: &str) -> Result<Option<Tree>, LineError>
    ensures { Gives (λ value. option_map view value) (key_value text.now) result }
{
    let text = skip(text);
    if is_blank_or_comment(text.as_bytes()) {
        return Ok(None);
    }
    Ok(Some(leaf_value(alloc, text)?))
}

/// A key and what stands behind its `:`.
fn key_token(alloc: Global, column: usize, key: Scalar, rest: &str) -> Result<LineToken, LineError>
    ensures { Gives token_view (key_token column key rest.now) result }
{
    if is_merge(&key) {
        return Err(LineError::Form);
    }
    member_token(alloc, column, key.text, rest)
}

fn member_token(alloc: Global, column: usize, key: Text, rest: &str) -> Result<LineToken, LineError>
    ensures { Gives token_view (member_token column key rest.now) result }
{
    if !opens(rest.as_bytes()) {
        return Err(LineError::Form);
    }
    let value = key_value(alloc, rest)?;
    Ok(LineToken::Pair { column, key, value })
}

/// The last token of a line.
#[tactic(auto, unfolding(crate::specs::inner::LineReading::content_token))]
fn content_token(alloc: Global, column: usize, text: &str) -> Result<LineToken, LineError>
    ensures { Gives token_view (content_token column text.now) result }
{
    if let Some(rest) = strip_mark(text, '[') {
        let value = list_alone(alloc, rest)?;
        return Ok(LineToken::Leaf { column, value });
    }
    if let Some(rest) = strip_mark(text, '{') {
        let value = mapping_alone(alloc, rest)?;
        return Ok(LineToken::Leaf { column, value });
    }
    let (scalar, rest) = leading_scalar(alloc, Context::Line, text)?;
    if closes(rest) {
        return Ok(LineToken::Leaf {
            column,
            value: scalar_tree(scalar),
        });
    }
    match strip_mark(rest, ':') {
        Some(rest) => key_token(alloc, column, scalar, rest),
        None => Err(LineError::Form),
    }
}

/// What stands behind a dash that begins an item.
fn strip_dash(text: &str) -> Option<&str>
    ensures { option_map (λ rest. rest.now) result ≡ strip_dash text.now }
{
    match strip_mark(text, '-') {
        Some(rest) => {
            if opens(rest.as_bytes()) {
                Some(rest)
            } else {
                None
            }
        }
        None => None,
    }
}

/// The dashes that a line begins with, and the column and the text of its last content.
#[tactic(auto, using(crate::proofs::Heads::heads_begin, crate::proofs::Heads::heads_space, crate::proofs::Heads::heads_dash, crate::proofs::Heads::heads_end, crate::proofs::Heads::dash_less, crate::proofs::Quotes::behind_less))]
fn head(alloc: Global, text: &str) -> Result<(List<LineToken>, usize, &str), NoMemory>
    ensures { IfOk result
        (λ found. IsHead (head 0 text.now) (token_views found.0.0) found.1 found.2.now) }
{
    let mut tokens = List::new(alloc);
    let mut rest = text;
    'dashes: loop {
        if let Some(more) = strip_mark(rest, ' ') {
            rest = more;
            continue;
        }
        let column = text.len() - rest.len();
        let Some(more) = strip_dash(rest) else {
            return Ok((tokens, column, rest));
        };
        match tokens.push(LineToken::Dash { column }) {
            Ok(()) => {}
            Err(refused) => {
                drop(refused);
                drop(tokens);
                return Err(NoMemory);
            }
        }
        rest = more;
    }
}

/// The tokens of a line.
#[tactic(auto, unfolding(crate::specs::inner::LineReading::tokenize_line))]
pub fn tokenize_line(alloc: Global, line: &str) -> Result<List<LineToken>, LineError>
    ensures { Gives list_tokens (tokenize_line line.now) result }
{
    if strip_mark(skip(line), '\t').is_some() {
        return Err(LineError::Form);
    }
    let (mut tokens, column, rest) = match head(alloc, line) {
        Ok(head) => head,
        Err(_) => return Err(LineError::NoMemory),
    };
    if is_blank_or_comment(rest.as_bytes()) {
        return Ok(tokens);
    }
    let token = content_token(alloc, column, rest)?;
    match tokens.push(token) {
        Ok(()) => Ok(tokens),
        Err(_) => Err(LineError::NoMemory),
    }
}
