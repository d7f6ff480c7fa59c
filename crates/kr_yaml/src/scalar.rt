//! Scalars: plain, in single quotes and in double quotes.
ghost use Rattle.std.specs.Prelude.{◌≡◌, ◌<◌, IfSome};
ghost use Rattle.std.specs.List.{list_all};
ghost use Rattle.kr_yaml.specs.Bytes.{is_blank};
ghost use Rattle.kr_yaml.specs.inner.ScalarReading.{is_merge, single, double, is_plain, is_space};
ghost use Rattle.kr_yaml.specs.inner.ScalarReading.{is_null, plain_text, plain_scalar, leading_plain};
ghost use Rattle.kr_yaml.specs.inner.ScalarReading.{leading_scalar, data_of, quoted_scalar};
ghost use Rattle.kr_yaml.specs.Written.{escape, is_indicator};
ghost use Rattle.kr_yaml.specs.Shown.{view};
ghost use Rattle.kr_yaml.specs.inner.Gives.{Gives, with_rest};

use crate::bytes::{ScanStop, ascii_first, has, split_at_stop, strip_mark, trim};
use crate::line_error::LineError;
use crate::tree::Tree;
use kr_base::Text;
use std::alloc::Global;

/// A scalar as it is written.
#[derive(Drop)]
pub struct Scalar {
    /// Its text, with what its quotes and escapes stand for.
    pub text: Text,
    /// Whether it is written without quotes.
    pub plain: bool,
}

/// Where a scalar stands.
#[derive(Clone, Copy)]
pub enum Context {
    /// Outside flow values.
    Line,
    /// In a flow list.
    Flow,
}

/// The text behind an opening single quote up to the closing one, and what stands behind that.
#[tactic(auto, using(crate::proofs::Quotes::single_refused, crate::proofs::Quotes::single_ended, crate::proofs::Quotes::single_goes_on, crate::proofs::Quotes::behind_less))]
fn single(alloc: Global, text: &str) -> Result<(Text, &str), LineError>
    ensures { Gives with_rest (single text.now) result }
{
    let mut word = String::new(alloc);
    let mut rest = text;
    'pieces: loop {
        let (piece, after) = split_at_stop(ScanStop::SingleQuote, rest);
        match word.push_str(piece) {
            Ok(()) => {}
            Err(_) => return Err(LineError::NoMemory),
        }
        let Some(more) = strip_mark(after, '\'') else {
            return Err(LineError::Form);
        };
        let Some(more) = strip_mark(more, '\'') else {
            return Ok((Text::from_string(word), more));
        };
        match word.push('\'') {
            Ok(()) => {}
            Err(_) => return Err(LineError::NoMemory),
        }
        rest = more;
    }
}

/// What a byte behind a backslash stands for.
fn escape(byte: u8) -> Option<char>
    ensures value { result ≡ escape byte }
    ensures ascii { IfSome result (λ meant. meant < 128) }
{
    match byte {
        b'"' => Some('"'),
        b'\\' => Some('\\'),
        b'/' => Some('/'),
        b'n' => Some('\n'),
        b't' => Some('\t'),
        _ => None,
    }
}

/// The text behind an opening double quote up to the closing one, and what stands behind that.
#[tactic(auto, using(crate::proofs::Quotes::double_refused, crate::proofs::Quotes::double_ended, crate::proofs::Quotes::double_cut, crate::proofs::Quotes::double_unknown, crate::proofs::Quotes::double_goes_on, crate::proofs::Quotes::behind_less, crate::proofs::Quotes::first_less))]
fn double(alloc: Global, text: &str) -> Result<(Text, &str), LineError>
    ensures { Gives with_rest (double text.now) result }
{
    let mut word = String::new(alloc);
    let mut rest = text;
    'pieces: loop {
        let (piece, after) = split_at_stop(ScanStop::DoubleQuote, rest);
        match word.push_str(piece) {
            Ok(()) => {}
            Err(_) => return Err(LineError::NoMemory),
        }
        if let Some(more) = strip_mark(after, '"') {
            return Ok((Text::from_string(word), more));
        }
        let Some(more) = strip_mark(after, '\\') else {
            return Err(LineError::Form);
        };
        let Some((byte, more)) = ascii_first(more) else {
            return Err(LineError::Form);
        };
        let Some(meant) = escape(byte) else {
            return Err(LineError::Form);
        };
        match word.push(meant) {
            Ok(()) => {}
            Err(_) => return Err(LineError::NoMemory),
        }
        rest = more;
    }
}

fn is_indicator(byte: u8) -> bool
    ensures { result ≡ is_indicator byte }
{
    b"?:,[]{}#&*!|>'\"%@`".contains(&byte)
}

fn is_space(bytes: &[u8]) -> bool
    ensures { result ≡ is_space bytes.now }
{
    match bytes {
        [] => false,
        [byte, ..] => *byte == b' ',
    }
}

/// Whether each byte is a space or a tab.
fn are_blank(bytes: &[u8]) -> bool
    ensures { result ≡ list_all is_blank bytes.now }
{
    bytes.iter().all(|byte| *byte == b' ' || *byte == b'\t')
}

/// Whether the text may stand as a plain scalar.
fn is_plain(text: &str) -> bool
    ensures { result ≡ is_plain text.now }
{
    let bytes = text.as_bytes();
    match bytes {
        [] => false,
        [byte, rest @ ..] => {
            !is_indicator(*byte)
                && !(*byte == b'-' && is_space(rest))
                && !has(ScanStop::Colon, bytes)
                && !are_blank(bytes)
        }
    }
}

fn plain_scalar<'a>(
    alloc: Global,
    text: &str,
    rest: &'a str,
) -> Result<(Scalar, &'a str), LineError>
    ensures { Gives with_rest (plain_scalar text.now rest.now) result }
{
    if !is_plain(text) {
        return Err(LineError::Form);
    }
    match Text::copy(alloc, text) {
        Ok(text) => Ok((Scalar { text, plain: true }, rest)),
        Err(_) => Err(LineError::NoMemory),
    }
}

fn plain_text<'a>(front: &'a str, rest: &str) -> &'a str
    ensures { result.now ≡ plain_text front.now rest.now }
{
    match strip_mark(rest, ':') {
        Some(_) => front,
        None => trim(front),
    }
}

#[tactic(auto, unfolding(crate::specs::inner::ScalarReading::leading_plain))]
fn leading_plain(alloc: Global, context: Context, text: &str) -> Result<(Scalar, &str), LineError>
    ensures { Gives with_rest (leading_plain context text.now) result }
{
    match context {
        Context::Line => {
            let (front, rest) = split_at_stop(ScanStop::KeyEnd, text);
            plain_scalar(alloc, plain_text(front, rest), rest)
        }
        Context::Flow => {
            let (front, rest) = split_at_stop(ScanStop::FlowSign, text);
            if has(ScanStop::Comment, front.as_bytes()) {
                return Err(LineError::Form);
            }
            plain_scalar(alloc, trim(front), rest)
        }
    }
}

/// The scalar that the text begins with, and what stands behind it.
#[tactic(auto, unfolding(crate::specs::inner::ScalarReading::leading_scalar))]
pub fn leading_scalar(
    alloc: Global,
    context: Context,
    text: &str,
) -> Result<(Scalar, &str), LineError>
    ensures { Gives with_rest (leading_scalar context text.now) result }
{
    if let Some(rest) = strip_mark(text, '\'') {
        return match single(alloc, rest) {
            Ok((text, rest)) => Ok((Scalar { text, plain: false }, rest)),
            Err(why) => Err(why),
        };
    }
    if let Some(rest) = strip_mark(text, '"') {
        return match double(alloc, rest) {
            Ok((text, rest)) => Ok((Scalar { text, plain: false }, rest)),
            Err(why) => Err(why),
        };
    }
    leading_plain(alloc, context, text)
}

fn is_null(scalar: &Scalar) -> bool
    ensures { result ≡ is_null scalar.now }
{
    scalar.plain && (scalar.text.as_str() == "null" || scalar.text.as_str() == "~")
}

/// Whether the scalar is a plain `<<`, whatever blanks stand behind it.
pub fn is_merge(scalar: &Scalar) -> bool
    ensures { result ≡ is_merge scalar.now }
{
    if !scalar.plain {
        return false;
    }
    match strip_mark(scalar.text.as_str(), '<') {
        Some(rest) => match strip_mark(rest, '<') {
            Some(rest) => are_blank(rest.as_bytes()),
            None => false,
        },
        None => false,
    }
}

/// What a scalar says.
pub fn scalar_tree(scalar: Scalar) -> Tree
    ensures { view result ≡ data_of scalar }
{
    if is_null(&scalar) {
        return Tree::Null;
    }
    Tree::Word(scalar.text)
}
