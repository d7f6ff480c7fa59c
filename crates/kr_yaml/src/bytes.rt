//! Words on the bytes of a line.
ghost use Rattle.std.specs.Prelude.{◌≡◌, true, ◌<◌, ◌≤◌, length, take, drop, slice_index};
ghost use Rattle.std.specs.Option.{option_map};
ghost use Rattle.kr_yaml.specs.Bytes.{behind, skip, over};
ghost use Rattle.kr_yaml.specs.inner.Stops.{trim, opens, closes, is_hash, is_colon, is_comment};
ghost use Rattle.kr_yaml.specs.inner.Stops.{is_flow, is_single, is_double, stops, length_before_stop};
ghost use Rattle.kr_yaml.specs.inner.Stops.{has, at_stop, ascii_first};

/// What ends a part of a line.
#[derive(Clone, Copy)]
pub enum ScanStop {
    /// A `:` at the end or before a space.
    Colon,
    /// A `#` behind a space.
    Comment,
    /// One of these two.
    KeyEnd,
    /// A byte of flow values: a comma, a bracket or a brace.
    FlowSign,
    /// A single quote.
    SingleQuote,
    /// A double quote or a backslash.
    DoubleQuote,
}

/// What stands behind this character, where the text begins with it.
#[tactic(auto, using(crate::proofs::Behind::behind_is))]
pub fn strip_mark(text: &str, mark: char) -> Option<&str>
    requires { mark < 128 }
    ensures { option_map (λ rest. rest.now) result ≡ behind mark text.now }
{
    text.strip_prefix(mark)
}

/// The first byte and the text behind it, where that byte is ASCII.
pub fn ascii_first(text: &str) -> Option<(u8, &str)>
    ensures { option_map (λ found. (found.0, found.1.now)) result ≡ ascii_first text.now }
{
    match text.as_bytes() {
        [byte, ..] if *byte < 128 => match strip_mark(text, char::from(*byte)) {
            Some(rest) => Some((*byte, rest)),
            None => None,
        },
        _ => None,
    }
}

/// The text in two, before a byte that is ASCII or at its end.
pub fn cut(text: &str, at: usize) -> (&str, &str)
    requires within { at ≤ length text.now }
    requires ascii { at < length text.now → slice_index text.now at < 128 }
    ensures front { result.0.now ≡ take at text.now }
    ensures rest { result.1.now ≡ drop at text.now }
{
    text.split_at(at)
}

/// The text without the spaces that it begins with.
pub fn skip(text: &str) -> &str
    ensures { result.now ≡ skip text.now }
{
    let mut rest = text;
    while let Some(more) = strip_mark(rest, ' ') {
        rest = more;
    }
    rest
}

/// The text without the spaces that it ends with.
pub fn trim(text: &str) -> &str
    ensures { result.now ≡ trim text.now }
{
    let mut rest = text;
    while let Some(less) = rest.strip_suffix(' ') {
        rest = less;
    }
    rest
}

/// Whether it is empty or begins with a space.
pub fn opens(bytes: &[u8]) -> bool
    ensures { result ≡ opens bytes.now }
{
    match bytes {
        [] => true,
        [byte, ..] => *byte == b' ',
    }
}

/// Whether it is empty or a comment.
pub fn is_blank_or_comment(bytes: &[u8]) -> bool
    ensures { result ≡ over bytes.now }
{
    match bytes {
        [] => true,
        [byte, ..] => *byte == b'#',
    }
}

/// Whether only spaces, and perhaps a comment behind one of them, stand there.
pub fn closes(text: &str) -> bool
    ensures { result ≡ closes text.now }
{
    match strip_mark(text, ' ') {
        Some(rest) => is_blank_or_comment(skip(rest).as_bytes()),
        None => text.is_empty(),
    }
}

fn is_colon(bytes: &[u8]) -> bool
    ensures { result ≡ is_colon bytes.now }
{
    match bytes {
        [] => false,
        [byte, rest @ ..] => *byte == b':' && opens(rest),
    }
}

fn is_hash(bytes: &[u8]) -> bool
    ensures { result ≡ is_hash bytes.now }
{
    match bytes {
        [] => false,
        [byte, ..] => *byte == b'#',
    }
}

fn is_comment(bytes: &[u8]) -> bool
    ensures { result ≡ is_comment bytes.now }
{
    match bytes {
        [] => false,
        [byte, rest @ ..] => *byte == b' ' && is_hash(rest),
    }
}

fn is_flow(bytes: &[u8]) -> bool
    ensures { result ≡ is_flow bytes.now }
{
    match bytes {
        [] => false,
        [byte, ..] => *byte == b','
            || *byte == b'['
            || *byte == b']'
            || *byte == b'{'
            || *byte == b'}',
    }
}

fn is_single(bytes: &[u8]) -> bool
    ensures { result ≡ is_single bytes.now }
{
    match bytes {
        [] => false,
        [byte, ..] => *byte == b'\'',
    }
}

fn is_double(bytes: &[u8]) -> bool
    ensures { result ≡ is_double bytes.now }
{
    match bytes {
        [] => false,
        [byte, ..] => *byte == b'"' || *byte == b'\\',
    }
}

fn stops(stop: ScanStop, bytes: &[u8]) -> bool
    ensures { result ≡ stops stop bytes.now }
{
    match stop {
        ScanStop::Colon => is_colon(bytes),
        ScanStop::Comment => is_comment(bytes),
        ScanStop::KeyEnd => is_colon(bytes) || is_comment(bytes),
        ScanStop::FlowSign => is_flow(bytes),
        ScanStop::SingleQuote => is_single(bytes),
        ScanStop::DoubleQuote => is_double(bytes),
    }
}

/// How many bytes stand before the first place where this stands, or before the end.
#[tactic(auto, using(crate::proofs::Until::until_stops, crate::proofs::Until::until_ends, crate::proofs::Until::tail_is))]
pub fn length_before_stop(stop: ScanStop, bytes: &[u8]) -> usize
    ensures value { result ≡ length_before_stop (stops stop) bytes.now }
    ensures within { result ≤ length bytes.now }
{
    for index in 0..bytes.len() {
        if stops(stop, &bytes[index..]) {
            return index;
        }
    }
    bytes.len()
}

/// The text in two, before the first place where this stands or at the end.
#[tactic(auto, using(crate::proofs::Until::until_ascii, crate::proofs::Until::until_there))]
pub fn split_at_stop(stop: ScanStop, text: &str) -> (&str, &str)
    ensures front { result.0.now ≡ take (length_before_stop (stops stop) text.now) text.now }
    ensures rest { result.1.now ≡ drop (length_before_stop (stops stop) text.now) text.now }
    ensures there { at_stop stop result.1.now ≡ true }
{
    cut(text, length_before_stop(stop, text.as_bytes()))
}

/// Whether this stands somewhere.
pub fn has(stop: ScanStop, bytes: &[u8]) -> bool
    ensures { result ≡ has stop bytes.now }
{
    length_before_stop(stop, bytes) < bytes.len()
}
