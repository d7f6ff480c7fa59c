//! The lines of a text.
ghost use Rattle.std.specs.Prelude.{◌≡◌, ◌∷◌, [], ◌<◌, length, MatchOption, IfSome};
ghost use Rattle.std.specs.Str.Lines.{lines, strip_carriage_return};

/// The first line, without the LF or CR LF that ends it, and what stands behind it. The last line
/// may end without; a CR before no LF is a byte of its line.
pub fn next_line(bytes: &[u8]) -> Option<(&[u8], &[u8])>
    ensures lines { MatchOption result
        (lines bytes.now ≡ [])
        (λ found. lines bytes.now ≡ found.0.now ∷ lines found.1.now) }
    ensures shorter { IfSome result (λ found. length found.1.now < length bytes.now) }
{
    if bytes.is_empty() {
        return None;
    }
    for (at, byte) in bytes.iter().enumerate() {
        if *byte == b'\n' {
            return Some((without_return(&bytes[..at]), &bytes[at + 1..]));
        }
    }
    Some((bytes, &[]))
}

/// The line without a CR at its end.
fn without_return(line: &[u8]) -> &[u8]
    ensures { result.now ≡ strip_carriage_return line.now }
{
    match line {
        [front @ .., b'\r'] => front,
        _ => line,
    }
}
