//! Numbers in decimal digits.
ghost use Rattle.std.specs.Prelude.{◌≡◌, ◌↔◌, ◌^◌, ◌<◌, ◌≤◌, ℕ, IsTrue, MatchOption};
ghost use Rattle.kr_words.specs.Numerals.{IsNumeral, IsDecimal};

/// Whether the text is a number in decimal digits.
pub fn is_numeral(text: &str) -> bool
    ensures { IsTrue result ↔ IsNumeral text.now }
{
    text == "0"
        || (!text.is_empty()
            && !text.starts_with('0')
            && text.bytes().all(|byte| byte.is_ascii_digit()))
}

/// The number that the text writes in decimal digits, if it is below 2^64.
pub fn parse_numeral(text: &str) -> Option<u64>
    ensures { MatchOption result
        ((n : ℕ) → IsDecimal text.now n → 2 ^ 64 ≤ n)
        (λ n. IsDecimal text.now n) }
{
    if is_numeral(text) {
        text.parse().ok()
    } else {
        None
    }
}
