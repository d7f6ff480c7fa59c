//! The words of a line.
ghost use Rattle.std.specs.Prelude.{◌≡◌, ◌==◌, ◌∷◌, [], ◌<◌, length, MatchOption, IfSome, Contains};
ghost use Rattle.std.specs.List.{before_first, after_first};
ghost use Rattle.std.specs.Option.{option_map};
ghost use Rattle.kr_script.specs.Rows.{words_of, is_comment};
ghost use Rattle.kr_script.specs.inner.Reading.{words_at_end, words_before};
ghost use Rattle.kr_script.specs.inner.Drafts.{is_empty, one_word, two_words, three_words};

/// What stands before and behind the first space.
fn halves(text: &str) -> Option<(&str, &str)>
    ensures cut { MatchOption result
        (Contains text.now 0x20 → ⊥)
        (λ parts. Contains text.now 0x20
        × (parts.0.now ≡ before_first (λ byte. byte == 0x20) text.now)
        × (parts.1.now ≡ after_first (λ byte. byte == 0x20) text.now)) }
    ensures shorter { IfSome result (λ parts. length parts.1.now < length text.now) }
{
    match text.split_once(' ') {
        Some((front, rest)) => Some((front, rest)),
        None => None,
    }
}

/// What stands before and behind the first space, and the words of both; or the text where there is
/// none.
#[tactic(auto, using(crate::proofs::Cuts::words_uncut, crate::proofs::Cuts::words_cut))]
fn parted(text: &str) -> Option<(&str, &str)>
    ensures words { MatchOption result
        (words_of text.now ≡ words_at_end text.now)
        (λ parts. words_of text.now ≡ words_before parts.0.now (words_of parts.1.now)) }
    ensures shorter { IfSome result (λ parts. length parts.1.now < length text.now) }
{
    halves(text)
}

/// The first word, and what stands behind it.
pub fn first_word(text: &str) -> Option<(&str, &str)>
    ensures { MatchOption result
        (words_of text.now ≡ [])
        (λ found. words_of text.now ≡ found.0.now ∷ words_of found.1.now) }
{
    let mut rest = text;
    while let Some((front, more)) = parted(rest) {
        if !front.is_empty() {
            return Some((front, more));
        }
        rest = more;
    }
    if rest.is_empty() {
        return None;
    }
    Some((rest, ""))
}

/// Whether it has no word.
pub fn is_blank(text: &str) -> bool
    ensures { result ≡ is_empty (words_of text.now) }
{
    match first_word(text) {
        Some(_) => false,
        None => true,
    }
}

/// The one word that it has.
pub fn one_word(text: &str) -> Option<&str>
    ensures { option_map (λ word. word.now) result ≡ one_word (words_of text.now) }
{
    match first_word(text) {
        Some((word, rest)) if is_blank(rest) => Some(word),
        _ => None,
    }
}

/// The two words that it has.
pub fn two_words(text: &str) -> Option<(&str, &str)>
    ensures { option_map (λ words. (words.0.now, words.1.now)) result
        ≡ two_words (words_of text.now) }
{
    match first_word(text) {
        Some((word, rest)) => match one_word(rest) {
            Some(second) => Some((word, second)),
            None => None,
        },
        None => None,
    }
}

/// The three words that it has.
pub fn three_words(text: &str) -> Option<(&str, &str, &str)>
    ensures { option_map (λ words. (words.0.now, words.1.now, words.2.now)) result
        ≡ three_words (words_of text.now) }
{
    match first_word(text) {
        Some((word, rest)) => match two_words(rest) {
            Some((second, third)) => Some((word, second, third)),
            None => None,
        },
        None => None,
    }
}

/// Whether a word begins a comment.
pub fn is_comment(word: &str) -> bool
    ensures { result ≡ is_comment word.now }
{
    match word.as_bytes() {
        [] => false,
        [byte, ..] => *byte == b'#',
    }
}
