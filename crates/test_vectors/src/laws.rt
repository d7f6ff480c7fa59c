//! A law of the definitions, for a reader. The function does nothing.

ghost use Rattle.test_vectors.specs.Words.{WordStandsForBytes};

/// What is printed for bytes is read as those bytes.
pub fn word_of_bytes()
    ensures { WordStandsForBytes }
{}
