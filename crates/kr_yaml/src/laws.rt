//! Laws of the definitions, for a reader and for callers' proofs. The functions do nothing.
ghost use Rattle.kr_yaml.specs.Laws.{ReadAsWritten, OneForm, SomeAnswer, OneAnswer, OnALine};

/// Tokens form one tree at most, and a text has one answer: its tree, or its first breach. Of the
/// breaches on one line the first is also the first in the order Indent, DuplicateKey, Deep.
pub fn one_answer()
    ensures form { OneForm }
    ensures some { SomeAnswer }
    ensures answer { OneAnswer }
    ensures order { OnALine }
{}

/// The tokens of a line are read exactly as the profile says that they are written, and a line
/// that has none by the profile is read as none.
pub fn read_as_written()
    ensures { ReadAsWritten }
{}
