//! Laws of the definitions, for a reader and for callers' proofs. The functions do nothing.
ghost use Rattle.kr_envelope.specs.Canonical.{AreSized, ReadsBack};
ghost use Rattle.kr_envelope.specs.Limits.{ReadsOneThing, HaveReadings};

/// Bytes are read as one object, or have one first breach. One or the other there always is.
pub fn one_reading()
    ensures one { ReadsOneThing }
    ensures some { HaveReadings }
{}

/// The canonical bytes of an object are read as the object, and as nothing else.
pub fn round_trip()
    ensures { ReadsBack }
{}

/// How long the canonical bytes of an object are, by how many its data are.
pub fn canonical_length()
    ensures { AreSized }
{}
