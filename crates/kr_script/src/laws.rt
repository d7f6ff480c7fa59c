//! Laws of the definitions, for a reader. The functions do nothing.
ghost use Rattle.kr_script.specs.Laws.{OneFleetMeaning, SomeFleetMeaning, ToldApart};

/// A text means one thing alone, a fleet or a refusal, and each text means some thing.
pub fn one_meaning()
    ensures one { OneFleetMeaning }
    ensures some { SomeFleetMeaning }
{}

/// The lines of an output can be told apart.
pub fn told_apart()
    ensures { ToldApart }
{}
