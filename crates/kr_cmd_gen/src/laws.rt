//! Laws of a load's relation, for a reader and for callers' proofs. The functions do nothing.
ghost use Rattle.kr_cmd_gen.specs.Laws.{LoadsAreRead, LoadsHaveHeadlines};
ghost use Rattle.kr_cmd_gen.specs.WrongLoads.{EachLoadIsWrong};

use kr_kms::World;

/// What readers take from the relation of a load.
pub fn loads_are_read<W: World>()
    ensures { LoadsAreRead W.Tap W.Link.link W.Link.step }
{}

/// What a load did has the headline.
pub fn loads_have_headlines<W: World>()
    ensures { LoadsHaveHeadlines W.Tap W.Link.link W.Link.step }
{}

/// No random source of a load fails, since each is a stream of the program's own: so no line tells
/// `fault dice`.
pub fn each_load_is_wrong<W: World>()
    ensures { EachLoadIsWrong W.Tap W.Link.link W.Link.step }
{}
