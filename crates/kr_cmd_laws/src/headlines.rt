//! Laws of the definitions, for a reader and for callers' proofs. The functions do nothing.
ghost use Rattle.kr_cmd_laws.specs.HeadlineLaws.{RunsHaveHeadlines};
ghost use Rattle.kr_cmd_laws.specs.WrongRuns.{EachRunIsWrong};

use kr_kms::World;

/// What a fleet printed has the headline.
pub fn runs_have_headlines<W: World>()
    ensures { RunsHaveHeadlines W.Tap W.Link.link W.Link.step W.lent W.took
        W.Rand.left W.Rand.count }
{}

/// Nor does it print or leave what would contradict that: status 0 with a line that wasn't done, a
/// text cut short in silence, a row that the journal deleted, or another revision than a write
/// told.
pub fn each_run_is_wrong<W: World>()
    ensures { EachRunIsWrong W.Tap W.Link.link W.Link.step W.lent W.took W.Rand.left
        W.Rand.count }
{}
