//! Laws of the definitions, for a reader and for callers' proofs. The functions do nothing.
ghost use Rattle.kr_headline.specs.Consequences.{GotWasPut, NothingSupposed, RefusedStoodThere, SeedsAloneSupposed};
ghost use Rattle.kr_headline.specs.Laws.{HeadlineHolds};
ghost use Rattle.kr_headline.specs.WrongPages.{EachIsWrong};
ghost use Rattle.kr_headline.specs.WrongSeals.{EachSealIsWrong};
ghost use Rattle.kr_headline.specs.WrongSteps.{EachStepIsWrong};

use kr_base::{Dice, Tape};
use kr_kms::Kms;

/// Where the workers' lines stand in one history, a read by any of them tells the bytes that were
/// put last at its path.
pub fn headline_holds<T: Tape, L: Kms, D: Dice>()
    ensures { HeadlineHolds T L.link L.step D.left D.count }
{}

/// By the headline alone: where plugins unwrapped what they had wrapped, bytes that are told were
/// put by some line, or stood there at the start.
pub fn got_was_put<T: Tape, L: Kms, D: Dice>()
    ensures { GotWasPut T L.link L.step D.count }
{}

/// And a value that is refused stood there at the start: what was written is never refused.
pub fn refused_stood_there<T: Tape, L: Kms, D: Dice>()
    ensures { RefusedStoodThere T L.link L.step D.count }
{}

/// Nor does a run with the headline print what would contradict the sentence: a found revision that
/// isn't that of the write, a fault that no count bears out, a replica that is in and gone.
pub fn each_is_wrong<T: Tape, L: Kms, D: Dice>()
    ensures { EachIsWrong T L.link L.step D.count }
{}

/// Nor does it leave rows and seeds that the next call could not read: a published seed that no
/// plugin told of, where some truth agrees with all that they answered; a check that isn't the
/// provider's, other data than were read in a row's place.
pub fn each_seal_is_wrong<T: Tape, L: Kms, D: Dice>()
    ensures { EachSealIsWrong T L.link L.step D.count }
{}

/// Nor does a line take other steps than it tells: a `put` sealed or a `get` read by another
/// configuration than the one adopted, other settings than those of the file that is named, a
/// rewrite that passes by what stands.
pub fn each_step_is_wrong<T: Tape, L: Kms, D: Dice>()
    ensures { EachStepIsWrong T L.link L.step D.count }
{}

/// Of a path that needs no plugin nothing has to be supposed, whatever plugins do elsewhere: two
/// replicas with `secrets: aesgcm` and `configmaps: kms` tell what was put at secrets even where
/// the plugin lies.
pub fn nothing_supposed<T: Tape, L: Kms, D: Dice>()
    ensures { NothingSupposed T L.link L.step D.count }
{}

/// Nor is anything supposed of plugins that answer as plugins should, as those in memory do, but
/// that the seeds of the configurations at the start are what their sources open to.
pub fn seeds_alone_supposed<T: Tape, L: Kms, D: Dice>()
    ensures { SeedsAloneSupposed T L.link L.step D.count }
{}
