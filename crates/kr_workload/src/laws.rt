//! Laws of the definitions, for a reader and for callers' proofs. The functions do nothing.
ghost use Rattle.kr_workload.specs.FullLoads.{FullIsOne, LoadsAreFull};
ghost use Rattle.kr_workload.specs.KeptPuts.{PutsAreKept};
ghost use Rattle.kr_workload.specs.Loads.{LoadsKeepRules};
ghost use Rattle.kr_workload.specs.Summaries.{OneDigest};

use kr_base::{Dice, Tape};
use kr_kms::Kms;

/// The fleet of each load keeps the rules of a fleet file and its limits.
pub fn loads_keep_rules()
    ensures { LoadsKeepRules }
{}

/// Where the workers of a load did their lines over a store that had no rows, and no count rose,
/// memory lacked for some reply, or each put and each `get` was done.
pub fn loads_are_full<T: Tape, L: Kms, D: Dice>()
    ensures { LoadsAreFull T L.link L.step D.left D.count }
{}

/// What was got has one digest, and so the summary of a load of which nothing lacks is one text.
pub fn summaries_are_one()
    ensures digest { OneDigest }
    ensures full { FullIsOne }
{}

/// Each put of a load that was done has its row: a sealing of its data by a configuration of the
/// load.
pub fn puts_are_kept<T: Tape, L: Kms, D: Dice>()
    ensures { PutsAreKept T L.link L.step D.left D.count }
{}
