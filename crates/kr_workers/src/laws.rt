//! Laws of the definitions, for a reader and for callers' proofs. The functions do nothing.
ghost use Rattle.std.specs.Prelude.{List};
ghost use Rattle.kr_workers.specs.declared.files.SettingsFile.{SettingsFile};
ghost use Rattle.kr_workers.specs.Causes.{RepliesHaveCauses};
ghost use Rattle.kr_workers.specs.Endings.{EndingsAreTold};
ghost use Rattle.kr_workers.specs.Gets.{GetsTellContent};
ghost use Rattle.kr_workers.specs.KeyLaws.{WorkersHoldTheirKeys};
ghost use Rattle.kr_workers.specs.LineParts.{PartsHaveShape};
ghost use Rattle.kr_workers.specs.Plugins.{HonestOfPlugins};
ghost use Rattle.kr_workers.specs.Sentences.{HistoriesTell};
ghost use Rattle.kr_workers.specs.ToldFaults.{LinesTellFaults};

use kr_base::{Dice, Tape};
use kr_kms::Kms;

/// Each reply to a `get` tells the content of the path before the line's own Fetch, or that there
/// is none.
pub fn gets_tell_content<L: Kms, D: Dice>()
    ensures { (files : List SettingsFile)
        → GetsTellContent L.link L.step D.left D.count files }
{}

/// No line is answered otherwise than by one of its defined replies, of which those that tell an
/// answer an own entry bears out and an unhealthy plugin its status, but with want of memory, or
/// where the line may use the plugin, random source or store that its reply names and the count of
/// that rose.
pub fn replies_have_causes<L: Kms, D: Dice>()
    ensures { (files : List SettingsFile)
        → RepliesHaveCauses L.link L.step D.left D.count files }
{}

/// No fault is hidden: where a draw or a plugin failed while a line was done, the reply names it, and
/// nothing was drawn or asked behind it.
pub fn lines_tell_faults<L: Kms, D: Dice>()
    ensures { (files : List SettingsFile)
        → LinesTellFaults L.link L.step D.left D.count files }
{}

/// The part of each line that was done has the shape of its line and reply: which entries it has,
/// in their order, and by which generation.
pub fn parts_have_shape<L: Kms, D: Dice>()
    ensures { (files : List SettingsFile)
        → PartsHaveShape L.link L.step D.left D.count files }
{}

/// Where the workers' lines stand in one history, as `run_fleet` says, each reply tells true: to a
/// `get` it tells the content before its line's own Fetch, and each has its cause.
pub fn replies_are_true<T: Tape, L: Kms, D: Dice>()
    ensures { HistoriesTell T L.link L.step D.left D.count }
{}

/// Where the workers' lines stand in one history, it is honest by any openings by which plugins
/// unwrap what they wrapped.
pub fn honest_of_plugins<T: Tape, L: Kms, D: Dice>()
    ensures { HonestOfPlugins T L.link L.step D.left D.count }
{}

/// Where not all was done, some reply is of the kind that the ending tells; where all was, each
/// reply says so.
pub fn endings_are_told()
    ensures { EndingsAreTold }
{}

/// At every moment at which a worker is between two events, its key pages hold exactly the
/// schedules of the configuration that it took up last, and every other page is zero: as before
/// after an Adopt that was refused, none from before its LetGo on.
pub fn workers_hold_their_keys<T: Tape, L: Kms, D: Dice>()
    ensures { WorkersHoldTheirKeys T L.link L.step D.left D.count }
{}
