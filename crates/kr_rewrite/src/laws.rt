//! Laws of drives, for callers' proofs. The functions do nothing.
ghost use Rattle.kr_rewrite.specs.DriveLaws.{DrivesAgree, DrivesNeedFew, StepsAgree};

use kr_base::Dice;
use kr_kms::Kms;

/// A drive finds each path that has a live row at most once, so it needs few entries.
pub fn drives_need_few<L: Kms, D: Dice>()
    ensures { DrivesNeedFew L.link D.left D.count }
{}

/// By whatever agrees with the exchanges of a step, what is kept opens as it should, and the
/// history stays honest.
pub fn steps_agree<D: Dice>()
    ensures { StepsAgree D.left D.count }
{}

/// The same of a drive.
pub fn drives_agree<D: Dice>()
    ensures { DrivesAgree D.left D.count }
{}
