//! Laws of the keys of plugins, under which values are stored. The functions do nothing.
ghost use Rattle.kr_plan_laws.specs.Refreshed.{KeysStay, RewriteLeavesKeys};

use kr_base::Dice;
use kr_kms::Kms;

/// Once all live configurations have refreshed, a value under the plugins' keys stays so.
pub fn keys_stay()
    ensures { KeysStay }
{}

/// And a drive that left no row leaves no value under an old key of a plugin.
pub fn rewrite_leaves_keys<L: Kms, D: Dice>()
    ensures { RewriteLeavesKeys L.link D.left D.count }
{}
