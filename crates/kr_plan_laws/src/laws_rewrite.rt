//! Laws of what a rewrite leaves. The functions do nothing.
ghost use Rattle.kr_plan_laws.specs.Rewritten.{RewriteSettles, RewriteServesPlan};

use kr_base::Dice;
use kr_kms::Kms;

/// A drive that left no row, while all live configurations write as the target does, has settled
/// each path: all that is stored at its end needs the target's writer, and so do rows that others
/// changed meanwhile.
pub fn rewrite_settles<L: Kms, D: Dice>()
    ensures { RewriteSettles L.link D.left D.count }
{}

/// So it serves a plan: between the last two rounds it settles what the plan asks.
pub fn rewrite_serves_plan<L: Kms, D: Dice>()
    ensures { RewriteServesPlan L.link D.left D.count }
{}
