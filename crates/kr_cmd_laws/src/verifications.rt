//! Laws of `verify`, by what `get` and `rewrite` do with the same store. The functions do nothing.
ghost use Rattle.kr_cmd_laws.specs.VerifyLaws.{RewriteLeavesNone, VerifiedRuns, VerifyTellsGets};

/// Each live row has a line, which says what `get` of its path would come to from the same
/// beginning.
pub fn verify_tells_gets()
    ensures { VerifyTellsGets }
{}

/// The same of a call whose value was written.
pub fn verified_runs()
    ensures { VerifiedRuns }
{}

/// For any openings with which all agrees that plugins answer to the two: where `verify` finds no
/// value refused and writers can seal the data, a rewrite from the same beginning that comes to its
/// end leaves none.
pub fn rewrites_leave_none()
    ensures { RewriteLeavesNone }
{}
