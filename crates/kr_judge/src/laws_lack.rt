//! Laws of what a verdict refuses and lets pass, of bare settings. The functions do nothing.
ghost use Rattle.kr_judge.specs.LackLaws.{RefusesExactly, PassesWhereAllFit};

/// The verdict refuses exactly where the new settings don't list the provider of a value that is
/// stored, or one with which another live generation writes, or another doesn't list the one with
/// which they write.
pub fn refuses_exactly()
    ensures { RefusesExactly }
{}

/// Where the other live generations fit, the verdict passes exactly where all fit, among each
/// other, once the replica has the new settings.
pub fn passes_where_all_fit()
    ensures { PassesWhereAllFit }
{}
