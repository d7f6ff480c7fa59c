//! Laws of the definitions, for a reader and for callers' proofs. The functions do nothing.
ghost use Rattle.kr_plan.specs.Laws.{MergesEachClass, MergesMembers};
ghost use Rattle.kr_plan.specs.Laws.{WidePasses, TurnedPasses, TargetPasses};

/// The settings of the first two phases have at every class the lists of both configurations, one
/// behind the other, and the same providers.
pub fn lists_are_merged()
    ensures each { MergesEachClass }
    ensures members { MergesMembers }
{}

/// No reload of a plan is refused while the moves are done in their order: those to the settings of
/// a phase pass while each current generation gives the lists of that phase or of the one before,
/// and for the last one what is stored was written anew.
pub fn planned_reloads_pass()
    ensures wide { WidePasses }
    ensures turned { TurnedPasses }
    ensures target { TargetPasses }
{}
