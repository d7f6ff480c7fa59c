//! Laws of the moves of a plan. The function does nothing.
ghost use Rattle.kr_plan_laws.specs.MovesDone.{AllMovesLead};

/// The moves that `plan` prints, done one behind another with a rewrite that leaves nothing, are
/// never refused and lead to the target, whatever else is done meanwhile; and what the target lists
/// nowhere may go then.
pub fn moves_lead()
    ensures { AllMovesLead }
{}
