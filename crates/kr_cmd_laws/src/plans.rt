//! What a printed plan promises. The function does nothing.
ghost use Rattle.kr_cmd_laws.specs.PlanLaws.{PlansArePrinted};

/// What `plan` prints with status 0 is the plan of the two files, and its moves lead from the one to
/// the other.
pub fn plans_are_printed()
    ensures { PlansArePrinted }
{}
