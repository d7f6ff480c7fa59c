//! Laws of a planned rollout. The functions do nothing.
ghost use Rattle.kr_plan_laws.specs.PlannedLaws.{WideIsNotRefused, TurnedIsNotRefused};
ghost use Rattle.kr_plan_laws.specs.PlannedLaws.{TargetIsNotRefused};
ghost use Rattle.kr_plan_laws.specs.Rounds.{RoundsFollow, RoundsPass};

/// No reload of a plan is refused while its moves are done in their order, whatever the replicas
/// have done before. Nothing is said of objects that the rewrite has left.
pub fn planned_reloads_are_not_refused()
    ensures wide { WideIsNotRefused }
    ensures turned { TurnedIsNotRefused }
    ensures target { TargetIsNotRefused }
{}

/// Rollouts follow each other: from a board on which all replicas give one configuration a plan's
/// moves pass, and lead to one on which all give the other.
pub fn rounds_follow()
    ensures follow { RoundsFollow }
    ensures pass { RoundsPass }
{}
