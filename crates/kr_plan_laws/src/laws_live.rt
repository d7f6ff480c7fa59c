//! Laws of a planned rollout by what is live. The functions do nothing.
ghost use Rattle.kr_plan_laws.specs.LivePlans.{MidwayIsUnderWay, WideMayCome, TurnedMayCome};
ghost use Rattle.kr_plan_laws.specs.LivePlans.{TargetMayCome, EachEntryKeeps, RoundKeeps};
ghost use Rattle.kr_plan_laws.specs.LivePlans.{RoundEnds, NextMayBegin};
ghost use Rattle.kr_plan_laws.specs.Settled.{WritersStay, SettledStays, WritingSettles};
ghost use Rattle.kr_plan_laws.specs.Settled.{AllBecomeSettled};

/// No settings of a round are refused while each live configuration gives those of this round or of
/// the one before, for a replica that is in and for one that joins.
pub fn rounds_may_come()
    ensures wide { WideMayCome }
    ensures turned { TurnedMayCome }
    ensures target { TargetMayCome }
{}

/// Each entry of a legal history keeps that, a refresh too, if it brings no other settings and leaves
/// some replica in; and where a round is over the next may begin.
pub fn rounds_are_kept()
    ensures midway { MidwayIsUnderWay }
    ensures entry { EachEntryKeeps }
    ensures round { RoundKeeps }
    ensures ends { RoundEnds }
    ensures next { NextMayBegin }
{}

/// While all live configurations write as the target does, what needs the target's writer stays so,
/// and what is written does.
pub fn settled_stays()
    ensures writers { WritersStay }
    ensures stays { SettledStays }
    ensures written { WritingSettles }
    ensures all { AllBecomeSettled }
{}
