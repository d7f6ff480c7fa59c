//! Laws of a whole plan. The functions do nothing.
ghost use Rattle.kr_plan_laws.specs.WholePlans.{PlansComeToTheirEnd, OldKeysMayGo, PlanExample};

/// A plan whose rounds are done in their order, with a rewrite that leaves nothing before the last
/// one, is never refused and comes to its end, whatever else is done meanwhile.
pub fn plans_come_to_their_end()
    ensures { PlansComeToTheirEnd }
{}

/// A key that the target lists nowhere may go then: nothing stored needs it, and no live
/// configuration lists it.
pub fn old_keys_may_go()
    ensures { OldKeysMayGo }
{}

/// A plan can be done: here is one.
pub fn plan_example()
    ensures { PlanExample }
{}
