//! Laws of what events of a caller add to its history. The functions do nothing.
ghost use Rattle.kr_history.specs.PartLaws.{BoundsFollow, PartsAddUp, PartsFollow};

/// Nothing adds nothing, an event adds its entry, and what is added one behind another is one part.
pub fn parts_follow()
    ensures { PartsFollow }
{}

/// The configurations and the written Puts of two parts are those of the whole.
pub fn parts_sum_to_whole()
    ensures { PartsAddUp }
{}

/// The bounds of two parts bound the whole, where one of them writes no Put.
pub fn bounds_follow()
    ensures { BoundsFollow }
{}
