//! Laws of what a caller knows by its own entries. The functions do nothing.
ghost use Rattle.kr_history.specs.CallerLaws.{AdoptedIsHeld, ReleasedIsNotHeld, HoldingStays, FetchedIsFound, NextIsFound};

/// What a caller adopted it holds, what it let go it doesn't, and every other answer leaves that.
pub fn holding_follows()
    ensures adopted { AdoptedIsHeld }
    ensures released { ReleasedIsNotHeld }
    ensures stays { HoldingStays }
{}

/// The row that a caller was handed out is the one that it found last.
pub fn found_follows()
    ensures fetched { FetchedIsFound }
    ensures next { NextIsFound }
{}
