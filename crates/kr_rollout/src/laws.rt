//! Laws of the definitions, for a reader and for callers' proofs. The functions do nothing.
ghost use Rattle.kr_rollout.specs.Laws.{FrontIsLegal, HoldingIsHeld, FoundIsThere, UnfitIsUnfit, BoardAtStart};

/// A replica that is named as unfit doesn't fit with the others, so a start is refused for that
/// only where the opening doesn't fit.
pub fn unfit_is_unfit()
    ensures { UnfitIsUnfit }
{}

/// A front of a legal history is legal.
pub fn front_is_legal()
    ensures { FrontIsLegal }
{}

/// What a seat holds by its own entries is what it holds in the state.
pub fn holding_is_held()
    ensures { HoldingIsHeld }
{}

/// The row that a seat found last, by its own entries, is still that of its revision.
pub fn found_is_there()
    ensures { FoundIsThere }
{}

/// What `make_opening_board` makes of a store and of replicas' settings is the board of the core
/// that begins with them, if there is room for as many generations.
pub fn board_at_start()
    ensures { BoardAtStart }
{}
