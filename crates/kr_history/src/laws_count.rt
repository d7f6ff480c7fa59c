//! The law of what a core's board counts. The function does nothing.
ghost use Rattle.kr_history.specs.CountLaws.{BoardCounts};

/// After every list of events a core's board has as `live` the numbers of the live generations, and
/// as `paths` those of the objects that live and need the provider.
pub fn board_counts()
    ensures { BoardCounts }
{}
