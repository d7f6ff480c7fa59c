//! The law of a bench's key pages around the events of its seat. The function does nothing.
ghost use Rattle.kr_history.specs.KeyMoments.{KeysAtEachMoment};

/// At every moment between two events the pages hold exactly the schedules of the configuration
/// that was taken up last: as before after an Adopt that was refused, and none once it was laid
/// down.
pub fn keys_at_each_moment()
    ensures { KeysAtEachMoment }
{}
