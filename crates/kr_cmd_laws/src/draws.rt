//! What is said of told draws is said of all draws. The function does nothing.
ghost use Rattle.kr_cmd_laws.specs.DrawLaws.{ToldDraws};

/// A call over a random source that tells nothing is a call over one that tells just the bytes that
/// were drawn, so `one_result` and `complete` speak of it too.
pub fn told_draws()
    ensures { ToldDraws }
{}
