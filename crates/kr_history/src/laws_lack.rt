//! Laws of what is refused: the configurations after which one would lack a provider. The
//! functions do nothing.
ghost use Rattle.kr_history.specs.LackLaws.{VerdictRefusesExactly, RefusedExactly};

/// In a legal history the verdict refuses exactly the settings that don't list the provider of an
/// object that lives, or one with which another live generation writes, or of whose writers another
/// lacks one.
pub fn verdict_refuses_exactly()
    ensures { VerdictRefusesExactly }
{}

/// A Reload or Join that is judged is refused exactly where that would be so, and done exactly
/// where the state after it fits; it may also want memory.
pub fn refused_exactly()
    ensures { RefusedExactly }
{}
