//! Laws of states that fit, and of what is refused so that they do. The functions do nothing.
ghost use Rattle.kr_history.specs.FitLaws.{LegalFits, NeedsAreLive, LiveIsReadable, HoldingIsLive, VerdictIsExact, JudgedByFit, JudgedStateFollows, RefreshIsNotRefused, OpeningFits, StartsWhereItFits, RefusalIsExact, OneCause};

/// In a legal history the state fits: all that is needed, and all that a live generation writes,
/// is read by each live generation.
pub fn legal_fits()
    ensures { LegalFits }
{}

/// In a legal history all that lives, and nothing else, is needed, by a provider that reads it.
pub fn needs_are_live()
    ensures { NeedsAreLive }
{}

/// In a legal history each live generation reads each live row by the provider that it needs.
pub fn live_is_readable()
    ensures { LiveIsReadable }
{}

/// What a seat holds by its own entries is live.
pub fn holding_is_live()
    ensures { HoldingIsLive }
{}

/// The verdict on a replica's new configuration passes exactly where the state with it fits.
pub fn verdict_is_exact()
    ensures { VerdictIsExact }
{}

/// A Reload of a replica that is in, expecting no other generation, and a Join of one that isn't,
/// are refused exactly where the state after them would not fit.
pub fn judged_by_fit()
    ensures { JudgedByFit }
{}

/// Where they are done, the state that was judged is the one that they leave.
pub fn judged_state_follows()
    ensures { JudgedStateFollows }
{}

/// A Reload that gives a replica the settings of its own current generation is never refused.
pub fn refresh_is_not_refused()
    ensures { RefreshIsNotRefused }
{}

/// The settings of the replicas that are in fit exactly where the opening's state does.
pub fn opening_fits()
    ensures { OpeningFits }
{}

/// A core may start exactly where each live row has a provider and its check, and the opening's
/// state fits.
pub fn starts_where_it_fits()
    ensures { StartsWhereItFits }
{}

/// Where a core may start its start is refused for want of memory alone.
pub fn refusal_is_exact()
    ensures { RefusalIsExact }
{}

/// A start is refused for one cause alone, want of memory aside.
pub fn one_cause()
    ensures { OneCause }
{}
