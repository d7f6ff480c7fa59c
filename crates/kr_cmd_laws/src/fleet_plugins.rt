//! What plugins see of a fleet and of a watch, up to their workers and of these workers' lines, and
//! that they made its seeds. The functions do nothing.
ghost use Rattle.kr_cmd_laws.specs.FleetPlugins.{StartsAskSeeds, StartsMakeSeeds, StoppedStartsAsk, WatchesAsk};
ghost use Rattle.kr_cmd_laws.specs.LineQuestions.{LinesAsk, LinesWrapDrawn};

use kr_kms::World;

/// Up to its workers a fleet asks a plugin nothing but its status, and to wrap 32 bytes.
pub fn starts_ask_seeds<W: World>()
    ensures { StartsAskSeeds W.Tap W.Link.link W.Link.step W.lent W.took W.Rand.left
        W.Rand.count }
{}

/// Up to its workers a watch asks that, and to unwrap the source of a live row's value.
pub fn watches_ask()
    ensures { WatchesAsk }
{}

/// A fleet or a watch that starts no worker, or whose store can't be settled behind them, asks no
/// more up to them.
pub fn stopped_starts_ask<W: World>()
    ensures { StoppedStartsAsk W.Tap W.Link.link W.Link.step W.Rand.left W.Rand.count }
{}

/// The seeds at the start are what plugins wrapped, each with the key that its plugin answered.
pub fn starts_make_seeds<W: World>()
    ensures { StartsMakeSeeds W.Tap W.Link.link W.Link.step W.lent W.took W.Rand.left
        W.Rand.count }
{}

/// A worker's line asks a plugin its status, to wrap 32 bytes, or to unwrap the source of a value
/// that the line itself found.
pub fn lines_ask<W: World>()
    ensures { LinesAsk W.Tap W.Link.link W.Link.step W.Rand.left W.Rand.count }
{}

/// What a worker's line gives plugins to wrap it drew itself.
pub fn lines_wrap_drawn<W: World>()
    ensures { LinesWrapDrawn W.Link.link W.Link.step W.Rand.left W.Rand.count }
{}
