//! The commands that several workers do: a fleet, a generated load, a watch.
ghost use Rattle.std.specs.Prelude.{◌≤◌};
ghost use Rattle.kr_words.specs.Grammar.{texts};
ghost use Rattle.kr_cmd_messages.specs.Receipts.{receipt};
ghost use Rattle.kr_top.specs.inner.Team.{DidTeam, IsPaged, IsTeamAsked};

use kr_base::Sink;
use kr_cmd_fleet::fleet::fleet;
use kr_cmd_gen::load;
use kr_cmd_messages::{FleetWords, LoadWords, Stop, WatchWords, read_fleet, read_load, read_watch};
use kr_cmd_watch::watch;
use kr_kms::World;
use kr_workers::Ending;
use std::alloc::Global;
use std::sync::Wait;
use std::thread::Threads;

/// What several workers are asked for.
#[derive(Drop)]
pub(crate) enum TeamWords {
    /// A fleet.
    Fleet(FleetWords),
    /// A generated load.
    Load(LoadWords),
    /// A fleet of which a watch shows the objects.
    Watch(WatchWords),
}

/// What the words ask several workers for, if they do.
#[tactic(auto, using(crate::proofs::Reading::no_fleet_read, crate::proofs::Reading::no_load_read, crate::proofs::Reading::no_watch_read))]
pub(crate) fn read_team(alloc: Global, words: &[String]) -> Result<Option<TeamWords>, Stop>
    ensures { IsTeamAsked (texts words.now) result }
{
    if let Some(fleet) = read_fleet(alloc, words)? {
        return Ok(Some(TeamWords::Fleet(fleet)));
    }
    if let Some(load) = read_load(alloc, words)? {
        return Ok(Some(TeamWords::Load(load)));
    }
    match read_watch(alloc, words)? {
        Some(watch) => Ok(Some(TeamWords::Watch(watch))),
        None => Ok(None),
    }
}

/// Lets the workers do it, and writes what they made.
pub(crate) fn run_team<R: Threads + Wait + Sync, W: World, O: Sink>(
    rt: &R,
    alloc: Global,
    words: &TeamWords,
    world: &mut W,
    output: &mut O,
) -> Result<Ending, Stop>
    requires page { IsPaged words.now }
    ensures did { DidTeam W.Tap W.Link.link W.Link.step W.lent W.took W.Rand.left W.Rand.count
        words.now (W.told world.old) (W.told world.new)
        (receipt (O.held output.old) (O.held output.new) (O.count output.old) (O.count output.new))
        result }
    ensures later { O.count output.old ≤ O.count output.new }
{
    match words {
        TeamWords::Fleet(words) => fleet(rt, alloc, words, world, output),
        TeamWords::Load(words) => load(rt, alloc, words, world, output),
        TeamWords::Watch(words) => watch(rt, alloc, words, world, output),
    }
}
