//! `watch`: the steps of `fleet`, at which the live rows are read before the core starts; then the
//! journal goes through a watch, and what it shows is written.
ghost use Rattle.std.specs.Prelude.{◌≡◌, ◌≤◌, IfOk};
ghost use Rattle.kr_cmd_steps.specs.Environment.{Environment, with_exchanges, with_world};
ghost use Rattle.kr_cmd_fleet.specs.StartExchanges.{Exchanges};
ghost use Rattle.kr_cmd_messages.specs.Receipts.{receipt};
ghost use Rattle.kr_cmd_watch.specs.Watchings.{DidWatch, WritesWatch, refused_at_least};
ghost use Rattle.kr_cmd_watch.specs.inner.Followings.{IsText, ShowsSince, ShowsState};

use crate::following::follow;
use crate::page_text::pages_text;
use crate::texts::{changes_text, one_line};
use kr_base::{NoMemory, Sink, write_all};
use kr_cmd_fleet::fleet::{Record, run_fleet_over_store};
use kr_cmd_fleet::load_plan;
use kr_cmd_messages::{Object, Stop, WatchWords};
use kr_kms::World;
use kr_watch::{SinceNo, Watch};
use kr_workers::{Ending, gravest_ending};
use std::alloc::Global;
use std::sync::Wait;
use std::thread::Threads;

/// Runs the fleet and writes what its watch shows.
pub fn watch<R: Threads + Wait + Sync, W: World, O: Sink>(
    rt: &R,
    alloc: Global,
    words: &WatchWords,
    world: &mut W,
    output: &mut O,
) -> Result<Ending, Stop>
    requires limit { 1 ≤ words.now.limit }
    ensures did { (es : Exchanges) × ((a : Environment)
        → DidWatch W.Tap W.Link.link W.Link.step W.lent W.took W.Rand.left W.Rand.count words.now
        (with_world (W.told world.old) a) (with_world (W.told world.new) (with_exchanges es a))
        (receipt (O.held output.old) (O.held output.new) (O.count output.old) (O.count output.new))
        result) }
    ensures later { O.count output.old ≤ O.count output.new }
{
    let fleet = &words.fleet;
    let plan = match load_plan(alloc, fleet.file.as_str(), &fleet.options, world) {
        Ok(plan) => plan,
        Err(stop) => return Err(stop),
    };
    let record = match run_fleet_over_store(rt, alloc, fleet.store.as_str(), &plan, true, world) {
        Ok(record) => record,
        Err(stop) => return Err(stop),
    };
    drop(plan);
    let Record {
        lines,
        replies,
        start,
    } = record;
    let ended = gravest_ending(replies.as_slice());
    drop(replies);
    let watch = match follow(alloc, start, lines.as_slice()) {
        Ok(watch) => watch,
        Err(NoMemory) => return Err(Stop::NoMemory),
    };
    drop(lines);
    let shown = match show(alloc, words, &watch, ended) {
        Ok(shown) => shown,
        Err(NoMemory) => return Err(Stop::NoMemory),
    };
    drop(watch);
    write_shown(&shown, output)
}

/// A text, and how the call ends that shows it.
#[derive(Drop)]
struct Shown {
    text: Vec<u8>,
    ending: Ending,
}

/// Pages, or the changes since a revision.
fn show(alloc: Global, words: &WatchWords, watch: &Watch, ended: Ending) -> Result<Shown, NoMemory>
    requires { 1 ≤ words.now.limit }
    ensures { IfOk result (λ shown. ShowsState words.now.since words.now watch.now ended
        shown.text.items shown.ending) }
{
    match words.since {
        None => Ok(Shown {
            text: pages_text(alloc, watch, words.resource.as_str(), words.limit)?,
            ending: ended,
        }),
        Some(revision) => show_changes(alloc, watch, revision, ended),
    }
}

/// The changes since a revision; or that some of them may be gone, or that there is no such one.
fn show_changes(
    alloc: Global,
    watch: &Watch,
    revision: u64,
    ended: Ending,
) -> Result<Shown, NoMemory>
    ensures { IfOk result (λ shown. ShowsSince revision watch.now ended shown.text.items
        shown.ending) }
{
    let refused = refused_at_least(ended);
    match watch.later_changes(revision) {
        Ok(changes) => Ok(Shown {
            text: changes_text(alloc, changes.as_slice())?,
            ending: ended,
        }),
        Err(SinceNo::Gone { oldest }) => Ok(Shown {
            text: one_line(alloc, "gone", oldest)?,
            ending: refused,
        }),
        Err(SinceNo::Ahead { newest }) => Ok(Shown {
            text: one_line(alloc, "ahead", newest)?,
            ending: refused,
        }),
        Err(SinceNo::NoMemory) => Err(NoMemory),
    }
}

/// How a fleet that ended so ends where a revision is refused.
fn refused_at_least(ended: Ending) -> Ending
    ensures { result ≡ refused_at_least ended }
{
    match ended {
        Ending::Done => Ending::Refused,
        ended => ended,
    }
}

/// Writes the text, and tells how the call ends.
fn write_shown<O: Sink>(shown: &Shown, output: &mut O) -> Result<Ending, Stop>
    ensures written { WritesWatch (IsText shown.now.text.items shown.now.ending)
        (receipt (O.held output.old) (O.held output.new) (O.count output.old) (O.count output.new))
        result }
    ensures later { O.count output.old ≤ O.count output.new }
{
    match write_all(output, shown.text.as_slice()) {
        Ok(()) => Ok(shown.ending),
        Err(_) => Err(Stop::Fault(Object::Output, output.faults())),
    }
}
