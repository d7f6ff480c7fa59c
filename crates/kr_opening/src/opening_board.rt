//! The board of a store's rows and of the replicas' settings.
ghost use Rattle.std.specs.Prelude.{◌≡◌, ◌<◌, ◌≤◌, [], length, None, IfOk};
ghost use Rattle.kr_config.specs.Kept.{rows_of};
ghost use Rattle.kr_opening.specs.Replicas.{IsFirstIn, first_rows, rows_in, settings_rows};
ghost use Rattle.kr_opening.specs.Starts.{Boards};
ghost use Rattle.kr_opening.specs.inner.OpeningBoards.{IsStrayOf, Notes, NotesAll, TakesUp, TakesAllUp, is_refusal, first_other, no_other, walk_path};

use crate::check::keeps_check;
use kr_base::{List, NoMemory, Shared, Tape, Text};
use kr_config::Settings;
use kr_judge::{Board, Verdict};
use kr_provider::find_reader;
use kr_store::{Row, Store};
use std::alloc::Global;

/// Why a rollout doesn't start.
#[derive(Drop)]
pub enum StartNo {
    /// No provider of the first replica reads the live row of this path, the least such path.
    Stray { path: Text },
    /// The live row of this path has another check than its provider's, and no row of a lesser path
    /// has: it was sealed with another secret of the same name.
    OtherSecret { path: Text },
    /// This replica's settings are refused, for this first reason.
    Unfit { replica: u32, verdict: Verdict },
    /// There was no memory.
    NoMemory,
}

/// The board of the store's live rows and of the settings of 1 to 16 replicas, of which the first
/// is in. Each row's provider is the one that the first replica's settings have for it. The
/// replicas are taken up in order, each judged on those before it; those that are in get the
/// generations 0, 1 and so on.
pub fn make_opening_board<T: Tape>(
    alloc: Global,
    store: &Store<T>,
    replicas: &List<Option<Shared<Settings>>>,
    generations: u32,
) -> Result<Board, StartNo>
    requires first { IsFirstIn replicas.now.0 }
    requires few { length replicas.now.0 ≤ 16 }
    requires room { length replicas.now.0 ≤ generations }
    ensures { Boards store.now.rows (rows_in replicas.now.0) generations result }
{
    let mut board = match Board::new(alloc, generations) {
        Ok(board) => board,
        Err(NoMemory) => return Err(StartNo::NoMemory),
    };
    let replicas = replicas.as_slice();
    match note_all(alloc, store, first_settings(replicas), &mut board) {
        Ok(()) => {}
        Err(why) => {
            drop(board);
            return Err(why);
        }
    }
    match accept_all_settings(replicas, &mut board) {
        Ok(()) => Ok(board),
        Err(why) => {
            drop(board);
            Err(why)
        }
    }
}

/// The settings of the first replica.
fn first_settings(replicas: &[Option<Shared<Settings>>]) -> &Settings
    requires { IsFirstIn replicas.now }
    ensures { first_rows (rows_in replicas.now) ≡ rows_of result.now.entries.0 }
{
    match replicas {
        [Some(first), ..] => first.get(),
        _ => unreachable!(),
    }
}

/// The live rows' needs, by paths.
fn note_all<T: Tape>(
    alloc: Global,
    store: &Store<T>,
    first: &Settings,
    board: &mut Board,
) -> Result<(), StartNo>
    requires { (board.old.needs ≡ []) × (board.old.proposal ≡ None) }
    ensures { NotesAll (rows_of first.now.entries.0) store.now.rows board.old board.new result }
{
    store.known();
    let mut other = None;
    let mut last = None;
    loop {
        let row = match store.successor(walk_path(&last)) {
            Ok(Some(row)) => row,
            Ok(None) => {
                drop(last);
                return no_other(other);
            }
            Err(NoMemory) => {
                drop((other, last));
                return Err(StartNo::NoMemory);
            }
        };
        let kept = match note(alloc, first, row.get(), board) {
            Ok(kept) => kept,
            Err(why) => {
                drop((other, last, row));
                return Err(why);
            }
        };
        other = match first_other(alloc, other, kept, row.get().path.as_str()) {
            Ok(other) => other,
            Err(NoMemory) => {
                drop((last, row));
                return Err(StartNo::NoMemory);
            }
        };
        last = Some(row);
    }
}

/// The path of the row where the walk is; the empty one at its begin.
fn walk_path(last: &Option<Shared<Row>>) -> &str
    ensures { result.now ≡ walk_path last.now }
{
    match last {
        Some(row) => row.get().path.as_str(),
        None => "",
    }
}

/// The path of the first row with another secret: the one that was found, or else this one.
fn first_other(
    alloc: Global,
    found: Option<Text>,
    kept: bool,
    path: &str,
) -> Result<Option<Text>, NoMemory>
    ensures { IfOk result (λ other. other ≡ first_other found kept path.now) }
{
    match found {
        Some(found) => Ok(Some(found)),
        None => {
            if kept {
                return Ok(None);
            }
            Ok(Some(Text::copy(alloc, path)?))
        }
    }
}

/// What is answered after all rows, where the first other secret is known.
fn no_other(other: Option<Text>) -> Result<(), StartNo>
    ensures { result ≡ no_other other }
{
    match other {
        Some(path) => Err(StartNo::OtherSecret { path }),
        None => Ok(()),
    }
}

/// What the row needs, and whether it has its provider's check.
fn note(alloc: Global, first: &Settings, row: &Row, board: &mut Board) -> Result<bool, StartNo>
    requires { board.old.proposal ≡ None }
    ensures { Notes (rows_of first.now.entries.0) row.now board.old board.new result }
{
    let list = first.resource_list(row.resource.as_str());
    let Some(place) = find_reader(list, row.stored.as_slice()) else {
        return Err(stray(alloc, row.path.as_str()));
    };
    let who = &list[place];
    match board.set_need(&row.path, row.resource.as_str(), who) {
        Ok(()) => Ok(keeps_check(row.check, who)),
        Err(NoMemory) => Err(StartNo::NoMemory),
    }
}

/// What is answered to a row of this path that has no provider.
fn stray(alloc: Global, path: &str) -> StartNo
    ensures { IsStrayOf path.now result }
{
    match Text::copy(alloc, path) {
        Ok(path) => StartNo::Stray { path },
        Err(NoMemory) => StartNo::NoMemory,
    }
}

/// Takes the replicas' settings up in order, each judged on those before it.
#[tactic(auto, using(crate::proofs::Taking::taking_stops))]
fn accept_all_settings(
    replicas: &[Option<Shared<Settings>>],
    board: &mut Board,
) -> Result<(), StartNo>
    requires none { board.old.generations ≡ [] }
    requires idle { board.old.proposal ≡ None }
    requires room { length replicas.now ≤ board.old.room }
    requires few { length replicas.now ≤ 16 }
    ensures { TakesAllUp (rows_in replicas.now) board.old board.new result }
{
    for (replica, settings) in replicas.iter().enumerate() {
        accept_settings(replica as u32, settings, board)?;
    }
    Ok(())
}

/// Takes a replica's settings up, where it is in and nothing is against them.
fn accept_settings(
    replica: u32,
    settings: &Option<Shared<Settings>>,
    board: &mut Board,
) -> Result<(), StartNo>
    requires idle { board.old.proposal ≡ None }
    requires room { length board.old.generations < board.old.room }
    ensures { TakesUp replica (settings_rows settings.now) board.old board.new result }
{
    let Some(settings) = settings else {
        return Ok(());
    };
    match board.judge(replica, settings.get()) {
        Ok(verdict) => {
            if is_refusal(&verdict) {
                return Err(StartNo::Unfit { replica, verdict });
            }
            drop(verdict);
        }
        Err(NoMemory) => return Err(StartNo::NoMemory),
    }
    match settings.share() {
        Ok(settings) => {
            let _number = board.add(replica, settings);
            Ok(())
        }
        Err(NoMemory) => Err(StartNo::NoMemory),
    }
}

/// Whether there is a reason against the settings.
pub fn is_refusal(verdict: &Verdict) -> bool
    ensures { result ≡ is_refusal verdict.now }
{
    match verdict {
        Verdict::Pass => false,
        _ => true,
    }
}
