//! `verify`: configuration, programs of its plugins, store, its live rows, random source, links,
//! publish, unseal each row.
ghost use Rattle.std.specs.Prelude.{◌≡◌, [], All, IfOk, None, false};
ghost use Rattle.std.specs.List.{last_or};
ghost use Rattle.kr_cmd_steps.specs.Environment.{Environment, with_exchanges, with_world};
ghost use Rattle.kr_cmd_steps.specs.StoreSteps.{live_on};
ghost use Rattle.kr_cmd_steps.specs.Phases.{read_for};
ghost use Rattle.kr_cmd_steps.specs.Commands.{verifying};
ghost use Rattle.kr_cmd_steps.specs.Heard.{Heard};
ghost use Rattle.kr_cmd_steps.specs.inner.Lent.{Name, with_lent_tape};
ghost use Rattle.kr_cmd_steps.specs.inner.Phases.{Does};
ghost use Rattle.kr_cmd_steps.specs.inner.Tapes.{walk_path};
ghost use Rattle.kr_cmd_store.specs.inner.Verifying.{IsWithin, ListsRows, rows_listed};

use crate::reading::read_by_links;
use kr_base::{List, Shared, Tape};
use kr_cmd_messages::{Object, Outcome, Stop, Verification};
use kr_cmd_steps::{linked_settings, load_store, open_tape, return_tape};
use kr_kms::{Access, World};
use kr_store::{Row, Store};
use std::alloc::Global;

/// Tells what each value of a store reads as. The world is told that its tape is back before a
/// plugin is asked.
pub fn verify<W: World>(alloc: Global, words: &Verification, world: &mut W) -> Result<Outcome, Stop>
    ensures { Heard W.Link.link W.lent W.took W.Link.step 0
        (W.told world.old) (W.told world.new) [] [] (λ es. (a : Environment)
        → Does (verifying words.now)
        (with_world (W.told world.old) a)
        (with_world (W.told world.new) (with_exchanges es a)) result) }
{
    let (settings, programs) = match linked_settings(alloc, world, &words.config, &words.options) {
        Ok(read) => read,
        Err(stop) => return Err(stop),
    };
    let rows = match find_rows(alloc, world, words.store.as_str()) {
        Ok(rows) => rows,
        Err(stop) => return Err(stop),
    };
    read_by_links(alloc, settings, programs.as_slice(), rows.as_slice(), world)
}

/// The live rows of the store in a file, by their paths.
fn find_rows<W: World>(alloc: Global, world: &mut W, name: &str) -> Result<List<Shared<Row>>, Stop>
    ensures does { (a : Environment) → Does (read_for name.now (live_on name.now))
        (with_world (W.told world.old) a) (with_world (W.told world.new) a) (rows_listed result) }
    ensures within { IfOk result (λ rows. All IsWithin rows.0) }
    ensures links { (W.told world.new).links ≡ (W.told world.old).links }
{
    let tape = match open_tape(alloc, world, name, Access::ToRead) {
        Ok(tape) => tape,
        Err(stop) => return Err(stop),
    };
    let (rows, tape) = live_rows_on_tape(alloc, tape);
    return_tape(world, name, tape, &rows);
    rows
}

/// The live rows of the store on a tape, which comes back.
fn live_rows_on_tape<T: Tape>(alloc: Global, tape: T) -> (Result<List<Shared<Row>>, Stop>, T)
    requires cuts { T.loose tape ≡ false }
    ensures does { (name : Name) (a : Environment) → Does (live_on name)
        (with_lent_tape name (T.told tape) (T.count tape) a)
        (with_lent_tape name (T.told result.1) (T.count result.1) a) (rows_listed result.0) }
    ensures within { IfOk result.0 (λ rows. All IsWithin rows.0) }
{
    let store = match load_store(alloc, tape, Object::Store) {
        Ok(store) => store,
        Err((stop, tape)) => return (Err(stop), tape),
    };
    let rows = live_rows(alloc, &store);
    (rows, store.close())
}

/// The live rows of a store, by their paths. They are shared with it, not copied.
fn live_rows<T: Tape>(alloc: Global, store: &Store<T>) -> Result<List<Shared<Row>>, Stop>
    ensures listing { ListsRows store.now.rows (rows_listed result) }
    ensures within { IfOk result (λ rows. All IsWithin rows.0) }
{
    store.known();
    let mut rows = List::new(alloc);
    loop {
        let row = match store.successor(last_row_path(rows.as_slice())) {
            Ok(Some(row)) => row,
            Ok(None) => return Ok(rows),
            Err(_) => return Err(Stop::NoMemory),
        };
        match rows.push(row) {
            Ok(()) => {}
            Err(_) => return Err(Stop::NoMemory),
        }
    }
}

/// The path of the last of some rows; the empty one where there is none.
fn last_row_path(rows: &[Shared<Row>]) -> &str
    ensures { result.now ≡ walk_path (last_or None rows.now) }
{
    match rows.last() {
        Some(row) => row.get().path.as_str(),
        None => "",
    }
}
