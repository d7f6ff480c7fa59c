//! `get`: configuration, programs of its plugins, store, the path's row, random source, links,
//! publish, unseal.
ghost use Rattle.std.specs.Prelude.{◌≡◌, ◌≤◌, ◌⊎◌, [], List, ℕ, IfOk, length, false};
ghost use Rattle.kr_base.specs.Limits.{path_limit, value_limit};
ghost use Rattle.kr_cmd_steps.specs.Environment.{Environment, with_exchanges, with_world};
ghost use Rattle.kr_cmd_steps.specs.Commands.{getting};
ghost use Rattle.kr_cmd_steps.specs.Phases.{read_for};
ghost use Rattle.kr_cmd_steps.specs.StoreSteps.{row_on};
ghost use Rattle.kr_cmd_steps.specs.Heard.{Heard};
ghost use Rattle.kr_cmd_messages.specs.declared.refusal.Refusal.{Refusal};
ghost use Rattle.kr_cmd_messages.specs.declared.refusal.Stop.{Stop};
ghost use Rattle.kr_cmd_steps.specs.inner.Lent.{with_lent_tape};
ghost use Rattle.kr_cmd_steps.specs.inner.Phases.{Does};
ghost use Rattle.kr_cmd_steps.specs.inner.Tapes.{IsLookedUp};

use kr_base::{Bytes, Shared, Tape, Text};
use kr_cmd_messages::{Direction, Lookup, Object, Outcome, Refusal, Stop};
use kr_cmd_steps::{Task, linked_settings, load_store, make, open_tape, return_tape};
use kr_kms::{Access, World};
use kr_store::{Row, Store};
use std::alloc::Global;

/// Reads the value at a path of a store. The world is told that its tape is back before a plugin is
/// asked.
pub fn get<W: World>(alloc: Global, words: &Lookup, world: &mut W) -> Result<Outcome, Stop>
    requires path { length words.now.path ≤ path_limit }
    ensures { Heard W.Link.link W.lent W.took W.Link.step 0
        (W.told world.old) (W.told world.new) [] [] (λ es. (a : Environment)
        → Does (getting words.now)
        (with_world (W.told world.old) a)
        (with_world (W.told world.new) (with_exchanges es a)) result) }
{
    let (settings, programs) = match linked_settings(alloc, world, &words.config, &words.options) {
        Ok(read) => read,
        Err(stop) => return Err(stop),
    };
    let row = match find_row(alloc, world, &words.store, &words.path) {
        Ok(row) => row,
        Err(stop) => return Err(stop),
    };
    let found = row.get();
    let Ok(value) = Bytes::copy(alloc, found.stored.as_slice()) else {
        return Err(Stop::NoMemory);
    };
    let task = Task {
        direction: Direction::Decrypt,
        resource: found.resource.as_str(),
        path: words.path.as_str(),
    };
    make(alloc, &task, value, settings, programs.as_slice(), world)
}

/// The live row of the path in the store of a file.
fn find_row<W: World>(
    alloc: Global,
    world: &mut W,
    store: &Text,
    path: &Text,
) -> Result<Shared<Row>, Stop>
    ensures does { (a : Environment) → Does (read_for store.now (row_on store.now path.now))
        (with_world (W.told world.old) a) (with_world (W.told world.new) a) result }
    ensures fits { IfOk result (λ row. length row.stored ≤ value_limit) }
    ensures links { (W.told world.new).links ≡ (W.told world.old).links }
{
    let name = store.as_str();
    let tape = match open_tape(alloc, world, name, Access::ToRead) {
        Ok(tape) => tape,
        Err(stop) => return Err(stop),
    };
    let (row, tape) = find_on_tape(alloc, tape, path);
    return_tape(world, name, tape, &row);
    row
}

/// The live row of the path in the store on a tape, which comes back.
fn find_on_tape<T: Tape>(alloc: Global, tape: T, path: &Text) -> (Result<Shared<Row>, Stop>, T)
    requires cuts { T.loose tape ≡ false }
    ensures does { (name : List ℕ) (a : Environment) → Does (row_on name path.now)
        (with_lent_tape name (T.told tape) (T.count tape) a)
        (with_lent_tape name (T.told result.1) (T.count result.1) a) result.0 }
    ensures fits { IfOk result.0 (λ row. length row.stored ≤ value_limit) }
{
    let store = match load_store(alloc, tape, Object::Store) {
        Ok(store) => store,
        Err((stop, tape)) => return (Err(stop), tape),
    };
    let row = find_live_row(alloc, &store, path);
    (row, store.close())
}

/// The live row of the path.
fn find_live_row<T: Tape>(alloc: Global, store: &Store<T>, path: &Text) -> Result<Shared<Row>, Stop>
    ensures row { IsLookedUp store.now.rows path.now result }
    ensures fits { IfOk result (λ row. length row.stored ≤ value_limit) }
{
    match store.get(path.as_str()) {
        Ok(Some(row)) => Ok(row),
        Ok(None) => Err(no_path(alloc, path)),
        Err(_) => Err(Stop::NoMemory),
    }
}

/// The refusal of a path without a value, or that there is no memory for it.
fn no_path(alloc: Global, path: &Text) -> Stop
    ensures { (result ≡ Stop.Refused (Refusal.NoPath path.now)) ⊎ (result ≡ Stop.NoMemory) }
{
    match Text::copy(alloc, path.as_str()) {
        Ok(path) => Stop::Refused(Refusal::NoPath(path)),
        Err(_) => Stop::NoMemory,
    }
}
