//! `put`: configuration, programs of its plugins, input, store, random source, links, publish,
//! seal, the row.
ghost use Rattle.std.specs.Prelude.{◌≡◌, ◌≤◌, ◌++◌, [], ℕ, List, map, IfOk, codes, decimal, length, false};
ghost use Rattle.kr_base.specs.Rules.{IsPath, IsResource};
ghost use Rattle.kr_base.specs.Limits.{data_limit, store_limit};
ghost use Rattle.kr_config.specs.Kept.{rows_of};
ghost use Rattle.kr_provider.specs.PluginOrder.{plugin_order};
ghost use Rattle.kr_provider.specs.Readers.{writer_of};
ghost use Rattle.kr_store.specs.declared.rows.LogRow.{LogRow};
ghost use Rattle.kr_cmd_steps.specs.Environment.{Environment, with_exchanges, with_world};
ghost use Rattle.kr_opening.specs.Checks.{store_check};
ghost use Rattle.kr_cmd_steps.specs.Commands.{putting};
ghost use Rattle.kr_cmd_steps.specs.StoreSteps.{revision_line, sealed_into, stored_into};
ghost use Rattle.kr_cmd_steps.specs.Phases.{stored_on};
ghost use Rattle.kr_cmd_steps.specs.Heard.{Heard};
ghost use Rattle.kr_cmd_steps.specs.Steps.{and_then};
ghost use Rattle.kr_cmd_steps.specs.StoreFiles.{with_row};
ghost use Rattle.kr_cmd_messages.specs.declared.refusal.Object as objects;
ghost use Rattle.kr_cmd_steps.specs.inner.Lent.{with_lent_tape, with_told_input};
ghost use Rattle.kr_cmd_steps.specs.inner.Phases.{Does};
ghost use Rattle.kr_cmd_steps.specs.inner.Tapes.{answered, stored_of};

use itoa::Buffer;
use kr_base::{Bytes, NoMemory, Source, Tape, Text};
use kr_cmd_messages::{Conversion, Direction, Done, Object, Outcome, Stop, add};
use kr_cmd_steps::{
    Program, Task, add_put, linked_settings, load_store, make, open_tape, settle_tape, take_input,
};
use kr_config::{Settings, Who};
use kr_kms::{Access, World};
use kr_provider::provider_check;
use kr_store::{Check, Store};
use std::alloc::Global;

/// Encrypts the input, and puts the value into a store.
pub fn put<W: World, I: Source>(
    alloc: Global,
    words: &Conversion,
    store: &Text,
    world: &mut W,
    input: &mut I,
) -> Result<Outcome, Stop>
    requires path { IsPath words.now.path }
    requires resource { IsResource words.now.resource }
    ensures { Heard W.Link.link W.lent W.took W.Link.step 0
        (W.told world.old) (W.told world.new) [] [] (λ es. (a : Environment)
        → Does (putting words.now store.now)
        (with_told_input (I.left input.old) (I.count input.old) (with_world (W.told world.old) a))
        (with_told_input (I.left input.new) (I.count input.new)
        (with_world (W.told world.new) (with_exchanges es a))) result) }
{
    let (settings, programs) = match linked_settings(alloc, world, &words.config, &words.options) {
        Ok(read) => read,
        Err(stop) => return Err(stop),
    };
    let bytes = match take_input(alloc, input, Direction::Encrypt) {
        Ok(bytes) => bytes,
        Err(stop) => return Err(stop),
    };
    put_into_store(
        alloc,
        words,
        store,
        settings,
        programs.as_slice(),
        world,
        bytes,
    )
}

/// Seals the data into the store of a file, which is made where it is absent.
fn put_into_store<W: World>(
    alloc: Global,
    words: &Conversion,
    store: &Text,
    settings: Settings,
    programs: &[Program],
    world: &mut W,
    bytes: Bytes,
) -> Result<Outcome, Stop>
    requires programs { map (λ program. program.plugin) programs.now
        ≡ plugin_order (rows_of settings.entries.0) }
    requires path { IsPath words.now.path }
    requires resource { IsResource words.now.resource }
    requires fits { length bytes ≤ data_limit }
    ensures { Heard W.Link.link W.lent W.took W.Link.step 0
        (W.told world.old) (W.told world.new) [] [] (λ es. (a : Environment)
        → Does (stored_into words.now store.now
        (rows_of settings.entries.0) programs.now bytes)
        (with_world (W.told world.old) a)
        (with_world (W.told world.new) (with_exchanges es a)) result) }
{
    let name = store.as_str();
    let tape = match open_tape(alloc, world, name, Access::ToMake) {
        Ok(tape) => tape,
        Err(stop) => return Err(stop),
    };
    let (put, tape) = put_on_tape(alloc, words, settings, programs, world, tape, bytes);
    settle_tape(world, name, Object::Store, tape, put)
}

/// Seals the data into the store on a tape, which comes back.
fn put_on_tape<W: World>(
    alloc: Global,
    words: &Conversion,
    settings: Settings,
    programs: &[Program],
    world: &mut W,
    tape: W::Tap,
    bytes: Bytes,
) -> (Result<Outcome, Stop>, W::Tap)
    requires programs { map (λ program. program.plugin) programs.now
        ≡ plugin_order (rows_of settings.entries.0) }
    requires path { IsPath words.now.path }
    requires resource { IsResource words.now.resource }
    requires fits { length bytes ≤ data_limit }
    requires cuts { W.Tap.loose tape ≡ false }
    ensures made { Heard W.Link.link W.lent W.took W.Link.step 0
        (W.told world.old) (W.told world.new) [] [] (λ es. (name : List ℕ) (a : Environment)
        → Does
        (and_then (stored_on objects.Object.Store name) (sealed_into words.now name
        (rows_of settings.entries.0) programs.now bytes))
        (with_lent_tape name (W.Tap.told tape) (W.Tap.count tape) (with_world (W.told world.old) a))
        (with_lent_tape name (W.Tap.told result.1) (W.Tap.count result.1)
        (with_world (W.told world.new) (with_exchanges es a))) result.0) }
    ensures tapes { (W.told world.new).tapes ≡ (W.told world.old).tapes }
{
    let mut store = match load_store(alloc, tape, Object::Store) {
        Ok(store) => store,
        Err((stop, tape)) => return (Err(stop), tape),
    };
    let check = writer_check(settings.resource_list(words.resource.as_str()));
    let task = Task {
        direction: Direction::Encrypt,
        resource: words.resource.as_str(),
        path: words.path.as_str(),
    };
    let sealed = match make(alloc, &task, bytes, settings, programs, world) {
        Ok(sealed) => sealed,
        Err(stop) => return (Err(stop), store.close()),
    };
    let line = match next_line(alloc, &store) {
        Ok(line) => line,
        Err(_) => return (Err(Stop::NoMemory), store.close()),
    };
    let added = add_put(
        &mut store,
        Object::Store,
        words.path.as_str(),
        words.resource.as_str(),
        sealed.bytes,
        check,
    );
    (answer_once_added(added, line), store.close())
}

/// What a command answers, once its rows were added.
pub fn answer_once_added(added: Result<(), Stop>, line: Bytes) -> Result<Outcome, Stop>
    ensures { result ≡ answered added line }
{
    match added {
        Ok(()) => Ok(Outcome {
            bytes: line,
            done: Done::Silent,
        }),
        Err(stop) => Err(stop),
    }
}

/// The check of the provider that writes, the first of a list.
fn writer_check(list: &[Who]) -> Check
    ensures { result ≡ store_check (writer_of list.now) }
{
    match list {
        [first, ..] => store_check(first),
        [] => store_check(&Who::Identity),
    }
}

/// The provider's check, as a store keeps it.
pub fn store_check(who: &Who) -> Check
    ensures { result ≡ store_check who.now }
{
    Check {
        value: u64::from_be_bytes(provider_check(who)),
    }
}

/// The line of the next row's revision, `revision N`.
fn next_line<T: Tape>(alloc: Global, store: &Store<T>) -> Result<Bytes, NoMemory>
    requires within { store.now.limit ≡ store_limit }
    ensures { IfOk result
        (λ line. (row : LogRow) → line ≡ revision_line (with_row row (stored_of store.now))) }
{
    store.known();
    let next = store.revision() + 1;
    revision_text(alloc, next)
}

/// `revision N`
fn revision_text(alloc: Global, revision: u64) -> Result<Bytes, NoMemory>
    ensures { IfOk result
        (λ line. line ≡ codes "revision " ++ (decimal revision ++ codes "\n")) }
{
    let mut text = Vec::new(alloc);
    add_revision(&mut text, revision)?;
    Ok(Bytes::from_vec(text))
}

fn add_revision(text: &mut Vec<u8>, revision: u64) -> Result<(), NoMemory>
    ensures { IfOk result (λ done. text.new.items
        ≡ text.old.items ++ (codes "revision " ++ (decimal revision ++ codes "\n"))) }
{
    let mut buffer = Buffer::new();
    add(text, "revision ")?;
    add(text, buffer.format(revision))?;
    add(text, "\n")
}
