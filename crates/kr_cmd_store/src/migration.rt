//! `migrate`: configuration, store, target, the rows.
ghost use Rattle.std.specs.Prelude.{◌≡◌, ◌≤◌, ◌-◌, ◌++◌, ℕ, List, Option, Some, Ok, Err, IfOk, IfErr, IsSome, codes, decimal, false, length, map};
ghost use Rattle.kr_base.specs.Limits.{store_limit, value_limit};
ghost use Rattle.kr_base.specs.Rules.{IsPath, IsResource};
ghost use Rattle.kr_config.specs.Kept.{rows_of};
ghost use Rattle.kr_kms.specs.Outside.{same_name};
ghost use Rattle.kr_provider.specs.Readers.{reader_in};
ghost use Rattle.kr_store.specs.Rows.{check_in, delete_of, live, log_row_at, put_of};
ghost use Rattle.kr_store.specs.declared.format.Format as formats;
ghost use Rattle.kr_store.specs.declared.rows.LogRow.{LogRow};
ghost use Rattle.kr_cmd_steps.specs.Environment.{Environment, with_world};
ghost use Rattle.kr_cmd_steps.specs.Phases.{adding};
ghost use Rattle.kr_cmd_steps.specs.StoreSteps.{copied_into, copying, migrated_row, migrating_into, reader_check, source_on, target_on, target_read};
ghost use Rattle.kr_cmd_steps.specs.Commands.{migrating};
ghost use Rattle.kr_cmd_steps.specs.Steps.{and_then};
ghost use Rattle.kr_cmd_messages.specs.declared.refusal.Object as objects;
ghost use Rattle.kr_cmd_steps.specs.inner.Lent.{with_lent_tape};
ghost use Rattle.kr_cmd_store.specs.inner.Migrating.{HasCopied, IsNew, all_grown, has_new_bytes, migrated_put};
ghost use Rattle.kr_cmd_steps.specs.inner.Phases.{Does};
ghost use Rattle.kr_cmd_steps.specs.inner.Tapes.{HasOneMore, grown_by, stored_of};

use crate::storing::{answer_once_added, store_check};
use itoa::Buffer;
use kr_base::{Bytes, Failed, NoMemory, Tape, Text};
use kr_cmd_messages::{Migration, Object, Outcome, Refusal, Stop, add};
use kr_cmd_steps::{
    add_delete, close_tape, configure, load_store, open_tape, settle_tape, write_stop,
};
use kr_config::{Settings, Who};
use kr_kms::{Access, World};
use kr_provider::find_reader;
use kr_store::{Check, Format, Row, RowRef, Store};
use std::alloc::Global;

/// Copies a store of the first format into a new one of the second.
pub fn migrate<W: World>(alloc: Global, words: &Migration, world: &mut W) -> Result<Outcome, Stop>
    requires apart { same_name words.now.store words.now.to ≡ false }
    ensures does { (a : Environment) → Does (migrating words.now)
        (with_world (W.told world.old) a) (with_world (W.told world.new) a) result }
    ensures links { (W.told world.new).links ≡ (W.told world.old).links }
{
    let settings = match configure(alloc, world, words.config.as_str()) {
        Ok(settings) => settings,
        Err(stop) => return Err(stop),
    };
    let name = words.store.as_str();
    let tape = match open_tape(alloc, world, name, Access::ToRead) {
        Ok(tape) => tape,
        Err(stop) => return Err(stop),
    };
    let (made, tape) = migrate_tape(alloc, &words.to, &settings, world, tape);
    close_tape(world, name, tape);
    made
}

/// Copies the store on a tape, which comes back.
fn migrate_tape<W: World>(
    alloc: Global,
    to: &Text,
    settings: &Settings,
    world: &mut W,
    tape: W::Tap,
) -> (Result<Outcome, Stop>, W::Tap)
    requires cuts { W.Tap.loose tape ≡ false }
    ensures made { (name : List ℕ) (a : Environment) → same_name name to.now ≡ false → Does
        (and_then (source_on name) (migrating_into to.now (rows_of settings.now.entries.0)))
        (with_lent_tape name (W.Tap.told tape) (W.Tap.count tape) (with_world (W.told world.old) a))
        (with_lent_tape name (W.Tap.told result.1) (W.Tap.count result.1)
        (with_world (W.told world.new) a)) result.0 }
    ensures out { (name : List ℕ)
        → (W.told world.new).tapes.out name ≡ (W.told world.old).tapes.out name }
    ensures links { (W.told world.new).links ≡ (W.told world.old).links }
{
    let source = match load_source(alloc, tape) {
        Ok(source) => source,
        Err((stop, tape)) => return (Err(stop), tape),
    };
    let made = migrate_store(alloc, to, settings, &source, world);
    (made, source.close())
}

/// Loads a store that doesn't have the second format yet; one without bytes has none.
fn load_source<T: Tape>(alloc: Global, tape: T) -> Result<Store<T>, (Stop, T)>
    requires cuts { T.loose tape ≡ false }
    ensures ok { IfOk result (λ store. (name : List ℕ) (a : Environment) → Does (source_on name)
        (with_lent_tape name (T.told tape) (T.count tape) a)
        (with_lent_tape name store.told store.count a) (Ok (stored_of store))) }
    ensures err { IfErr result (λ refused. (name : List ℕ) (a : Environment) → Does (source_on name)
        (with_lent_tape name (T.told tape) (T.count tape) a)
        (with_lent_tape name (T.told refused.1) (T.count refused.1) a) (Err refused.0)) }
{
    let source = match load_store(alloc, tape, Object::Store) {
        Ok(source) => source,
        Err(refused) => return Err(refused),
    };
    if is_new(&source) {
        return Err((Stop::Refused(Refusal::NotOld), source.close()));
    }
    Ok(source)
}

/// Whether a store has bytes of the second format.
fn is_new<T: Tape>(store: &Store<T>) -> bool
    ensures { result ≡ has_new_bytes store.now.format store.now.length }
{
    match store.format() {
        Format::One => false,
        Format::Two => store.length() > 0,
    }
}

/// Copies a store into that of a file, which is made where it is absent. The source's tape is out.
fn migrate_store<W: World>(
    alloc: Global,
    to: &Text,
    settings: &Settings,
    source: &Store<W::Tap>,
    world: &mut W,
) -> Result<Outcome, Stop>
    ensures made { (name : List ℕ) (told : Option (List ℕ)) (count : ℕ) (a : Environment)
        → same_name name to.now ≡ false → Does
        (migrating_into to.now (rows_of settings.now.entries.0) (stored_of source.now))
        (with_lent_tape name told count (with_world (W.told world.old) a))
        (with_lent_tape name told count (with_world (W.told world.new) a)) result }
    ensures out { (name : List ℕ)
        → (W.told world.new).tapes.out name ≡ (W.told world.old).tapes.out name }
    ensures links { (W.told world.new).links ≡ (W.told world.old).links }
{
    let name = to.as_str();
    let tape = match open_tape(alloc, world, name, Access::ToMake) {
        Ok(tape) => tape,
        Err(stop) => return Err(stop),
    };
    let (made, tape) = copy_onto_tape(alloc, settings, source, tape);
    settle_tape(world, name, Object::Target, tape, made)
}

/// Copies a store onto a tape, which comes back.
fn copy_onto_tape<S: Tape, T: Tape>(
    alloc: Global,
    settings: &Settings,
    source: &Store<S>,
    tape: T,
) -> (Result<Outcome, Stop>, T)
    requires cuts { T.loose tape ≡ false }
    ensures { (name : List ℕ) (a : Environment) → Does (and_then (target_on name)
        (copied_into name (rows_of settings.now.entries.0) (stored_of source.now)))
        (with_lent_tape name (T.told tape) (T.count tape) a)
        (with_lent_tape name (T.told result.1) (T.count result.1) a) result.0 }
{
    let mut target = match load_target(alloc, tape) {
        Ok(target) => target,
        Err((stop, tape)) => return (Err(stop), tape),
    };
    let line = match migrated_line(alloc, source.revision()) {
        Ok(line) => line,
        Err(NoMemory) => return (Err(Stop::NoMemory), target.close()),
    };
    let copied = copy_rows(settings, source, &mut target);
    (answer_once_added(copied, line), target.close())
}

/// Loads a store that has no bytes yet.
fn load_target<T: Tape>(alloc: Global, mut tape: T) -> Result<Store<T>, (Stop, T)>
    requires cuts { T.loose tape ≡ false }
    ensures ok { IfOk result (λ store. (name : List ℕ) (a : Environment) → Does (target_on name)
        (with_lent_tape name (T.told tape) (T.count tape) a)
        (with_lent_tape name store.told store.count a) (Ok (stored_of store))) }
    ensures err { IfErr result (λ refused. (name : List ℕ) (a : Environment) → Does (target_on name)
        (with_lent_tape name (T.told tape) (T.count tape) a)
        (with_lent_tape name (T.told refused.1) (T.count refused.1) a) (Err refused.0)) }
    ensures empty { IfOk result IsNew }
{
    let length = match tape.len() {
        Ok(length) => length,
        Err(Failed) => {
            let faults = tape.faults();
            return Err((Stop::Fault(Object::Target, faults), tape));
        }
    };
    if length > 0 {
        return Err((Stop::Refused(Refusal::NotEmpty(length)), tape));
    }
    load_empty(alloc, tape)
}

/// Loads a store of which the tape said that it has no bytes.
fn load_empty<T: Tape>(alloc: Global, tape: T) -> Result<Store<T>, (Stop, T)>
    requires cuts { T.loose tape ≡ false }
    ensures ok { IfOk result (λ store. (name : List ℕ) (a : Environment) → Does (target_read name)
        (with_lent_tape name (T.told tape) (T.count tape) a)
        (with_lent_tape name store.told store.count a) (Ok (stored_of store))) }
    ensures err { IfErr result (λ refused. (name : List ℕ) (a : Environment)
        → Does (target_read name)
        (with_lent_tape name (T.told tape) (T.count tape) a)
        (with_lent_tape name (T.told refused.1) (T.count refused.1) a) (Err refused.0)) }
    ensures empty { IfOk result IsNew }
{
    let target = match load_store(alloc, tape, Object::Target) {
        Ok(target) => target,
        Err(refused) => return Err(refused),
    };
    let length = target.length();
    if length > 0 {
        return Err((Stop::Refused(Refusal::NotEmpty(length)), target.close()));
    }
    Ok(target)
}

/// Writes each row of the source behind those of the target, which has none.
fn copy_rows<S: Tape, T: Tape>(
    settings: &Settings,
    source: &Store<S>,
    target: &mut Store<T>,
) -> Result<(), Stop>
    requires empty { IsNew target.old }
    ensures { (name : List ℕ) (a : Environment) →
        let rows = map (migrated_row (rows_of settings.now.entries.0)) source.now.rows in
        Does (copying name (stored_of target.old) rows)
        (with_lent_tape name target.old.told target.old.count a)
        (with_lent_tape name target.new.told target.new.count a)
        (all_grown rows (stored_of target.old) result) }
{
    source.known();
    for copied in 0..source.revision() {
        match copy_row(settings, source, copied + 1, target) {
            Ok(()) => {}
            Err(stop) => return Err(stop),
        }
    }
    Ok(())
}

/// Writes the row of a revision behind those before it.
fn copy_row<S: Tape, T: Tape>(
    settings: &Settings,
    source: &Store<S>,
    revision: u64,
    target: &mut Store<T>,
) -> Result<(), Stop>
    requires first { 1 ≤ revision }
    requires last { revision ≤ length source.now.rows }
    requires copied { HasCopied (rows_of settings.now.entries.0) source.now.rows (revision - 1)
        target.old }
    ensures does { (row : LogRow) → log_row_at source.now.rows revision ≡ Some row
        → (name : List ℕ) (a : Environment) →
        let line = migrated_row (rows_of settings.now.entries.0) row in
        Does (adding objects.Object.Target name (stored_of target.old) line)
        (with_lent_tape name target.old.told target.old.count a)
        (with_lent_tape name target.new.told target.new.count a)
        (grown_by line (stored_of target.old) result) }
    ensures copied { IfOk result (λ done.
        HasCopied (rows_of settings.now.entries.0) source.now.rows revision target.new) }
{
    source.known();
    match source.row_by_revision(revision) {
        Some(RowRef::Put(row)) => copy_put(settings, row, target),
        Some(RowRef::Delete(path)) => copy_delete(target, path),
        None => unreachable!(),
    }
}

/// Writes a put with the check of the provider that reads its value.
fn copy_put<T: Tape>(settings: &Settings, row: &Row, target: &mut Store<T>) -> Result<(), Stop>
    requires path { IsPath row.now.path }
    requires resource { IsResource row.now.resource }
    requires stored { length row.now.stored ≤ value_limit }
    requires within { target.old.limit ≡ store_limit }
    requires format { target.old.format ≡ formats.Format.Two }
    ensures does { (name : List ℕ) (a : Environment) →
        let line = migrated_put (rows_of settings.now.entries.0) row.now in
        Does (adding objects.Object.Target name (stored_of target.old) line)
        (with_lent_tape name target.old.told target.old.count a)
        (with_lent_tape name target.new.told target.new.count a)
        (grown_by line (stored_of target.old) result) }
    ensures grown { IfOk result (λ done.
        HasOneMore (migrated_put (rows_of settings.now.entries.0) row.now) target.old target.new) }
{
    let list = settings.resource_list(row.resource.as_str());
    let check = reader_check(list, row.stored.as_slice());
    add_row(target, row, check)
}

/// Writes a put of what a row puts, which shares its path and its value. Nothing is wanted of
/// memory once the tape is touched.
fn add_row<T: Tape>(target: &mut Store<T>, row: &Row, check: Check) -> Result<(), Stop>
    requires path { IsPath row.now.path }
    requires resource { IsResource row.now.resource }
    requires stored { length row.now.stored ≤ value_limit }
    requires within { target.old.limit ≡ store_limit }
    ensures does { (name : List ℕ) (a : Environment) →
        let line = put_of row.now.path row.now.resource row.now.stored
        (check_in target.old.format check) in
        Does (adding objects.Object.Target name (stored_of target.old) line)
        (with_lent_tape name target.old.told target.old.count a)
        (with_lent_tape name target.new.told target.new.count a)
        (grown_by line (stored_of target.old) result) }
    ensures grown { IfOk result (λ done. HasOneMore (put_of row.now.path row.now.resource
        row.now.stored (check_in target.old.format check)) target.old target.new) }
{
    let written = target.put_row(row, check);
    target.known();
    match written {
        Ok(_revision) => Ok(()),
        Err(why) => Err(write_stop(Object::Target, target.faults(), why)),
    }
}

/// Writes a delete.
fn copy_delete<T: Tape>(target: &mut Store<T>, path: &str) -> Result<(), Stop>
    requires path { IsPath path.now }
    requires live { IsSome (live target.old.rows path.now) }
    requires within { target.old.limit ≡ store_limit }
    ensures does { (name : List ℕ) (a : Environment) →
        let line = delete_of path.now in
        Does (adding objects.Object.Target name (stored_of target.old) line)
        (with_lent_tape name target.old.told target.old.count a)
        (with_lent_tape name target.new.told target.new.count a)
        (grown_by line (stored_of target.old) result) }
    ensures grown { IfOk result (λ done. HasOneMore (delete_of path.now) target.old target.new) }
{
    add_delete(target, Object::Target, path)
}

/// The check of the provider that reads a value; zeros where none does.
fn reader_check(list: &[Who], bytes: &[u8]) -> Check
    ensures { result ≡ reader_check (reader_in list.now bytes.now) }
{
    match find_reader(list, bytes) {
        Some(place) => store_check(&list[place]),
        None => Check { value: 0 },
    }
}

/// `migrated N`
fn migrated_line(alloc: Global, rows: u64) -> Result<Bytes, NoMemory>
    ensures { IfOk result (λ line. line ≡ codes "migrated " ++ (decimal rows ++ codes "\n")) }
{
    let mut text = Vec::new(alloc);
    add_migrated(&mut text, rows)?;
    Ok(Bytes::from_vec(text))
}

fn add_migrated(text: &mut Vec<u8>, rows: u64) -> Result<(), NoMemory>
    ensures { IfOk result (λ done. text.new.items
        ≡ text.old.items ++ (codes "migrated " ++ (decimal rows ++ codes "\n"))) }
{
    let mut buffer = Buffer::new();
    add(text, "migrated ")?;
    add(text, buffer.format(rows))?;
    add(text, "\n")
}
