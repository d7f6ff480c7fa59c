//! The phases over tapes and the stores that they hold.
ghost use Rattle.std.specs.Prelude.{◌≡◌, ◌≢◌, ◌<◌, ◌≤◌, List, ℕ, Ok, Err, IfOk, IfErr, OnErr, IsSome, MatchResult, false, length};
ghost use Rattle.kr_base.specs.Faults.{counted, tells_fault};
ghost use Rattle.kr_base.specs.Limits.{store_limit, value_limit};
ghost use Rattle.kr_base.specs.Rules.{IsPath, IsResource};
ghost use Rattle.kr_store.specs.Rows.{check_in, delete_of, live, put_of};
ghost use Rattle.kr_store.specs.declared.answers.PutNo.{PutNo};
ghost use Rattle.kr_kms.specs.Outside.{KeepsFiles, KeepsObjects};
ghost use Rattle.kr_kms.specs.declared.world.WorldCall.{WorldCall};
ghost use Rattle.kr_cmd_steps.specs.Environment.{Environment};
ghost use Rattle.kr_cmd_steps.specs.Phases.{adding, stored_on};
ghost use Rattle.kr_cmd_steps.specs.inner.Counting.{is_fault};
ghost use Rattle.kr_cmd_steps.specs.inner.Lent.{with_lent_tape};
ghost use Rattle.kr_cmd_steps.specs.inner.Phases.{Does, AskedFor};
ghost use Rattle.kr_cmd_steps.specs.inner.Tapes.{HasOneMore, IsLoaded, IsWriteStop, LentTape, ReturnedTape, ReturnsRead, ReturnsSettled, NoTape, grown_by, load_stop, stored_of};

use kr_base::{Bytes, Failed, STORE_LIMIT, Tape};
use kr_cmd_messages::{Breach, Limit, Object, Refusal, Stop, visible};
use kr_kms::{Access, FileNo, World};
use kr_store::{Check, PutNo, Store, StoreNo};
use std::alloc::Global;

/// Asks the world for the tape of the name. What is printed where it is absent is made first, so
/// that this refusal needs no memory.
pub fn open_tape<W: World>(
    alloc: Global,
    world: &mut W,
    name: &str,
    access: Access,
) -> Result<W::Tap, Stop>
    ensures lent { IfOk result (λ tape. LentTape name.now access (W.told world.old)
        (W.told world.new) (W.Tap.told tape) (W.Tap.count tape)) }
    ensures cuts { IfOk result (λ tape. W.Tap.loose tape ≡ false) }
    ensures objects { OnErr result (KeepsObjects (W.told world.old) (W.told world.new)) }
    ensures why { IfErr result (NoTape (W.told world.old) (W.told world.new) name.now access) }
    ensures once { (W.told world.new).faults.tapes
        ≡ counted (tells_fault is_fault result) (W.told world.old).faults.tapes }
    ensures kind { (W.told world.new).faults
        ≡ record (W.told world.old).faults { tapes = (W.told world.new).faults.tapes } }
    ensures asked { AskedFor (W.told world.old).asked (W.told world.new).asked
        (WorldCall.Tape name.now access) result }
    ensures files { KeepsFiles (W.told world.old) (W.told world.new) }
{
    let absent = match visible(alloc, name) {
        Ok(text) => text,
        Err(_) => return Err(Stop::NoMemory),
    };
    match world.tape(alloc, name, access) {
        Ok(tape) => {
            drop(absent);
            Ok(tape)
        }
        Err(FileNo::Absent) => Err(Stop::Refused(Refusal::Absent(absent))),
        Err(FileNo::Failed) => {
            drop(absent);
            Err(Stop::Fault(Object::Files, world.faults()))
        }
        Err(FileNo::NoMemory) => {
            drop(absent);
            Err(Stop::NoMemory)
        }
        Err(FileNo::TooLong) => unreachable!(),
    }
}

/// Gives the tape of the name back.
pub fn close_tape<W: World>(world: &mut W, name: &str, tape: W::Tap)
    requires out { 0 < (W.told world.old).tapes.out name.now }
    ensures { ReturnedTape name.now (W.told world.old) (W.told world.new) (W.Tap.told tape)
        (W.Tap.count tape) }
{
    world.back_tape(name, tape);
}

/// Gives the tape of the name back, which was only read. Where something was read, the world is
/// told that it is back.
pub fn return_tape<W: World, A>(world: &mut W, name: &str, tape: W::Tap, read: &Result<A, Stop>)
    requires out { 0 < (W.told world.old).tapes.out name.now }
    ensures { ReturnsRead name.now (W.told world.old) (W.told world.new) (W.Tap.told tape)
        (W.Tap.count tape) read.now }
{
    match read {
        Ok(_) => world.back_read(name, tape),
        Err(_) => close_tape(world, name, tape),
    }
}

/// Gives the tape of the name back. Where something was made of it, the tape is settled before: a
/// fault of that stands in place of what was made.
pub fn settle_tape<W: World, A: Drop>(
    world: &mut W,
    name: &str,
    object: Object,
    mut tape: W::Tap,
    made: Result<A, Stop>,
) -> Result<A, Stop>
    requires out { 0 < (W.told world.old).tapes.out name.now }
    ensures { ReturnsSettled name.now object (W.told world.old) (W.told world.new)
        (W.Tap.told tape) (W.Tap.count tape) made result }
{
    let value = match made {
        Ok(value) => value,
        Err(stop) => {
            world.back_tape(name, tape);
            return Err(stop);
        }
    };
    match tape.settle() {
        Ok(()) => {
            world.back_settled(name, tape);
            Ok(value)
        }
        Err(Failed) => {
            drop(value);
            let faults = tape.faults();
            world.back_tape(name, tape);
            Err(Stop::Fault(object, faults))
        }
    }
}

/// Loads the store of a tape. A tape that is refused comes back.
pub fn load_store<T: Tape>(alloc: Global, tape: T, object: Object) -> Result<Store<T>, (Stop, T)>
    requires cuts { T.loose tape ≡ false }
    ensures ok { IfOk result (λ store. (name : List ℕ) (a : Environment)
        → Does (stored_on object name)
        (with_lent_tape name (T.told tape) (T.count tape) a)
        (with_lent_tape name store.told store.count a) (Ok (stored_of store))) }
    ensures err { IfErr result (λ refused. (name : List ℕ) (a : Environment)
        → Does (stored_on object name)
        (with_lent_tape name (T.told tape) (T.count tape) a)
        (with_lent_tape name (T.told refused.1) (T.count refused.1) a) (Err refused.0)) }
    ensures once { MatchResult result (λ store. store.count ≡ T.count tape)
        (λ refused. T.count refused.1 ≡ counted (is_fault refused.0) (T.count tape)) }
    ensures limit { IfOk result (λ store. (store.limit ≡ store_limit) × (store.torn ≡ false)) }
    ensures loaded { IfOk result (IsLoaded (T.told tape) (T.count tape)) }
{
    match Store::load(alloc, tape, STORE_LIMIT) {
        Ok(store) => Ok(store),
        Err((why, tape)) => {
            let faults = tape.faults();
            Err((load_stop(object, faults, why), tape))
        }
    }
}

/// Writes a put behind the rows of a store. Nothing is wanted of memory once the tape is touched.
pub fn add_put<T: Tape>(
    store: &mut Store<T>,
    object: Object,
    path: &str,
    resource: &str,
    stored: Bytes,
    check: Check,
) -> Result<(), Stop>
    requires path { IsPath path.now }
    requires resource { IsResource resource.now }
    requires stored { length stored ≤ value_limit }
    requires within { store.old.limit ≡ store_limit }
    ensures does { (name : List ℕ) (a : Environment) →
        let row = put_of path.now resource.now stored (check_in store.old.format check) in Does
        (adding object name (stored_of store.old) row)
        (with_lent_tape name store.old.told store.old.count a)
        (with_lent_tape name store.new.told store.new.count a)
        (grown_by row (stored_of store.old) result) }
    ensures once { store.new.count ≡ counted (tells_fault is_fault result) store.old.count }
    ensures grown { IfOk result (λ done. HasOneMore
        (put_of path.now resource.now stored (check_in store.old.format check))
        store.old store.new) }
    ensures kept { OnErr result (store.new.rows ≡ store.old.rows) }
{
    let written = store.put(path, resource, stored, check);
    store.known();
    match written {
        Ok(_revision) => Ok(()),
        Err(why) => Err(write_stop(object, store.faults(), why)),
    }
}

/// Writes a delete of a live row behind the rows of a store. Nothing is wanted of memory once the
/// tape is touched.
pub fn add_delete<T: Tape>(store: &mut Store<T>, object: Object, path: &str) -> Result<(), Stop>
    requires path { IsPath path.now }
    requires live { IsSome (live store.old.rows path.now) }
    requires within { store.old.limit ≡ store_limit }
    ensures does { (name : List ℕ) (a : Environment) →
        let row = delete_of path.now in Does (adding object name (stored_of store.old) row)
        (with_lent_tape name store.old.told store.old.count a)
        (with_lent_tape name store.new.told store.new.count a)
        (grown_by row (stored_of store.old) result) }
    ensures once { store.new.count ≡ counted (tells_fault is_fault result) store.old.count }
    ensures grown { IfOk result (λ done. HasOneMore (delete_of path.now) store.old store.new) }
    ensures kept { OnErr result (store.new.rows ≡ store.old.rows) }
{
    let written = store.delete(path);
    store.known();
    match written {
        Ok(Some(_revision)) => Ok(()),
        Ok(None) => unreachable!(),
        Err(why) => Err(write_stop(object, store.faults(), why)),
    }
}

/// Why a store didn't write a row, as a command says it.
pub fn write_stop(object: Object, faults: u64, why: PutNo) -> Stop
    requires { (revision : ℕ) → why ≢ PutNo.Changed revision }
    ensures { IsWriteStop object faults why result }
{
    match why {
        PutNo::Failed => Stop::Fault(object, faults),
        PutNo::Full { needed: _needed } => Stop::Refused(Refusal::Limit(Limit::Store)),
        PutNo::Changed {
            revision: _revision,
        } => unreachable!(),
        PutNo::NoMemory => Stop::NoMemory,
    }
}

/// Why a store wasn't loaded, as a command says it.
fn load_stop(object: Object, faults: u64, why: StoreNo) -> Stop
    ensures { result ≡ load_stop object faults why }
{
    match why {
        StoreNo::Magic => Stop::Refused(Refusal::Broken(Breach::Magic)),
        StoreNo::Torn { at } => Stop::Refused(Refusal::Broken(Breach::Torn(at))),
        StoreNo::BadRow { at } => Stop::Refused(Refusal::Broken(Breach::BadRow(at))),
        StoreNo::Order { at } => Stop::Refused(Refusal::Broken(Breach::Order(at))),
        StoreNo::TooLong => Stop::Refused(Refusal::Limit(Limit::Store)),
        StoreNo::Failed => Stop::Fault(object, faults),
        StoreNo::NoMemory => Stop::NoMemory,
    }
}
