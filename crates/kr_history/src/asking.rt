//! Calls of one event each: a call answers what its event can be answered, and nothing else.
ghost use Rattle.std.specs.Prelude.{◌≡◌, ◌⊎◌, ◌<◌, ◌≤◌, [], ◌∷◌, cond, length, get_or, IfOk, IfSome, IsSome, OnErr, Some};
ghost use Rattle.kr_base.specs.Limits.{value_limit};
ghost use Rattle.kr_base.specs.Rules.{IsPath};
ghost use Rattle.kr_rollout.specs.declared.event.Event.TheVariants.{Put as put_event, Replace as replace_event};
ghost use Rattle.kr_rollout.specs.declared.line.Did.TheVariants.{Put as put_did};
ghost use Rattle.kr_rollout.specs.Callers.{Allows, brings_settings, did_of, found_in, holding, reloads_in};
ghost use Rattle.kr_rollout.specs.Openings.{NamesAmong};
ghost use Rattle.kr_store.specs.Rows.{IsRow};
ghost use Rattle.kr_history.specs.Acting.{AddsEntry, IsCaller};
ghost use Rattle.kr_history.specs.Asking.{AsksAfter, AsksDelete, AsksFetch, AsksJoin, AsksLeave, AsksPut, AsksReload, AsksReplace};
ghost use Rattle.kr_history.specs.Calls.{AddsNothing, KeepsHonesty};
ghost use Rattle.kr_history.specs.CallLaws.{AsksNoHold};
ghost use Rattle.kr_history.specs.Parts.{AddsWithin, put_by};
ghost use Rattle.kr_history.specs.inner.Quiet.{KeepsByItself};

use crate::acts::Acts;
use crate::call::CallNo;
use crate::outcome::{Joining, Reloading, Replacing};
use kr_base::{Bytes, Shared, Spent, Text};
use kr_provider::Published;
use kr_rollout::{Answer, Event};
use kr_store::Row;

/// Finds the path's live row.
pub fn fetch<A: Acts>(acts: &mut A, path: Text) -> Result<Option<Shared<Row>>, CallNo>
    requires path { IsPath path }
    requires held { IsSome (holding (A.caller acts.old).mine) }
    ensures fetches { AsksFetch path (A.caller acts.old) result (A.caller acts.new) }
    ensures adds { AddsWithin 1 0 [] (A.caller acts.old) (A.caller acts.new) }
    ensures honest { KeepsHonesty (A.caller acts.old) (A.caller acts.new) }
    ensures holds { holding (A.caller acts.new).mine ≡ holding (A.caller acts.old).mine }
    ensures row { IfOk result (λ found. IfSome found
        (λ row. (row.path ≡ path) × (length row.stored ≤ value_limit))) }
    ensures place { A.place acts.new ≡ A.place acts.old }
{
    match ask(acts, Event::Fetch { path }) {
        Ok(Answer::Found(row)) => Ok(Some(row)),
        Ok(Answer::Absent) => Ok(None),
        Ok(Answer::NoMemory) => Err(CallNo::NoMemory),
        Ok(_) => unreachable!(),
        Err(Spent) => Err(CallNo::Spent),
    }
}

/// Finds the live row with the least path above this one, which may be empty.
pub fn look_above<A: Acts>(acts: &mut A, above: Text) -> Result<Option<Shared<Row>>, CallNo>
    requires path { (above ≡ []) ⊎ IsPath above }
    requires held { IsSome (holding (A.caller acts.old).mine) }
    ensures looks { AsksAfter above (A.caller acts.old) result (A.caller acts.new) }
    ensures adds { AddsWithin 1 0 [] (A.caller acts.old) (A.caller acts.new) }
    ensures honest { KeepsHonesty (A.caller acts.old) (A.caller acts.new) }
    ensures holds { holding (A.caller acts.new).mine ≡ holding (A.caller acts.old).mine }
    ensures row { IfOk result (λ found. IfSome found
        (λ row. (found_in (A.caller acts.new).mine ≡ Some row)
        × IsRow (A.caller acts.new).opening.format row)) }
    ensures place { A.place acts.new ≡ A.place acts.old }
{
    match ask(acts, Event::After { path: above }) {
        Ok(Answer::Found(row)) => Ok(Some(row)),
        Ok(Answer::Absent) => Ok(None),
        Ok(Answer::NoMemory) => Err(CallNo::NoMemory),
        Ok(_) => unreachable!(),
        Err(Spent) => Err(CallNo::Spent),
    }
}

/// Puts the data under the path, as an object of the resource, by a value that is their sealing by
/// the configuration that the seat holds. It answers the revision of the row that was written.
pub fn put<A: Acts>(
    acts: &mut A,
    path: Text,
    resource: Text,
    plain: Bytes,
    stored: Bytes,
) -> Result<u64, CallNo>
    requires may { Allows (A.caller acts.old).opening (A.caller acts.old).seat
        (A.caller acts.old).mine (put_event path resource plain stored) }
    ensures puts { AsksPut path resource plain stored (A.caller acts.old) result
        (A.caller acts.new) }
    ensures adds { AddsWithin 1 0 (put_did path resource plain ∷ []) (A.caller acts.old)
        (A.caller acts.new) }
    ensures honest { KeepsHonesty (A.caller acts.old) (A.caller acts.new) }
    ensures holds { holding (A.caller acts.new).mine ≡ holding (A.caller acts.old).mine }
    ensures place { A.place acts.new ≡ A.place acts.old }
{
    match ask(
        acts,
        Event::Put {
            path,
            resource,
            plain,
            stored,
        },
    ) {
        Ok(Answer::Written { revision }) => Ok(revision),
        Ok(Answer::StoreFailed) => Err(CallNo::StoreFailed),
        Ok(Answer::StoreFull { needed }) => Err(CallNo::StoreFull { needed }),
        Ok(Answer::NoMemory) => Err(CallNo::NoMemory),
        Ok(other) => {
            drop(other);
            unreachable!()
        }
        Err(Spent) => Err(CallNo::Spent),
    }
}

/// Deletes the path's live row. It answers the revision of the row that was written, or `None`
/// where nothing lived at the path.
pub fn delete<A: Acts>(acts: &mut A, path: Text) -> Result<Option<u64>, CallNo>
    requires path { IsPath path }
    ensures deletes { AsksDelete path (A.caller acts.old) result (A.caller acts.new) }
    ensures adds { AddsWithin 1 0 [] (A.caller acts.old) (A.caller acts.new) }
    ensures honest { KeepsHonesty (A.caller acts.old) (A.caller acts.new) }
    ensures holds { holding (A.caller acts.new).mine ≡ holding (A.caller acts.old).mine }
    ensures place { A.place acts.new ≡ A.place acts.old }
{
    match ask(acts, Event::Delete { path }) {
        Ok(Answer::Written { revision }) => Ok(Some(revision)),
        Ok(Answer::Absent) => Ok(None),
        Ok(Answer::StoreFailed) => Err(CallNo::StoreFailed),
        Ok(Answer::StoreFull { needed }) => Err(CallNo::StoreFull { needed }),
        Ok(Answer::NoMemory) => Err(CallNo::NoMemory),
        Ok(other) => {
            drop(other);
            unreachable!()
        }
        Err(Spent) => Err(CallNo::Spent),
    }
}

/// Offers the value in place of the row with this revision that the seat found at the path; it is a
/// sealing of that row's data by the configuration that the seat holds.
pub fn replace<A: Acts>(
    acts: &mut A,
    path: Text,
    revision: u64,
    stored: Bytes,
) -> Result<Replacing, CallNo>
    requires may { Allows (A.caller acts.old).opening (A.caller acts.old).seat
        (A.caller acts.old).mine (replace_event path revision stored) }
    ensures replaces { AsksReplace path revision stored (A.caller acts.old) result
        (A.caller acts.new) }
    ensures adds { AddsWithin 1 0 [] (A.caller acts.old) (A.caller acts.new) }
    ensures holds { holding (A.caller acts.new).mine ≡ holding (A.caller acts.old).mine }
    ensures place { A.place acts.new ≡ A.place acts.old }
{
    match ask(
        acts,
        Event::Replace {
            path,
            revision,
            stored,
        },
    ) {
        Ok(Answer::Written { revision }) => Ok(Replacing::Written(revision)),
        Ok(Answer::Changed { revision }) => Ok(Replacing::Changed(revision)),
        Ok(Answer::StoreFailed) => Err(CallNo::StoreFailed),
        Ok(Answer::StoreFull { needed }) => Err(CallNo::StoreFull { needed }),
        Ok(Answer::NoMemory) => Err(CallNo::NoMemory),
        Ok(other) => {
            drop(other);
            unreachable!()
        }
        Err(Spent) => Err(CallNo::Spent),
    }
}

/// Gives the configuration to the replica, which is in, in place of the expected generation; of
/// any, where none is expected.
pub fn reload<A: Acts>(
    acts: &mut A,
    replica: u32,
    published: Shared<Published>,
    expect: Option<u32>,
) -> Result<Reloading, CallNo>
    requires replica { replica < length (A.caller acts.old).opening.replicas }
    requires names { NamesAmong (A.caller acts.old).opening.names published.rows }
    requires room { reloads_in (A.caller acts.old).mine
        < get_or (A.caller acts.old).opening.reloads (A.caller acts.old).seat 0 }
    ensures reloads { AsksReload replica expect published (A.caller acts.old) result
        (A.caller acts.new) }
    ensures adds { AddsWithin 1 1 [] (A.caller acts.old) (A.caller acts.new) }
    ensures holds { holding (A.caller acts.new).mine ≡ holding (A.caller acts.old).mine }
    ensures place { A.place acts.new ≡ A.place acts.old }
{
    match ask(
        acts,
        Event::Reload {
            replica,
            published,
            expect,
        },
    ) {
        Ok(Answer::Reloaded { generation }) => Ok(Reloading::Generation(generation)),
        Ok(Answer::Refused(verdict)) => Ok(Reloading::Refused(verdict)),
        Ok(Answer::Moved { generation }) => Ok(Reloading::Moved(generation)),
        Ok(Answer::Gone { replica: _gone }) => Err(CallNo::Gone),
        Ok(Answer::NoMemory) => Err(CallNo::NoMemory),
        Ok(_) => unreachable!(),
        Err(Spent) => Err(CallNo::Spent),
    }
}

/// Gives the configuration to the replica, which isn't in.
pub fn join<A: Acts>(
    acts: &mut A,
    replica: u32,
    published: Shared<Published>,
) -> Result<Joining, CallNo>
    requires replica { replica < length (A.caller acts.old).opening.replicas }
    requires names { NamesAmong (A.caller acts.old).opening.names published.rows }
    requires room { reloads_in (A.caller acts.old).mine
        < get_or (A.caller acts.old).opening.reloads (A.caller acts.old).seat 0 }
    ensures joins { AsksJoin replica published (A.caller acts.old) result (A.caller acts.new) }
    ensures adds { AddsWithin 1 1 [] (A.caller acts.old) (A.caller acts.new) }
    ensures holds { holding (A.caller acts.new).mine ≡ holding (A.caller acts.old).mine }
    ensures place { A.place acts.new ≡ A.place acts.old }
{
    match ask(acts, Event::Join { replica, published }) {
        Ok(Answer::Joined { generation }) => Ok(Joining::Generation(generation)),
        Ok(Answer::Refused(verdict)) => Ok(Joining::Refused(verdict)),
        Ok(Answer::Present { generation }) => Ok(Joining::Present(generation)),
        Ok(Answer::NoMemory) => Err(CallNo::NoMemory),
        Ok(_) => unreachable!(),
        Err(Spent) => Err(CallNo::Spent),
    }
}

/// Takes the replica's current generation away. It answers the generation, or `None` where the
/// replica had none. It takes no memory.
pub fn leave<A: Acts>(acts: &mut A, replica: u32) -> Result<Option<u32>, CallNo>
    requires replica { replica < length (A.caller acts.old).opening.replicas }
    ensures leaves { AsksLeave replica (A.caller acts.old) result (A.caller acts.new) }
    ensures adds { AddsWithin 1 0 [] (A.caller acts.old) (A.caller acts.new) }
    ensures honest { KeepsHonesty (A.caller acts.old) (A.caller acts.new) }
    ensures holds { holding (A.caller acts.new).mine ≡ holding (A.caller acts.old).mine }
    ensures place { A.place acts.new ≡ A.place acts.old }
{
    match ask(acts, Event::Leave { replica }) {
        Ok(Answer::Departed { generation }) => Ok(Some(generation)),
        Ok(Answer::Gone { replica: _gone }) => Ok(None),
        Ok(other) => {
            drop(other);
            unreachable!()
        }
        Err(Spent) => Err(CallNo::Spent),
    }
}

/// Makes one event of the seat.
fn ask<A: Acts>(acts: &mut A, event: Event) -> Result<Answer, Spent>
    requires { Allows (A.caller acts.old).opening (A.caller acts.old).seat (A.caller acts.old).mine
        event }
    ensures known { IsCaller (A.caller acts.old) }
    ensures acted { IfOk result
        (λ answer. AddsEntry (A.caller acts.old) event answer (A.caller acts.new)) }
    ensures nothing { OnErr result (AddsNothing (A.caller acts.old) (A.caller acts.new)) }
    ensures adds { AddsWithin 1 (cond (brings_settings (did_of event)) 1 0)
        (put_by (did_of event)) (A.caller acts.old) (A.caller acts.new) }
    ensures honest { KeepsByItself event (A.caller acts.old) (A.caller acts.new) }
    ensures holds { AsksNoHold event
        → holding (A.caller acts.new).mine ≡ holding (A.caller acts.old).mine }
    ensures place { A.place acts.new ≡ A.place acts.old }
{
    acts.known();
    acts.act(event)
}
