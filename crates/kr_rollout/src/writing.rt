//! Events that write to the store.
ghost use Rattle.std.specs.Prelude.{◌≡◌, ◌<◌, ◌≤◌, length, None, Some, IsSome};
ghost use Rattle.kr_judge.specs.declared.need.Need.{Need};
ghost use Rattle.kr_provider.specs.Publication.{IsPublished, list_at};
ghost use Rattle.kr_provider.specs.Readers.{writer_of};
ghost use Rattle.kr_base.specs.Rules.{IsPath, IsResource};
ghost use Rattle.kr_store.specs.Rows.{longest_value};
ghost use Rattle.kr_store.specs.Stores.{Deletes};
ghost use Rattle.kr_rollout.specs.Answers.{IsStill};
ghost use Rattle.kr_opening.specs.Checks.{store_check};
ghost use Rattle.kr_rollout.specs.Callers.{gave_of};
ghost use Rattle.kr_rollout.specs.declared.event.Event.TheVariants as event;
ghost use Rattle.kr_rollout.specs.inner.Rollouts.{line_now, MayServe, Serves};
ghost use Rattle.kr_rollout.specs.inner.Writing.{refused_as, written_as, deleted_as, needs_with, needs_without, StaysBy, PutsBy, ReplacesBy, WritesRow};

use crate::answer::Answer;
use crate::line::{Did, Gave, Line};
use crate::published::held_published;
use crate::rollout::Rollout;
use kr_base::{Bytes, NoMemory, Tape, Text};
use kr_config::Who;
use kr_judge::Board;
use kr_opening::store_check;
use kr_paths::Path;
use kr_provider::Published;
use kr_provider::laws::size_of_sealing;
use kr_store::{Check, PutNo, Store};
use std::alloc::Global;

/// Keeps the proposed need where the row was written, and else lets it go.
fn settle(board: &mut Board, wrote: &Result<u64, PutNo>)
    requires { IsSome board.old.proposal }
    ensures { (need : Need) → board.old.proposal ≡ Some need → board.new
        ≡ record board.old { needs = needs_with wrote.now need board.old.needs; proposal = None } }
{
    match wrote {
        Ok(_) => board.settle(true),
        Err(_) => board.settle(false),
    }
}

/// Writes a value that needs the provider behind the other rows: a put, or one in the place of the
/// row with this revision, where that is still the path's last one. The need is proposed before, so
/// that it is settled without memory.
fn write_value<T: Tape>(
    store: &mut Store<T>,
    board: &mut Board,
    path: &Path,
    resource: &str,
    over: Option<u64>,
    who: &Who,
    stored: Bytes,
) -> Result<u64, PutNo>
    requires idle { board.old.proposal ≡ None }
    requires path { IsPath path.now }
    requires resource { IsResource resource.now }
    requires stored { length stored ≤ longest_value }
    ensures store { WritesRow over store.old store.new path.now resource.now stored
        (store_check who.now) result }
    ensures board { board.new ≡ record board.old {
      needs = needs_with result
          (record { path = path.now; resource = resource.now; who = who.now }) board.old.needs;
    } }
{
    match board.propose(path, resource, who) {
        Ok(()) => {}
        Err(NoMemory) => {
            drop(stored);
            return Err(PutNo::NoMemory);
        }
    }
    let check = store_check(who);
    let wrote = match over {
        Some(revision) => store.replace_if(path.as_str(), revision, stored, check),
        None => store.put_shared(path, resource, stored, check),
    };
    settle(board, &wrote);
    wrote
}

/// Deletes the path's live row.
fn delete_value<T: Tape>(
    store: &mut Store<T>,
    board: &mut Board,
    path: &str,
) -> Result<Option<u64>, PutNo>
    requires idle { board.old.proposal ≡ None }
    requires path { IsPath path.now }
    ensures store { Deletes store.old store.new path.now result }
    ensures board { board.new
        ≡ record board.old { needs = needs_without result path.now board.old.needs } }
{
    match store.delete(path) {
        Ok(Some(revision)) => {
            board.drop_need(path);
            Ok(Some(revision))
        }
        Ok(None) => Ok(None),
        Err(why) => Err(why),
    }
}

/// Why a row that isn't the path's last put isn't replaced. The store keeps no check of it.
#[tactic(auto, using(crate::proofs::Replacing::stays_by))]
fn refuse_replacing<T: Tape>(
    published: &Published,
    store: &mut Store<T>,
    path: &str,
    revision: u64,
    stored: Bytes,
) -> PutNo
    requires path { IsPath path.now }
    requires stored { length stored ≤ longest_value }
    requires not { ¬ IsStill store.old.rows path.now revision }
    ensures { StaysBy published.now store.old store.new path.now revision stored result }
{
    let check = Check { value: 0 };
    match store.replace_if(path, revision, stored, check) {
        Ok(_) => unreachable!(),
        Err(why) => why,
    }
}

/// What is answered where the store refused a row.
fn refusal(why: PutNo) -> Answer
    ensures { result ≡ refused_as why }
{
    match why {
        PutNo::Failed => Answer::StoreFailed,
        PutNo::Full { needed } => Answer::StoreFull { needed },
        PutNo::Changed { revision } => Answer::Changed { revision },
        PutNo::NoMemory => Answer::NoMemory,
    }
}

/// What is answered to a put.
fn put_answer(wrote: Result<u64, PutNo>) -> Answer
    ensures { result ≡ written_as wrote }
{
    match wrote {
        Ok(revision) => Answer::Written { revision },
        Err(why) => refusal(why),
    }
}

/// What is answered to a delete.
fn delete_answer(wrote: Result<Option<u64>, PutNo>) -> Answer
    ensures { result ≡ deleted_as wrote }
{
    match wrote {
        Ok(Some(revision)) => Answer::Written { revision },
        Ok(None) => Answer::Absent,
        Err(why) => refusal(why),
    }
}

/// How the journal has it that the store refused a row.
fn line_refusal(why: &PutNo) -> Gave
    ensures { result ≡ gave_of (refused_as why.now) }
{
    match why {
        PutNo::Failed => Gave::StoreFailed,
        PutNo::Full { needed } => Gave::StoreFull { needed: *needed },
        PutNo::Changed { revision } => Gave::Changed {
            revision: *revision,
        },
        PutNo::NoMemory => Gave::Nothing,
    }
}

/// The answer to a put, as the journal has it.
fn put_line(wrote: &Result<u64, PutNo>) -> Gave
    ensures { result ≡ gave_of (written_as wrote.now) }
{
    match wrote {
        Ok(revision) => Gave::Written {
            revision: *revision,
        },
        Err(why) => line_refusal(why),
    }
}

/// The answer to a delete, as the journal has it.
fn delete_line(wrote: &Result<Option<u64>, PutNo>) -> Gave
    ensures { result ≡ gave_of (deleted_as wrote.now) }
{
    match wrote {
        Ok(Some(revision)) => Gave::Written {
            revision: *revision,
        },
        Ok(None) => Gave::Absent,
        Err(why) => line_refusal(why),
    }
}

/// The provider by which the configuration writes values of the resource.
#[tactic(auto, using(crate::proofs::Writers::list_some, crate::proofs::Writers::first_writes))]
fn configured_writer<'a>(published: &'a Published, resource: &str) -> &'a Who
    ensures writer { result.now ≡ writer_of (list_at published.now resource.now) }
    ensures kept { IsPublished published.now }
{
    let list = published.resource_list(resource);
    &list[0]
}

impl<T: Tape> Rollout<T> {
    /// Puts a value that was sealed by the held generation.
    pub fn put(
        &mut self,
        seat: u32,
        path: Text,
        resource: Text,
        plain: Bytes,
        stored: Bytes,
    ) -> (Answer, Line)
        requires seat_in { seat < length self.old.opening.reloads }
        requires may { MayServe self.old seat (event.Put path resource plain stored) }
        ensures { Serves self.old seat (event.Put path resource plain stored)
            result.0 result.1 self.new }
    {
        size_of_sealing();
        let published = held_published(self.generations.as_slice(), self.held.as_slice(), seat);
        let result = put_value(
            &mut self.store,
            &mut self.board,
            self.alloc,
            published,
            path.as_str(),
            resource.as_str(),
            stored,
        );
        let did = Did::Put {
            path,
            resource,
            plain,
        };
        self.tell_written(seat, did, result)
    }

    /// Deletes the path's live row.
    pub fn delete(&mut self, seat: u32, path: Text) -> (Answer, Line)
        requires seat_in { seat < length self.old.opening.reloads }
        requires may { MayServe self.old seat (event.Delete path) }
        ensures { Serves self.old seat (event.Delete path) result.0 result.1 self.new }
    {
        let result = delete_value(&mut self.store, &mut self.board, path.as_str());
        let gave = delete_line(&result);
        let answer = delete_answer(result);
        let line = self.line(seat, Did::Delete { path }, gave);
        (answer, line)
    }

    /// Puts a value, sealed anew, in the place of the row that the seat found last.
    pub fn replace(&mut self, seat: u32, path: Text, revision: u64, stored: Bytes) -> (Answer, Line)
        requires seat_in { seat < length self.old.opening.reloads }
        requires may { MayServe self.old seat (event.Replace path revision stored) }
        ensures { Serves self.old seat (event.Replace path revision stored)
            result.0 result.1 self.new }
    {
        size_of_sealing();
        let published = held_published(self.generations.as_slice(), self.held.as_slice(), seat);
        let result = replace_live(
            &mut self.store,
            &mut self.board,
            published,
            path.as_str(),
            revision,
            stored,
        );
        self.tell_written(seat, Did::Replace { path, revision }, result)
    }

    /// Tells what a put or a replacement came to.
    fn tell_written(&self, seat: u32, did: Did, wrote: Result<u64, PutNo>) -> (Answer, Line)
        requires { seat < length self.now.opening.reloads }
        ensures answer { result.0 ≡ written_as wrote }
        ensures line { result.1 ≡ line_now self.now.state seat did (gave_of (written_as wrote)) }
    {
        let gave = put_line(&wrote);
        let line = self.line(seat, did, gave);
        (put_answer(wrote), line)
    }
}

/// Puts a value that needs the provider by which the configuration writes, at a path of which one
/// copy is made, for all that keeps it.
#[tactic(auto, using(crate::proofs::Replacing::put_by))]
fn put_value<T: Tape>(
    store: &mut Store<T>,
    board: &mut Board,
    alloc: Global,
    published: &Published,
    path: &str,
    resource: &str,
    stored: Bytes,
) -> Result<u64, PutNo>
    requires idle { board.old.proposal ≡ None }
    requires path { IsPath path.now }
    requires resource { IsResource resource.now }
    requires stored { length stored ≤ longest_value }
    ensures { PutsBy published.now store.old store.new path.now resource.now stored
        board.old board.new result }
{
    let own = match Path::copy(alloc, path) {
        Ok(own) => own,
        Err(NoMemory) => {
            drop(stored);
            return Err(PutNo::NoMemory);
        }
    };
    let who = configured_writer(published, resource);
    let wrote = write_value(store, board, &own, resource, None, who, stored);
    drop(own);
    wrote
}

/// Puts a value in the place of the row with this revision, for the same resource, where that is
/// still the path's last one. The value needs the provider by which the configuration writes.
fn replace_live<T: Tape>(
    store: &mut Store<T>,
    board: &mut Board,
    published: &Published,
    path: &str,
    revision: u64,
    stored: Bytes,
) -> Result<u64, PutNo>
    requires idle { board.old.proposal ≡ None }
    requires path { IsPath path.now }
    requires stored { length stored ≤ longest_value }
    ensures { ReplacesBy published.now store.old store.new path.now revision stored
        board.old board.new result }
{
    let row = match store.get(path) {
        Ok(Some(row)) => row,
        Ok(None) => return Err(refuse_replacing(published, store, path, revision, stored)),
        Err(NoMemory) => {
            drop(stored);
            return Err(PutNo::NoMemory);
        }
    };
    let resource = row.get().resource.as_str();
    if row.get().revision != revision {
        drop(row);
        return Err(refuse_replacing(published, store, path, revision, stored));
    }
    let who = configured_writer(published, resource);
    let wrote = write_value(
        store,
        board,
        &row.get().path,
        resource,
        Some(revision),
        who,
        stored,
    );
    drop(row);
    wrote
}
