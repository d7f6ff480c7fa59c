//! A rollout without its journal: the store, the board, the generations and what the seats hold.
ghost use Rattle.std.specs.Prelude.{◌≡◌, ◌<◌, length};
ghost use Rattle.kr_rollout.specs.declared.event.Event.TheVariants as event;
ghost use Rattle.kr_rollout.specs.Callers.{gave_of};
ghost use Rattle.kr_rollout.specs.Openings.{board};
ghost use Rattle.kr_rollout.specs.inner.Rollouts.{line_now, MayServe, Serves};
ghost use Rattle.kr_rollout.specs.inner.Telling.{found_as};

use crate::answer::Answer;
use crate::event::Event;
use crate::line::{Did, Gave, Line};
use crate::published::published_generation;
use kr_base::{List, NoMemory, Shared, Tape, Text};
use kr_judge::Board;
use kr_opening::Generation;
use kr_provider::Published;
use kr_store::{Row, Store};
use std::alloc::Global;
use std::marker::Model;

/// What the core keeps beside its journal.
#[derive(Drop)]
pub(crate) struct Rollout<T: Tape> {
    pub store: Store<T>,
    pub board: Board,
    /// There is room for each that seats may bring.
    pub generations: List<Generation>,
    /// For each replica the number of its current generation.
    pub current: Vec<Option<u32>>,
    /// For each seat the number of the generation that it holds.
    pub held: Vec<Option<u32>>,
    /// How many rows the store had at the start.
    pub first_rows: u64,
    pub replicas: List<Option<Shared<Published>>>,
    pub names: List<Text>,
    pub reloads: Vec<u32>,
    /// How often the store's tape had failed at the start.
    pub first_faults: u64,
    /// Whether a write had failed, at the start, since the last one that was done.
    pub first_torn: bool,
    pub alloc: Global,
}

impl<T: Tape> Model for Rollout<T> {
    ghost use Rattle.std.specs.Prelude.{◌+◌, ◌≤◌, length, sum};
    ghost use Rattle.kr_rollout.specs.inner.Rollouts.{RolloutState, opening_of, state_with, IsRollout};

    ghost Value = { RolloutState };

    ghost view = { λ r. record {
      opening = opening_of r.store r.first_rows r.replicas.0 r.names.0 r.reloads.items
          r.first_faults r.first_torn;
      state = state_with r.store r.board r.generations.0 r.current.items r.held.items;
      torn = r.store.torn;
    } };

    ghost invariant = { λ r. IsRollout
        (opening_of r.store r.first_rows r.replicas.0 r.names.0 r.reloads.items r.first_faults
        r.first_torn)
        (state_with r.store r.board r.generations.0 r.current.items r.held.items) r.board
        × (r.first_rows ≤ length r.store.rows)
        × (length r.replicas.0 + sum r.reloads.items
        ≤ length r.generations.0 + r.generations.1) };
}

impl<T: Tape> Rollout<T> {
    /// Serves an event of a seat.
    pub fn serve(&mut self, seat: u32, event: Event) -> (Answer, Line)
        requires seat_in { seat < length self.old.opening.reloads }
        requires may { MayServe self.old seat event }
        ensures { Serves self.old seat event result.0 result.1 self.new }
    {
        match event {
            Event::Adopt { replica } => self.adopt(seat, replica),
            Event::Fetch { path } => self.fetch(seat, path),
            Event::After { path } => self.find_next(seat, path),
            Event::Put {
                path,
                resource,
                plain,
                stored,
            } => self.put(seat, path, resource, plain, stored),
            Event::Delete { path } => self.delete(seat, path),
            Event::Replace {
                path,
                revision,
                stored,
            } => self.replace(seat, path, revision, stored),
            Event::LetGo => self.let_go(seat),
            Event::Reload {
                replica,
                published,
                expect,
            } => self.reload(seat, replica, published, expect),
            Event::Join { replica, published } => self.join(seat, replica, published),
            Event::Leave { replica } => self.leave(seat, replica),
        }
    }

    /// Lends the board.
    pub fn board(&self) -> &Board
        ensures { result.now ≡ board self.now.opening self.now.state }
    {
        &self.board
    }

    /// Gives the store up.
    pub fn close(self) -> Store<T>
        ensures rows { result.rows ≡ self.state.rows }
        ensures count { result.count ≡ self.state.count }
        ensures format { result.format ≡ self.opening.format }
        ensures limit { result.limit ≡ self.opening.limit }
        ensures torn { result.torn ≡ self.torn }
    {
        self.store
    }

    /// The line of an event that is answered now.
    pub fn line(&self, seat: u32, did: Did, gave: Gave) -> Line
        requires { seat < length self.now.opening.reloads }
        ensures { result ≡ line_now self.now.state seat did gave }
    {
        Line {
            seat,
            did,
            held: self.held[seat as usize],
            gave,
            faults: self.store.faults(),
        }
    }

    /// Adopts the replica's current generation. The configuration is shared before anything
    /// changes.
    fn adopt(&mut self, seat: u32, replica: u32) -> (Answer, Line)
        requires seat_in { seat < length self.old.opening.reloads }
        requires may { MayServe self.old seat (event.Adopt replica) }
        ensures { Serves self.old seat (event.Adopt replica) result.0 result.1 self.new }
    {
        let did = Did::Adopt { replica };
        let Some(generation) = self.current[replica as usize] else {
            let line = self.line(seat, did, Gave::Gone { replica });
            return (Answer::Gone { replica }, line);
        };
        match published_generation(self.generations.as_slice(), generation).share() {
            Ok(published) => {
                let line = self.line(seat, did, Gave::Adopted { generation });
                self.board.hold(generation);
                self.held[seat as usize] = Some(generation);
                return (
                    Answer::Adopted {
                        generation,
                        published,
                    },
                    line,
                );
            }
            Err(NoMemory) => {
                let line = self.line(seat, did, Gave::Nothing);
                return (Answer::NoMemory, line);
            }
        }
    }

    /// Finds the path's live row.
    fn fetch(&mut self, seat: u32, path: Text) -> (Answer, Line)
        requires seat_in { seat < length self.old.opening.reloads }
        requires may { MayServe self.old seat (event.Fetch path) }
        ensures { Serves self.old seat (event.Fetch path) result.0 result.1 self.new }
    {
        let found = self.store.get(path.as_str());
        self.tell_found(seat, Did::Fetch { path }, found)
    }

    /// Finds the live row with the least path above this one.
    fn find_next(&mut self, seat: u32, path: Text) -> (Answer, Line)
        requires seat_in { seat < length self.old.opening.reloads }
        requires may { MayServe self.old seat (event.After path) }
        ensures { Serves self.old seat (event.After path) result.0 result.1 self.new }
    {
        let found = self.store.successor(path.as_str());
        self.tell_found(seat, Did::After { path }, found)
    }

    /// Tells what a search for a row came to.
    fn tell_found(
        &self,
        seat: u32,
        did: Did,
        found: Result<Option<Shared<Row>>, NoMemory>,
    ) -> (Answer, Line)
        requires { seat < length self.now.opening.reloads }
        ensures answer { result.0 ≡ found_as found }
        ensures line { result.1 ≡ line_now self.now.state seat did (gave_of (found_as found)) }
    {
        match found {
            Ok(Some(row)) => {
                let revision = row.get().revision;
                let line = self.line(seat, did, Gave::Found { revision });
                (Answer::Found(row), line)
            }
            Ok(None) => {
                let line = self.line(seat, did, Gave::Absent);
                (Answer::Absent, line)
            }
            Err(NoMemory) => {
                let line = self.line(seat, did, Gave::Nothing);
                (Answer::NoMemory, line)
            }
        }
    }

    /// Lets the held generation go. It takes no memory.
    fn let_go(&mut self, seat: u32) -> (Answer, Line)
        requires seat_in { seat < length self.old.opening.reloads }
        requires may { MayServe self.old seat event.LetGo }
        ensures { Serves self.old seat event.LetGo result.0 result.1 self.new }
    {
        let line = self.line(seat, Did::LetGo, Gave::Released);
        let Some(generation) = self.held[seat as usize] else {
            unreachable!()
        };
        self.board.release(generation);
        self.held[seat as usize] = None;
        (Answer::Released, line)
    }
}
