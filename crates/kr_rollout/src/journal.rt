//! The core: a rollout and its journal.
ghost use Rattle.std.specs.Prelude.{◌≡◌, ◌<◌, ◌≤◌, ◌↔◌, IsTrue, length, map, sum, IfErr};
ghost use Rattle.kr_rollout.specs.Callers.{MayAsk};
ghost use Rattle.kr_rollout.specs.Cores.{Applies, AllMay, AllApply};
ghost use Rattle.kr_rollout.specs.Entries.{seat_of};
ghost use Rattle.kr_rollout.specs.Histories.{IsLegal, ends_torn, state_of};
ghost use Rattle.kr_base.specs.Lines.{of_seat};
ghost use Rattle.kr_rollout.specs.Openings.{board, opening_by, AreAmong};
ghost use Rattle.kr_opening.specs.Replicas.{IsFirstIn};
ghost use Rattle.kr_rollout.specs.CoreStarts.{Starts};

use crate::answer::Answer;
use crate::event::Event;
use crate::line::Line;
use crate::rollout::Rollout;
use kr_base::{List, NoMemory, Shared, Tape, Text};
use kr_judge::Board;
use kr_opening::StartNo;
use kr_provider::Published;
use kr_store::Store;
use std::alloc::Global;
use std::marker::Model;

/// A rollout with its journal, of which each line is one event of one seat. Contracts see the
/// journal as a history: its lines with the rows and configurations that they name.
#[derive(Drop)]
pub struct Core<T: Tape> {
    rollout: Rollout<T>,
    journal: List<Line>,
    room: u64,
}

impl<T: Tape> Model for Core<T> {
    ghost use Rattle.kr_rollout.specs.Cores.{CoreState};
    ghost use Rattle.kr_rollout.specs.inner.Rollouts.{entries_by, IsCore};

    ghost Value = { CoreState };

    ghost view = { λ core. record {
      opening = core.rollout.opening;
      history = entries_by core.rollout.state core.journal.0;
      room = core.room;
    } };

    ghost invariant = { λ core. IsCore core.rollout.opening core.rollout.state
        core.rollout.torn core.journal.0 core.journal.1 core.room };
}

impl<T: Tape> Core<T> {
    /// Starts a rollout of 1 to 16 replicas, of which the first is in, with 1 to 64 seats. The
    /// journal has room for so many lines, and seat i may bring so many configurations as `reloads`
    /// has at i. A refusal gives the store back.
    pub fn start(
        alloc: Global,
        store: Store<T>,
        replicas: List<Option<Shared<Published>>>,
        names: List<Text>,
        seats: u32,
        room: u64,
        reloads: &[u32],
    ) -> Result<Core<T>, (StartNo, Store<T>)>
        requires first { IsFirstIn replicas.0 }
        requires few { length replicas.0 ≤ 16 }
        requires seats { (1 ≤ seats) × (seats ≤ 64) × (length reloads.now ≡ seats) }
        requires room { (sum reloads.now ≤ room) × (room ≤ 4000000) }
        requires names { AreAmong names.0 replicas.0 }
        ensures starts { Starts (opening_by store replicas.0 names.0 reloads.now) room result }
        ensures back { IfErr result (λ refused. refused.1 ≡ store) }
    {
        let mut journal = List::new(alloc);
        match journal.reserve(room as usize) {
            Ok(()) => {}
            Err(NoMemory) => {
                drop((journal, replicas, names));
                return Err((StartNo::NoMemory, store));
            }
        }
        match Rollout::start(alloc, store, replicas, names, seats, reloads) {
            Ok(rollout) => Ok(Core {
                rollout,
                journal,
                room,
            }),
            Err(refused) => {
                drop(journal);
                Err(refused)
            }
        }
    }

    /// Makes one event of a seat. It appends exactly one line.
    pub fn apply(&mut self, seat: u32, event: Event) -> Answer
        requires room { length self.old.history < self.old.room }
        requires may { MayAsk self.old.opening seat (of_seat seat_of seat self.old.history) event }
        ensures applied { Applies self.old seat event result self.new }
        ensures legal { IsLegal self.new.opening self.new.history }
    {
        let (answer, line) = self.rollout.serve(seat, event);
        self.journal.push_in_room(line);
        answer
    }

    /// Makes the events of seats, one after the other.
    pub fn apply_all(&mut self, events: Vec<(u32, Event)>)
        requires may { AllMay self.old events.items }
        ensures applied { AllApply self.old events.items self.new }
    {
        for asked in events {
            let (seat, event) = asked;
            forget(self.apply(seat, event));
        }
    }

    /// The journal's lines so far.
    #[tactic(auto, using(crate::proofs::Appending::lines_are))]
    pub fn journal(&self) -> &[Line]
        ensures { result.now ≡ map (λ entry. entry.line) self.now.history }
    {
        self.journal.as_slice()
    }

    /// Whether the journal is full, so that no event can be made any more.
    pub fn is_full(&self) -> bool
        ensures { IsTrue result ↔ (self.now.room ≤ length self.now.history) }
    {
        self.journal.as_slice().len() as u64 >= self.room
    }

    /// Lends the board on which new configurations are judged.
    pub fn board(&self) -> &Board
        ensures { result.now ≡ board self.now.opening (state_of self.now.opening self.now.history) }
    {
        self.rollout.board()
    }

    /// What is known of each core: its history is legal.
    pub fn known(&self)
        ensures { IsLegal self.now.opening self.now.history }
    {
        let _ = &self.room;
    }

    /// Gives the store and the journal up.
    #[tactic(auto, using(crate::proofs::Appending::lines_are))]
    pub fn close(self) -> (Store<T>, List<Line>)
        ensures rows { result.0.rows ≡ (state_of self.opening self.history).rows }
        ensures count { result.0.count ≡ (state_of self.opening self.history).count }
        ensures format { result.0.format ≡ self.opening.format }
        ensures limit { result.0.limit ≡ self.opening.limit }
        ensures torn { result.0.torn ≡ ends_torn self.opening self.history }
        ensures lines { result.1.0 ≡ map (λ entry. entry.line) self.history }
    {
        let Core {
            rollout,
            journal,
            room: _,
        } = self;
        (rollout.close(), journal)
    }
}

/// Lets an answer go.
fn forget(_answer: Answer) {}
