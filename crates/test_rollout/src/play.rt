//! What there is between two lines: configurations, and a store or a core over it.
ghost use Rattle.std.specs.Prelude.{IfOk};
ghost use Rattle.test_rollout.specs.Hands.{AreTerms};

use crate::alone::Alone;
use crate::board::{add_board, add_live};
use crate::configuration::Named;
use crate::line_text::{add_line, add_refusal};
use crate::stored::add_rows;
use crate::table::Table;
use crate::terms::{Started, Terms};
use kr_base::{List, MemTape, both};
use kr_rollout::Line;
use kr_store::Store;
use std::alloc::Global;
use std::mem;
use test_support::{Page, Wrong, parse_long, parse_numbers, split_number, two_words};

/// A store, or a core over it.
#[derive(Drop)]
pub enum Stage {
    /// Neither.
    Empty,
    /// A store with no core.
    Stored(Store<MemTape>),
    /// A core of several seats.
    Running(Table),
    /// A core of an only caller.
    Alone(Alone),
}

/// Who calls a core.
#[derive(Clone, Copy)]
pub enum Callers {
    /// All its seats.
    Several,
    /// Seat 0 alone.
    Only,
}

/// The configurations that were named, and the stage.
#[derive(Drop)]
pub struct Play {
    /// The configurations by their names.
    pub named: Named,
    /// What events would be made of.
    pub stage: Stage,
}

impl Play {
    /// No configuration, and nothing on the stage.
    pub fn new(alloc: Global) -> Play {
        Play {
            named: Named::new(alloc),
            stage: Stage::Empty,
        }
    }

    /// Ends what is on the stage.
    pub fn finish(self) {
        let Play {
            named: _named,
            stage,
        } = self;
        end_stage(stage);
    }

    /// A store in the place of what is there.
    pub fn begin(&mut self, store: Store<MemTape>) {
        self.put(Stage::Stored(store));
    }

    /// Puts this stage in the place of the one that is there, which it ends.
    fn put(&mut self, stage: Stage) {
        end_stage(self.exchange(stage));
    }

    /// Takes the store, while no core has it.
    fn take_store(&mut self) -> Result<Store<MemTape>, Wrong> {
        match self.exchange(Stage::Empty) {
            Stage::Stored(store) => Ok(store),
            other => {
                self.put(other);
                Err(Wrong::Form)
            }
        }
    }

    /// Puts this stage in the place of the one that is there, which it gives back.
    fn exchange(&mut self, stage: Stage) -> Stage {
        mem::replace(&mut self.stage, stage)
    }

    /// The store, while no core has it.
    pub fn store(&mut self) -> Result<&mut Store<MemTape>, Wrong> {
        match &mut self.stage {
            Stage::Stored(store) => Ok(store),
            _ => Err(Wrong::Form),
        }
    }

    /// The core of several seats.
    pub fn table(&mut self) -> Result<&mut Table, Wrong> {
        match &mut self.stage {
            Stage::Running(table) => Ok(table),
            _ => Err(Wrong::Form),
        }
    }

    /// `ROOM NAMES`: prints the board of the store and these settings.
    pub fn board(&mut self, alloc: Global, page: &mut Page, rest: &str) -> Result<(), Wrong> {
        let (room, names) = split_number(rest)?;
        let replicas = self.named.settings(alloc, names)?;
        add_board(alloc, page, self.store()?, &replicas, room)
    }

    /// `ROOM RELOADS NAMES`: starts a core over the store, for all its seats or for seat 0 alone.
    pub fn start(
        &mut self,
        alloc: Global,
        page: &mut Page,
        callers: Callers,
        rest: &str,
    ) -> Result<(), Wrong> {
        let terms = self.terms(alloc, rest)?;
        match self.take_store() {
            Ok(store) => {
                self.start_over_store(alloc, page, store, terms, callers);
                Ok(())
            }
            Err(why) => {
                drop(terms);
                Err(why)
            }
        }
    }

    /// What a core is started with.
    fn terms(&self, alloc: Global, words: &str) -> Result<Terms, Wrong>
        ensures { IfOk result (λ terms.
            AreTerms terms.replicas.0 terms.reloads.items terms.room) }
    {
        let (room, rest) = two_words(words)?;
        let (reloads, names) = two_words(rest)?;
        let room = parse_long(room)?;
        let reloads = parse_numbers(alloc, reloads);
        match both(self.named.replicas(alloc, names), reloads) {
            Ok((replicas, reloads)) => Terms::new(replicas, reloads, room),
            Err(why) => Err(why),
        }
    }

    /// Starts a core over the store, which takes its place, or stays there where none starts.
    fn start_over_store(
        &mut self,
        alloc: Global,
        page: &mut Page,
        store: Store<MemTape>,
        terms: Terms,
        callers: Callers,
    )
        requires { AreTerms terms.replicas.0 terms.reloads.items terms.room }
    {
        match started(alloc, store, terms, callers) {
            Ok(stage) => {
                self.put(stage);
                page.word("started");
                page.end_line();
            }
            Err((why, store)) => {
                self.begin(store);
                add_refusal(alloc, page, why);
            }
        }
    }

    /// The numbers of the live generations.
    pub fn live(&mut self, page: &mut Page) -> Result<(), Wrong> {
        add_live(page, self.table()?.live());
        Ok(())
    }

    /// Ends the core, and prints its store's rows; before them, of a core with one caller, all
    /// lines.
    pub fn close(&mut self, alloc: Global, page: &mut Page) -> Result<(), Wrong> {
        match self.exchange(Stage::Empty) {
            Stage::Running(table) => {
                self.end(alloc, page, table.close(), List::new(alloc));
                Ok(())
            }
            Stage::Alone(alone) => {
                let (store, lines) = alone.close();
                self.end(alloc, page, store, lines);
                Ok(())
            }
            other => {
                self.put(other);
                Err(Wrong::Form)
            }
        }
    }

    /// Prints what a core leaves, whose store takes its place.
    fn end(&mut self, alloc: Global, page: &mut Page, store: Store<MemTape>, lines: List<Line>) {
        add_lines(alloc, page, lines.as_slice());
        drop(lines);
        add_rows(page, &store);
        self.begin(store);
    }
}

/// Ends what is on the stage.
fn end_stage(stage: Stage) {
    match stage {
        Stage::Empty => {}
        Stage::Stored(store) => end_store(store),
        Stage::Running(table) => end_store(table.close()),
        Stage::Alone(alone) => {
            let (store, lines) = alone.close();
            drop(lines);
            end_store(store)
        }
    }
}

/// Lets a store go with its tape.
fn end_store(store: Store<MemTape>) {
    drop(store.close());
}

/// A core over the store.
fn started(alloc: Global, store: Store<MemTape>, terms: Terms, callers: Callers) -> Started<Stage>
    requires { AreTerms terms.replicas.0 terms.reloads.items terms.room }
{
    match callers {
        Callers::Several => match Table::start(alloc, store, terms) {
            Ok(table) => Ok(Stage::Running(table)),
            Err(refused) => Err(refused),
        },
        Callers::Only => match Alone::start(alloc, store, terms) {
            Ok(alone) => Ok(Stage::Alone(alone)),
            Err(refused) => Err(refused),
        },
    }
}

/// Adds the lines of a journal.
fn add_lines(alloc: Global, page: &mut Page, lines: &[Line]) {
    for line in lines {
        add_line(alloc, page, line);
        page.end_line();
    }
}
