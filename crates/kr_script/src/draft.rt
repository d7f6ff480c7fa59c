//! A fleet file in the making.
ghost use Rattle.std.specs.Prelude.{◌≤◌, length};

use crate::head::{head, knows};
use crate::line_error::ScriptLineError;
use crate::script::{Part, Script, ScriptLine, ScriptNo};
use crate::script_line::{read_line, replica_number};
use crate::statement::{Keyword, Statement};
use crate::words::{first_word, is_comment, two_words};
use kr_base::{List, Text, name_ok};
use std::alloc::Global;

/// The most replicas.
const REPLICA_LIMIT: usize = 16;

/// The most workers.
const WORKER_LIMIT: usize = 64;

/// What the lines so far say.
#[derive(Drop)]
pub struct Draft {
    /// Whether the first line, `fleet 1`, was there.
    pub begun: bool,
    pub replicas: List<(Text, Text)>,
    /// The workers before the last one.
    pub workers: List<Part>,
    /// The last worker, to which lines are added.
    pub last: Option<Part>,
    pub ghost few: { length replicas.0 ≤ 16 },
}

impl Draft {
    ghost use Rattle.std.specs.Prelude.{◌≡◌, ◌∷◌, ◌++◌, OnOk, None};
    ghost use Rattle.std.specs.Option.{option_map, option_to_list};
    ghost use Rattle.kr_script.specs.Fleets.{worker_of};
    ghost use Rattle.kr_script.specs.Rows.{words_of};
    ghost use Rattle.kr_script.specs.declared.statement.Statement.TheVariants.{Replica, Worker, Line};
    ghost use Rattle.kr_script.specs.inner.Drafts.{Draft as Seen, draft_of, start, knows_replica};
    ghost use Rattle.kr_script.specs.inner.Drafts.{knows_worker, may_be_replica, replica_in};
    ghost use Rattle.kr_script.specs.inner.Drafts.{may_be_worker, worker_in, line_of_worker};
    ghost use Rattle.kr_script.specs.inner.Drafts.{said_by, workers_in, passes, draft_within};
    ghost use Rattle.kr_script.specs.inner.Reading.{Finds, Moves, Closes, Gives, fleet_at_end, row_step};

    /// Of no line so far. It takes no memory yet.
    pub fn new(alloc: Global) -> Draft
        ensures { draft_of result ≡ start }
    {
        Draft {
            begun: false,
            replicas: List::new(alloc),
            workers: List::new(alloc),
            last: None,
        }
    }

    /// Takes one line more, which may be blank or a comment.
    pub fn take_line(&mut self, alloc: Global, line: &str) -> Result<(), ScriptLineError>
        ensures { Moves (row_step (draft_of self.old) (words_of line.now)) (draft_of self.new)
            result }
    {
        let Some((word, rest)) = first_word(line) else {
            return Ok(());
        };
        if is_comment(word) {
            return Ok(());
        }
        let Some(keyword) = Keyword::read(word) else {
            return Err(ScriptLineError::Form);
        };
        let statement = self.said(alloc, keyword, rest)?;
        self.take(alloc, statement)
    }

    /// What a line says behind what was said so far.
    fn said(
        &self,
        alloc: Global,
        keyword: Keyword,
        rest: &str,
    ) -> Result<Statement, ScriptLineError>
        ensures { Finds (said_by (draft_of self.now) keyword (words_of rest.now)) result }
    {
        if !self.begun {
            return head(keyword, rest);
        }
        match keyword {
            Keyword::Fleet => Err(ScriptLineError::Form),
            Keyword::Replica => match two_words(rest) {
                Some((name, file)) => self.replica(alloc, name, file),
                None => Err(ScriptLineError::Form),
            },
            Keyword::Worker => match two_words(rest) {
                Some((name, replica)) => self.worker(alloc, name, replica),
                None => Err(ScriptLineError::Form),
            },
            _ => self.line(alloc, keyword, rest),
        }
    }

    fn line(
        &self,
        alloc: Global,
        keyword: Keyword,
        rest: &str,
    ) -> Result<Statement, ScriptLineError>
        ensures { Finds (line_of_worker (draft_of self.now) keyword (words_of rest.now)) result }
    {
        if self.last.is_none() {
            return Err(ScriptLineError::Form);
        }
        match read_line(alloc, self.replicas.as_slice(), keyword, rest) {
            Ok(line) => Ok(Statement::Line(line)),
            Err(why) => Err(why),
        }
    }

    fn replica(&self, alloc: Global, name: &str, file: &str) -> Result<Statement, ScriptLineError>
        ensures { Finds (replica_in (draft_of self.now) (name.now, file.now)) result }
    {
        if !self.may_be_replica(name, file) {
            return Err(ScriptLineError::Form);
        }
        let name = Text::copy(alloc, name)?;
        let Ok(file) = Text::copy(alloc, file) else {
            drop(name);
            return Err(ScriptLineError::NoMemory);
        };
        Ok(Statement::Replica { name, file })
    }

    fn may_be_replica(&self, name: &str, file: &str) -> bool
        ensures { result ≡ may_be_replica (draft_of self.now) name.now file.now }
    {
        self.last.is_none()
            && (name_ok(name)
                && (!self.knows_replica(name)
                    && !(self.replicas.as_slice().is_empty() && file == "-")))
    }

    fn knows_replica(&self, name: &str) -> bool
        ensures { result ≡ knows_replica self.now.replicas.0 name.now }
    {
        self.replicas
            .as_slice()
            .iter()
            .any(|replica| replica.0.as_str() == name)
    }

    fn worker(&self, alloc: Global, name: &str, replica: &str) -> Result<Statement, ScriptLineError>
        ensures { Finds (worker_in (draft_of self.now) (name.now, replica.now)) result }
    {
        if !self.may_be_worker(name) {
            return Err(ScriptLineError::Form);
        }
        match replica_number(self.replicas.as_slice(), replica) {
            Some(replica) => Ok(Statement::Worker {
                name: Text::copy(alloc, name)?,
                replica,
            }),
            None => Err(ScriptLineError::Form),
        }
    }

    fn may_be_worker(&self, name: &str) -> bool
        ensures { result ≡ may_be_worker (draft_of self.now) name.now }
    {
        name_ok(name) && (!knows(self.workers.as_slice(), name) && !self.is_last(name))
    }

    /// Whether the last worker has the name.
    fn is_last(&self, name: &str) -> bool
        ensures { result ≡ knows_worker (option_to_list (option_map worker_of self.now.last))
            name.now }
    {
        match &self.last {
            Some(worker) => worker.name.as_str() == name,
            None => false,
        }
    }

    /// Takes a statement up, unless it passes a limit.
    fn take(&mut self, alloc: Global, statement: Statement) -> Result<(), ScriptLineError>
        ensures { Moves (draft_within (draft_of self.old) statement
            (passes (draft_of self.old) statement)) (draft_of self.new) result }
    {
        match statement {
            Statement::Head => {
                self.begun = true;
                Ok(())
            }
            Statement::Replica { name, file } => self.add_replica(name, file),
            Statement::Worker { name, replica } => self.add_worker(alloc, name, replica),
            Statement::Line(line) => self.add_line(line),
        }
    }

    fn add_replica(&mut self, name: Text, file: Text) -> Result<(), ScriptLineError>
        ensures { Moves (draft_within (draft_of self.old) (Replica name file)
            (passes (draft_of self.old) (Replica name file))) (draft_of self.new) result }
    {
        if self.replicas.as_slice().len() >= REPLICA_LIMIT {
            drop(name);
            drop(file);
            return Err(ScriptLineError::Replicas);
        }
        match self.replicas.push((name, file)) {
            Ok(()) => Ok(()),
            Err(refused) => {
                drop(refused);
                Err(ScriptLineError::NoMemory)
            }
        }
    }

    fn add_worker(&mut self, alloc: Global, name: Text, replica: u32) -> Result<(), ScriptLineError>
        ensures { Moves (draft_within (draft_of self.old) (Worker name replica)
            (passes (draft_of self.old) (Worker name replica))) (draft_of self.new) result }
    {
        self.close_last()?;
        if self.workers.as_slice().len() >= WORKER_LIMIT {
            drop(name);
            return Err(ScriptLineError::Workers);
        }
        self.last = Some(Part {
            name,
            replica,
            lines: List::new(alloc),
        });
        Ok(())
    }

    /// Puts the last worker behind the others.
    fn close_last(&mut self) -> Result<(), ScriptLineError>
        ensures { Closes (draft_of self.old) (draft_of self.new) result }
    {
        match self.last.take() {
            Some(worker) => match self.workers.push(worker) {
                Ok(()) => Ok(()),
                Err(refused) => {
                    drop(refused);
                    Err(ScriptLineError::NoMemory)
                }
            },
            None => Ok(()),
        }
    }

    fn add_line(&mut self, line: ScriptLine) -> Result<(), ScriptLineError>
        ensures { Moves (draft_within (draft_of self.old) (Line line)
            (passes (draft_of self.old) (Line line))) (draft_of self.new) result }
    {
        if line.is_long() {
            drop(line);
            return Err(ScriptLineError::TooLarge);
        }
        match &mut self.last {
            Some(worker) => match worker.lines.push(line) {
                Ok(()) => Ok(()),
                Err(refused) => {
                    drop(refused);
                    Err(ScriptLineError::NoMemory)
                }
            },
            None => {
                drop(line);
                Ok(())
            }
        }
    }

    /// The whole script, where the file has so many lines, and one.
    pub fn finish(mut self, line: u64) -> Result<Script, ScriptNo>
        ensures { Gives (fleet_at_end line (draft_of self)) result }
    {
        if self.last.is_none() {
            drop(self);
            return Err(ScriptNo::Breach { line });
        }
        match self.close_last() {
            Ok(()) => {}
            Err(_) => {
                drop(self);
                return Err(ScriptNo::NoMemory);
            }
        }
        let Draft {
            begun: _,
            replicas,
            workers,
            last,
        } = self;
        drop(last);
        Ok(Script { replicas, workers })
    }
}
