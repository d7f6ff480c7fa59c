//! How a command ends: done, refused by what it saw, or cut short.

use crate::report::RewriteCounts;
use kr_base::{Bytes, Text};
use kr_config::ConfigNo;
use kr_judge::Verdict;
use kr_kms::Field;
use kr_provider::ValueNo;

/// An object of the outside, as a fault's line names it.
#[derive(Drop)]
pub enum Object {
    /// The input.
    Input,
    /// The output.
    Output,
    /// The files of the world.
    Files,
    /// The tape of the store.
    Store,
    /// The tape of the store that a migration writes.
    Target,
    /// The random source of a seat.
    Dice(u32),
    /// The plugin of a name.
    Plugin(Text),
}

/// Why the words stop before a step.
#[derive(Clone, Copy)]
pub enum BadWords {
    /// They mean no command, or a migration of a store to itself.
    Usage,
    /// They mean a command with more than 16 replicas.
    Replicas,
    /// They mean a command whose size is above 10,000.
    Size,
    /// They mean a command whose pages have more than 10,000 items.
    Page,
}

/// A limit, of bytes where nothing else is said.
#[derive(Clone, Copy)]
pub enum Limit {
    /// That of a configuration file: 1,048,576.
    Config,
    /// That of an object's data: 2,097,152.
    Data,
    /// That of a stored value: 2,162,688.
    Value,
    /// That of a store's file: 67,108,864.
    Store,
    /// That of a fleet file: 67,108,864.
    Script,
    /// How many replicas a fleet may have: 16.
    Replicas,
    /// How many workers: 64.
    Workers,
    /// How many lines their journal may need: 4,000,000.
    Journal,
}

/// What the bytes of a store's file break first; the place is that of the row that breaks it.
#[derive(Clone, Copy)]
pub enum Breach {
    /// The first bytes name no format.
    Magic,
    /// The file ends inside a row.
    Torn(u64),
    /// A row breaks a rule.
    BadRow(u64),
    /// A row has another revision than its own.
    Order(u64),
}

/// Why a step of a command refuses what it saw.
#[derive(Drop)]
pub enum Refusal {
    /// There is no file of this name, which stands here as it is printed.
    Absent(Text),
    /// The configuration breaks a rule or passes a limit.
    Configuration(ConfigNo),
    /// The configuration names this plugin, for which the words give no program.
    NoPlugin(Text),
    /// The plugin of this name is unhealthy by this field, which says this text, as it is printed.
    Unhealthy(Text, Field, Text),
    /// More bytes than this limit.
    Limit(Limit),
    /// The data can't be sealed or the value can't be read.
    Value(ValueNo),
    /// The same of a value that is inspected, with the place of the breach in its body.
    Placed(ValueNo, u64),
    /// The file of a store is none.
    Broken(Breach),
    /// The store has no value at this path.
    NoPath(Text),
    /// The store that a migration writes has bytes already, so many.
    NotEmpty(u64),
    /// The store that is to be migrated has the second format.
    NotOld,
    /// No provider of the first replica reads what is stored at this path.
    Stray(Text),
    /// What is stored at this path was sealed with another secret of the same name.
    OtherSecret(Text),
    /// The configuration of this replica is refused beside those before it.
    Unfit(u32, Verdict),
    /// At a class two configurations have one prefix with two secrets; the class and the provider
    /// of the first of them stand here as they are printed.
    Clash(Text),
    /// This line of the fleet file, from 1, can't stand there.
    Script(u64),
}

/// Why a command wasn't done.
#[derive(Drop)]
pub enum Stop {
    /// Its words aren't those of a command, or pass a limit.
    Words(BadWords),
    /// A step refused.
    Refused(Refusal),
    /// An object failed; its count of faults after that.
    Fault(Object, u64),
    /// There was no memory.
    NoMemory,
}

/// What a command that is done says beside its output.
#[derive(Clone, Copy)]
pub enum Done {
    /// Nothing.
    Silent,
    /// The writer of the resource would write the value so today.
    Fresh,
    /// The value is of another provider than the writer.
    Stale,
    /// The verdict isn't `pass`, rows were left as they are, or values of a store aren't read.
    Blocked,
}

/// What a command makes: the bytes of its output, and what is said beside them.
#[derive(Drop)]
pub struct Outcome {
    /// The bytes of its output.
    pub bytes: Bytes,
    /// What is said beside them.
    pub done: Done,
}

/// How a command ended.
#[derive(Drop)]
pub struct Ended {
    /// What it makes, or why it stopped.
    pub made: Result<Outcome, Stop>,
    /// What it reports where it stopped.
    pub said: Option<RewriteCounts>,
}
