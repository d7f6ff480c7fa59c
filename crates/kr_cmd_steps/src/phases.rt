//! The phases that commands are made of.
ghost use Rattle.std.specs.Prelude.{◌≡◌, ◌<◌, ◌≤◌, ℕ, List, Ok, Err, length, IfOk, IfErr, OnErr};
ghost use Rattle.kr_base.specs.Faults.{counted, tells_fault};
ghost use Rattle.kr_kms.specs.Outside.{KeepsFiles, KeepsObjects, file_faults};
ghost use Rattle.kr_kms.specs.declared.world.WorldCall.{WorldCall};
ghost use Rattle.kr_cmd_steps.specs.Environment.{Environment, with_world};
ghost use Rattle.kr_cmd_steps.specs.Phases.{configuration, input_of, input_limit};
ghost use Rattle.kr_cmd_steps.specs.Ran.{Reports, Writes};
ghost use Rattle.kr_cmd_messages.specs.Receipts.{receipt};
ghost use Rattle.kr_cmd_messages.specs.declared.refusal.Refusal.{Refusal};
ghost use Rattle.kr_cmd_steps.specs.inner.Counting.{is_fault};
ghost use Rattle.kr_cmd_steps.specs.inner.Lent.{with_told_input};
ghost use Rattle.kr_cmd_steps.specs.inner.Phases.{Does, DiceLoan, DiceReturn, LinkLoan, LinkReturn, AskedFor, Configures, ReadsRows, TakesInput, LendsNothing, rows_in, shown_as};
ghost use Rattle.kr_cmd_steps.specs.inner.Reporting.{said_text};

use kr_base::{
    Bytes, CONFIG_LIMIT, DATA_LIMIT, Failed, ReadNo, Sink, Source, VALUE_LIMIT, read_all, write_all,
};
use kr_cmd_messages::{
    Direction, Done, Ended, Limit, Object, Outcome, Refusal, RewriteCounts, Stop, visible,
    write_report,
};
use kr_config::{ConfigErr, Settings, read};
use kr_kms::{FileNo, World};
use std::alloc::Global;

/// The configuration in a file.
pub fn configure<W: World>(alloc: Global, world: &mut W, name: &str) -> Result<Settings, Stop>
    ensures does { (a : Environment) → Does (configuration name.now)
        (with_world (W.told world.old) a)
        (with_world (W.told world.new) a) (rows_in result) }
    ensures links { (W.told world.new).links ≡ (W.told world.old).links }
{
    load_settings(alloc, world, name)
}

/// Loads a configuration. What is printed where there is no such file is made first, so that this
/// refusal needs no memory.
pub fn load_settings<W: World>(alloc: Global, world: &mut W, name: &str) -> Result<Settings, Stop>
    ensures settings { Configures (W.told world.old) (W.told world.new) name.now result }
    ensures once { (W.told world.new).faults.loads
        ≡ counted (tells_fault is_fault result) (W.told world.old).faults.loads }
    ensures kind { (W.told world.new).faults
        ≡ record (W.told world.old).faults { loads = (W.told world.new).faults.loads } }
    ensures asked { AskedFor (W.told world.old).asked (W.told world.new).asked
        (WorldCall.File name.now) result }
    ensures files { KeepsFiles (W.told world.old) (W.told world.new) }
    ensures objects { KeepsObjects (W.told world.old) (W.told world.new) }
{
    let absent = match visible(alloc, name) {
        Ok(text) => text,
        Err(_) => return Err(Stop::NoMemory),
    };
    let file: Bytes = match world.load(alloc, name, CONFIG_LIMIT) {
        Ok(file) => file,
        Err(FileNo::Absent) => return Err(Stop::Refused(Refusal::Absent(absent))),
        Err(FileNo::TooLong) => {
            drop(absent);
            return Err(Stop::Refused(Refusal::Limit(Limit::Config)));
        }
        Err(FileNo::Failed) => {
            drop(absent);
            return Err(Stop::Fault(Object::Files, world.faults()));
        }
        Err(FileNo::NoMemory) => {
            drop(absent);
            return Err(Stop::NoMemory);
        }
    };
    drop(absent);
    let settings = read_settings(alloc, file.as_slice());
    drop(file);
    settings
}

/// The configuration by its bytes.
fn read_settings(alloc: Global, bytes: &[u8]) -> Result<Settings, Stop>
    ensures { ReadsRows bytes.now result }
{
    match read(alloc, bytes) {
        Ok(settings) => Ok(settings),
        Err(ConfigErr::No(why)) => Err(Stop::Refused(Refusal::Configuration(why))),
        Err(ConfigErr::NoMemory) => Err(Stop::NoMemory),
    }
}

/// Takes the input: an object's data, or a stored value.
pub fn take_input<I: Source>(
    alloc: Global,
    input: &mut I,
    direction: Direction,
) -> Result<Bytes, Stop>
    ensures does { (a : Environment) → Does (input_of direction)
        (with_told_input (I.left input.old) (I.count input.old) a)
        (with_told_input (I.left input.new) (I.count input.new) a) result }
    ensures fits { IfOk result (λ bytes. length bytes ≤ input_limit direction) }
    ensures once { I.count input.new ≡ counted (tells_fault is_fault result) (I.count input.old) }
{
    match direction {
        Direction::Encrypt => take(alloc, input, DATA_LIMIT, Limit::Data),
        Direction::Decrypt => take(alloc, input, VALUE_LIMIT, Limit::Value),
    }
}

/// Takes the whole input, of at most `limit` bytes; `which` limit is passed where there are more.
fn take<I: Source>(alloc: Global, input: &mut I, limit: u64, which: Limit) -> Result<Bytes, Stop>
    ensures taken { TakesInput limit (Refusal.Limit which) (I.left input.old) (I.left input.new)
        (I.count input.old) (I.count input.new) result }
    ensures fits { IfOk result (λ bytes. length bytes ≤ limit) }
    ensures later { I.count input.old ≤ I.count input.new }
    ensures once { I.count input.new ≡ counted (tells_fault is_fault result) (I.count input.old) }
{
    match read_all(alloc, input, limit) {
        Ok(bytes) => Ok(bytes),
        Err(ReadNo::TooLong) => Err(Stop::Refused(Refusal::Limit(which))),
        Err(ReadNo::Failed) => Err(Stop::Fault(Object::Input, input.faults())),
        Err(ReadNo::NoMemory) => Err(Stop::NoMemory),
    }
}

/// Asks the world for the random source of the seat.
pub fn open_dice<W: World>(alloc: Global, world: &mut W, seat: u32) -> Result<W::Rand, Stop>
    ensures lent { IfOk result (λ dice. DiceLoan seat (W.told world.old) (W.told world.new)
        (W.Rand.left dice) (W.Rand.count dice)) }
    ensures objects { OnErr result (KeepsObjects (W.told world.old) (W.told world.new)) }
    ensures why { IfErr result (LendsNothing (W.told world.old).faults.dice
        (W.told world.new).faults.dice (file_faults (W.told world.new))) }
    ensures once { (W.told world.new).faults.dice
        ≡ counted (tells_fault is_fault result) (W.told world.old).faults.dice }
    ensures kind { (W.told world.new).faults
        ≡ record (W.told world.old).faults { dice = (W.told world.new).faults.dice } }
    ensures asked { AskedFor (W.told world.old).asked (W.told world.new).asked
        (WorldCall.RandomSource seat) result }
    ensures files { KeepsFiles (W.told world.old) (W.told world.new) }
{
    match world.dice(alloc, seat) {
        Ok(dice) => Ok(dice),
        Err(FileNo::Failed) => Err(Stop::Fault(Object::Files, world.faults())),
        Err(FileNo::NoMemory) => Err(Stop::NoMemory),
        Err(FileNo::Absent) => unreachable!(),
        Err(FileNo::TooLong) => unreachable!(),
    }
}

/// Gives the random source of the seat back.
pub fn close_dice<W: World>(world: &mut W, seat: u32, dice: W::Rand)
    requires out { 0 < (W.told world.old).dice.out seat }
    ensures { DiceReturn seat (W.told world.old) (W.told world.new) (W.Rand.left dice)
        (W.Rand.count dice) }
{
    world.back_dice(seat, dice);
}

/// Asks the world for a link of the seat to the plugin, which the program is.
pub fn open_link<W: World>(
    alloc: Global,
    world: &mut W,
    seat: u32,
    plugin: &str,
    program: &str,
) -> Result<W::Link, Stop>
    ensures lent { IfOk result (λ link. LinkLoan seat plugin.now program.now (W.told world.old)
        (W.told world.new) (W.Link.link link)) }
    ensures given { IfOk result (W.lent seat) }
    ensures objects { OnErr result (KeepsObjects (W.told world.old) (W.told world.new)) }
    ensures why { IfErr result (LendsNothing (W.told world.old).faults.links
        (W.told world.new).faults.links (file_faults (W.told world.new))) }
    ensures once { (W.told world.new).faults.links
        ≡ counted (tells_fault is_fault result) (W.told world.old).faults.links }
    ensures kind { (W.told world.new).faults
        ≡ record (W.told world.old).faults { links = (W.told world.new).faults.links } }
    ensures asked { AskedFor (W.told world.old).asked (W.told world.new).asked
        (WorldCall.Link seat plugin.now program.now) result }
    ensures files { KeepsFiles (W.told world.old) (W.told world.new) }
{
    match world.link(alloc, seat, plugin, program) {
        Ok(link) => Ok(link),
        Err(FileNo::Failed) => Err(Stop::Fault(Object::Files, world.faults())),
        Err(FileNo::NoMemory) => Err(Stop::NoMemory),
        Err(FileNo::Absent) => unreachable!(),
        Err(FileNo::TooLong) => unreachable!(),
    }
}

/// Gives a link of the seat back.
pub fn close_link<W: World>(world: &mut W, seat: u32, link: W::Link)
    requires out { 0 < (W.told world.old).links.out (seat, (W.Link.link link).name) }
    ensures back { LinkReturn seat (W.told world.old) (W.told world.new) (W.Link.link link) }
    ensures taken { W.took seat link }
{
    world.back_link(seat, link);
}

/// What a command makes of a text.
pub fn show(text: Result<Bytes, Stop>) -> Result<Outcome, Stop>
    ensures { result ≡ shown_as text }
{
    match text {
        Ok(bytes) => Ok(Outcome {
            bytes,
            done: Done::Silent,
        }),
        Err(stop) => Err(stop),
    }
}

/// Writes what a command made to the output, or what it reports where it stopped.
pub fn write_output<O: Sink>(output: &mut O, ended: Ended) -> Result<Done, Stop>
    ensures written { Writes (said_text ended.said) (receipt (O.held output.old) (O.held output.new)
        (O.count output.old) (O.count output.new)) ended.made result }
    ensures later { O.count output.old ≤ O.count output.new }
{
    let Ended { made, said } = ended;
    match made {
        Ok(made) => write_value(output, made),
        Err(stop) => {
            write_said(output, said);
            Err(stop)
        }
    }
}

/// Writes what a command made.
fn write_value<O: Sink>(output: &mut O, made: Outcome) -> Result<Done, Stop>
    ensures written { (said : List ℕ) → Writes said (receipt (O.held output.old) (O.held output.new)
        (O.count output.old) (O.count output.new)) (Ok made) result }
    ensures later { O.count output.old ≤ O.count output.new }
{
    let Outcome { bytes, done } = made;
    let written = write_all(output, bytes.as_slice());
    drop(bytes);
    match written {
        Ok(()) => Ok(done),
        Err(Failed) => Err(Stop::Fault(Object::Output, output.faults())),
    }
}

/// Writes the report of a command that stopped, where there is one. Where it can't be written the
/// stop is told all the same.
fn write_said<O: Sink>(output: &mut O, said: Option<RewriteCounts>)
    ensures said { Reports (said_text said) (receipt (O.held output.old) (O.held output.new)
        (O.count output.old) (O.count output.new)) }
    ensures later { O.count output.old ≤ O.count output.new }
{
    let Some(counts) = said else {
        return;
    };
    let _told = write_report(output, counts);
}
