//! The one place that calls `run`.
use crate::case::{Case, Plugin};
use crate::lists::add;
use crate::opening::{Streams, case_streams, case_world};
use crate::world::FailingWorld;
use kr_base::{Bytes, Dice, List, NoMemory, Sink, Source, Tape, Text, both, whole};
use kr_kms::{Kms, World, WorldCall};
use kr_top::run;
use std::alloc::Global;
use std::sync::Wait;
use std::thread::Threads;

/// What a call left.
#[derive(Drop)]
pub struct Left {
    /// The status that it ended with.
    pub status: u8,
    /// What stands in the output.
    pub output: Bytes,
    /// What stands in the errors.
    pub errors: Bytes,
    /// How many bytes of the input weren't taken.
    pub input: usize,
    /// The random sources of the case's seats.
    pub dice: List<DiceLeft>,
    /// The case's tapes, and then those of the names that it says aren't there.
    pub tapes: List<TapeLeft>,
    /// The links to the case's plugins.
    pub links: List<LinkLeft>,
    /// The links that were asked for, one behind another.
    pub asked: List<LinkAsked>,
    /// How often the input failed.
    pub input_faults: u64,
    /// How often the output failed.
    pub output_faults: u64,
    /// How often the errors failed.
    pub error_faults: u64,
    /// How often the files of the world failed.
    pub file_faults: u64,
}

/// A random source: how many bytes weren't drawn and how often it failed, or nothing where it isn't
/// back.
#[derive(Drop)]
pub struct DiceLeft {
    /// Whose it is.
    pub seat: u32,
    /// How many bytes are left, and how often it failed.
    pub home: Option<(usize, u64)>,
}

/// A tape: its bytes and how often it failed, or nothing where it isn't there.
#[derive(Drop)]
pub struct TapeLeft {
    /// Its name.
    pub name: Text,
    /// Its bytes, and how often it failed.
    pub home: Option<(Bytes, u64)>,
}

/// A link to a plugin: how many calls were made on it and how often it failed, or nothing where it
/// isn't back.
#[derive(Drop)]
pub struct LinkLeft {
    /// Whose it is.
    pub seat: u32,
    /// The plugin's name.
    pub name: Text,
    /// How many calls were made on it, and how often it failed.
    pub home: Option<(u64, u64)>,
}

/// A link that the world was asked for.
#[derive(Drop)]
pub struct LinkAsked {
    /// Which seat asked for it.
    pub seat: u32,
    /// The plugin's name.
    pub name: Text,
    /// The name of the program that the plugin is.
    pub program: Text,
}

/// Makes the case's call.
pub fn run_case<R: Threads + Wait + Sync>(
    rt: &R,
    alloc: Global,
    case: &Case,
) -> Result<Left, NoMemory> {
    let (mut world, mut streams) = both(case_world(alloc, case), case_streams(alloc, case))?;
    let status = run(
        rt,
        alloc,
        case.words.as_slice(),
        &mut world,
        &mut streams.input,
        &mut streams.output,
        &mut streams.errors,
    );
    let left = collect_left(alloc, case, status, &world, &streams);
    drop(world);
    drop(streams);
    left
}

/// What the call left, which ended with this status.
fn collect_left(
    alloc: Global,
    case: &Case,
    status: u8,
    world: &FailingWorld,
    streams: &Streams,
) -> Result<Left, NoMemory> {
    let (output, errors) = both(
        Bytes::copy(alloc, streams.output.inner.bytes()),
        Bytes::copy(alloc, streams.errors.inner.bytes()),
    )?;
    let mut left = Left {
        status,
        output,
        errors,
        input: streams.input.inner.bytes().len(),
        dice: List::new(alloc),
        tapes: List::new(alloc),
        links: List::new(alloc),
        asked: List::new(alloc),
        input_faults: streams.input.faults(),
        output_faults: streams.output.faults(),
        error_faults: streams.errors.faults(),
        file_faults: world.faults(),
    };
    let done = add_things_left(alloc, case, world, &mut left);
    whole(left, done)
}

/// Adds what is left of the case's random sources, tapes and links, and the links that the world
/// was asked for.
fn add_things_left(
    alloc: Global,
    case: &Case,
    world: &FailingWorld,
    left: &mut Left,
) -> Result<(), NoMemory> {
    add_dice_left(case, world, &mut left.dice)?;
    add_tapes_left(alloc, case, world, &mut left.tapes)?;
    add_links_left(alloc, case, world, &mut left.links)?;
    add_links_asked(alloc, world, &mut left.asked)
}

/// Adds what is left of each random source of the case.
fn add_dice_left(
    case: &Case,
    world: &FailingWorld,
    all: &mut List<DiceLeft>,
) -> Result<(), NoMemory> {
    for (seat, _content) in &case.dice {
        let home = match world.seat_dice(*seat) {
            Some(dice) => Some((dice.bytes().len(), dice.faults())),
            None => None,
        };
        add(all, Ok(DiceLeft { seat: *seat, home }))?;
    }
    Ok(())
}

/// Adds what is left of each tape of the case, and of those that it says aren't there.
fn add_tapes_left(
    alloc: Global,
    case: &Case,
    world: &FailingWorld,
    all: &mut List<TapeLeft>,
) -> Result<(), NoMemory> {
    for (name, _content) in &case.tapes {
        add(all, tape_left(alloc, world, name.as_str()))?;
    }
    for name in &case.absent {
        add(all, tape_left(alloc, world, name.as_str()))?;
    }
    Ok(())
}

/// The bytes of the tape of a name and how often it failed, if it is there.
fn left_tape(
    alloc: Global,
    world: &FailingWorld,
    name: &str,
) -> Result<Option<(Bytes, u64)>, NoMemory> {
    match world.named_tape(name) {
        Some(tape) => Ok(Some((Bytes::copy(alloc, tape.bytes())?, tape.faults()))),
        None => Ok(None),
    }
}

/// What is left of the tape of a name.
fn tape_left(alloc: Global, world: &FailingWorld, name: &str) -> Result<TapeLeft, NoMemory> {
    let (name, home) = both(Text::copy(alloc, name), left_tape(alloc, world, name))?;
    Ok(TapeLeft { name, home })
}

/// What is left of a link of the case.
fn link_left(alloc: Global, world: &FailingWorld, plugin: &Plugin) -> Result<LinkLeft, NoMemory> {
    let home = match world.seat_link(plugin.seat, plugin.name.as_str()) {
        Some(link) => Some((link.made(), link.faults())),
        None => None,
    };
    Ok(LinkLeft {
        seat: plugin.seat,
        name: Text::copy(alloc, plugin.name.as_str())?,
        home,
    })
}

fn add_links_left(
    alloc: Global,
    case: &Case,
    world: &FailingWorld,
    all: &mut List<LinkLeft>,
) -> Result<(), NoMemory> {
    for plugin in &case.plugins {
        add(all, link_left(alloc, world, plugin))?;
    }
    Ok(())
}

fn link_asked(
    alloc: Global,
    seat: u32,
    plugin: &str,
    program: &str,
) -> Result<LinkAsked, NoMemory> {
    let (name, program) = both(Text::copy(alloc, plugin), Text::copy(alloc, program))?;
    Ok(LinkAsked {
        seat,
        name,
        program,
    })
}

/// Adds the links that the world was asked for, in their order.
fn add_links_asked(
    alloc: Global,
    world: &FailingWorld,
    all: &mut List<LinkAsked>,
) -> Result<(), NoMemory> {
    for call in world.asked() {
        let WorldCall::Link {
            seat,
            plugin,
            program,
        } = call
        else {
            continue;
        };
        add(
            all,
            link_asked(alloc, *seat, plugin.as_str(), program.as_str()),
        )?;
    }
    Ok(())
}
