//! The streams and the world in which a case's call is made.
use crate::case::{Case, Object, Plugin, TapeCalls};
use crate::lists::add;
use crate::plugin::TurningPlugin;
use crate::streams::Stepped;
use crate::world::FailingWorld;
use kr_base::{Bytes, List, MemDice, MemSink, MemSource, MemTape, NoMemory, Text, both, whole};
use kr_kms::{MemWorld, TablePlugin};
use std::alloc::Global;

/// The streams of a case's call.
#[derive(Drop)]
pub struct Streams {
    /// What the call reads.
    pub input: Stepped<MemSource>,
    /// What it writes.
    pub output: Stepped<MemSink>,
    /// Where it writes what went wrong.
    pub errors: Stepped<MemSink>,
}

/// The streams of the case.
pub fn case_streams(alloc: Global, case: &Case) -> Result<Streams, NoMemory> {
    let output = sink(alloc, case, Object::Output, case.room);
    let errors = sink(alloc, case, Object::Errors, 65536);
    let (input, said) = both(case_input(alloc, case), both(output, errors))?;
    let (output, errors) = said;
    Ok(Streams {
        input,
        output,
        errors,
    })
}

fn case_input(alloc: Global, case: &Case) -> Result<Stepped<MemSource>, NoMemory> {
    let fails = case.failing_calls(alloc, Object::Input);
    let (content, fails) = both(Bytes::copy(alloc, case.input.as_slice()), fails)?;
    Ok(Stepped {
        inner: MemSource::new(content, fails),
        step: case.step,
    })
}

fn sink(
    alloc: Global,
    case: &Case,
    object: Object,
    room: usize,
) -> Result<Stepped<MemSink>, NoMemory> {
    let fails = case.failing_calls(alloc, object)?;
    Ok(Stepped {
        inner: MemSink::new(Bytes::new(alloc), room, fails)?,
        step: case.step,
    })
}

/// The bytes that a tape has room for, beside those that it has.
const TAPE_ROOM: usize = 4_194_304;

fn add_tapes(alloc: Global, case: &Case, all: &mut List<(Text, MemTape)>) -> Result<(), NoMemory> {
    for (name, content) in &case.tapes {
        let tape = named_tape(alloc, case, name.as_str(), content);
        add(all, both(Text::copy(alloc, name.as_str()), tape))?;
    }
    Ok(())
}

fn named_tape(alloc: Global, case: &Case, name: &str, content: &[u8]) -> Result<MemTape, NoMemory> {
    let room = content.len().saturating_add(TAPE_ROOM);
    let reads = case.failing_tape_calls(alloc, TapeCalls::Reads, name);
    let writes = case.failing_tape_calls(alloc, TapeCalls::Writes, name);
    let settles = case.failing_tape_calls(alloc, TapeCalls::Settles, name);
    let (fails, settles) = both(both(reads, writes), settles)?;
    let (reads, writes) = fails;
    match Bytes::copy(alloc, content) {
        Ok(content) => MemTape::new(content, room, reads, writes, settles),
        Err(NoMemory) => {
            drop(reads);
            drop(writes);
            drop(settles);
            Err(NoMemory)
        }
    }
}

fn add_links(
    alloc: Global,
    case: &Case,
    all: &mut List<(u32, TurningPlugin)>,
) -> Result<(), NoMemory> {
    for plugin in &case.plugins {
        add(all, both(Ok(plugin.seat), turning_link(alloc, plugin)))?;
    }
    Ok(())
}

fn add_changes(
    alloc: Global,
    plugin: &Plugin,
    all: &mut List<(u64, Text)>,
) -> Result<(), NoMemory> {
    for (number, key_id) in &plugin.key_ids {
        add(all, both(Ok(*number), Text::copy(alloc, key_id.as_str())))?;
    }
    Ok(())
}

fn plugin_changes(alloc: Global, plugin: &Plugin) -> Result<List<(u64, Text)>, NoMemory> {
    let mut all = List::new(alloc);
    let done = add_changes(alloc, plugin, &mut all);
    whole(all, done)
}

fn plugin_table(alloc: Global, plugin: &Plugin) -> Result<TablePlugin, NoMemory> {
    let named = both(
        Text::copy(alloc, plugin.name.as_str()),
        Text::copy(alloc, plugin.key_id.as_str()),
    );
    let told = both(
        Text::copy(alloc, plugin.version.as_str()),
        Text::copy(alloc, plugin.healthz.as_str()),
    );
    let fails = copy_numbers(alloc, plugin.fails.as_slice());
    let (texts, fails) = both(both(named, told), fails)?;
    let (named, told) = texts;
    let (name, key_id) = named;
    let (version, healthz) = told;
    Ok(TablePlugin::new(name, key_id, plugin.salt, version, healthz, fails))
}

fn turning_link(alloc: Global, plugin: &Plugin) -> Result<TurningPlugin, NoMemory> {
    let (table, changes) = both(plugin_table(alloc, plugin), plugin_changes(alloc, plugin))?;
    Ok(TurningPlugin::new(table, changes))
}

fn copy_numbers(alloc: Global, numbers: &[u64]) -> Result<List<u64>, NoMemory> {
    Ok(List::from_vec(Vec::from_slice(alloc, numbers)?))
}

fn add_files(alloc: Global, case: &Case, all: &mut List<(Text, Bytes)>) -> Result<(), NoMemory> {
    for (name, content) in &case.files {
        let content = Bytes::copy(alloc, content.as_slice());
        add(all, both(Text::copy(alloc, name.as_str()), content))?;
    }
    Ok(())
}

fn one_dice(alloc: Global, case: &Case, seat: u32, content: &[u8]) -> Result<MemDice, NoMemory> {
    let fails = case.failing_calls(alloc, Object::Dice(seat));
    let (content, fails) = both(Bytes::copy(alloc, content), fails)?;
    Ok(MemDice::new(content, fails))
}

fn add_dice(alloc: Global, case: &Case, all: &mut List<(u32, MemDice)>) -> Result<(), NoMemory> {
    for (seat, content) in &case.dice {
        let dice = one_dice(alloc, case, *seat, content.as_slice());
        add(all, both(Ok(*seat), dice))?;
    }
    Ok(())
}

/// What a case's world holds.
#[derive(Drop)]
struct Objects {
    files: List<(Text, Bytes)>,
    tapes: List<(Text, MemTape)>,
    dice: List<(u32, MemDice)>,
    links: List<(u32, TurningPlugin)>,
}

fn add_objects(alloc: Global, case: &Case, all: &mut Objects) -> Result<(), NoMemory> {
    add_files(alloc, case, &mut all.files)?;
    add_tapes(alloc, case, &mut all.tapes)?;
    add_dice(alloc, case, &mut all.dice)?;
    add_links(alloc, case, &mut all.links)
}

fn case_objects(alloc: Global, case: &Case) -> Result<Objects, NoMemory> {
    let mut all = Objects {
        files: List::new(alloc),
        tapes: List::new(alloc),
        dice: List::new(alloc),
        links: List::new(alloc),
    };
    let done = add_objects(alloc, case, &mut all);
    whole(all, done)
}

/// The world of the case.
pub fn case_world(alloc: Global, case: &Case) -> Result<FailingWorld, NoMemory> {
    let fails = case.failing_calls(alloc, Object::Files);
    let (objects, fails) = both(case_objects(alloc, case), fails)?;
    let Objects {
        files,
        tapes,
        dice,
        links,
    } = objects;
    let world = MemWorld::new(alloc, files, tapes, dice, links, TAPE_ROOM);
    Ok(FailingWorld::new(alloc, world, fails))
}
