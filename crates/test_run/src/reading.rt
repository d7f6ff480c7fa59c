//! The lines of a case: a key, and behind a space what it says.
use crate::case::{Case, Object, Plugin, TapeCalls};
use crate::spelling::{add_bytes, spelled_bytes};
use kr_base::both;
use std::alloc::{AllocError, Global};
use test_support::{Wrong, first_word, parse_long, parse_number, two_words};

/// Adds what the line says to the case. A line that is empty or begins with `#` says nothing.
pub fn add_line(alloc: Global, current: &mut Option<Case>, line: &str) -> Result<(), Wrong> {
    if line.is_empty() || line.starts_with('#') {
        return Ok(());
    }
    let Some(case) = current else {
        return Err(Wrong::Form);
    };
    let (key, rest) = first_word(line);
    match key {
        "words" => add_words(alloc, case, rest),
        "file" => add_file(alloc, case, rest),
        "|" => add_file_line(alloc, case, rest),
        "input" => add_bytes(alloc, &mut case.input, rest),
        "dice" => add_dice(alloc, case, rest),
        "tape" => add_tape(alloc, case, rest),
        "absent" => add_absent(alloc, case, rest),
        "plugin" => add_plugin(alloc, case, rest),
        "says" => set_status(alloc, case, rest),
        "key" => add_key_id(alloc, case, rest),
        "fails" => add_fails(alloc, case, rest),
        "room" => {
            case.room = parse_size(rest)?;
            Ok(())
        }
        "step" => {
            case.step = parse_size(rest)?;
            Ok(())
        }
        _ => Err(Wrong::Form),
    }
}

fn spelled_text(alloc: Global, spelled: &str) -> Result<String, Wrong> {
    match String::from_utf8(spelled_bytes(alloc, spelled)?) {
        Ok(text) => Ok(text),
        Err(refused) => {
            drop(refused);
            Err(Wrong::Form)
        }
    }
}

/// A number of bytes, at most 2^32 - 1.
fn parse_size(text: &str) -> Result<usize, Wrong> {
    Ok(parse_number(text)? as usize)
}

/// The words of the call, parted by single spaces.
fn add_words(alloc: Global, case: &mut Case, rest: &str) -> Result<(), Wrong> {
    for word in rest.split(' ') {
        let word = spelled_text(alloc, word)?;
        case.words.push(word).map_err(AllocError::from)?;
    }
    Ok(())
}

/// A file's name and content.
fn add_file(alloc: Global, case: &mut Case, rest: &str) -> Result<(), Wrong> {
    let (name, content) = first_word(rest);
    let file = both(spelled_text(alloc, name), spelled_bytes(alloc, content))?;
    case.files.push(file).map_err(AllocError::from)?;
    Ok(())
}

/// A tape's name and content.
fn add_tape(alloc: Global, case: &mut Case, rest: &str) -> Result<(), Wrong> {
    let (name, content) = first_word(rest);
    let tape = both(spelled_text(alloc, name), spelled_bytes(alloc, content))?;
    case.tapes.push(tape).map_err(AllocError::from)?;
    Ok(())
}

/// One more line of the file named last.
fn add_file_line(alloc: Global, case: &mut Case, rest: &str) -> Result<(), Wrong> {
    let Some((_name, content)) = case.files.last_mut() else {
        return Err(Wrong::Form);
    };
    add_bytes(alloc, content, rest)?;
    content.push(b'\n').map_err(AllocError::from)?;
    Ok(())
}

/// A seat's number, and the random bytes that it has.
fn add_dice(alloc: Global, case: &mut Case, rest: &str) -> Result<(), Wrong> {
    let (seat, content) = first_word(rest);
    let seat = parse_number(seat)?;
    let content = spelled_bytes(alloc, content)?;
    case.dice.push((seat, content)).map_err(AllocError::from)?;
    Ok(())
}

/// The seat of a plugin, its name, its key id and its salt. It is healthy.
fn add_plugin(alloc: Global, case: &mut Case, rest: &str) -> Result<(), Wrong> {
    let (seat, rest) = two_words(rest)?;
    let (name, rest) = two_words(rest)?;
    let (key_id, salt) = two_words(rest)?;
    let seat = parse_number(seat)?;
    let Ok(salt) = salt.parse::<u8>() else {
        return Err(Wrong::Form);
    };
    let plugin = healthy_plugin(alloc, seat, name, key_id, salt)?;
    case.plugins.push(plugin).map_err(AllocError::from)?;
    Ok(())
}

/// A healthy plugin whose calls don't fail.
fn healthy_plugin(
    alloc: Global,
    seat: u32,
    name: &str,
    key_id: &str,
    salt: u8,
) -> Result<Plugin, Wrong> {
    let named = both(spelled_text(alloc, name), spelled_text(alloc, key_id));
    let told = both(spelled_text(alloc, "v2"), spelled_text(alloc, "ok"));
    let (named, told) = both(named, told)?;
    let (name, key_id) = named;
    let (version, healthz) = told;
    Ok(Plugin {
        seat,
        name,
        key_id,
        salt,
        version,
        healthz,
        key_ids: Vec::new(alloc),
        fails: Vec::new(alloc),
    })
}

/// The version and the health of the plugin named last.
fn set_status(alloc: Global, case: &mut Case, rest: &str) -> Result<(), Wrong> {
    let (version, healthz) = two_words(rest)?;
    let Some(plugin) = case.plugins.last_mut() else {
        return Err(Wrong::Form);
    };
    plugin.version = spelled_text(alloc, version)?;
    plugin.healthz = spelled_text(alloc, healthz)?;
    Ok(())
}

/// A further key id of the plugin named last, behind the number of the first call in which it has
/// it.
fn add_key_id(alloc: Global, case: &mut Case, rest: &str) -> Result<(), Wrong> {
    let (number, key_id) = two_words(rest)?;
    let number = parse_long(number)?;
    let key_id = spelled_text(alloc, key_id)?;
    let Some(plugin) = case.plugins.last_mut() else {
        return Err(Wrong::Form);
    };
    plugin
        .key_ids
        .push((number, key_id))
        .map_err(AllocError::from)?;
    Ok(())
}

/// An object, and the numbers of its calls that fail.
fn add_fails(alloc: Global, case: &mut Case, rest: &str) -> Result<(), Wrong> {
    let (name, numbers) = two_words(rest)?;
    if let Some(tape) = name.strip_prefix("reads:") {
        return add_tape_fails(alloc, case, TapeCalls::Reads, tape, numbers);
    }
    if let Some(tape) = name.strip_prefix("writes:") {
        return add_tape_fails(alloc, case, TapeCalls::Writes, tape, numbers);
    }
    if let Some(tape) = name.strip_prefix("settles:") {
        return add_tape_fails(alloc, case, TapeCalls::Settles, tape, numbers);
    }
    if name == "plugin" {
        return add_plugin_fails(case, numbers);
    }
    let object = parse_object(name)?;
    for number in numbers.split(' ') {
        let number = parse_long(number)?;
        case.fails.push((object, number)).map_err(AllocError::from)?;
    }
    Ok(())
}

/// The numbers of the calls of the plugin named last that fail.
fn add_plugin_fails(case: &mut Case, numbers: &str) -> Result<(), Wrong> {
    let Some(plugin) = case.plugins.last_mut() else {
        return Err(Wrong::Form);
    };
    for number in numbers.split(' ') {
        let number = parse_long(number)?;
        plugin.fails.push(number).map_err(AllocError::from)?;
    }
    Ok(())
}

/// The name of a tape that isn't there.
fn add_absent(alloc: Global, case: &mut Case, name: &str) -> Result<(), Wrong> {
    let name = spelled_text(alloc, name)?;
    case.absent.push(name).map_err(AllocError::from)?;
    Ok(())
}

/// The numbers of the calls of a tape that fail.
fn add_tape_fails(
    alloc: Global,
    case: &mut Case,
    calls: TapeCalls,
    tape: &str,
    numbers: &str,
) -> Result<(), Wrong> {
    for number in numbers.split(' ') {
        let number = parse_long(number)?;
        let fails = (calls, spelled_text(alloc, tape)?, number);
        case.tape_fails.push(fails).map_err(AllocError::from)?;
    }
    Ok(())
}

/// `input`, `output`, `errors`, `files`, or `dice:SEAT`.
fn parse_object(name: &str) -> Result<Object, Wrong> {
    match name {
        "input" => Ok(Object::Input),
        "output" => Ok(Object::Output),
        "errors" => Ok(Object::Errors),
        "files" => Ok(Object::Files),
        _ => {
            let Some(seat) = name.strip_prefix("dice:") else {
                return Err(Wrong::Form);
            };
            Ok(Object::Dice(parse_number(seat)?))
        }
    }
}
