//! Calls as lines, and their answers.
//!
//!     read REPLICA PATH
//!     write REPLICA PATH RESOURCE HEX
//!     delete PATH
//!     leave REPLICA
//!     reload REPLICA NAME
//!     join REPLICA NAME
//!     refresh REPLICA
//!     step REPLICA AFTER               one step of a rewrite; `-` for AFTER begins it
//!     drive REPLICA AFTER              all of them
use crate::desk::Desk;
use crate::linked::{Spelled, end_bench, parse_bench};
use crate::naming::Names;
use crate::telling::tell;
use kr_base::{Bytes, Shared, Text, both};
use kr_config::Settings;
use kr_history::Acts;
use kr_kms::Kms;
use std::alloc::Global;
use test_support::{
    NamedValues, Page, Wrong, kept, own_text_or_empty, parse_hex, parse_number, split_number,
    two_words,
};

/// A call with its arguments.
#[derive(Drop)]
pub enum Call {
    /// The value at a path.
    Read {
        replica: u32,
        path: Text,
    },
    /// A value is put at a path.
    Write {
        replica: u32,
        path: Text,
        resource: Text,
        plain: Bytes,
    },
    /// The row of a path is deleted.
    Delete {
        path: Text,
    },
    /// A replica goes out.
    Leave {
        replica: u32,
    },
    /// A replica that is in takes other settings up.
    Reload {
        replica: u32,
        settings: Shared<Settings>,
    },
    /// A replica comes in with settings.
    Join {
        replica: u32,
        settings: Shared<Settings>,
    },
    /// The settings of a replica are published anew where a plugin has another key id.
    Refresh {
        replica: u32,
    },
    /// One step of the rewrite above a path.
    Step {
        replica: u32,
        after: Text,
    },
    /// All of them.
    Drive {
        replica: u32,
        after: Text,
    },
}

impl Call {
    /// The call that a line spells, as they stand at the head of this file.
    pub fn spelled(names: &Names, line: &str) -> Result<Call, Wrong> {
        let alloc = names.alloc;
        let (word, rest) = two_words(line)?;
        match parse_key(word)? {
            Key::Read => parse_read(alloc, rest),
            Key::Write => parse_write(alloc, rest),
            Key::Delete => {
                let path = kept(alloc, rest)?;
                Ok(Call::Delete { path })
            }
            Key::Leave => {
                let replica = parse_number(rest)?;
                Ok(Call::Leave { replica })
            }
            Key::Reload => {
                let (replica, settings) = parse_load(&names.settings, rest)?;
                Ok(Call::Reload { replica, settings })
            }
            Key::Join => {
                let (replica, settings) = parse_load(&names.settings, rest)?;
                Ok(Call::Join { replica, settings })
            }
            Key::Refresh => {
                let replica = parse_number(rest)?;
                Ok(Call::Refresh { replica })
            }
            Key::Step => {
                let (replica, after) = parse_rewrite(alloc, rest)?;
                Ok(Call::Step { replica, after })
            }
            Key::Drive => {
                let (replica, after) = parse_rewrite(alloc, rest)?;
                Ok(Call::Drive { replica, after })
            }
        }
    }
}

/// Which call a line spells.
#[derive(Clone, Copy)]
enum Key {
    Read,
    Write,
    Delete,
    Leave,
    Reload,
    Join,
    Refresh,
    Step,
    Drive,
}

fn parse_key(word: &str) -> Result<Key, Wrong> {
    match word {
        "read" => Ok(Key::Read),
        "write" => Ok(Key::Write),
        "delete" => Ok(Key::Delete),
        "leave" => Ok(Key::Leave),
        "reload" => Ok(Key::Reload),
        "join" => Ok(Key::Join),
        "refresh" => Ok(Key::Refresh),
        "step" => Ok(Key::Step),
        "drive" => Ok(Key::Drive),
        _ => Err(Wrong::Form),
    }
}

/// `REPLICA PATH`.
fn parse_read(alloc: Global, words: &str) -> Result<Call, Wrong> {
    let (replica, path) = split_number(words)?;
    let path = kept(alloc, path)?;
    Ok(Call::Read { replica, path })
}

/// `REPLICA PATH RESOURCE HEX`.
fn parse_write(alloc: Global, words: &str) -> Result<Call, Wrong> {
    let (replica, rest) = split_number(words)?;
    let (path, rest) = two_words(rest)?;
    let (resource, plain) = two_words(rest)?;
    let names = both(kept(alloc, path), kept(alloc, resource));
    match both(names, parse_hex(alloc, plain)) {
        Ok((names, plain)) => {
            let (path, resource) = names;
            let plain = Bytes::from_vec(plain);
            Ok(Call::Write {
                replica,
                path,
                resource,
                plain,
            })
        }
        Err(why) => Err(why),
    }
}

/// `REPLICA NAME`.
fn parse_load(
    named: &NamedValues<Settings>,
    words: &str,
) -> Result<(u32, Shared<Settings>), Wrong> {
    let (replica, name) = split_number(words)?;
    Ok((replica, named.share(name)?))
}

/// `REPLICA AFTER`.
fn parse_rewrite(alloc: Global, words: &str) -> Result<(u32, Text), Wrong> {
    let (replica, after) = split_number(words)?;
    Ok((replica, own_text_or_empty(alloc, after)?))
}

/// Makes the call, and prints what it answered, or `line` where it can't be made.
pub fn serve<A: Acts, L: Kms>(alloc: Global, desk: &mut Desk<A, L>, call: &Call, page: &mut Page) {
    match call {
        Call::Read { replica, path } => {
            tell(alloc, page, desk.read(alloc, *replica, path.as_str()));
        }
        Call::Write {
            replica,
            path,
            resource,
            plain,
        } => {
            let (path, resource) = (path.as_str(), resource.as_str());
            let done = desk.write(alloc, *replica, resource, path, plain.as_slice());
            tell(alloc, page, done);
        }
        Call::Delete { path } => tell(alloc, page, desk.delete(alloc, path.as_str())),
        Call::Leave { replica } => tell(alloc, page, desk.leave(*replica)),
        Call::Reload { replica, settings } => {
            tell(alloc, page, desk.reload(alloc, *replica, settings));
        }
        Call::Join { replica, settings } => {
            tell(alloc, page, desk.join(alloc, *replica, settings));
        }
        Call::Refresh { replica } => tell(alloc, page, desk.refresh(alloc, *replica)),
        Call::Step { replica, after } => {
            tell(alloc, page, desk.step(alloc, *replica, after.as_str()));
        }
        Call::Drive { replica, after } => {
            tell(alloc, page, desk.drive(alloc, *replica, after.as_str()));
        }
    }
}

/// Another bench takes the place of a desk's.
fn change_bench<A: Acts, L: Spelled>(
    alloc: Global,
    desk: &mut Desk<A, L>,
    words: &str,
    page: &mut Page,
) -> Result<(), Wrong> {
    let bench = parse_bench(alloc, words)?;
    end_bench(desk.change(bench), page);
    Ok(())
}

/// Does what the line asks: `# TEXT` says nothing, `bench WORDS` brings another bench, and else it
/// spells a call.
pub fn serve_line<A: Acts, L: Spelled>(
    names: &Names,
    desk: &mut Desk<A, L>,
    line: &str,
    page: &mut Page,
) -> Result<(), Wrong> {
    if line.starts_with("# ") {
        return Ok(());
    }
    if let Some(words) = line.strip_prefix("bench ") {
        return change_bench(names.alloc, desk, words, page);
    }
    match Call::spelled(names, line) {
        Ok(call) => {
            serve(names.alloc, desk, &call, page);
            drop(call);
        }
        Err(why) => page.told_wrong("line", why),
    }
    Ok(())
}
