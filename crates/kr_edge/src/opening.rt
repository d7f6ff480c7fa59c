//! How stores and devices are opened, and programs started.
ghost use Rattle.std.specs.Prelude.{◌≡◌, IfSome};
ghost use Rattle.kr_edge.specs.Opened.{ReaderHolds};
ghost use Rattle.kr_edge.specs.Stores.{ChoosesOptions, LooksLocked, OpensDevice, OpensStore, StartsProgram};
ghost use Rattle.kr_edge.specs.Stores.{parent_folder, only_reads};

use crate::placed::DiskFile;
use crate::system::{ChildStream, ChildStreams, Found, OpenNo, ProcessStartNo, System};
use kr_base::Text;
use kr_kms::Access;
use std::alloc::Global;
use std::fs::OpenOptions;
use std::path::Path;
use std::process::{Child, Command, SystemProcess};

/// Opens the file of that name for what it is asked for, and locks it: one that is only read by a
/// lock that others share who read it, and any other by one of its own. An absent one may be made,
/// of mode 600; the folder of an empty one is synced then, so that its name outlasts a loss of
/// power: it may just have been made, here or by a call that was cut off before it synced the
/// folder. What is no plain file fails, and so does one whose lock another open holds, here or in
/// another process. What the name leads to is looked at before it is opened, since to open a device
/// may do something, and again behind that.
pub fn open_store<S: System>(system: &mut S, name: Text, access: Access) -> Result<DiskFile, OpenNo>
    ensures calls { OpensStore name access (S.calls system.old) (S.calls system.new) result }
    ensures same { S.told system.new ≡ S.told system.old }
{
    let mut options = match open_options(access, system.look(name.as_str())) {
        Ok(options) => options,
        Err(why) => {
            drop(name);
            return Err(why);
        }
    };
    let Some(file) = system.open(name, &mut options, 0o600) else {
        return Err(OpenNo::Failed);
    };
    let Some(at) = look_locked(system, &file, access) else {
        drop(file);
        return Err(OpenNo::Failed);
    };
    match at {
        Found::Filled => Ok(file),
        Found::Empty => {
            if access.makes() && !system.sync_folder(parent_folder(file.name())) {
                drop(file);
                return Err(OpenNo::Failed);
            }
            Ok(file)
        }
        Found::Absent | Found::Device | Found::Other | Found::Failed => {
            drop(file);
            Err(OpenNo::Failed)
        }
    }
}

/// What the file is, once it is locked.
fn look_locked<S: System>(system: &mut S, file: &DiskFile, access: Access) -> Option<Found>
    ensures calls { LooksLocked file.now.name access (S.calls system.old) (S.calls system.new)
        result }
    ensures same { S.told system.new ≡ S.told system.old }
{
    if system.lock(file, only_reads(access)) {
        Some(system.inspect_file(file))
    } else {
        None
    }
}

/// Whether a store is only to be read, so that others who read it may have the lock too.
pub(crate) fn only_reads(access: Access) -> bool
    ensures { result ≡ only_reads access }
{
    match access {
        Access::ToRead => true,
        Access::ToWrite | Access::ToMake => false,
    }
}

/// By which options a store is opened whose name leads to what was found.
fn open_options(access: Access, found: Found) -> Result<OpenOptions, OpenNo>
    ensures { ChoosesOptions access found result }
{
    let mut options = OpenOptions::new();
    options.read(true);
    if !only_reads(access) {
        options.write(true);
    }
    match found {
        Found::Empty | Found::Filled => Ok(options),
        Found::Absent => {
            if !access.makes() {
                return Err(OpenNo::Absent);
            }
            options.create_new(true);
            Ok(options)
        }
        Found::Device | Found::Other | Found::Failed => Err(OpenNo::Failed),
    }
}

/// Opens the device of that name to be read. What the name leads to is looked at first: in a changed
/// root a plain file may stand there, which would give each reader the same bytes.
pub fn open_device<S: System>(system: &mut S, name: &str) -> Option<S::File>
    ensures bytes { IfSome result (λ device.
        ReaderHolds (S.told system.old name.now) (S.File.left device)) }
    ensures calls { OpensDevice name.now (S.calls system.old) (S.calls system.new) result }
    ensures same { S.told system.new ≡ S.told system.old }
{
    match system.look(name) {
        Found::Device => match system.read(name) {
            Ok(device) => Some(device),
            Err(_) => None,
        },
        Found::Absent | Found::Empty | Found::Filled | Found::Other | Found::Failed => None,
    }
}

/// Starts the program of that name with no arguments, with pipes as its input and output. Its
/// errors are this process' own, so that the user reads them and nobody's pipe fills.
pub fn start<S: System>(
    system: &mut S,
    alloc: Global,
    program: &str,
) -> Result<Child<SystemProcess>, ProcessStartNo>
    ensures calls { StartsProgram program.now (S.calls system.old) (S.calls system.new) result }
    ensures same { S.told system.new ≡ S.told system.old }
{
    let Ok(mut command) = Command::new(alloc, program) else {
        return Err(ProcessStartNo::NoMemory);
    };
    let streams = ChildStreams {
        input: ChildStream::Piped,
        output: ChildStream::Piped,
        errors: ChildStream::Shared,
    };
    let started = system.start(&mut command, streams);
    drop(command);
    started
}

/// The folder that a file of that name stands in.
fn parent_folder(name: &str) -> &str
    ensures { result.now ≡ parent_folder name.now }
{
    match Path::new(name).parent() {
        None => ".",
        Some(folder) => {
            if folder.as_str().is_empty() {
                "."
            } else {
                folder.as_str()
            }
        }
    }
}
