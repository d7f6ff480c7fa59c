//! The files and the programs of the system. What they do is the system's, which no clause knows.
ghost use Rattle.std.specs.Prelude.{◌≡◌, ◌≢◌, ◌↔◌, ◌⊎◌, None, IfErr, IfOk, OnErr, false};
ghost use Rattle.std.specs.IoError.{error_kind};
ghost use Rattle.std.specs.Process.{makes_pipe};
ghost use Rattle.kr_edge.specs.inner.Answered.{IsFound, is_piped};

use crate::placed::DiskFile;
use crate::streams::StdSource;
use crate::system::{ChildStream, ChildStreams, Found, OpenNo, ProcessStartNo, System};
use crate::system_error::io_error_kind;
use kr_base::Text;
use std::fs::{File, Metadata, OpenFile, OpenOptions};
use std::io::{self, ErrorKind};
use std::os::unix::fs::{FileTypeExt, OpenOptionsExt};
use std::process::{Child, Command, Processes, Stdio, SystemProcess};
use std::rt::Files;

/// The files and programs that a runtime reaches. It tells of none.
#[derive(Drop)]
pub struct SystemFiles<'a, R> {
    rt: &'a R,
}

impl<'a, R> SystemFiles<'a, R> {
    /// What this runtime reaches.
    pub fn new(rt: &'a R) -> SystemFiles<'a, R> {
        SystemFiles { rt }
    }
}

impl<R: Files<File = File> + Processes<Started = SystemProcess>> System for SystemFiles<'_, R> {
    type File = StdSource<File>;

    ghost told = { λ files. λ name. None };

    ghost calls = { λ files. None };

    fn read(&mut self, name: &str) -> Result<StdSource<File>, OpenNo> {
        match File::open(self.rt, name) {
            Ok(file) => Ok(StdSource::new(file)),
            Err(error) => Err(open_no(error)),
        }
    }

    fn look(&mut self, name: &str) -> Found {
        found(self.rt.metadata(name))
    }

    fn open(&mut self, name: Text, options: &mut OpenOptions, mode: u32) -> Option<DiskFile> {
        options.mode(mode);
        match self.rt.open_file(options, name.as_str()) {
            Ok(file) => Some(DiskFile::new(name, file)),
            Err(error) => {
                drop((name, error));
                None
            }
        }
    }

    fn lock(&mut self, file: &DiskFile, shared: bool) -> bool {
        let locked = if shared {
            file.file().try_lock_shared()
        } else {
            file.file().try_lock()
        };
        match locked {
            Ok(()) => true,
            Err(why) => {
                drop(why);
                false
            }
        }
    }

    fn inspect_file(&mut self, file: &DiskFile) -> Found {
        found(file.file().metadata())
    }

    fn sync_folder(&mut self, folder: &str) -> bool {
        is_synced(File::open(self.rt, folder))
    }

    fn start(
        &mut self,
        command: &mut Command,
        streams: ChildStreams,
    ) -> Result<Child<SystemProcess>, ProcessStartNo> {
        command
            .stdin(stdio_of(streams.input))
            .stdout(stdio_of(streams.output))
            .stderr(stdio_of(streams.errors));
        match command.spawn(self.rt) {
            Ok(child) => Ok(child),
            Err(error) => Err(start_no(error)),
        }
    }
}

/// A program's stream, as std has it.
fn stdio_of(stream: ChildStream) -> Stdio
    ensures { makes_pipe result ≡ is_piped stream }
{
    match stream {
        ChildStream::Piped => Stdio::piped(),
        ChildStream::Shared => Stdio::inherit(),
    }
}

/// Why a file wasn't opened.
fn open_no(error: io::Error) -> OpenNo
    ensures { (result ≡ OpenNo.Absent) ↔ (error_kind error ≡ ErrorKind.NotFound) }
{
    if io_error_kind(error) == ErrorKind::NotFound {
        OpenNo::Absent
    } else {
        OpenNo::Failed
    }
}

/// Why a program wasn't started.
fn start_no(error: io::Error) -> ProcessStartNo
    ensures { (result ≡ ProcessStartNo.NoMemory) ↔ (error_kind error ≡ ErrorKind.OutOfMemory) }
{
    if io_error_kind(error) == ErrorKind::OutOfMemory {
        ProcessStartNo::NoMemory
    } else {
        ProcessStartNo::Failed
    }
}

/// Whether an opened folder was synced; one that wasn't opened isn't.
fn is_synced(opened: io::Result<File>) -> bool
    ensures { OnErr opened (result ≡ false) }
{
    match opened {
        Ok(folder) => folder.sync_all().is_ok(),
        Err(error) => {
            drop(error);
            false
        }
    }
}

/// What was found where the system was asked.
fn found(asked: io::Result<Metadata>) -> Found
    ensures file { IfOk asked (λ metadata. IsFound metadata result) }
    ensures none { IfErr asked (λ error.
        ((result ≡ Found.Absent) × (error_kind error ≡ ErrorKind.NotFound))
        ⊎ ((result ≡ Found.Failed) × (error_kind error ≢ ErrorKind.NotFound))) }
{
    match asked {
        Ok(metadata) => {
            if !metadata.is_file() {
                if metadata.file_type().is_char_device() {
                    Found::Device
                } else {
                    Found::Other
                }
            } else if metadata.len() == 0 {
                Found::Empty
            } else {
                Found::Filled
            }
        }
        Err(error) => {
            if io_error_kind(error) == ErrorKind::NotFound {
                Found::Absent
            } else {
                Found::Failed
            }
        }
    }
}
