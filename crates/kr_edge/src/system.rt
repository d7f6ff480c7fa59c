//! The calls of the system by which files are opened and programs started.
ghost use Rattle.std.specs.Prelude.{◌≡◌, ℕ, List, Option, IfSome, is_ok, is_some};
ghost use Rattle.std.specs.Result.{result_err};
ghost use Rattle.std.specs.Process.{command_program};
ghost use Rattle.kr_edge.specs.Opened.{OpensFile};
ghost use Rattle.kr_edge.specs.SystemCalls.{IsBare, has_pipes, with_note};

use crate::placed::DiskFile;
use kr_base::{Source, Text};
use std::fs::OpenOptions;
use std::process::{Child, Command, SystemProcess};

/// Why a file wasn't opened.
#[derive(Clone, Copy)]
pub enum OpenNo {
    /// There is no file of that name.
    Absent,
    /// It failed.
    Failed,
}

/// Why a program wasn't started.
#[derive(Clone, Copy)]
pub enum ProcessStartNo {
    /// It failed.
    Failed,
    /// There was no memory for it.
    NoMemory,
}

/// What a stream of a program is.
#[derive(Clone, Copy)]
pub enum ChildStream {
    /// A pipe, whose other end this process has.
    Piped,
    /// This process' own.
    Shared,
}

/// What the streams of a program are.
#[derive(Clone, Copy)]
pub struct ChildStreams {
    /// What it reads.
    pub input: ChildStream,
    /// What it writes.
    pub output: ChildStream,
    /// Where it writes what went wrong.
    pub errors: ChildStream,
}

/// What a name leads to, or what an open file is.
#[derive(Clone, Copy)]
pub enum Found {
    /// Nothing.
    Absent,
    /// A plain file without bytes.
    Empty,
    /// A plain file with bytes.
    Filled,
    /// A device that gives its bytes one by one, as that of random bytes does.
    Device,
    /// A folder, or what else is neither.
    Other,
    /// It can't be told.
    Failed,
}

/// A call of the system, and what it answered.
#[derive(Drop)]
pub enum SystemCall {
    /// The file of a name was to be opened, to be read; why it wasn't, if so.
    Read {
        name: Text,
        refused: Option<OpenNo>,
    },
    /// It was asked what a name leads to.
    Look {
        name: Text,
        found: Found,
    },
    /// The file of a name was to be opened by these options, one that is made with this mode.
    Open {
        name: Text,
        options: OpenOptions,
        mode: u32,
        opened: bool,
    },
    /// A lock on the open file of a name was asked for: one that others share who only read it, or
    /// one that no other open of the file has beside it.
    Lock {
        name: Text,
        shared: bool,
        locked: bool,
    },
    /// It was asked what the open file of a name is.
    LookAt {
        name: Text,
        found: Found,
    },
    /// The names in a folder were to be synced.
    SyncFolder {
        folder: Text,
        synced: bool,
    },
    /// A program was to be started, by its name alone, with these streams; and whether its input
    /// and its output are pipes then.
    Start {
        program: Text,
        streams: ChildStreams,
        started: bool,
        piped: bool,
    },
}

/// What opens files and starts programs. It may tell the files that it opens to be read, and the
/// calls that were made.
pub trait System {
    ghost use Rattle.kr_edge.specs.declared.system.SystemCall.{SystemCall};

    /// A file that is open to be read.
    type File: Source + Drop;

    // A file by its name: none where it isn't told; else absent, or its bytes.
    ghost told: { Self → List ℕ → Option (Option (List ℕ)) };

    // The calls so far, one behind another, where it tells them.
    ghost calls: { Self → Option (List SystemCall) };

    /// Opens the file of that name to be read, from its first byte.
    fn read(&mut self, name: &str) -> Result<Self::File, OpenNo>
        ensures bytes { OpensFile Self.File.left (told self.old name.now) result }
        ensures noted { calls self.new
            ≡ with_note (SystemCall.Read name.now (result_err result)) (calls self.old) }
        ensures same { told self.new ≡ told self.old };

    /// What the name leads to.
    fn look(&mut self, name: &str) -> Found
        ensures noted { calls self.new
            ≡ with_note (SystemCall.Look name.now result) (calls self.old) }
        ensures same { told self.new ≡ told self.old };

    /// Opens the file of that name by the options, one that is made with this mode.
    fn open(&mut self, name: Text, options: &mut OpenOptions, mode: u32) -> Option<DiskFile>
        ensures name { IfSome result (λ file. file.name ≡ name) }
        ensures noted { calls self.new ≡ with_note
            (SystemCall.Open name options.old mode (is_some result)) (calls self.old) }
        ensures same { told self.new ≡ told self.old };

    /// Takes the lock of the file, a shared one if so, unless another open of it holds one that
    /// goes with none beside it.
    fn lock(&mut self, file: &DiskFile, shared: bool) -> bool
        ensures noted { calls self.new
            ≡ with_note (SystemCall.Lock file.now.name shared result) (calls self.old) }
        ensures same { told self.new ≡ told self.old };

    /// What the open file is.
    fn inspect_file(&mut self, file: &DiskFile) -> Found
        ensures noted { calls self.new
            ≡ with_note (SystemCall.LookAt file.now.name result) (calls self.old) }
        ensures same { told self.new ≡ told self.old };

    /// Lets the names in the folder stand on the device.
    fn sync_folder(&mut self, folder: &str) -> bool
        ensures noted { calls self.new
            ≡ with_note (SystemCall.SyncFolder folder.now result) (calls self.old) }
        ensures same { told self.new ≡ told self.old };

    /// Starts a program by its name alone, with these streams.
    fn start(
        &mut self,
        command: &mut Command,
        streams: ChildStreams,
    ) -> Result<Child<SystemProcess>, ProcessStartNo>
        requires { IsBare command.old }
        ensures noted { calls self.new ≡ with_note (SystemCall.Start
            (command_program command.old) streams (is_ok result) (has_pipes result))
            (calls self.old) }
        ensures same { told self.new ≡ told self.old };
}
