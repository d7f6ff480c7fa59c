//! The world of the system: its files, its random device for each seat, and programs as plugins.
ghost use Rattle.std.specs.Prelude.{◌≡◌, ◌<◌, ◌≤◌, ◌==◌, ◌&&◌, ◌-◌, ◌^◌, ◌⊎◌, [], length, position};
ghost use Rattle.std.specs.Prelude.{⊤, replicate, codes, None};
ghost use Rattle.std.specs.Prelude.{OnOk, OnErr, IfOk, IfErr, IfSome, IsErrOf, MatchResult, is_some, true, false};
ghost use Rattle.std.specs.Io.KnownBytes.{Consumes, Keeps};
ghost use Rattle.kr_base.specs.Faults.{Rose, IsCounted, counted};
ghost use Rattle.std.specs.Str.{bytes_eq};
ghost use Rattle.kr_kms.specs.Outside.{FetchesFile, NotesCall, KeepsFiles, KeepsObjects, HandsOut, IsTape};
ghost use Rattle.kr_kms.specs.Outside.{IsFaultOrMemory, RefusesTape};
ghost use Rattle.kr_kms.specs.Outside.{has_failed, makes, link_at, same_link, same_name, same_seat};
ghost use Rattle.kr_kms.specs.declared.world.WorldCall.{WorldCall};
ghost use Rattle.kr_edge.specs.Opened.{EndsBefore, FailsToRead, ReaderHolds};
ghost use Rattle.kr_edge.specs.Plugins.{line_link};
ghost use Rattle.kr_edge.specs.RealWorld.{counted_links, seen};
ghost use Rattle.kr_edge.specs.Stores.{DrawsFrom, LendsLink, LendsStore, LoadsBy};

use crate::answer_room::AnswerRoom;
use crate::child_link::{ChildEnds, ChildLink, take_ends};
use crate::opening::{open_device, open_store, start};
use crate::placed::DiskFile;
use crate::system::{OpenNo, ProcessStartNo, System};
use crate::tape::FileTape;
use kr_base::{Bytes, Dice, Failed, FaultCount, List, NoMemory, ReadNo, Source, Text, read_all};
use kr_kms::{Access, FileFaults, FileNo, Kms, Shelf, World, name_place, plugin_place};
use std::alloc::Global;

/// The device that random bytes are drawn from.
const RANDOM_DEVICE: &str = "/dev/urandom";

/// How many seats the world has random sources for.
const SEATS: usize = 64;

/// Random bytes of a device. What is to come isn't told, since a fill that fails may have taken
/// some.
pub struct DeviceDice<R> {
    device: R,
    faults: FaultCount,
}

impl<R: Source> Dice for DeviceDice<R> {
    ghost left = { λ dice. None };

    ghost count = { λ dice. dice.faults };

    fn fill(&mut self, into: &mut [u8]) -> Result<(), Failed>
        // The whole buffer is the next of the device.
        ensures drawn { OnOk result
            (Consumes (R.left self.old.device) (R.left self.new.device) into.new) }

        // It fails where the device does, or ends.
        ensures fault { OnErr result (Rose (R.count self.old.device) (R.count self.new.device)
            ⊎ EndsBefore (length into.new) (R.left self.old.device) (R.left self.new.device)) }

        // As the trait says.
        ensures bytes { MatchResult result
            (λ _. Consumes None None into.new) (λ _. Keeps None None) }
        ensures cause { IsCounted self.old.faults self.new.faults result }
    {
        match fill_from(&mut self.device, into) {
            Ok(()) => Ok(()),
            Err(Failed) => {
                self.faults.rise();
                Err(Failed)
            }
        }
    }

    fn faults(&self) -> u64 {
        self.faults.count()
    }
}

/// Fills the buffer with the next bytes.
fn fill_from<S: Source>(source: &mut S, into: &mut [u8]) -> Result<(), Failed>
    ensures drawn { OnOk result (Consumes (S.left source.old) (S.left source.new) into.new) }
    ensures fault { OnErr result (Rose (S.count source.old) (S.count source.new)
        ⊎ EndsBefore (length into.new) (S.left source.old) (S.left source.new)) }
{
    let mut filled = 0;
    while filled < into.len() {
        let n = source.read(&mut into[filled..])?;
        if n == 0 {
            return Err(Failed);
        }
        filled += n;
    }
    Ok(())
}

/// The files of the system, its random device for each seat, and programs as plugins.
#[derive(Drop)]
pub struct RealWorld<S> {
    system: S,
    faults: FileFaults,
    dice_faults: [u64; SEATS],
    dice_out: [u64; SEATS],
    tapes: Shelf<Text, (Text, u64)>,
    links: Shelf<(u32, Text), ((u32, Text), u64)>,
}

impl<S: System> RealWorld<S> {
    /// The world of this system, with no fault so far and nothing handed out.
    pub fn new(alloc: Global, system: S) -> RealWorld<S>
        ensures system { result.system ≡ system }
        ensures faults { result.faults ≡ record { loads = 0; tapes = 0; dice = 0; links = 0 } }
        ensures dice { (result.dice_faults ≡ replicate 64 0) × (result.dice_out ≡ replicate 64 0) }
        ensures tapes { result.tapes ≡ record { items = []; out = [] } }
        ensures links { result.links ≡ record { items = []; out = [] } }
    {
        RealWorld {
            system,
            faults: FileFaults::new(),
            dice_faults: [0; SEATS],
            dice_out: [0; SEATS],
            tapes: Shelf::new(alloc, List::new(alloc)),
            links: Shelf::new(alloc, List::new(alloc)),
        }
    }
}

impl<S: System> World for RealWorld<S>
where
    S::File: Send,
{
    type Tap = FileTape<DiskFile>;

    type Rand = DeviceDice<S::File>;

    type Link = ChildLink;

    ghost told = { seen S.told };

    // No more is said of its links than that they were handed out and came back.
    ghost lent = { λ seat link. ⊤ };

    ghost took = { λ seat link. ⊤ };

    fn faults(&self) -> u64 {
        self.faults.total()
    }

    fn load(&mut self, alloc: Global, name: &str, limit: u64) -> Result<Bytes, FileNo>
        // The file of that name was opened to be read, and nothing else.
        ensures calls { LoadsBy name.now
            (FailsToRead S.File.left S.File.count (S.told self.old.system name.now))
            (S.calls self.old.system) (S.calls self.new.system) result }

        // As the trait says.
        ensures file { FetchesFile (seen S.told self.old) (seen S.told self.new) name.now limit
            result }
        ensures once { self.new.faults.loads
            ≡ counted (has_failed result) self.old.faults.loads }
        ensures asked { NotesCall (seen S.told self.old) (seen S.told self.new)
            (WorldCall.File name.now) result }
        ensures kind { self.new.faults
            ≡ record self.old.faults { loads = self.new.faults.loads } }
        ensures files { KeepsFiles (seen S.told self.old) (seen S.told self.new) }
        ensures objects { KeepsObjects (seen S.told self.old) (seen S.told self.new) }
    {
        let mut file = match self.system.read(name) {
            Ok(file) => file,
            Err(OpenNo::Absent) => return Err(FileNo::Absent),
            Err(OpenNo::Failed) => {
                self.faults.loads.rise();
                return Err(FileNo::Failed);
            }
        };
        match read_all(alloc, &mut file, limit) {
            Ok(bytes) => Ok(bytes),
            Err(ReadNo::TooLong) => Err(FileNo::TooLong),
            Err(ReadNo::NoMemory) => Err(FileNo::NoMemory),
            Err(ReadNo::Failed) => {
                self.faults.loads.rise();
                Err(FileNo::Failed)
            }
        }
    }

    fn tape(
        &mut self,
        alloc: Global,
        name: &str,
        access: Access,
    ) -> Result<FileTape<DiskFile>, FileNo>
        // The store of that name was opened, and nothing else.
        ensures calls { LendsStore name.now access
            (is_some (position (λ out. same_name out name.now) self.old.tapes.out) ≡ true)
            (S.calls self.old.system) (S.calls self.new.system) result }

        // The tape is for what it was asked for.
        ensures access { IfOk result (λ tape. tape.access ≡ access) }

        // As the trait says.
        ensures ok { IfOk result (λ tape. HandsOut same_name (seen S.told self.old).tapes
            (seen S.told self.new).tapes name.now tape.faults) }
        ensures tape { IfOk result
            (λ tape. IsTape ((seen S.told self.old).tapes.told name.now) (makes access) None) }
        ensures alone { IfOk result (λ tape. (seen S.told self.old).tapes.out name.now ≡ 0) }
        ensures cuts { IfOk result (λ tape. false ≡ false) }
        ensures err { OnErr result
            ((seen S.told self.new).tapes ≡ (seen S.told self.old).tapes) }
        ensures refusals { IfErr result
            (λ why. RefusesTape ((seen S.told self.old).tapes.told name.now) (makes access) why) }
        ensures failed { IsErrOf result FileNo.Failed
            → Rose self.old.faults.tapes self.new.faults.tapes }
        ensures once { self.new.faults.tapes
            ≡ counted (has_failed result) self.old.faults.tapes }
        ensures asked { NotesCall (seen S.told self.old) (seen S.told self.new)
            (WorldCall.Tape name.now access) result }
        ensures kind { self.new.faults
            ≡ record self.old.faults { tapes = self.new.faults.tapes } }
        ensures files { KeepsFiles (seen S.told self.old) (seen S.told self.new) }
        ensures dice { (seen S.told self.new).dice ≡ (seen S.told self.old).dice }
        ensures links { (seen S.told self.new).links ≡ (seen S.told self.old).links }
    {
        if name_place(self.tapes.taken_keys(), name).is_some() {
            self.faults.tapes.rise();
            return Err(FileNo::Failed);
        }
        let (Ok(key), Ok(opened)) = (Text::copy(alloc, name), Text::copy(alloc, name)) else {
            return Err(FileNo::NoMemory);
        };
        let file = match open_store(&mut self.system, opened, access) {
            Ok(file) => file,
            Err(OpenNo::Absent) => {
                drop(key);
                return Err(FileNo::Absent);
            }
            Err(OpenNo::Failed) => {
                drop(key);
                self.faults.tapes.rise();
                return Err(FileNo::Failed);
            }
        };
        match tape_place(self.tapes.items(), name) {
            Some(at) => match self.tapes.lend(at, key) {
                Ok((key, count)) => {
                    drop(key);
                    Ok(FileTape::new(file, access, count))
                }
                Err(_) => {
                    drop(file);
                    Err(FileNo::NoMemory)
                }
            },
            None => match self.tapes.add(key) {
                Ok(()) => Ok(FileTape::first(file, access)),
                Err(_) => {
                    drop(file);
                    Err(FileNo::NoMemory)
                }
            },
        }
    }

    fn dice(&mut self, _alloc: Global, seat: u32) -> Result<DeviceDice<S::File>, FileNo>
        // The random bytes are those of the system's device.
        ensures device { IfOk result (λ dice.
            ReaderHolds (S.told self.old.system (codes "/dev/urandom"))
            (S.File.left dice.device)) }
        // It was opened, once it was seen to be a device, and nothing else; it isn't where the seat
        // has no source left.
        ensures calls { DrawsFrom ((64 ≤ seat)
            ⊎ ((seen S.told self.old).dice.out seat ≡ 2 ^ 64 - 1))
            (S.calls self.old.system) (S.calls self.new.system) result }

        // As the trait says.
        ensures ok { IfOk result (λ dice. HandsOut same_seat
            (seen S.told self.old).dice
            (seen S.told self.new).dice
            seat dice.faults) }
        ensures left { IfOk result (λ dice. None
            ≡ (seen S.told self.old).dice.told seat) }
        ensures err { OnErr result (
            (seen S.told self.new).dice
            ≡ (seen S.told self.old).dice) }
        ensures refusals { IfErr result IsFaultOrMemory }
        ensures failed { IsErrOf result FileNo.Failed
            → Rose self.old.faults.dice self.new.faults.dice }
        ensures once { self.new.faults.dice
            ≡ counted (has_failed result) self.old.faults.dice }
        ensures asked { NotesCall
            (seen S.told self.old)
            (seen S.told self.new)
            (WorldCall.RandomSource seat) result }
        ensures kind { self.new.faults
            ≡ record self.old.faults { dice = self.new.faults.dice } }
        ensures files { KeepsFiles
            (seen S.told self.old)
            (seen S.told self.new) }
        ensures tapes { (seen S.told self.new).tapes
            ≡ (seen S.told self.old).tapes }
        ensures links { (seen S.told self.new).links
            ≡ (seen S.told self.old).links }
    {
        let at = seat as usize;
        if at >= SEATS || self.dice_out[at] == u64::MAX {
            self.faults.dice.rise();
            return Err(FileNo::Failed);
        }
        match open_device(&mut self.system, RANDOM_DEVICE) {
            Some(device) => {
                self.dice_out[at] += 1;
                Ok(DeviceDice {
                    device,
                    faults: FaultCount::from_count(self.dice_faults[at]),
                })
            }
            None => {
                self.faults.dice.rise();
                Err(FileNo::Failed)
            }
        }
    }

    fn link(
        &mut self,
        alloc: Global,
        seat: u32,
        plugin: &str,
        program: &str,
    ) -> Result<ChildLink, FileNo>
        // That program was started, and nothing else.
        ensures calls { LendsLink program.now
            (S.calls self.old.system) (S.calls self.new.system) result }

        // As the trait says.
        ensures ok { IfOk result (λ link. HandsOut same_link (seen S.told self.old).links
            (seen S.told self.new).links (seat, plugin.now) link.lines.faults) }
        ensures link { IfOk result (λ link. line_link link.name link.lines.faults
            ≡ link_at (seen S.told self.old).links seat plugin.now) }
        ensures err { OnErr result
            ((seen S.told self.new).links ≡ (seen S.told self.old).links) }
        ensures refusals { IfErr result IsFaultOrMemory }
        ensures failed { IsErrOf result FileNo.Failed
            → Rose self.old.faults.links self.new.faults.links }
        ensures once { self.new.faults.links
            ≡ counted (has_failed result) self.old.faults.links }
        ensures asked { NotesCall (seen S.told self.old) (seen S.told self.new)
            (WorldCall.Link seat plugin.now program.now) result }
        ensures kind { self.new.faults
            ≡ record self.old.faults { links = self.new.faults.links } }
        ensures files { KeepsFiles (seen S.told self.old) (seen S.told self.new) }
        ensures tapes { (seen S.told self.new).tapes ≡ (seen S.told self.old).tapes }
        ensures dice { (seen S.told self.new).dice ≡ (seen S.told self.old).dice }
    {
        let (Ok(name), Ok(key), Ok(room)) = (
            Text::copy(alloc, plugin),
            Text::copy(alloc, plugin),
            AnswerRoom::new(alloc),
        ) else {
            return Err(FileNo::NoMemory);
        };
        let child = match start(&mut self.system, alloc, program) {
            Ok(child) => child,
            Err(ProcessStartNo::NoMemory) => {
                drop(key);
                drop((name, room));
                return Err(FileNo::NoMemory);
            }
            Err(ProcessStartNo::Failed) => {
                drop(key);
                drop((name, room));
                self.faults.links.rise();
                return Err(FileNo::Failed);
            }
        };
        let Some(ends) = take_ends(child) else {
            drop(key);
            drop((name, room));
            self.faults.links.rise();
            return Err(FileNo::Failed);
        };
        match lent_link(&mut self.links, (seat, key), name, ends, room) {
            Ok(link) => Ok(link),
            Err(NoMemory) => Err(FileNo::NoMemory),
        }
    }

    fn back_tape(&mut self, name: &str, tape: FileTape<DiskFile>) {
        let Some(at) = name_place(self.tapes.taken_keys(), name) else {
            unreachable!();
        };
        self.tapes.return_keyed(at, tape.close());
    }

    fn back_settled(&mut self, name: &str, tape: FileTape<DiskFile>) {
        self.back_tape(name, tape);
    }

    fn back_read(&mut self, name: &str, tape: FileTape<DiskFile>) {
        self.back_tape(name, tape);
    }

    fn back_dice(&mut self, seat: u32, dice: DeviceDice<S::File>) {
        let at = seat as usize;
        if at >= SEATS {
            unreachable!();
        }
        let DeviceDice { device, faults } = dice;
        drop(device);
        self.dice_out[at] -= 1;
        self.dice_faults[at] = faults.count();
    }

    fn back_link(&mut self, seat: u32, link: ChildLink) {
        let Some(at) = plugin_place(self.links.taken_keys(), seat, link.name()) else {
            unreachable!();
        };
        self.links.return_keyed(at, link.close());
    }
}

/// Where the count of the tape of the name stands.
fn tape_place(counts: &[(Text, u64)], name: &str) -> Option<usize>
    ensures first { result ≡ position (λ entry. bytes_eq entry.0 name.now) counts.now }
    ensures within { IfSome result (λ at. at < length counts.now) }
{
    counts.iter().position(|entry| entry.0.as_str() == name)
}

/// Where the count of the seat's link to the plugin stands.
fn link_place(counts: &[((u32, Text), u64)], seat: u32, plugin: &str) -> Option<usize>
    ensures first { result ≡ position
        (λ entry. (entry.0.0 == seat) && bytes_eq entry.0.1 plugin.now) counts.now }
    ensures within { IfSome result (λ at. at < length counts.now) }
{
    counts
        .iter()
        .position(|entry| entry.0.0 == seat && entry.0.1.as_str() == plugin)
}

/// The link over a started child that goes out: with the count of the first of its key, or with no
/// fault so far.
fn lent_link(
    links: &mut Shelf<(u32, Text), ((u32, Text), u64)>,
    key: (u32, Text),
    name: Text,
    ends: ChildEnds,
    room: AnswerRoom,
) -> Result<ChildLink, NoMemory>
    ensures ok { IfOk result (λ link. HandsOut same_link (counted_links links.old)
        (counted_links links.new) key link.lines.faults) }
    ensures name { IfOk result (λ link. link.name ≡ name) }
    ensures err { OnErr result (links.new ≡ links.old) }
{
    match link_place(links.items(), key.0, key.1.as_str()) {
        Some(at) => match links.lend(at, key) {
            Ok((key, count)) => {
                drop(key);
                Ok(ChildLink::new(name, ends, room, count))
            }
            Err(NoMemory) => {
                drop((name, room));
                ends.close();
                Err(NoMemory)
            }
        },
        None => match links.add(key) {
            Ok(()) => Ok(ChildLink::first(name, ends, room)),
            Err(NoMemory) => {
                drop((name, room));
                ends.close();
                Err(NoMemory)
            }
        },
    }
}
