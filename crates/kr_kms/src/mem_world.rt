//! A world in memory, for tests.
ghost use Rattle.std.specs.Prelude.{◌≡◌, [], ◌∷◌, ◌++◌, ◌<◌, ◌==◌, ◌&&◌, length, position, count_by};
ghost use Rattle.std.specs.Prelude.{⊤, false, is_ok, if◌then◌else◌, Some, IfOk, IfErr, IfSome, OnErr, IsErrOf};
ghost use Rattle.std.specs.Option.{option_copied, option_map};
ghost use Rattle.std.specs.Str.{bytes_eq};
ghost use Rattle.kr_base.specs.Faults.{Rose, counted};
ghost use Rattle.kr_base.specs.InMemory.{faults_of};
ghost use Rattle.kr_kms.specs.Outside.{FetchesFile, NotesCall, KeepsFiles, KeepsObjects, HandsOut, TakesBack};
ghost use Rattle.kr_kms.specs.Outside.{same_seat, same_name, same_link, with_call};
ghost use Rattle.kr_kms.specs.Outside.{IsFaultOrMemory, IsTape, RefusesTape, has_failed, link_at, makes};
ghost use Rattle.kr_kms.specs.MemWorld.{file_of, dice_seat, tape_name, link_key, without_first};
ghost use Rattle.kr_kms.specs.MemWorld.{first_dice, first_tape, first_link, new_tape, told_by};
ghost use Rattle.kr_kms.specs.MemWorld.{GivesFile, GivesFirst, GivesTape};

use crate::file_faults::FileFaults;
use crate::plugin::Kms;
use crate::shelf::{Shelf, name_place, plugin_place};
use crate::world::{Access, FileNo, World, WorldCall};
use kr_base::{Bytes, List, MemDice, MemTape, NoMemory, Text, both};
use std::alloc::Global;

/// A world in memory. Files and tapes stand with their names, random sources and links with their
/// seats; of two with one name or one seat the first counts. A link's plugin is its own name, and
/// its program is ignored.
#[derive(Drop)]
pub struct MemWorld<L: Kms + Send> {
    files: Vec<(Text, Bytes)>,
    tapes: Shelf<Text, (Text, MemTape)>,
    dice: Shelf<u32, (u32, MemDice)>,
    links: Shelf<(u32, Text), (u32, L)>,
    room: usize,
    faults: FileFaults,
}

impl<L: Kms + Send> MemWorld<L> {
    /// A world of these files, tapes, random sources and links; nothing is handed out. A tape that
    /// it makes itself has room for `room` bytes.
    pub fn new(
        alloc: Global,
        files: List<(Text, Bytes)>,
        tapes: List<(Text, MemTape)>,
        dice: List<(u32, MemDice)>,
        links: List<(u32, L)>,
        room: usize,
    ) -> MemWorld<L>
        ensures told { ⟦<MemWorld<L> as World>⟧.told result ≡ told_by L.link files.0
            (record { items = tapes.0; out = [] }) (record { items = dice.0; out = [] })
            (record { items = links.0; out = [] })
            (record { loads = 0; tapes = 0; dice = 0; links = 0 }) }
        ensures files { result.files.items ≡ files.0 }
        ensures tapes { result.tapes ≡ record { items = tapes.0; out = [] } }
        ensures dice { result.dice ≡ record { items = dice.0; out = [] } }
        ensures links { result.links ≡ record { items = links.0; out = [] } }
        ensures room { result.room ≡ room }
        ensures faults { result.faults ≡ record { loads = 0; tapes = 0; dice = 0; links = 0 } }
    {
        MemWorld {
            files: files.into_vec(),
            tapes: Shelf::new(alloc, tapes),
            dice: Shelf::new(alloc, dice),
            links: Shelf::new(alloc, links),
            room,
            faults: FileFaults::new(),
        }
    }

    /// Lends the tape of the name, if it is there.
    pub fn named_tape(&self, name: &str) -> Option<&MemTape>
        ensures { option_copied result
            ≡ option_map (λ entry. entry.1) (first_tape self.now.tapes.items name.now) }
    {
        find_tape(self.tapes.items(), name)
    }

    /// Lends the random source of the seat, if it is there.
    pub fn seat_dice(&self, seat: u32) -> Option<&MemDice>
        ensures { option_copied result
            ≡ option_map (λ entry. entry.1) (first_dice self.now.dice.items seat) }
    {
        find_dice(self.dice.items(), seat)
    }

    /// Lends the link of the seat to the plugin, if it is there.
    pub fn seat_link(&self, seat: u32, plugin: &str) -> Option<&L>
        ensures { option_copied result
            ≡ option_map (λ entry. entry.1)
            (first_link L.link self.now.links.items seat plugin.now) }
    {
        find_link(self.links.items(), seat, plugin)
    }
}

impl<L: Kms + Send> World for MemWorld<L> {
    type Tap = MemTape;

    type Rand = MemDice;

    type Link = L;

    ghost told = { λ world. told_by L.link world.files.items world.tapes world.dice world.links
        world.faults };

    // No more is said of its links than that they were handed out and came back.
    ghost lent = { λ seat link. ⊤ };

    ghost took = { λ seat link. ⊤ };

    fn faults(&self) -> u64 {
        self.faults.total()
    }

    fn load(&mut self, alloc: Global, name: &str, limit: u64) -> Result<Bytes, FileNo>
        ensures gives { GivesFile (file_of self.old.files.items name.now) limit result }
        ensures same { self.new ≡ self.old }

        // As the trait says.
        ensures file { FetchesFile (⟦<MemWorld<L> as World>⟧.told self.old)
            (⟦<MemWorld<L> as World>⟧.told self.new) name.now limit result }
        ensures once { (⟦<MemWorld<L> as World>⟧.told self.new).faults.loads
            ≡ counted (has_failed result) (⟦<MemWorld<L> as World>⟧.told self.old).faults.loads }
        ensures asked { NotesCall (⟦<MemWorld<L> as World>⟧.told self.old)
            (⟦<MemWorld<L> as World>⟧.told self.new) (WorldCall.File name.now) result }
        ensures kind { (⟦<MemWorld<L> as World>⟧.told self.new).faults ≡ record
            (⟦<MemWorld<L> as World>⟧.told self.old).faults {
              loads =
                  (⟦<MemWorld<L> as World>⟧.told self.new).faults.loads;
            } }
        ensures files { KeepsFiles (⟦<MemWorld<L> as World>⟧.told self.old)
            (⟦<MemWorld<L> as World>⟧.told self.new) }
        ensures objects { KeepsObjects (⟦<MemWorld<L> as World>⟧.told self.old)
            (⟦<MemWorld<L> as World>⟧.told self.new) }
    {
        let Some(file) = find_file(&self.files, name) else {
            return Err(FileNo::Absent);
        };
        if file.len() as u64 > limit {
            return Err(FileNo::TooLong);
        }
        match Bytes::copy(alloc, file) {
            Ok(copy) => Ok(copy),
            Err(_) => Err(FileNo::NoMemory),
        }
    }

    fn tape(&mut self, alloc: Global, name: &str, access: Access) -> Result<MemTape, FileNo>
        ensures gives { GivesTape
            (option_map (λ entry. entry.1) (first_tape self.old.tapes.items name.now))
            (count_by (λ other. bytes_eq other name.now) self.old.tapes.out) (makes access)
            self.old.room
            self.old.faults.tapes result self.new.faults.tapes }
        ensures gone { self.new.tapes.items ≡ (if is_ok result
            then without_first same_name tape_name self.old.tapes.items name.now
            else self.old.tapes.items) }
        ensures others { (self.new.files ≡ self.old.files) × (self.new.dice ≡ self.old.dice)
            × (self.new.links ≡ self.old.links) × (self.new.room ≡ self.old.room) }

        // As the trait says.
        ensures ok { IfOk result (λ tape. HandsOut same_name
            (⟦<MemWorld<L> as World>⟧.told self.old).tapes
            (⟦<MemWorld<L> as World>⟧.told self.new).tapes name.now
            (faults_of tape)) }
        ensures tape { IfOk result
            (λ tape. IsTape ((⟦<MemWorld<L> as World>⟧.told self.old).tapes.told name.now)
            (makes access) (Some tape.bytes)) }
        ensures alone { IfOk result (λ tape. (⟦<MemWorld<L> as World>⟧.told self.old).tapes.out
            name.now ≡ 0) }
        ensures cuts { IfOk result (λ tape. false ≡ false) }
        ensures err { OnErr result ((⟦<MemWorld<L> as World>⟧.told self.new).tapes ≡
            (⟦<MemWorld<L> as World>⟧.told self.old).tapes) }
        ensures refusals { IfErr result (λ why. RefusesTape
            ((⟦<MemWorld<L> as World>⟧.told self.old).tapes.told name.now)
            (makes access) why) }
        ensures failed { IsErrOf result FileNo.Failed → Rose
            (⟦<MemWorld<L> as World>⟧.told self.old).faults.tapes
            (⟦<MemWorld<L> as World>⟧.told self.new).faults.tapes }
        ensures once { (⟦<MemWorld<L> as World>⟧.told self.new).faults.tapes
            ≡ counted (has_failed result) (⟦<MemWorld<L> as World>⟧.told self.old).faults.tapes }
        ensures asked { NotesCall (⟦<MemWorld<L> as World>⟧.told self.old)
            (⟦<MemWorld<L> as World>⟧.told self.new) (WorldCall.Tape name.now access) result }
        ensures kind { (⟦<MemWorld<L> as World>⟧.told self.new).faults ≡ record
            (⟦<MemWorld<L> as World>⟧.told self.old).faults {
              tapes =
                  (⟦<MemWorld<L> as World>⟧.told self.new).faults.tapes;
            } }
        ensures files { KeepsFiles (⟦<MemWorld<L> as World>⟧.told self.old)
            (⟦<MemWorld<L> as World>⟧.told self.new) }
        ensures dice { (⟦<MemWorld<L> as World>⟧.told self.new).dice ≡
            (⟦<MemWorld<L> as World>⟧.told self.old).dice }
        ensures links { (⟦<MemWorld<L> as World>⟧.told self.new).links ≡
            (⟦<MemWorld<L> as World>⟧.told self.old).links }
    {
        if name_place(self.tapes.taken_keys(), name).is_some() {
            self.faults.tapes.rise();
            return Err(FileNo::Failed);
        }
        let Some(at) = tape_place(self.tapes.items(), name) else {
            if !access.makes() {
                return Err(FileNo::Absent);
            }
            return make_tape(alloc, &mut self.tapes, name, self.room);
        };
        let Ok(key) = Text::copy(alloc, name) else {
            return Err(FileNo::NoMemory);
        };
        match self.tapes.lend(at, key) {
            Ok((_name, tape)) => Ok(tape),
            Err(_) => Err(FileNo::NoMemory),
        }
    }

    fn dice(&mut self, _alloc: Global, seat: u32) -> Result<MemDice, FileNo>
        ensures gives { GivesFirst
            (option_map (λ entry. entry.1) (first_dice self.old.dice.items seat))
            self.old.faults.dice result self.new.faults.dice }
        ensures gone { self.new.dice.items ≡ (if is_ok result
            then without_first same_seat dice_seat self.old.dice.items seat
            else self.old.dice.items) }
        ensures others { (self.new.files ≡ self.old.files) × (self.new.tapes ≡ self.old.tapes)
            × (self.new.links ≡ self.old.links) × (self.new.room ≡ self.old.room) }

        // As the trait says.
        ensures ok { IfOk result (λ dice. HandsOut same_seat
            (⟦<MemWorld<L> as World>⟧.told self.old).dice
            (⟦<MemWorld<L> as World>⟧.told self.new).dice seat
            dice.calls.faults) }
        ensures left { IfOk result (λ dice. Some dice.bytes ≡
            (⟦<MemWorld<L> as World>⟧.told self.old).dice.told seat) }
        ensures err { OnErr result ((⟦<MemWorld<L> as World>⟧.told self.new).dice ≡
            (⟦<MemWorld<L> as World>⟧.told self.old).dice) }
        ensures refusals { IfErr result IsFaultOrMemory }
        ensures failed { IsErrOf result FileNo.Failed → Rose
            (⟦<MemWorld<L> as World>⟧.told self.old).faults.dice
            (⟦<MemWorld<L> as World>⟧.told self.new).faults.dice }
        ensures once { (⟦<MemWorld<L> as World>⟧.told self.new).faults.dice
            ≡ counted (has_failed result) (⟦<MemWorld<L> as World>⟧.told self.old).faults.dice }
        ensures asked { NotesCall (⟦<MemWorld<L> as World>⟧.told self.old)
            (⟦<MemWorld<L> as World>⟧.told self.new) (WorldCall.RandomSource seat) result }
        ensures kind { (⟦<MemWorld<L> as World>⟧.told self.new).faults ≡ record
            (⟦<MemWorld<L> as World>⟧.told self.old).faults {
              dice =
                  (⟦<MemWorld<L> as World>⟧.told self.new).faults.dice;
            } }
        ensures files { KeepsFiles (⟦<MemWorld<L> as World>⟧.told self.old)
            (⟦<MemWorld<L> as World>⟧.told self.new) }
        ensures tapes { (⟦<MemWorld<L> as World>⟧.told self.new).tapes ≡
            (⟦<MemWorld<L> as World>⟧.told self.old).tapes }
        ensures links { (⟦<MemWorld<L> as World>⟧.told self.new).links ≡
            (⟦<MemWorld<L> as World>⟧.told self.old).links }
    {
        let Some(at) = dice_place(self.dice.items(), seat) else {
            self.faults.dice.rise();
            return Err(FileNo::Failed);
        };
        match self.dice.lend(at, seat) {
            Ok((_seat, dice)) => Ok(dice),
            Err(_) => Err(FileNo::NoMemory),
        }
    }

    fn link(&mut self, alloc: Global, seat: u32, plugin: &str, _program: &str) -> Result<L, FileNo>
        ensures gives { GivesFirst
            (option_map (λ entry. entry.1) (first_link L.link self.old.links.items seat plugin.now))
            self.old.faults.links result self.new.faults.links }
        ensures gone { self.new.links.items ≡ (if is_ok result
            then without_first same_link (link_key L.link) self.old.links.items (seat, plugin.now)
            else self.old.links.items) }
        ensures others { (self.new.files ≡ self.old.files) × (self.new.tapes ≡ self.old.tapes)
            × (self.new.dice ≡ self.old.dice) × (self.new.room ≡ self.old.room) }

        // As the trait says.
        ensures ok { IfOk result (λ link. HandsOut same_link
            (⟦<MemWorld<L> as World>⟧.told self.old).links
            (⟦<MemWorld<L> as World>⟧.told self.new).links
            (seat, plugin.now) (L.link link).count) }
        ensures link { IfOk result (λ link. L.link link ≡ link_at
            (⟦<MemWorld<L> as World>⟧.told self.old).links seat plugin.now) }
        ensures err { OnErr result ((⟦<MemWorld<L> as World>⟧.told self.new).links ≡
            (⟦<MemWorld<L> as World>⟧.told self.old).links) }
        ensures refusals { IfErr result IsFaultOrMemory }
        ensures failed { IsErrOf result FileNo.Failed → Rose
            (⟦<MemWorld<L> as World>⟧.told self.old).faults.links
            (⟦<MemWorld<L> as World>⟧.told self.new).faults.links }
        ensures once { (⟦<MemWorld<L> as World>⟧.told self.new).faults.links
            ≡ counted (has_failed result) (⟦<MemWorld<L> as World>⟧.told self.old).faults.links }
        ensures asked { NotesCall (⟦<MemWorld<L> as World>⟧.told self.old)
            (⟦<MemWorld<L> as World>⟧.told self.new) (WorldCall.Link seat plugin.now _program.now)
            result }
        ensures kind { (⟦<MemWorld<L> as World>⟧.told self.new).faults ≡ record
            (⟦<MemWorld<L> as World>⟧.told self.old).faults {
              links =
                  (⟦<MemWorld<L> as World>⟧.told self.new).faults.links;
            } }
        ensures files { KeepsFiles (⟦<MemWorld<L> as World>⟧.told self.old)
            (⟦<MemWorld<L> as World>⟧.told self.new) }
        ensures tapes { (⟦<MemWorld<L> as World>⟧.told self.new).tapes ≡
            (⟦<MemWorld<L> as World>⟧.told self.old).tapes }
        ensures dice { (⟦<MemWorld<L> as World>⟧.told self.new).dice ≡
            (⟦<MemWorld<L> as World>⟧.told self.old).dice }
    {
        let Some(at) = link_place(self.links.items(), seat, plugin) else {
            self.faults.links.rise();
            return Err(FileNo::Failed);
        };
        let Ok(key) = Text::copy(alloc, plugin) else {
            return Err(FileNo::NoMemory);
        };
        match self.links.lend(at, (seat, key)) {
            Ok((_seat, link)) => Ok(link),
            Err(_) => Err(FileNo::NoMemory),
        }
    }

    fn back_tape(&mut self, name: &str, tape: MemTape)
        requires { 0 < (⟦<MemWorld<L> as World>⟧.told self.old).tapes.out name.now }
        ensures put { self.new.tapes.items ≡ (name.now, tape) ∷ self.old.tapes.items }
        ensures others { (self.new.files ≡ self.old.files) × (self.new.dice ≡ self.old.dice)
            × (self.new.links ≡ self.old.links) × (self.new.room ≡ self.old.room)
            × (self.new.faults ≡ self.old.faults) }

        // As the trait says.
        ensures back { TakesBack same_name (⟦<MemWorld<L> as World>⟧.told self.old).tapes
            (⟦<MemWorld<L> as World>⟧.told self.new).tapes name.now (faults_of tape) }
        ensures tape { (⟦<MemWorld<L> as World>⟧.told self.new).tapes.told name.now ≡ option_map
            Some (Some tape.bytes) }
        ensures asked { (⟦<MemWorld<L> as World>⟧.told self.new).asked ≡
            (⟦<MemWorld<L> as World>⟧.told self.old).asked }
        ensures file { (⟦<MemWorld<L> as World>⟧.told self.new).file ≡
            (⟦<MemWorld<L> as World>⟧.told self.old).file }
        ensures faults { (⟦<MemWorld<L> as World>⟧.told self.new).faults ≡
            (⟦<MemWorld<L> as World>⟧.told self.old).faults }
        ensures dice { (⟦<MemWorld<L> as World>⟧.told self.new).dice ≡
            (⟦<MemWorld<L> as World>⟧.told self.old).dice }
        ensures links { (⟦<MemWorld<L> as World>⟧.told self.new).links ≡
            (⟦<MemWorld<L> as World>⟧.told self.old).links }
    {
        let Some(at) = name_place(self.tapes.taken_keys(), name) else {
            unreachable!();
        };
        self.tapes.return_keyed(at, tape);
    }

    fn back_settled(&mut self, name: &str, tape: MemTape)
        requires out { 0 < (⟦<MemWorld<L> as World>⟧.told self.old).tapes.out name.now }
        ensures put { self.new.tapes.items ≡ (name.now, tape) ∷ self.old.tapes.items }
        ensures others { (self.new.files ≡ self.old.files) × (self.new.dice ≡ self.old.dice)
            × (self.new.links ≡ self.old.links) × (self.new.room ≡ self.old.room)
            × (self.new.faults ≡ self.old.faults) }

        // As the trait says.
        ensures back { TakesBack same_name (⟦<MemWorld<L> as World>⟧.told self.old).tapes
            (⟦<MemWorld<L> as World>⟧.told self.new).tapes name.now (faults_of tape) }
        ensures tape { (⟦<MemWorld<L> as World>⟧.told self.new).tapes.told name.now ≡ option_map
            Some (Some tape.bytes) }
        ensures asked { (⟦<MemWorld<L> as World>⟧.told self.new).asked
            ≡ with_call (WorldCall.Settled name.now)
            (⟦<MemWorld<L> as World>⟧.told self.old).asked }
        ensures file { (⟦<MemWorld<L> as World>⟧.told self.new).file ≡
            (⟦<MemWorld<L> as World>⟧.told self.old).file }
        ensures faults { (⟦<MemWorld<L> as World>⟧.told self.new).faults ≡
            (⟦<MemWorld<L> as World>⟧.told self.old).faults }
        ensures dice { (⟦<MemWorld<L> as World>⟧.told self.new).dice ≡
            (⟦<MemWorld<L> as World>⟧.told self.old).dice }
        ensures links { (⟦<MemWorld<L> as World>⟧.told self.new).links ≡
            (⟦<MemWorld<L> as World>⟧.told self.old).links }
    {
        self.back_tape(name, tape);
    }

    fn back_read(&mut self, name: &str, tape: MemTape)
        requires { 0 < (⟦<MemWorld<L> as World>⟧.told self.old).tapes.out name.now }
        ensures put { self.new.tapes.items ≡ (name.now, tape) ∷ self.old.tapes.items }
        ensures others { (self.new.files ≡ self.old.files) × (self.new.dice ≡ self.old.dice)
            × (self.new.links ≡ self.old.links) × (self.new.room ≡ self.old.room)
            × (self.new.faults ≡ self.old.faults) }

        // As the trait says.
        ensures back { TakesBack same_name (⟦<MemWorld<L> as World>⟧.told self.old).tapes
            (⟦<MemWorld<L> as World>⟧.told self.new).tapes name.now (faults_of tape) }
        ensures tape { (⟦<MemWorld<L> as World>⟧.told self.new).tapes.told name.now ≡ option_map
            Some (Some tape.bytes) }
        ensures asked { (⟦<MemWorld<L> as World>⟧.told self.new).asked
            ≡ with_call (WorldCall.Returned name.now)
            (⟦<MemWorld<L> as World>⟧.told self.old).asked }
        ensures file { (⟦<MemWorld<L> as World>⟧.told self.new).file ≡
            (⟦<MemWorld<L> as World>⟧.told self.old).file }
        ensures faults { (⟦<MemWorld<L> as World>⟧.told self.new).faults ≡
            (⟦<MemWorld<L> as World>⟧.told self.old).faults }
        ensures dice { (⟦<MemWorld<L> as World>⟧.told self.new).dice ≡
            (⟦<MemWorld<L> as World>⟧.told self.old).dice }
        ensures links { (⟦<MemWorld<L> as World>⟧.told self.new).links ≡
            (⟦<MemWorld<L> as World>⟧.told self.old).links }
    {
        self.back_tape(name, tape);
    }

    fn back_dice(&mut self, seat: u32, dice: MemDice)
        requires { 0 < (⟦<MemWorld<L> as World>⟧.told self.old).dice.out seat }
        ensures put { self.new.dice.items ≡ (seat, dice) ∷ self.old.dice.items }
        ensures others { (self.new.files ≡ self.old.files) × (self.new.tapes ≡ self.old.tapes)
            × (self.new.links ≡ self.old.links) × (self.new.room ≡ self.old.room)
            × (self.new.faults ≡ self.old.faults) }

        // As the trait says.
        ensures back { TakesBack same_seat (⟦<MemWorld<L> as World>⟧.told self.old).dice
            (⟦<MemWorld<L> as World>⟧.told self.new).dice seat dice.calls.faults }
        ensures left { (⟦<MemWorld<L> as World>⟧.told self.new).dice.told seat ≡ Some dice.bytes }
        ensures asked { (⟦<MemWorld<L> as World>⟧.told self.new).asked ≡
            (⟦<MemWorld<L> as World>⟧.told self.old).asked }
        ensures file { (⟦<MemWorld<L> as World>⟧.told self.new).file ≡
            (⟦<MemWorld<L> as World>⟧.told self.old).file }
        ensures faults { (⟦<MemWorld<L> as World>⟧.told self.new).faults ≡
            (⟦<MemWorld<L> as World>⟧.told self.old).faults }
        ensures tapes { (⟦<MemWorld<L> as World>⟧.told self.new).tapes ≡
            (⟦<MemWorld<L> as World>⟧.told self.old).tapes }
        ensures links { (⟦<MemWorld<L> as World>⟧.told self.new).links ≡
            (⟦<MemWorld<L> as World>⟧.told self.old).links }
    {
        let Some(at) = seat_place(self.dice.taken_keys(), seat) else {
            unreachable!();
        };
        self.dice.put_back(at, (seat, dice));
    }

    fn back_link(&mut self, seat: u32, link: L)
        requires { 0 < (⟦<MemWorld<L> as World>⟧.told self.old).links.out
            (seat, (L.link link).name) }
        ensures put { self.new.links.items ≡ (seat, link) ∷ self.old.links.items }
        ensures others { (self.new.files ≡ self.old.files) × (self.new.tapes ≡ self.old.tapes)
            × (self.new.dice ≡ self.old.dice) × (self.new.room ≡ self.old.room)
            × (self.new.faults ≡ self.old.faults) }

        // As the trait says.
        ensures back { TakesBack same_link (⟦<MemWorld<L> as World>⟧.told self.old).links
            (⟦<MemWorld<L> as World>⟧.told self.new).links (seat, (L.link link).name)
            (L.link link).count }
        ensures status { (⟦<MemWorld<L> as World>⟧.told self.new).links.told (
          seat,
          (L.link
              link).name,
        ) ≡ (L.link link).status }
        ensures asked { (⟦<MemWorld<L> as World>⟧.told self.new).asked ≡
            (⟦<MemWorld<L> as World>⟧.told self.old).asked }
        ensures file { (⟦<MemWorld<L> as World>⟧.told self.new).file ≡
            (⟦<MemWorld<L> as World>⟧.told self.old).file }
        ensures faults { (⟦<MemWorld<L> as World>⟧.told self.new).faults ≡
            (⟦<MemWorld<L> as World>⟧.told self.old).faults }
        ensures tapes { (⟦<MemWorld<L> as World>⟧.told self.new).tapes ≡
            (⟦<MemWorld<L> as World>⟧.told self.old).tapes }
        ensures dice { (⟦<MemWorld<L> as World>⟧.told self.new).dice ≡
            (⟦<MemWorld<L> as World>⟧.told self.old).dice }
    {
        let Some(at) = plugin_place(self.links.taken_keys(), seat, link.name()) else {
            unreachable!();
        };
        self.links.put_back(at, (seat, link));
    }
}

/// Makes an empty tape with this room, which is out from the start.
fn make_tape(
    alloc: Global,
    tapes: &mut Shelf<Text, (Text, MemTape)>,
    name: &str,
    room: usize,
) -> Result<MemTape, FileNo>
    ensures ok { IfOk result (λ tape. tape ≡ new_tape room) }
    ensures out { IfOk result (λ tape. tapes.new ≡ record {
      items = tapes.old.items;
      out = tapes.old.out ++ name.now ∷ [];
    }) }
    ensures refusals { IfErr result (λ why. why ≡ FileNo.NoMemory) }
    ensures err { OnErr result (tapes.new ≡ tapes.old) }
{
    let none = List::new(alloc);
    let tape = MemTape::new(
        Bytes::new(alloc),
        room,
        List::new(alloc),
        List::new(alloc),
        none,
    );
    let Ok((key, tape)) = both(Text::copy(alloc, name), tape) else {
        return Err(FileNo::NoMemory);
    };
    match tapes.add(key) {
        Ok(()) => Ok(tape),
        Err(NoMemory) => {
            drop(tape);
            Err(FileNo::NoMemory)
        }
    }
}

/// The first file of the name.
fn find_file<'a>(files: &'a [(Text, Bytes)], name: &str) -> Option<&'a [u8]>
    ensures { option_copied result ≡ file_of files.now name.now }
{
    for file in files {
        if name == file.0.as_str() {
            return Some(file.1.as_slice());
        }
    }
    None
}

/// The first tape of the name.
fn find_tape<'a>(tapes: &'a [(Text, MemTape)], name: &str) -> Option<&'a MemTape>
    ensures { option_copied result
        ≡ option_map (λ entry. entry.1) (first_tape tapes.now name.now) }
{
    for entry in tapes {
        if entry.0.as_str() == name {
            return Some(&entry.1);
        }
    }
    None
}

/// The first random source of the seat.
fn find_dice(dice: &[(u32, MemDice)], seat: u32) -> Option<&MemDice>
    ensures { option_copied result ≡ option_map (λ entry. entry.1) (first_dice dice.now seat) }
{
    for entry in dice {
        if entry.0 == seat {
            return Some(&entry.1);
        }
    }
    None
}

/// The first link of the seat to the plugin.
fn find_link<'a, L: Kms>(links: &'a [(u32, L)], seat: u32, plugin: &str) -> Option<&'a L>
    ensures { option_copied result
        ≡ option_map (λ entry. entry.1) (first_link L.link links.now seat plugin.now) }
{
    for entry in links {
        if entry.0 == seat && entry.1.name() == plugin {
            return Some(&entry.1);
        }
    }
    None
}

/// Where the first tape of the name stands.
fn tape_place(tapes: &[(Text, MemTape)], name: &str) -> Option<usize>
    ensures first { result ≡ position (λ entry. bytes_eq entry.0 name.now) tapes.now }
    ensures within { IfSome result (λ at. at < length tapes.now) }
{
    tapes.iter().position(|entry| entry.0.as_str() == name)
}

/// Where the first random source of the seat stands.
fn dice_place(dice: &[(u32, MemDice)], seat: u32) -> Option<usize>
    ensures first { result ≡ position (λ entry. entry.0 == seat) dice.now }
    ensures within { IfSome result (λ at. at < length dice.now) }
{
    dice.iter().position(|entry| entry.0 == seat)
}

/// Where the first link of the seat to the plugin stands.
fn link_place<L: Kms>(links: &[(u32, L)], seat: u32, plugin: &str) -> Option<usize>
    ensures first { result ≡ position
        (λ entry. (entry.0 == seat) && bytes_eq (L.link entry.1).name plugin.now) links.now }
    ensures within { IfSome result (λ at. at < length links.now) }
{
    links
        .iter()
        .position(|entry| entry.0 == seat && entry.1.name() == plugin)
}

/// Where the seat stands.
fn seat_place(out: &[u32], seat: u32) -> Option<usize>
    ensures first { result ≡ position (λ other. other == seat) out.now }
    ensures within { IfSome result (λ at. at < length out.now) }
{
    out.iter().position(|other| *other == seat)
}
