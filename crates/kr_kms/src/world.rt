//! The world that a command runs in: its files, the tapes that it writes, the random source of each
//! seat, and the links of each seat to plugins.
ghost use Rattle.std.specs.Prelude.{◌≡◌, ◌<◌, ℕ, IfOk, IfErr, OnErr, IsErrOf, true, false, Some, option_map};
ghost use Rattle.kr_base.specs.Faults.{Rose, counted};
ghost use Rattle.kr_kms.specs.Outside.{Outside, file_faults, FetchesFile, NotesCall, KeepsFiles, KeepsObjects, with_call};
ghost use Rattle.kr_kms.specs.Outside.{HandsOut, TakesBack, same_seat, same_name, same_link};
ghost use Rattle.kr_kms.specs.Outside.{IsFaultOrMemory, IsTape, RefusesTape, has_failed, link_at, makes};

use crate::plugin::Kms;
use kr_base::{Bytes, Dice, Tape, Text};
use std::alloc::Global;

/// Why a world gave no file or no object.
#[derive(Clone, Copy, Debug, PartialEq, Eq)]
pub enum FileNo {
    /// There is no file of that name.
    Absent,
    /// The file holds more bytes than the limit.
    TooLong,
    /// The file, or the making of the object, failed.
    Failed,
    /// There was no memory for it.
    NoMemory,
}

/// What a tape is asked for.
#[derive(Clone, Copy, Debug, PartialEq, Eq)]
pub enum Access {
    /// To be read, beside others that read it.
    ToRead,
    /// To be read and written, alone.
    ToWrite,
    /// As `ToWrite`, and made where it is absent.
    ToMake,
}

impl Access {
    /// Whether an absent tape is made.
    pub fn makes(self) -> bool
        ensures { result ≡ makes self }
    {
        match self {
            Access::ToRead | Access::ToWrite => false,
            Access::ToMake => true,
        }
    }
}

/// A call that a world notes.
#[derive(Drop)]
pub enum WorldCall {
    /// For the file of a name.
    File(Text),
    /// For the tape of a name, and what it is asked for.
    Tape {
        name: Text,
        access: Access,
    },
    /// For the random source of a seat.
    RandomSource(u32),
    /// For a link of a seat to a plugin, which this program is.
    Link {
        seat: u32,
        plugin: Text,
        program: Text,
    },
    /// That the tape of a name is back, with all that it holds on the device.
    Settled(Text),
    /// That the tape of a name is back, which was read.
    Returned(Text),
}

/// Files and tapes by their names, random sources by the numbers of seats, and links by seat and
/// plugin. What is handed out can't be dropped: it comes back, also after a refusal, and that needs
/// no memory.
///
/// Each call says what it leaves of each part of the world. A call that asks for something raises
/// the count of faults of its own kind by one where it answers `Failed`, and no count else.
pub trait World {
    /// A file that is read and written at any place. It can move to a thread.
    type Tap: Tape + Send;

    /// The random source of a seat. It can move to a thread.
    type Rand: Dice + Send;

    /// The link to a plugin. It can move to a thread.
    type Link: Kms + Send;

    ghost told: { Self → Outside };

    // This link was handed out for the seat, as it is here; and this one came back so.
    ghost lent: { ℕ → Self.Link → Type 0 };

    ghost took: { ℕ → Self.Link → Type 0 };

    /// How often the files failed so far, in calls of every kind, up to the greatest number.
    fn faults(&self) -> u64
        ensures { result ≡ file_faults (told self.now) };

    /// A whole file of at most `limit` bytes.
    fn load(&mut self, alloc: Global, name: &str, limit: u64) -> Result<Bytes, FileNo>
        ensures file { FetchesFile (told self.old) (told self.new) name.now limit result }
        ensures once { (told self.new).faults.loads
            ≡ counted (has_failed result) (told self.old).faults.loads }
        ensures asked { NotesCall (told self.old) (told self.new) (WorldCall.File name.now) result }
        ensures kind { (told self.new).faults
            ≡ record (told self.old).faults { loads = (told self.new).faults.loads } }
        ensures files { KeepsFiles (told self.old) (told self.new) }
        ensures objects { KeepsObjects (told self.old) (told self.new) };

    /// The file of a name, for what it is asked for; one that is made is empty. It never answers
    /// `TooLong`. A tape that is out isn't handed out a second time: that fails. So does one that
    /// another process has out, unless both only read.
    fn tape(&mut self, alloc: Global, name: &str, access: Access) -> Result<Self::Tap, FileNo>
        ensures ok { IfOk result (λ tape. HandsOut same_name (told self.old).tapes
            (told self.new).tapes name.now (Self.Tap.count tape)) }
        ensures tape { IfOk result (λ tape. IsTape ((told self.old).tapes.told name.now)
            (makes access) (Self.Tap.told tape)) }
        ensures alone { IfOk result (λ tape. (told self.old).tapes.out name.now ≡ 0) }
        ensures cuts { IfOk result (λ tape. Self.Tap.loose tape ≡ false) }
        ensures err { OnErr result ((told self.new).tapes ≡ (told self.old).tapes) }
        ensures refusals { IfErr result
            (λ why. RefusesTape ((told self.old).tapes.told name.now) (makes access) why) }
        ensures failed { IsErrOf result FileNo.Failed
            → Rose (told self.old).faults.tapes (told self.new).faults.tapes }
        ensures once { (told self.new).faults.tapes
            ≡ counted (has_failed result) (told self.old).faults.tapes }
        ensures asked { NotesCall (told self.old) (told self.new)
            (WorldCall.Tape name.now access) result }
        ensures kind { (told self.new).faults
            ≡ record (told self.old).faults { tapes = (told self.new).faults.tapes } }
        ensures files { KeepsFiles (told self.old) (told self.new) }
        ensures dice { (told self.new).dice ≡ (told self.old).dice }
        ensures links { (told self.new).links ≡ (told self.old).links };

    /// The random source of a seat. It never answers `Absent` or `TooLong`.
    fn dice(&mut self, alloc: Global, seat: u32) -> Result<Self::Rand, FileNo>
        ensures ok { IfOk result (λ dice. HandsOut same_seat (told self.old).dice
            (told self.new).dice seat (Self.Rand.count dice)) }
        ensures left { IfOk result
            (λ dice. Self.Rand.left dice ≡ (told self.old).dice.told seat) }
        ensures err { OnErr result ((told self.new).dice ≡ (told self.old).dice) }
        ensures refusals { IfErr result IsFaultOrMemory }
        ensures failed { IsErrOf result FileNo.Failed
            → Rose (told self.old).faults.dice (told self.new).faults.dice }
        ensures once { (told self.new).faults.dice
            ≡ counted (has_failed result) (told self.old).faults.dice }
        ensures asked { NotesCall (told self.old) (told self.new) (WorldCall.RandomSource seat)
            result }
        ensures kind { (told self.new).faults
            ≡ record (told self.old).faults { dice = (told self.new).faults.dice } }
        ensures files { KeepsFiles (told self.old) (told self.new) }
        ensures tapes { (told self.new).tapes ≡ (told self.old).tapes }
        ensures links { (told self.new).links ≡ (told self.old).links };

    /// A link of a seat to the plugin, which the program of this name is. It never answers `Absent`
    /// or `TooLong`.
    fn link(
        &mut self,
        alloc: Global,
        seat: u32,
        plugin: &str,
        program: &str,
    ) -> Result<Self::Link, FileNo>
        ensures ok { IfOk result (λ link. HandsOut same_link (told self.old).links
            (told self.new).links (seat, plugin.now) (Self.Link.link link).count) }
        ensures link { IfOk result
            (λ link. Self.Link.link link ≡ link_at (told self.old).links seat plugin.now) }
        ensures lent { IfOk result (lent seat) }
        ensures err { OnErr result ((told self.new).links ≡ (told self.old).links) }
        ensures refusals { IfErr result IsFaultOrMemory }
        ensures failed { IsErrOf result FileNo.Failed
            → Rose (told self.old).faults.links (told self.new).faults.links }
        ensures once { (told self.new).faults.links
            ≡ counted (has_failed result) (told self.old).faults.links }
        ensures asked { NotesCall (told self.old) (told self.new)
            (WorldCall.Link seat plugin.now program.now) result }
        ensures kind { (told self.new).faults
            ≡ record (told self.old).faults { links = (told self.new).faults.links } }
        ensures files { KeepsFiles (told self.old) (told self.new) }
        ensures tapes { (told self.new).tapes ≡ (told self.old).tapes }
        ensures dice { (told self.new).dice ≡ (told self.old).dice };

    /// Takes the tape of the name back.
    fn back_tape(&mut self, name: &str, tape: Self::Tap)
        requires { 0 < (told self.old).tapes.out name.now }
        ensures back { TakesBack same_name (told self.old).tapes (told self.new).tapes name.now
            (Self.Tap.count tape) }
        ensures tape { (told self.new).tapes.told name.now
            ≡ option_map Some (Self.Tap.told tape) }
        ensures asked { (told self.new).asked ≡ (told self.old).asked }
        ensures file { (told self.new).file ≡ (told self.old).file }
        ensures faults { (told self.new).faults ≡ (told self.old).faults }
        ensures dice { (told self.new).dice ≡ (told self.old).dice }
        ensures links { (told self.new).links ≡ (told self.old).links };

    /// Takes the tape of the name back, all of which is on the device, and notes that.
    fn back_settled(&mut self, name: &str, tape: Self::Tap)
        requires out { 0 < (told self.old).tapes.out name.now }
        requires settled { Self.Tap.settled tape ≡ true }
        ensures back { TakesBack same_name (told self.old).tapes (told self.new).tapes name.now
            (Self.Tap.count tape) }
        ensures tape { (told self.new).tapes.told name.now
            ≡ option_map Some (Self.Tap.told tape) }
        ensures asked { (told self.new).asked
            ≡ with_call (WorldCall.Settled name.now) (told self.old).asked }
        ensures file { (told self.new).file ≡ (told self.old).file }
        ensures faults { (told self.new).faults ≡ (told self.old).faults }
        ensures dice { (told self.new).dice ≡ (told self.old).dice }
        ensures links { (told self.new).links ≡ (told self.old).links };

    /// Takes the tape of the name back, which was read, and notes that.
    fn back_read(&mut self, name: &str, tape: Self::Tap)
        requires { 0 < (told self.old).tapes.out name.now }
        ensures back { TakesBack same_name (told self.old).tapes (told self.new).tapes name.now
            (Self.Tap.count tape) }
        ensures tape { (told self.new).tapes.told name.now
            ≡ option_map Some (Self.Tap.told tape) }
        ensures asked { (told self.new).asked
            ≡ with_call (WorldCall.Returned name.now) (told self.old).asked }
        ensures file { (told self.new).file ≡ (told self.old).file }
        ensures faults { (told self.new).faults ≡ (told self.old).faults }
        ensures dice { (told self.new).dice ≡ (told self.old).dice }
        ensures links { (told self.new).links ≡ (told self.old).links };

    /// Takes a random source of the seat back.
    fn back_dice(&mut self, seat: u32, dice: Self::Rand)
        requires { 0 < (told self.old).dice.out seat }
        ensures back { TakesBack same_seat (told self.old).dice (told self.new).dice seat
            (Self.Rand.count dice) }
        ensures left { (told self.new).dice.told seat ≡ Self.Rand.left dice }
        ensures asked { (told self.new).asked ≡ (told self.old).asked }
        ensures file { (told self.new).file ≡ (told self.old).file }
        ensures faults { (told self.new).faults ≡ (told self.old).faults }
        ensures tapes { (told self.new).tapes ≡ (told self.old).tapes }
        ensures links { (told self.new).links ≡ (told self.old).links };

    /// Takes a link of the seat to its plugin back.
    fn back_link(&mut self, seat: u32, link: Self::Link)
        requires { 0 < (told self.old).links.out (seat, (Self.Link.link link).name) }
        ensures back { TakesBack same_link (told self.old).links (told self.new).links
            (seat, (Self.Link.link link).name) (Self.Link.link link).count }
        ensures status { (told self.new).links.told (seat, (Self.Link.link link).name)
            ≡ (Self.Link.link link).status }
        ensures took { took seat link }
        ensures asked { (told self.new).asked ≡ (told self.old).asked }
        ensures file { (told self.new).file ≡ (told self.old).file }
        ensures faults { (told self.new).faults ≡ (told self.old).faults }
        ensures tapes { (told self.new).tapes ≡ (told self.old).tapes }
        ensures dice { (told self.new).dice ≡ (told self.old).dice };
}
