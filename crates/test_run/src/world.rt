//! The world in memory, of which calls fail by their numbers too.
ghost use Rattle.std.specs.Prelude.{⊤, None};

use crate::plugin::TurningPlugin;
use kr_base::{Bytes, List, MemDice, MemTape, Text};
use kr_kms::{Access, FileFaults, FileNo, MemWorld, World, WorldCall};
use std::alloc::Global;

/// Which calls fail, by their numbers, the first being 1.
#[derive(Drop)]
struct Numbering {
    fails: List<u64>,
    made: u64,
}

impl Numbering {
    /// Counts one more call, and answers whether it fails.
    fn next_fails(&mut self) -> bool {
        self.made = self.made.saturating_add(1);
        self.fails.as_slice().contains(&self.made)
    }
}

/// A world in memory whose calls fail by their numbers, which go on over all kinds of calls. It
/// keeps what it was asked for.
#[derive(Drop)]
pub struct FailingWorld {
    inner: MemWorld<TurningPlugin>,
    calls: Numbering,
    asked: Vec<WorldCall>,
    faults: FileFaults,
}

impl FailingWorld {
    /// The world in which the calls of these numbers fail; none was made so far.
    pub fn new(alloc: Global, inner: MemWorld<TurningPlugin>, fails: List<u64>) -> FailingWorld {
        FailingWorld {
            inner,
            calls: Numbering { fails, made: 0 },
            asked: Vec::new(alloc),
            faults: FileFaults::new(),
        }
    }

    /// Lends the random source of the seat, if it is there.
    pub fn seat_dice(&self, seat: u32) -> Option<&MemDice> {
        self.inner.seat_dice(seat)
    }

    /// Lends the tape of the name, if it is there.
    pub fn named_tape(&self, name: &str) -> Option<&MemTape> {
        self.inner.named_tape(name)
    }

    /// Lends the link of the seat to the plugin, if it is there.
    pub fn seat_link(&self, seat: u32, plugin: &str) -> Option<&TurningPlugin> {
        self.inner.seat_link(seat, plugin)
    }

    /// What it was asked for so far.
    pub fn asked(&self) -> &[WorldCall] {
        self.asked.as_slice()
    }
}

impl World for FailingWorld {
    type Tap = MemTape;

    type Rand = MemDice;

    type Link = TurningPlugin;

    // It tells nothing of its files, since a load may fail, nor of what it was asked for, since it
    // has no memory to keep that a tape came back.
    ghost told = { λ world. record {
      file = λ name. None;
      asked = None;
      faults = world.faults;
      dice = (⟦<MemWorld<TurningPlugin> as World>⟧.told world.inner).dice;
      tapes = (⟦<MemWorld<TurningPlugin> as World>⟧.told world.inner).tapes;
      links = (⟦<MemWorld<TurningPlugin> as World>⟧.told world.inner).links;
    } };

    // No more is said of its links than that they were handed out and came back.
    ghost lent = { λ seat link. ⊤ };

    ghost took = { λ seat link. ⊤ };

    fn faults(&self) -> u64 {
        self.faults.total()
    }

    fn load(&mut self, alloc: Global, name: &str, limit: u64) -> Result<Bytes, FileNo> {
        let Ok(copy) = Text::copy(alloc, name) else {
            return Err(FileNo::NoMemory);
        };
        if self.asked.push(WorldCall::File(copy)).is_err() {
            return Err(FileNo::NoMemory);
        }
        if self.calls.next_fails() {
            self.faults.loads.rise();
            return Err(FileNo::Failed);
        }
        match self.inner.load(alloc, name, limit) {
            Ok(bytes) => Ok(bytes),
            Err(FileNo::Absent) => Err(FileNo::Absent),
            Err(FileNo::TooLong) => Err(FileNo::TooLong),
            Err(FileNo::NoMemory) => Err(FileNo::NoMemory),
            Err(FileNo::Failed) => {
                self.faults.loads.rise();
                Err(FileNo::Failed)
            }
        }
    }

    fn tape(&mut self, alloc: Global, name: &str, access: Access) -> Result<MemTape, FileNo> {
        let Ok(name_copy) = Text::copy(alloc, name) else {
            return Err(FileNo::NoMemory);
        };
        let call = WorldCall::Tape {
            name: name_copy,
            access,
        };
        if self.asked.push(call).is_err() {
            return Err(FileNo::NoMemory);
        }
        if self.calls.next_fails() {
            self.faults.tapes.rise();
            return Err(FileNo::Failed);
        }
        match self.inner.tape(alloc, name, access) {
            Ok(tape) => Ok(tape),
            Err(FileNo::Absent) => Err(FileNo::Absent),
            Err(FileNo::NoMemory) => Err(FileNo::NoMemory),
            Err(_) => {
                self.faults.tapes.rise();
                Err(FileNo::Failed)
            }
        }
    }

    fn dice(&mut self, alloc: Global, seat: u32) -> Result<MemDice, FileNo> {
        if self.asked.push(WorldCall::RandomSource(seat)).is_err() {
            return Err(FileNo::NoMemory);
        }
        if self.calls.next_fails() {
            self.faults.dice.rise();
            return Err(FileNo::Failed);
        }
        match self.inner.dice(alloc, seat) {
            Ok(dice) => Ok(dice),
            Err(FileNo::NoMemory) => Err(FileNo::NoMemory),
            Err(_) => {
                self.faults.dice.rise();
                Err(FileNo::Failed)
            }
        }
    }

    fn link(
        &mut self,
        alloc: Global,
        seat: u32,
        plugin: &str,
        program: &str,
    ) -> Result<TurningPlugin, FileNo> {
        let Ok(plugin_copy) = Text::copy(alloc, plugin) else {
            return Err(FileNo::NoMemory);
        };
        let Ok(program_copy) = Text::copy(alloc, program) else {
            return Err(FileNo::NoMemory);
        };
        let call = WorldCall::Link {
            seat,
            plugin: plugin_copy,
            program: program_copy,
        };
        if self.asked.push(call).is_err() {
            return Err(FileNo::NoMemory);
        }
        if self.calls.next_fails() {
            self.faults.links.rise();
            return Err(FileNo::Failed);
        }
        match self.inner.link(alloc, seat, plugin, program) {
            Ok(link) => Ok(link),
            Err(FileNo::NoMemory) => Err(FileNo::NoMemory),
            Err(_) => {
                self.faults.links.rise();
                Err(FileNo::Failed)
            }
        }
    }

    fn back_tape(&mut self, name: &str, tape: MemTape) {
        self.inner.back_tape(name, tape);
    }

    fn back_settled(&mut self, name: &str, tape: MemTape) {
        self.inner.back_settled(name, tape);
    }

    fn back_read(&mut self, name: &str, tape: MemTape) {
        self.inner.back_read(name, tape);
    }

    fn back_dice(&mut self, seat: u32, dice: MemDice) {
        self.inner.back_dice(seat, dice);
    }

    fn back_link(&mut self, seat: u32, link: TurningPlugin) {
        self.inner.back_link(seat, link);
    }
}
