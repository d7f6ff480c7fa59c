//! The counts of faults of a world's files.
ghost use Rattle.std.specs.Prelude.{◌≡◌, ◌+◌, ◌^◌, ◌-◌, min};

use kr_base::FaultCount;

/// How often the files of a world failed, a count for each kind of call, each up to the greatest
/// number.
#[derive(Drop)]
pub struct FileFaults {
    pub loads: FaultCount,
    pub tapes: FaultCount,
    pub dice: FaultCount,
    pub links: FaultCount,
}

impl FileFaults {
    /// Nothing failed yet.
    pub fn new() -> FileFaults
        ensures { result ≡ record { loads = 0; tapes = 0; dice = 0; links = 0 } }
    {
        FileFaults {
            loads: FaultCount::new(),
            tapes: FaultCount::new(),
            dice: FaultCount::new(),
            links: FaultCount::new(),
        }
    }

    /// How often they failed in calls of every kind, up to the greatest number.
    pub fn total(&self) -> u64
        ensures { result ≡ min (self.now.loads + self.now.tapes + self.now.dice + self.now.links)
            (2 ^ 64 - 1) }
    {
        self.loads
            .count()
            .saturating_add(self.tapes.count())
            .saturating_add(self.dice.count())
            .saturating_add(self.links.count())
    }
}
