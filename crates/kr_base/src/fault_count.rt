//! A count of faults.
ghost use Rattle.std.specs.Prelude.{◌≡◌, ◌≤◌};
ghost use Rattle.kr_base.specs.Faults.{Rose};
ghost use Rattle.kr_base.specs.Numbering.{next_number};

use std::marker::Model;

/// How often something failed, up to the greatest number.
#[derive(Drop)]
pub struct FaultCount {
    faults: u64,
}

impl Model for FaultCount {
    ghost use Rattle.std.specs.Prelude.{ℕ};

    ghost Value = { ℕ };

    ghost view = { λ count. count.faults };
}

impl FaultCount {
    /// Nothing failed yet.
    pub fn new() -> FaultCount
        ensures { result ≡ 0 }
    {
        FaultCount { faults: 0 }
    }

    /// There were so many before.
    pub fn from_count(faults: u64) -> FaultCount
        ensures { result ≡ faults }
    {
        FaultCount { faults }
    }

    /// Counts one more fault.
    pub fn rise(&mut self)
        ensures next { self.new ≡ next_number self.old }
        ensures later { self.old ≤ self.new }
        ensures rose { Rose self.old self.new }
    {
        self.faults = self.faults.saturating_add(1);
    }

    /// How many faults there were.
    pub fn count(&self) -> u64
        ensures { result ≡ self.now }
    {
        self.faults
    }
}
