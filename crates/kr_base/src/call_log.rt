//! Which calls of an object in memory fail.
ghost use Rattle.std.specs.Prelude.{◌≡◌, ◌≤◌, ◌↔◌, ◌⊎◌, IsTrue, if◌then◌else◌};
ghost use Rattle.std.specs.Bool.{OnTrue};
ghost use Rattle.kr_base.specs.Faults.{Rose};
ghost use Rattle.kr_base.specs.InMemory.{IsListed};
ghost use Rattle.kr_base.specs.Numbering.{next_number};

use crate::fault_count::FaultCount;
use crate::list::List;
use std::marker::Model;

/// Which calls of an object in memory fail: those whose numbers are listed, and those that it can't
/// serve.
#[derive(Drop)]
pub struct CallLog {
    fails: List<u64>,
    made: u64,
    faults: FaultCount,
}

impl Model for CallLog {
    ghost use Rattle.kr_base.specs.InMemory.{Calls};

    ghost Value = { Calls };

    ghost view = { λ log. record { fails = log.fails.0; made = log.made; faults = log.faults } };
}

impl CallLog {
    /// No call was made; those with these numbers, counted from 1, will fail.
    pub fn new(fails: List<u64>) -> CallLog
        ensures { result ≡ record { fails = fails.0; made = 0; faults = 0 } }
    {
        CallLog {
            fails,
            made: 0,
            faults: FaultCount::new(),
        }
    }

    /// Counts one more call, and answers whether it fails: its number is listed, or it can't be
    /// served.
    pub fn fails(&mut self, unserved: bool) -> bool
        ensures fails { self.new.fails ≡ self.old.fails }
        ensures made { self.new.made ≡ next_number self.old.made }
        ensures failed { IsTrue result ↔ (IsListed self.old ⊎ IsTrue unserved) }
        ensures faults { self.new.faults
            ≡ (if result then next_number self.old.faults else self.old.faults) }
        ensures later { self.old.faults ≤ self.new.faults }
        ensures rose { OnTrue result (Rose self.old.faults self.new.faults) }
    {
        self.made = self.made.saturating_add(1);
        let failed = self.fails.as_slice().contains(&self.made) || unserved;
        if failed {
            self.faults.rise();
        }
        failed
    }

    /// How many calls failed, up to the greatest number.
    pub fn faults(&self) -> u64
        ensures { result ≡ self.now.faults }
    {
        self.faults.count()
    }
}
