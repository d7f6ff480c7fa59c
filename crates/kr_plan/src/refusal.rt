//! Why there is no plan.
ghost use Rattle.std.specs.Prelude.{◌≡◌};

use kr_base::NoMemory;
use kr_config::{Class, Counted, Who};

/// Why there is no plan.
#[derive(Debug, Drop)]
pub enum PlanNo {
    /// At this class this provider of the one configuration and one of the other have one kind and
    /// name with two secrets.
    SecretClash { class: Class, who: Who },
    /// The settings of the first phase have this number of these, above their limit.
    TooMany { counted: Counted, number: u32 },
    /// There was no memory.
    NoMemory,
}

impl From<NoMemory> for PlanNo {
    ghost use Rattle.kr_plan.specs.declared.refusal.PlanNo.TheVariants.{NoMemory};

    ghost from_gives = { λ _ e. e ≡ NoMemory };

    fn from(_want: NoMemory) -> PlanNo {
        PlanNo::NoMemory
    }
}
