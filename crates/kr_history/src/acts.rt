//! What a caller has of a core.
ghost use Rattle.std.specs.Prelude.{◌≡◌, ◌↔◌, IsErr, IfOk, OnErr};
ghost use Rattle.kr_history.specs.Acting.{Caller, IsCaller, AddsEntry};
ghost use Rattle.kr_rollout.specs.Callers.{MayAsk};

use kr_base::Spent;
use kr_rollout::{Answer, Event};

/// A caller of a core: one seat, alone or among others.
///
/// `Place` is for contracts alone: the core that it acts on, as what lends the core shows it.
pub trait Acts {
    type Place;

    // The core that each of its events is one of. Nothing that a caller does leaves it.
    ghost place: { Self → Self.Place };

    // What it knows: its opening, its seat, a front of the journal that has all its lines so far,
    // these, and how many it may still add.
    ghost caller: { Self → Caller };

    /// Its seat.
    fn seat(&self) -> u32
        ensures { result ≡ (caller self.now).seat };

    /// What is known of each caller. It does nothing.
    fn known(&self)
        ensures { IsCaller (caller self.now) };

    /// Makes one event of the seat. `Spent` comes exactly where the caller may add no more lines,
    /// and then nothing changes.
    fn act(&mut self, event: Event) -> Result<Answer, Spent>
        requires { MayAsk (caller self.old).opening (caller self.old).seat (caller self.old).mine
            event }
        ensures spent { IsErr result ↔ ((caller self.old).left ≡ 0) }
        ensures nothing { OnErr result (caller self.new ≡ caller self.old) }
        ensures acted { IfOk result
            (λ answer. AddsEntry (caller self.old) event answer (caller self.new)) }
        ensures place { place self.new ≡ place self.old };
}
