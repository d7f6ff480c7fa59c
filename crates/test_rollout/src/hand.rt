//! What a hand keeps of a seat.
ghost use Rattle.std.specs.Prelude.{◌≡◌, Some, IfOk};
ghost use Rattle.test_rollout.specs.Hands.{event_effect, answer_gain, hand_after};

use kr_base::Shared;
use kr_provider::Published;
use kr_rollout::{Answer, Event};
use kr_store::Row;
use test_support::Wrong;

/// What is kept of a seat between its events.
#[derive(Drop)]
pub struct Hand {
    /// The generation that it holds.
    pub held: Option<Shared<Published>>,
    /// The row that it found last.
    pub found: Option<Shared<Row>>,
    /// How many configurations it may still bring.
    pub left: u32,
    /// How many replicas the core has.
    pub replicas: u32,
}

/// What an event does to a hand, whatever is answered.
#[derive(Clone, Copy)]
pub enum Kind {
    /// What was found is found no more.
    Forgets,
    /// What is found now takes its place.
    Looks,
    /// One configuration less may be brought.
    Brings,
    /// It leaves all as it is.
    Leaves,
}

/// What an answer puts into a hand, or takes from it.
#[derive(Drop)]
pub enum Gain {
    /// A generation to hold.
    Held(Shared<Published>),
    /// A row that was found.
    Found(Shared<Row>),
    /// Nothing is held any more.
    Released,
    /// It says nothing of the hand.
    Nothing,
}

/// What this event does to a hand.
pub fn event_effect(event: &Event) -> Kind
    ensures { result ≡ event_effect event.now }
{
    match event {
        Event::Adopt { .. } => Kind::Forgets,
        Event::Fetch { .. } => Kind::Looks,
        Event::After { .. } => Kind::Looks,
        Event::Put { .. } => Kind::Leaves,
        Event::Delete { .. } => Kind::Leaves,
        Event::Replace { .. } => Kind::Leaves,
        Event::LetGo => Kind::Leaves,
        Event::Reload { .. } => Kind::Brings,
        Event::Join { .. } => Kind::Brings,
        Event::Leave { .. } => Kind::Leaves,
    }
}

/// What this answer puts into a hand.
pub fn answer_gain(answer: Answer) -> Gain
    ensures { result ≡ answer_gain answer }
{
    match answer {
        Answer::Adopted { published, .. } => Gain::Held(published),
        Answer::Found(row) => Gain::Found(row),
        Answer::Released => Gain::Released,
        other => {
            drop(other);
            Gain::Nothing
        }
    }
}

impl Hand {
    /// What it holds.
    pub fn held(&self) -> Result<&Shared<Published>, Wrong>
        ensures { IfOk result (λ p. self.now.held ≡ Some p.now) }
    {
        match &self.held {
            Some(published) => Ok(published),
            None => Err(Wrong::Form),
        }
    }

    /// The row that it found last.
    pub fn found(&self) -> Result<&Row, Wrong>
        ensures { IfOk result (λ row. self.now.found ≡ Some row.now) }
    {
        match &self.found {
            Some(row) => Ok(row.get()),
            None => Err(Wrong::Form),
        }
    }

    /// Takes what came of an event of this kind.
    pub fn take(&mut self, kind: Kind, gain: Gain)
        ensures { self.new ≡ hand_after kind gain self.old }
    {
        match kind {
            Kind::Forgets => self.found = None,
            Kind::Looks => self.found = None,
            Kind::Brings => self.left = self.left.saturating_sub(1),
            Kind::Leaves => {}
        }
        match gain {
            Gain::Held(published) => self.held = Some(published),
            Gain::Found(row) => {
                if matches!(kind, Kind::Looks) {
                    self.found = Some(row);
                }
            }
            Gain::Released => self.held = None,
            Gain::Nothing => {}
        }
    }
}
