//! What a seat knows, for proofs alone: no value of these types is made.
use std::collections::LinkedList;

/// Where a seat is.
pub enum Stage<L> {
    /// The first seat, before the state is in the slot.
    Blank,
    /// The first seat, with the slot in hand.
    Filling,
    /// It is neither waiting nor served.
    Idle,
    /// It has drawn this ticket.
    Waiting(u64),
    /// It is served and has the slot in hand; these are the lines that were served.
    Holding(LinkedList<L>),
    /// It was joined to another seat.
    Gone,
}

/// What never changes under one lock.
pub struct Terms<G> {
    /// What the lines stand on.
    pub basis: G,
    /// How many lines there may be.
    pub room: u64,
    /// How many turns each seat may make, by its number.
    pub budgets: LinkedList<u64>,
}

/// What an ended seat knew.
pub struct ViewPart<L> {
    /// The seat's number.
    pub number: u32,
    /// The lines up to its latest one.
    pub seen: LinkedList<L>,
    /// Its own lines.
    pub mine: LinkedList<L>,
}

/// What a seat knows.
pub struct View<L, G> {
    /// Where it is.
    pub stage: Stage<L>,
    /// None for a joined seat alone.
    pub terms: Option<Terms<G>>,
    /// The number that it speaks for.
    pub number: u32,
    /// The lines up to this seat's latest one.
    pub seen: LinkedList<L>,
    /// The lines of this seat.
    pub mine: LinkedList<L>,
    /// How many turns are left.
    pub left: u64,
    /// The seats that were joined to this one.
    pub ended: LinkedList<ViewPart<L>>,
    /// How many seats there are, where this is the seat that makes them.
    pub made: Option<u32>,
}
