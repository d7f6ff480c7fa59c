//! What a state owes that stands under the lock.
ghost use Rattle.std.specs.Prelude.{◌≡◌, ℕ, ◌<◌, List, [], ◌∷◌, ◌++◌, length};
ghost use Rattle.kr_base.specs.Lines.{of_seat};

/// A state that turns one event of one seat at a time, and keeps one line of each turn.
///
/// `Line` and `Ground` are for contracts alone: the lock makes no value of them, and looks no
/// further into a line than to whose it is. Events and answers may cross threads and may be
/// dropped. What `turn` asks of an event may stand on the ground and on the seat's own lines, which
/// the seat knows; the rest is up to the state's own type.
pub trait Turned {
    /// What a seat does in a turn.
    type Event: Drop + Send;

    /// What the seat is told of it.
    type Answer: Drop + Send;

    /// What the history keeps of a turn.
    type Line;

    /// What the lines stand on, which no turn changes.
    type Ground;

    // The lines so far.
    ghost lines: { Self → List Self.Line };
    // How many lines there may be.
    ghost room: { Self → ℕ };
    // What the lines stand on.
    ghost basis: { Self → Self.Ground };
    // The number of the seat that a line is of.
    ghost seat_of: { Self.Line → ℕ };
    // Whether a seat with these lines of its own may make an event.
    ghost may: { Self.Ground → ℕ → List Self.Line → Self.Event → Type 0 };
    // The law that the lines keep.
    ghost law: { Self.Ground → List Self.Line → Type 0 };
    // How the answer and the line of a seat's event stand to the lines before.
    ghost tells: { Self.Ground → List Self.Line → ℕ
        → Self.Event → Self.Answer → Self.Line → Type 0 };

    /// Makes one turn of a seat: it adds exactly one line, and the line is that seat's.
    fn turn(&mut self, seat: u32, event: Self::Event) -> Self::Answer
        requires room { length (lines self.old) < room self.old }
        requires may { may (basis self.old) seat (of_seat seat_of seat (lines self.old)) event }
        ensures kept { (room self.new ≡ room self.old) × (basis self.new ≡ basis self.old) }
        ensures line { (line : Self.Line) × (lines self.new ≡ lines self.old ++ line ∷ [])
            × (seat_of line ≡ seat)
            × tells (basis self.old) (lines self.old) seat event result line }
        ensures law_before { law (basis self.old) (lines self.old) }
        ensures law_after { law (basis self.old) (lines self.new) };
}
