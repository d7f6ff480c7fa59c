//! Laws of the definitions, for a reader and for callers' proofs. The functions do nothing.
ghost use Rattle.kr_cmd_laws.specs.CommandLaws.{CommandsAreRead, TapesAreLeft};

/// What readers take from the relation of a command that was done alone.
pub fn commands_are_read()
    ensures { CommandsAreRead }
{}

/// What such a command leaves of the tapes, by its status.
pub fn tapes_are_left()
    ensures { TapesAreLeft }
{}
