//! Why calls fail.
ghost use Rattle.std.specs.Prelude.{◌≡◌};

use std::alloc::{AllocError, AllocFailed};

/// A memory allocation was refused. It may take the place of any other answer of a call that
/// allocates.
#[derive(Clone, Copy, Debug, PartialEq, Eq)]
pub struct NoMemory;

impl From<AllocError> for NoMemory {
    ghost from_gives = { λ _ e. e ≡ record {} };

    fn from(_refused: AllocError) -> NoMemory {
        NoMemory
    }
}

/// The value that found no memory is dropped.
impl<T: Drop> From<AllocFailed<T>> for NoMemory {
    ghost from_gives = { λ _ e. e ≡ record {} };

    fn from(_refused: AllocFailed<T>) -> NoMemory {
        NoMemory
    }
}

/// An object of the outside failed; its count of faults tells so.
#[derive(Clone, Copy, Debug, PartialEq, Eq)]
pub struct Failed;

/// A caller has no line left of its budget in the common history.
#[derive(Clone, Copy, Debug, PartialEq, Eq)]
pub struct Spent;

/// Why a source wasn't read whole.
#[derive(Clone, Copy, Debug, PartialEq, Eq)]
pub enum ReadNo {
    /// The source failed.
    Failed,
    /// The source holds more bytes than the limit.
    TooLong,
    /// There was no memory for its bytes.
    NoMemory,
}
