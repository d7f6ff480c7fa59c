//! Why a part of a line wasn't read.

/// Why a part of a line wasn't read.
#[derive(Clone, Copy)]
pub enum LineError {
    /// It isn't of the profile.
    Form,
    /// There was no memory.
    NoMemory,
}
