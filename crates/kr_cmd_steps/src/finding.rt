//! What a value of a store reads as.

use kr_provider::ValueNo;

/// What a value of a store reads as. Its data are no part of it.
#[derive(Clone, Copy)]
pub enum Finding {
    /// The writer of the resource would write the value so today.
    Fresh,
    /// It is read, and is one to be written anew.
    Stale,
    /// It isn't read.
    Refused(ValueNo),
}
