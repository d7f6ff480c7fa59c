//! Why a tape is refused, and why a row is not written.

/// Why a tape wasn't loaded; the place is that of the first byte of the row that breaks the form.
#[derive(Clone, Copy, Debug, PartialEq, Eq)]
pub enum StoreNo {
    /// The first bytes, at most 8, neither name a format nor begin such a name.
    Magic,
    /// The file ends inside the part that is read next.
    Torn { at: u64 },
    /// A row's kind, path, resource or length breaks its rule, or it deletes a path without a live
    /// row.
    BadRow { at: u64 },
    /// A row's revision isn't the number of the rows before it plus 1.
    Order { at: u64 },
    /// The tape is longer than the limit.
    TooLong,
    /// The tape failed.
    Failed,
    /// There was no memory for the rows.
    NoMemory,
}

/// Why a row wasn't written.
#[derive(Clone, Copy, PartialEq, Eq)]
pub enum PutNo {
    /// The tape failed.
    Failed,
    /// The file would be this long, which is above the limit.
    Full { needed: u64 },
    /// The path's last row isn't a put of that revision. It has this one, or there is none: 0.
    Changed { revision: u64 },
    /// There was no memory for the row.
    NoMemory,
}

/// What is wrong at a row, apart from its place.
#[derive(Drop)]
pub(crate) enum Cause {
    Torn,
    BadRow,
    Order,
}

/// Why reading stops.
#[derive(Drop)]
pub(crate) enum LoadStop {
    Breach(Cause),
    Failed,
    NoMemory,
}
