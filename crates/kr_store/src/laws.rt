//! What follows from the definitions of rows, of a file and of its breaches.
ghost use Rattle.kr_store.specs.Laws.{OneFile, OneBreach, NoFileBroken, FileOrBreach, RowFollows, RowStays, LiveIsAt, OneListing, NextsAreListing};

/// Bytes are the file of at most one list of rows, in one format.
pub fn one_file()
    ensures { OneFile }
{}

/// Bytes have at most one first breach, and where they have one they are the file of no rows.
pub fn one_breach()
    ensures one { OneBreach }
    ensures no_file { NoFileBroken }
{}

/// Bytes are the file of some rows, or have a first breach.
pub fn some_answer()
    ensures { FileOrBreach }
{}

/// A row may stand behind the rows before it. It keeps its revision when more rows are written, and
/// a path's live row is the row with its revision.
pub fn one_row()
    ensures follows { RowFollows }
    ensures stays { RowStays }
    ensures live { LiveIsAt }
{}

/// Rows have one listing of the live ones, and asking for the next row from the empty path on gives
/// it.
pub fn one_listing()
    ensures one { OneListing }
    ensures nexts { NextsAreListing }
{}
