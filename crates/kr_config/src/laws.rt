//! Laws of the definitions, for a reader and for callers' proofs. The function does nothing.
ghost use Rattle.kr_config.specs.Laws.{OneMeaning, SomeMeaning, EachClassNarrows, NextInTable};
ghost use Rattle.kr_config.specs.Laws.{FirstOfBoth, EachClassItsEntry, EntriesNarrow, ReadsAsMeant};

/// The bytes of a configuration mean one thing: its entries, or its first breach.
pub fn one_meaning()
    ensures one { OneMeaning }
    ensures some { SomeMeaning }
{}

/// Some settings' table of classes serves for all classes, and it is gone through by what comes
/// next in each of the settings.
pub fn classes_narrow()
    ensures narrows { EachClassNarrows }
    ensures next { NextInTable }
    ensures first { FirstOfBoth }
{}

/// Settings that have an entry for each class of a table give each class the list of its entry.
pub fn class_entries_give_their_lists()
    ensures each { EachClassItsEntry }
    ensures narrow { EntriesNarrow }
{}

/// A text that means settings is read as these settings, want of memory aside.
pub fn texts_are_read_as_meant()
    ensures { ReadsAsMeant }
{}
