//! Laws of what one entry does, by its line alone. The functions do nothing.
ghost use Rattle.kr_history.specs.LineLaws.{LineChangesLive, LineChangesContent, FaultsAreTold, TornIsTold};

/// A Put leaves at its path a row of its resource with the revision that is told, a Delete none,
/// and a Replace one of the same resource. At each other path, and by each other answer, all is as
/// before.
pub fn line_changes_live()
    ensures { LineChangesLive }
{}

/// A written Put leaves its data as the content of its path and a written Delete nothing; by all
/// else each content is as before.
pub fn line_changes_content()
    ensures { LineChangesContent }
{}

/// No fault of the store is hidden: where no entry tells that the store failed, the count of its
/// faults stays.
pub fn faults_are_told()
    ensures { FaultsAreTold }
{}

/// Whether a write has failed since the last one that was done is told by the last entry that tells
/// of a write: after a row that was written none has, also where writes failed before it.
pub fn torn_is_told()
    ensures { TornIsTold }
{}
