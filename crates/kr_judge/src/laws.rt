//! Laws of the definitions, for a reader and for callers' proofs. The functions do nothing.
ghost use Rattle.kr_judge.specs.Laws.{PassesExactly, TableComputes, HasMembers, StaySorted, SetAtPath, DropAtPath, PathsAreNeeds, NumbersAreLive};

/// The verdict is `Pass` exactly where the new settings read all that is stored and all that the
/// other live generations write, and these read what the new settings write.
pub fn passes_exactly()
    ensures { PassesExactly }
{}

/// The classes that a judgement goes through are the table of the same settings, and there is one
/// such table.
pub fn judged_classes_are_the_table()
    ensures { TableComputes }
{}

/// A list has a provider exactly where one of its members has its kind, its name and its secret.
pub fn providers_are_told_apart()
    ensures { HasMembers }
{}

/// Needs stay in the order of their paths, one a path.
pub fn needs_stay_by_path()
    ensures { StaySorted }
{}

/// A need is set at its own path and dropped at a path alone.
pub fn needs_go_by_path()
    ensures set { SetAtPath }
    ensures drop { DropAtPath }
{}

/// What a scan gives, which a board keeps: the paths that need a provider in the list of a resource
/// are those at which just that is needed, and the live numbers are those of the live generations.
pub fn scans_are_exact()
    ensures paths { PathsAreNeeds }
    ensures live { NumbersAreLive }
{}
