//! Laws for calls over a core. The functions do nothing.
ghost use Rattle.kr_history.specs.CallLaws.{HeldIsAdmitted, HeldOpens, HeldIsNamed, FoundKeepsRules, HandedOutKeepsRules, FoundIsNamed, HonestyFollows, HonestyStands, BudgetFollows, RowsAreWritten, CallerFollows, QuietKeepsHonesty, HoldStays};

/// What a caller holds keeps its rules and names the opening's plugins alone, its seeds open in
/// honest histories, and each entry of the caller names it.
pub fn held_is_known()
    ensures admitted { HeldIsAdmitted }
    ensures opens { HeldOpens }
    ensures named { HeldIsNamed }
{}

/// What a caller found keeps its rules, and the entry of a Replace names it.
pub fn found_is_known()
    ensures rules { FoundKeepsRules }
    ensures handed_out { HandedOutKeepsRules }
    ensures named { FoundIsNamed }
{}

/// What a caller keeps honest stays so with one more event of its own, and in each history in
/// which its view stands.
pub fn honesty_follows()
    ensures acted { HonestyFollows }
    ensures stands { HonestyStands }
{}

/// What is known of each caller holds of it with one more event. An event that neither replaces a
/// row nor brings a configuration keeps honest what the caller saw, and one that neither adopts nor
/// lets go leaves what it holds.
pub fn caller_follows()
    ensures known { CallerFollows }
    ensures honest { QuietKeepsHonesty }
    ensures holds { HoldStays }
{}

/// A caller's budget falls by one with each event that brings a configuration.
pub fn budget_follows()
    ensures { BudgetFollows }
{}

/// The store's rows are the opening's and those that the entries wrote.
pub fn rows_are_written()
    ensures { RowsAreWritten }
{}
