//! What follows for a reader of pages and changes. The functions do nothing.
ghost use Rattle.kr_watch.specs.Laws.{ChangesFollowOn, FollowsAll, LiveIsListed, NewestIsLast, NextLineIsNext, NoneIsMissing, NotedIsNewest, OneShown, PagesAreAll, PagesHaveEach, SeedsFollow, SeedsStand, ShownAreAbove, ShownSinceIsShown};

/// What is shown of an opening and a history is one list.
pub fn one_shown()
    ensures { OneShown }
{}

/// Items that are handed to a new watch, each path once, stand at their paths, and nothing else
/// does.
pub fn seeds_stand()
    ensures { SeedsStand }
{}

/// A new watch to which the items of the opening's live rows were handed follows the opening.
pub fn seeds_follow()
    ensures { SeedsFollow }
{}

/// A watch that followed a history and was handed more of it, line by line, follows the whole.
pub fn follows_all()
    ensures { FollowsAll }
{}

/// Where the first items are what is shown of the opening, a watch that follows from them has what
/// is shown of the history.
pub fn shown_since_is_shown()
    ensures { ShownSinceIsShown }
{}

/// Pages that are taken one after another have each item of the resource once and in order, while
/// nothing changes.
pub fn pages_are_all()
    ensures { PagesAreAll }
{}

/// Behind the empty path stand all items of the resource that are shown.
pub fn shown_are_above()
    ensures { ShownAreAbove }
{}

/// Whatever changes between pages, a path at which an item of the resource stands whenever a page
/// is taken is on one of them, once.
pub fn pages_have_each()
    ensures { PagesHaveEach }
{}

/// Whatever lines are noted between pages, a path that lives for the resource whenever a page is
/// taken is on one of them, once.
pub fn live_is_listed()
    ensures { LiveIsListed }
{}

/// Each change of a history has the revision behind the one before it.
pub fn changes_follow_each_other()
    ensures { ChangesFollowOn }
{}

/// The next line of the history that a watch was handed is the one that it may be handed.
pub fn next_line_is_next()
    ensures { NextLineIsNext }
{}

/// Behind a line that wrote a row the newest revision is that of the row.
pub fn noted_is_newest()
    ensures { NotedIsNewest }
{}

/// The newest revision is that of the history's last change, and above one that isn't gone the
/// changes that are kept are all of the history's.
pub fn changes_are_last()
    ensures newest { NewestIsLast }
    ensures whole { NoneIsMissing }
{}
