//! Laws of contents: what is found reads as the content. The functions do nothing.
ghost use Rattle.kr_history.specs.ContentLaws.{OneContent, SomeContent, NothingIsAbsent, LiveWasPut, RevisionsRise, LiveReads, FoundIsLive, FoundReads, AbsentIsNothing, ReplacedIsLive, HonestAtEach, HonestByEntries, HonestBySeats, NoNamesNoPlugin, HonestWithoutPlugin, ContentWithoutPlugin};

/// A path has one content alone.
pub fn one_content()
    ensures { OneContent }
{}

/// A path has a content: each stored value has a reading.
pub fn some_content()
    ensures { SomeContent }
{}

/// There is nothing at a path exactly where no row of it is live.
pub fn nothing_is_absent()
    ensures { NothingIsAbsent }
{}

/// What lives was live at the opening, or a Put of its path was written since.
pub fn live_was_put()
    ensures { LiveWasPut }
{}

/// Written revisions rise strictly along a legal history.
pub fn revisions_rise()
    ensures { RevisionsRise }
{}

/// Where what stands at a path is honest, its live row reads by each live generation as the
/// content.
pub fn live_reads()
    ensures { LiveReads }
{}

/// What a Fetch finds is the live row of its path, and what an After finds the live row with the
/// least path above.
pub fn found_is_live()
    ensures { FoundIsLive }
{}

/// What a Fetch or an After finds reads by each live generation as the content of its path before
/// it, where what stood there is honest.
pub fn found_reads()
    ensures { FoundReads }
{}

/// Where a Fetch finds nothing there is nothing.
pub fn absent_is_nothing()
    ensures { AbsentIsNothing }
{}

/// A Replace that is written names the row that was live at its path, and the one in its place.
pub fn replaced_is_live()
    ensures { ReplacedIsLive }
{}

/// A front of an honest history is honest, and one more entry keeps it so exactly where the entry
/// is honest.
pub fn honest_by_entries()
    ensures { HonestByEntries }
{}

/// In an honest history what stands at each path is honest.
pub fn honest_at_each()
    ensures { HonestAtEach }
{}

/// A history that each seat keeps honest is honest, if its opening is.
pub fn honest_by_seats()
    ensures { HonestBySeats }
{}

/// Where the opening lets configurations name no plugin, none does in a legal history.
pub fn no_names_no_plugin()
    ensures { NoNamesNoPlugin }
{}

/// Where no configuration names a plugin, each legal history is honest, whatever
/// sources open to.
pub fn honest_without_plugin()
    ensures { HonestWithoutPlugin }
{}

/// Where no configuration names a plugin, contents are the same, whatever sources
/// open to.
pub fn content_without_plugin()
    ensures { ContentWithoutPlugin }
{}
