//! Laws for callers. The functions do nothing.
ghost use Rattle.kr_kms.specs.Laws.{KeysAreToldApart, FetchedSeedsOpen, MadeSeedsOpen, TablesAgree};

use kr_base::Dice;

/// Objects that a world lends are told apart by their whole keys.
pub fn keys_are_told_apart()
    ensures { KeysAreToldApart }
{}

/// What a cache keeps and gives is what the link's answers say that it opens to.
pub fn fetched_seeds_open()
    ensures { FetchedSeedsOpen }
{}

/// So is a seed that was made.
pub fn made_seeds_open<D: Dice>()
    ensures { MadeSeedsOpen D.left D.count }
{}

/// Plugins in memory answer as is supposed of plugins.
pub fn tables_agree()
    ensures { TablesAgree }
{}
