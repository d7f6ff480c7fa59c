//! Laws of the definitions, for a reader and for callers' proofs. The functions do nothing.
ghost use Rattle.kr_provider.specs.Laws.{SealedReads, SealingReads, SealingIsSized, HasOneReading, ReadsWithoutPlugin, ReadsSomehow, ReadsUnderItsTag, UnsealsWithoutPlugin, PublishesInOrder, LinksStay};
ghost use Rattle.kr_provider.specs.BenchKeys.{PagesFollowCalls};
ghost use Rattle.std.specs.Prelude.{ℕ, List};

use kr_base::Dice;
use kr_kms::Kms;

/// What a provider sealed reads as the data that were sealed.
pub fn data_of_sealed()
    ensures { SealedReads }
{}

/// What a published configuration sealed reads as the data that were sealed, and as nothing else.
pub fn data_of_sealing()
    ensures { SealingReads }
{}

/// How long a sealed value is, and that it isn't too long to be unsealed.
pub fn size_of_sealing()
    ensures { SealingIsSized }
{}

/// A value has one reading alone.
pub fn one_reading()
    ensures { HasOneReading }
{}

/// Where a list names no plugin, its values are read whatever plugins' sources open to.
pub fn reading_without_plugin()
    ensures { ReadsWithoutPlugin }
{}

/// Where settings name no plugin, a bench asks no link, and reads values with any envelope.
pub fn unsealing_without_plugin<L: Kms>()
    ensures { UnsealsWithoutPlugin L.link }
{}

/// What a value reads as by what sources open to, it reads as with some unwrapped source.
pub fn some_reading()
    ensures { ReadsSomehow }
{}

/// A value of aesgcm, or of a plugin whose object's source was unwrapped, is data at the paths of
/// its tag alone.
pub fn tag_of_path()
    ensures { ReadsUnderItsTag }
{}

/// Publishing goes through the plugins by the order of their names.
pub fn publishing_in_order<L: Kms, D: Dice>()
    ensures { PublishesInOrder L.link D.left D.count }
{}

/// Links that were asked are those of before. Proofs that cite this law may cite the lemmas of
/// `proofs/AskedLists`.
pub fn asked_links<L: Kms>()
    ensures { (names : List (List ℕ)) → LinksStay L.link names }
{}

/// At every moment between two things that a bench is asked for, its pages hold exactly the
/// schedules of the configuration that it adopted last and didn't let go since, and every other
/// page is free and zero.
pub fn pages_follow_calls<L: Kms, D: Dice>()
    ensures { PagesFollowCalls L D }
{}
