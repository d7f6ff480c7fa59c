//! The classes that some settings tell apart, gone through in their order without memory.
ghost use Rattle.std.specs.Option.{option_map};
ghost use Rattle.kr_config.specs.Kept.{rows_of};
ghost use Rattle.kr_config.specs.Nexts.{lent_class, IsNextClass};
ghost use Rattle.kr_judge.specs.Verdicts.{judged_classes};

use crate::generation_list::GenerationList;
use kr_config::{BorrowedClass, Settings, first_class};

/// The first class after this one of those that the live generations and the new settings tell
/// apart. It is found at once in those where its number is this, as in most while few settings
/// differ.
#[tactic(auto, using(crate::proofs::Walks::loss_within))]
pub fn next_class<'a>(
    generations: &'a GenerationList,
    settings: &'a Settings,
    after: Option<BorrowedClass<'_>>,
    place: usize,
) -> Option<BorrowedClass<'a>>
    ensures { IsNextClass
        (judged_classes (rows_of settings.now.entries.0) generations.now.generations)
        (option_map lent_class after.entry) (option_map lent_class result) }
{
    let mut next = settings.hinted_next_class(after, place);
    for number in generations.live() {
        let own = generations.get_numbered(*number).settings.get();
        next = first_class(next, own.hinted_next_class(after, place));
    }
    next
}
