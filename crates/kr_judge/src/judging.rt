//! The first reason of each kind against new settings.
ghost use Rattle.std.specs.Prelude.{◌≡◌, ◌≢◌, [], ◌∷◌, None, MatchResult};
ghost use Rattle.std.specs.Option.{option_map};
ghost use Rattle.kr_config.specs.Kept.{rows_of};
ghost use Rattle.kr_config.specs.Nexts.{lent_class};
ghost use Rattle.kr_judge.specs.Verdicts.{first, verdict_of};
ghost use Rattle.kr_judge.specs.declared.judging.Writer.TheVariants.{Other, New};
ghost use Rattle.kr_judge.specs.declared.verdict.Verdict.TheVariants.{Pass};
ghost use Rattle.kr_judge.specs.inner.Losses.{losses_at, losses_on, losses, nearer};

use crate::class_walk::next_class;
use crate::generation_list::GenerationList;
use crate::need_index::NeedIndex;
use crate::provider_lists::unread_writer;
use crate::verdict::Verdict;
use kr_base::NoMemory;
use kr_config::{BorrowedClass, Settings, Who};
use std::alloc::Global;

/// Which of two settings write, where the other must read.
#[derive(Clone, Copy)]
pub enum Writer {
    /// Those of a live generation.
    Other,
    /// The new ones.
    New,
}

/// What the one of a generation's settings and the new ones write at the class, where it isn't in
/// the list of the other.
fn unread_provider<'a>(
    writer: Writer,
    class: BorrowedClass<'_>,
    own: &'a Settings,
    new: &'a Settings,
    place: usize,
) -> Option<&'a Who>
    ensures { option_map (λ who. (lent_class class.entry, who.now)) result
        ≡ first (losses_at writer (lent_class class.entry ∷ []) (rows_of own.now.entries.0)
        (rows_of new.now.entries.0)) }
{
    let (own, new) = (own.hinted_list(class, place), new.hinted_list(class, place));
    match writer {
        Writer::Other => unread_writer(own, new),
        Writer::New => unread_writer(new, own),
    }
}

/// The first of the other live generations with which a writer isn't read at the class.
#[tactic(auto, using(crate::proofs::Walks::loss_within))]
fn earliest_loss<'a>(
    generations: &'a GenerationList,
    writer: Writer,
    replica: u32,
    settings: &'a Settings,
    class: BorrowedClass<'a>,
    place: usize,
) -> Option<(u32, BorrowedClass<'a>, &'a Who)>
    ensures { option_map (λ lost. (lost.0, lent_class lost.1, lost.2.now)) result
        ≡ first (losses_on writer (lent_class class.entry ∷ []) replica
        (rows_of settings.now.entries.0) generations.now.generations) }
{
    for number in generations.live() {
        let generation = generations.get_numbered(*number);
        if generation.is_other(replica) {
            let own = generation.settings.get();
            let unread = unread_provider(writer, class, own, settings, place);
            if let Some(who) = unread {
                return Some((*number, class, who));
            }
        }
    }
    None
}

/// The one of the lesser generation, and of one generation the first.
fn nearer_loss<'a>(
    best: Option<(u32, BorrowedClass<'a>, &'a Who)>,
    other: Option<(u32, BorrowedClass<'a>, &'a Who)>,
) -> Option<(u32, BorrowedClass<'a>, &'a Who)>
    ensures { option_map (λ lost. (lost.0, lent_class lost.1, lost.2.now)) result
        ≡ nearer (option_map (λ lost. (lost.0, lent_class lost.1, lost.2.now)) best.entry)
        (option_map (λ lost. (lost.0, lent_class lost.1, lost.2.now)) other.entry) }
{
    match (best, other) {
        (Some(first), Some(rival)) => if rival.0 < first.0 {
            Some(rival)
        } else {
            Some(first)
        },
        (Some(first), None) => Some(first),
        (None, other) => other,
    }
}

/// The first of the other live generations, and of their classes the first, whose writer the new
/// settings don't read; and the first that doesn't read what they write. It goes over the classes
/// once, and tells each settings the class's place among all as a guess of its place in them.
#[tactic(auto, using(crate::proofs::Nearest::left_smaller))]
fn first_losses<'a>(
    generations: &'a GenerationList,
    replica: u32,
    settings: &'a Settings,
) -> (
    Option<(u32, BorrowedClass<'a>, &'a Who)>,
    Option<(u32, BorrowedClass<'a>, &'a Who)>,
)
    ensures dropped { option_map (λ lost. (lost.0, lent_class lost.1, lost.2.now)) result.0
        ≡ first (losses Other replica (rows_of settings.now.entries.0)
        generations.now.generations) }
    ensures unread { option_map (λ lost. (lost.0, lent_class lost.1, lost.2.now)) result.1
        ≡ first (losses New replica (rows_of settings.now.entries.0)
        generations.now.generations) }
{
    let mut after = None;
    let mut dropped = None;
    let mut unread = None;
    let mut place: usize = 0;
    while let Some(class) = next_class(generations, settings, after, place) {
        let other = earliest_loss(generations, Writer::Other, replica, settings, class, place);
        let new = earliest_loss(generations, Writer::New, replica, settings, class, place);
        dropped = nearer_loss(dropped, other);
        unread = nearer_loss(unread, new);
        after = Some(class);
        place = place.saturating_add(1);
    }
    (dropped, unread)
}

/// The first reason of all.
#[tactic(auto, using(crate::proofs::Verdicts::passes_none))]
pub fn judge(
    alloc: Global,
    generations: &GenerationList,
    needs: &NeedIndex,
    replica: u32,
    settings: &Settings,
) -> Result<Verdict, NoMemory>
    requires { needs.now.proposal ≡ None }
    ensures { MatchResult result
        (λ told. told ≡ verdict_of needs.now.needs generations.now.generations replica
        (rows_of settings.now.entries.0))
        (λ _. verdict_of needs.now.needs generations.now.generations replica
        (rows_of settings.now.entries.0) ≢ Pass) }
{
    match needs.first_dropped(settings) {
        Some((path, who)) => return Verdict::drops_stored(alloc, path, who),
        None => {}
    }
    match first_losses(generations, replica, settings) {
        (Some((number, class, who)), _) => {
            Verdict::on_lost_class(alloc, Writer::Other, number, class, who)
        }
        (None, Some((number, class, who))) => {
            Verdict::on_lost_class(alloc, Writer::New, number, class, who)
        }
        (None, None) => Ok(Verdict::Pass),
    }
}
