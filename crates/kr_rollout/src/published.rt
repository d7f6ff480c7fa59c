//! The configurations of generations.
ghost use Rattle.std.specs.Prelude.{◌≡◌, ◌<◌, length, Some};
ghost use Rattle.kr_provider.specs.Publication.{IsPublished};
ghost use Rattle.kr_rollout.specs.Entries.{published_at};
ghost use Rattle.kr_rollout.specs.States.{number_at};
ghost use Rattle.kr_rollout.specs.inner.Rollouts.{HoldsOne};

use kr_base::Shared;
use kr_opening::Generation;
use kr_provider::Published;

/// The configuration of the generation with this number.
#[tactic(auto, using(crate::proofs::Keeping::read_published))]
pub(crate) fn published_generation(generations: &[Generation], number: u32) -> &Shared<Published>
    requires { number < length generations.now }
    ensures { published_at generations.now (Some number) ≡ Some result.now }
{
    &generations[number as usize].published
}

/// Tells what each published configuration keeps.
pub(crate) fn known(published: &Published)
    ensures { IsPublished published.now }
{
    let _ = &published.settings;
}

/// The configuration of the generation that the seat holds.
pub(crate) fn held_published<'a>(
    generations: &'a [Generation],
    held: &[Option<u32>],
    seat: u32,
) -> &'a Published
    requires { HoldsOne held.now generations.now seat }
    ensures held { published_at generations.now (number_at held.now seat) ≡ Some result.now }
    ensures kept { IsPublished result.now }
{
    let Some(number) = held[seat as usize] else {
        unreachable!()
    };
    let published = published_generation(generations, number).get();
    known(published);
    published
}
