//! Changes of kept generations and of the numbers of those that are live.
ghost use Rattle.std.specs.Prelude.{◌≡◌, ◌<◌, ◌≤◌, ◌+◌, ◌^◌, ◌++◌, ◌==◌, [], ◌∷◌, not, true, if◌then◌else◌, IfSome, IfNone, vec_len, vec_capacity};
ghost use Rattle.std.specs.List.{filter, slice_get};
ghost use Rattle.std.specs.Option.{IsSomeAnd};
ghost use Rattle.kr_config.specs.Kept.{rows_of};
ghost use Rattle.kr_judge.specs.Boards.{HasOneCurrent, is_live, without_current, added_generation, is_replica_current, held_more, held_less, changed_at, MayHold, IsHeld};
ghost use Rattle.kr_judge.specs.inner.Lives.{uncurrent};
ghost use Rattle.kr_judge.specs.Scans.{live_numbers};
ghost use Rattle.kr_judge.specs.inner.Views.{generations_of};

use crate::generation::JudgedGeneration;
use kr_base::Shared;
use kr_config::Settings;

/// Makes the next generation, which is live, in room that is there.
#[tactic(auto, using(crate::proofs::Lives::added_live))]
pub fn add(
    generations: &mut Vec<JudgedGeneration>,
    live: &mut Vec<u32>,
    replica: u32,
    settings: Shared<Settings>,
)
    requires live { live.old.items ≡ live_numbers (generations_of generations.old.items) }
    requires short { vec_len generations.old < 2 ^ 32 }
    requires room { vec_len generations.old < vec_capacity generations.old }
    requires live_room { vec_len live.old < vec_capacity live.old }
    ensures added { generations_of generations.new.items ≡ generations_of generations.old.items
        ++ added_generation replica (rows_of settings.entries.0) ∷ [] }
    ensures live { live.new.items ≡ live_numbers (generations_of generations.new.items) }
    ensures length { vec_len generations.new ≡ vec_len generations.old + 1 }
    ensures live_length { vec_len live.new ≡ vec_len live.old + 1 }
    ensures room { vec_capacity generations.new ≡ vec_capacity generations.old }
    ensures live_room { vec_capacity live.new ≡ vec_capacity live.old }
{
    live.push_reserved(generations.len() as u32);
    generations.push_reserved(JudgedGeneration {
        replica,
        settings,
        current: true,
        holders: 0,
    });
}

/// One more holds the generation.
#[tactic(auto, using(crate::proofs::Holders::hold_there, crate::proofs::Holders::hold_fits, crate::proofs::Holders::hold_set))]
pub fn hold(generations: &mut Vec<JudgedGeneration>, at: usize)
    requires { MayHold at (generations_of generations.old.items) }
    ensures held { generations_of generations.new.items
        ≡ changed_at held_more at (generations_of generations.old.items) }
    ensures length { vec_len generations.new ≡ vec_len generations.old }
    ensures room { vec_capacity generations.new ≡ vec_capacity generations.old }
{
    generations[at].holders += 1;
}

/// One fewer holds the generation.
#[tactic(auto, using(crate::proofs::Lives::released_live))]
pub fn release(generations: &mut Vec<JudgedGeneration>, live: &mut Vec<u32>, number: u32)
    requires held { IsHeld number (generations_of generations.old.items) }
    requires live { live.old.items ≡ live_numbers (generations_of generations.old.items) }
    ensures released { generations_of generations.new.items
        ≡ changed_at held_less number (generations_of generations.old.items) }
    ensures live { live.new.items ≡ live_numbers (generations_of generations.new.items) }
    ensures length { vec_len generations.new ≡ vec_len generations.old }
    ensures live_length { vec_len live.new ≤ vec_len live.old }
    ensures room { vec_capacity generations.new ≡ vec_capacity generations.old }
    ensures live_room { vec_capacity live.new ≡ vec_capacity live.old }
{
    let still = drop_holder(generations, number as usize);
    take_unless(live, number, still);
}

/// No generation of the replica is current any more.
#[tactic(auto, using(crate::proofs::Lives::left_nothing, crate::proofs::Searches::current_there))]
pub fn leave(generations: &mut Vec<JudgedGeneration>, live: &mut Vec<u32>, replica: u32)
    requires one { HasOneCurrent (generations_of generations.old.items) }
    requires live { live.old.items ≡ live_numbers (generations_of generations.old.items) }
    ensures left { generations_of generations.new.items
        ≡ without_current replica (generations_of generations.old.items) }
    ensures live { live.new.items ≡ live_numbers (generations_of generations.new.items) }
    ensures length { vec_len generations.new ≡ vec_len generations.old }
    ensures live_length { vec_len live.new ≤ vec_len live.old }
    ensures room { vec_capacity generations.new ≡ vec_capacity generations.old }
    ensures live_room { vec_capacity live.new ≡ vec_capacity live.old }
{
    let Some(number) = find_current(generations.as_slice(), live.as_slice(), replica) else {
        return;
    };
    let still = drop_current(generations, number as usize);
    take_unless(live, number, still);
}

/// One fewer holds the generation. Tells whether it is still live.
#[tactic(auto, using(crate::proofs::Holders::release_there, crate::proofs::Holders::release_some, crate::proofs::Holders::less_set, crate::proofs::Holders::still_held))]
fn drop_holder(generations: &mut Vec<JudgedGeneration>, at: usize) -> bool
    requires { IsHeld at (generations_of generations.old.items) }
    ensures dropped { generations_of generations.new.items
        ≡ changed_at held_less at (generations_of generations.old.items) }
    ensures still { IsSomeAnd (slice_get (generations_of generations.old.items) at)
        (λ g. result ≡ is_live (held_less g)) }
    ensures length { vec_len generations.new ≡ vec_len generations.old }
    ensures room { vec_capacity generations.new ≡ vec_capacity generations.old }
{
    generations[at].release()
}

/// The generation is no longer current. Tells whether it is still live.
#[tactic(auto, using(crate::proofs::Holders::uncurrent_set, crate::proofs::Holders::still_left))]
fn drop_current(generations: &mut Vec<JudgedGeneration>, at: usize) -> bool
    requires { at < vec_len generations.old }
    ensures dropped { generations_of generations.new.items
        ≡ changed_at uncurrent at (generations_of generations.old.items) }
    ensures still { IsSomeAnd (slice_get (generations_of generations.old.items) at)
        (λ g. result ≡ is_live (uncurrent g)) }
    ensures length { vec_len generations.new ≡ vec_len generations.old }
    ensures room { vec_capacity generations.new ≡ vec_capacity generations.old }
{
    generations[at].leave()
}

/// Takes the number out, unless its generation is still live.
fn take_unless(live: &mut Vec<u32>, number: u32, still: bool)
    ensures taken { live.new.items
        ≡ (if still then live.old.items else filter (λ n. not (n == number)) live.old.items) }
    ensures length { vec_len live.new ≤ vec_len live.old }
    ensures room { vec_capacity live.new ≡ vec_capacity live.old }
{
    if still {
        return;
    }
    take_number(live, number);
}

/// Takes the number out.
fn take_number(live: &mut Vec<u32>, number: u32)
    ensures taken { live.new.items ≡ filter (λ n. not (n == number)) live.old.items }
    ensures length { vec_len live.new ≤ vec_len live.old }
    ensures room { vec_capacity live.new ≡ vec_capacity live.old }
{
    live.retain(|own| *own != number);
}

/// The number of the replica's current generation.
#[tactic(auto, using(crate::proofs::Searches::search_begin, crate::proofs::Searches::search_within, crate::proofs::Searches::search_more, crate::proofs::Searches::search_found, crate::proofs::Searches::search_end))]
fn find_current(generations: &[JudgedGeneration], live: &[u32], replica: u32) -> Option<u32>
    requires { live.now ≡ live_numbers (generations_of generations.now) }
    ensures found { IfSome result (λ number. IsSomeAnd
        (slice_get (generations_of generations.now) number)
        (λ g. is_replica_current replica g ≡ true)) }
    ensures none { IfNone result
        (filter (is_replica_current replica) (generations_of generations.now) ≡ []) }
{
    for number in live {
        if generations[*number as usize].is_replica_current(replica) {
            return Some(*number);
        }
    }
    None
}
