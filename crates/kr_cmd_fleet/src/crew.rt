//! The workers of a fleet: an outfit becomes a worker's bench, and comes back with its replies.
ghost use Rattle.std.specs.Prelude.{◌≡◌, ◌≤◌, All, IfErr, IfOk, None, OnOk, [], ◌++◌, length, map, reverse};
ghost use Rattle.kr_cmd_fleet.specs.inner.Crews.{HiresFirst, IsCrew, IsFresh, outfit_of, outfits_of};

use crate::outfit::Outfit;
use kr_base::{Dice, List, NoMemory, Tape};
use kr_kms::Kms;
use kr_provider::Bench;
use kr_script::{Part, Told};
use kr_workers::Worker;
use std::alloc::Global;

/// How many keys a worker's bench holds expanded, and how many unwrapped seeds.
const PAGES: u32 = 64;

const CACHE: u32 = 64;

/// The workers of a fleet, in the order of their seats, with room for what each gives back.
pub struct Crew<T: Tape, L: Kms, D: Dice> {
    /// The workers, each at the number of its seat.
    pub workers: Vec<Worker<T, L, D>>,
    outfits: List<Outfit<L, D>>,
    replies: List<List<Told>>,
    ghost none_left: { length outfits.0 ≡ 0 },
    ghost none_told: { length replies.0 ≡ 0 },
    ghost room: { length workers.items ≤ outfits.1 },
    ghost room_for_replies: { length workers.items ≤ replies.1 },
}

/// Makes a worker for each part. Where there is no memory the outfits come back.
pub fn hire<T: Tape, L: Kms, D: Dice>(
    alloc: Global,
    parts: &[Part],
    outfits: List<Outfit<L, D>>,
) -> Result<Crew<T, L, D>, (NoMemory, List<Outfit<L, D>>)>
    requires many { length outfits.0 ≡ length parts.now }
    ensures hired { IfOk result (λ crew. IsCrew parts.now outfits.0 crew.workers.items) }
    ensures returned { IfErr result (λ refused. refused.1.0 ≡ outfits.0) }
{
    let mut workers = List::new(alloc);
    let mut replies: List<List<Told>> = List::new(alloc);
    if workers.reserve(parts.len()).is_err() || replies.reserve(parts.len()).is_err() {
        workers.end();
        drop(replies);
        return Err((NoMemory, outfits));
    }
    let mut outfits = in_turn(outfits);
    match hire_each(alloc, parts, &mut outfits, &mut workers) {
        Ok(()) => Ok(Crew {
            workers: workers.into_vec(),
            outfits,
            replies,
        }),
        Err(NoMemory) => {
            let (outfits, replies) = let_go(workers, outfits, replies);
            drop(replies);
            Err((NoMemory, outfits))
        }
    }
}

/// The outfits from the last to the first.
pub(crate) fn in_turn<L: Kms, D: Dice>(outfits: List<Outfit<L, D>>) -> List<Outfit<L, D>>
    ensures { result.0 ≡ reverse outfits.0 }
{
    let mut outfits = outfits.into_vec();
    outfits.reverse();
    List::from_vec(outfits)
}

/// Makes the workers, the one of the first seat first, with the outfits from the last on.
fn hire_each<T: Tape, L: Kms, D: Dice>(
    alloc: Global,
    parts: &[Part],
    outfits: &mut List<Outfit<L, D>>,
    workers: &mut List<Worker<T, L, D>>,
) -> Result<(), NoMemory>
    requires many { length outfits.old.0 ≡ length parts.now }
    requires none { workers.old.0 ≡ [] }
    requires room { length parts.now ≤ workers.old.1 }
    ensures hired { HiresFirst parts.now (reverse outfits.old.0) workers.new.0 outfits.new.0
        outfits.new.1 }
    ensures all { OnOk result (outfits.new.0 ≡ []) }
{
    for part in parts {
        let Some(outfit) = outfits.pop() else {
            unreachable!();
        };
        match hire_one(alloc, part, outfit) {
            Ok(worker) => workers.push_in_room(worker),
            Err((NoMemory, outfit)) => {
                outfits.push_in_room(outfit);
                return Err(NoMemory);
            }
        }
    }
    Ok(())
}

/// Makes the worker of the part.
fn hire_one<T: Tape, L: Kms, D: Dice>(
    alloc: Global,
    part: &Part,
    outfit: Outfit<L, D>,
) -> Result<Worker<T, L, D>, (NoMemory, Outfit<L, D>)>
    ensures hired { IfOk result (λ worker. (outfit_of worker ≡ outfit) × IsFresh part.now worker) }
    ensures returned { IfErr result (λ refused. refused.1 ≡ outfit) }
{
    let Outfit { links, dice } = outfit;
    let bench = match Bench::new(alloc, links, dice, PAGES, CACHE) {
        Ok(bench) => bench,
        Err((_, links, dice)) => return Err((NoMemory, Outfit { links, dice })),
    };
    match Worker::new(alloc, bench, part.lines.as_slice().len()) {
        Ok(worker) => Ok(worker),
        Err((_, bench)) => {
            let (links, dice) = bench.close();
            Err((NoMemory, Outfit { links, dice }))
        }
    }
}

impl<T: Tape, L: Kms, D: Dice> Crew<T, L, D> {
    /// Lets the workers go, each without its seat: their outfits and their replies, in the order of
    /// their seats.
    pub fn part(self) -> (List<Outfit<L, D>>, List<List<Told>>)
        requires { All (λ worker. worker.seat ≡ None) self.workers.items }
        ensures outfits { result.0.0 ≡ outfits_of self.workers.items }
        ensures replies { result.1.0 ≡ map (λ worker. worker.told) self.workers.items }
    {
        let Crew {
            workers,
            outfits,
            replies,
        } = self;
        let_go(List::from_vec(workers), outfits, replies)
    }
}

/// Lets the workers go: their outfits, behind which stand those that are left, and their replies.
fn let_go<T: Tape, L: Kms, D: Dice>(
    workers: List<Worker<T, L, D>>,
    outfits: List<Outfit<L, D>>,
    replies: List<List<Told>>,
) -> (List<Outfit<L, D>>, List<List<Told>>)
    requires seats { All (λ worker. worker.seat ≡ None) workers.0 }
    requires none_told { length replies.0 ≡ 0 }
    requires room { length workers.0 ≤ outfits.1 }
    requires room_for_replies { length workers.0 ≤ replies.1 }
    ensures outfits { result.0.0 ≡ outfits_of workers.0 ++ reverse outfits.0 }
    ensures replies { result.1.0 ≡ map (λ worker. worker.told) workers.0 }
{
    let mut workers = workers;
    let mut outfits = outfits;
    let mut replies = replies;
    while let Some(worker) = workers.pop() {
        let (bench, told) = worker.into_parts();
        let (links, dice) = bench.close();
        outfits.push_in_room(Outfit { links, dice });
        replies.push_in_room(told);
    }
    workers.end();
    let mut replies = replies.into_vec();
    replies.reverse();
    (in_turn(outfits), List::from_vec(replies))
}
