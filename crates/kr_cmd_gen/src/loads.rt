//! `gen`: a fleet that a seed and a size make, over a store, with a random source of its own for
//! each worker, and the summary of what its workers told.
ghost use Rattle.std.specs.Prelude.{◌≡◌, ◌≤◌, IfOk, OnOk, [], false, length};
ghost use Rattle.kr_workload.specs.Streams.{StreamState, link_faults, left_in};
ghost use Rattle.kr_cmd_steps.specs.Environment.{Environment, IsUnheard, with_world};
ghost use Rattle.kr_cmd_steps.specs.Phases.{stored_on};
ghost use Rattle.kr_cmd_gen.specs.GeneratedLoads.{DidLoad, LeavesOthers, WritesLoad, load_beginning};
ghost use Rattle.kr_cmd_gen.specs.GeneratedLoads.{load_over, load_plan, streams_of, with_sources};
ghost use Rattle.kr_cmd_messages.specs.Receipts.{receipt};
ghost use Rattle.kr_cmd_steps.specs.Steps.{and_then};
ghost use Rattle.kr_cmd_fleet.specs.inner.Plans.{plan_of};
ghost use Rattle.kr_cmd_fleet.specs.inner.FleetOutcomes.{Anyhow, RunsBy};
ghost use Rattle.kr_cmd_gen.specs.inner.LoadOutcomes.{AreBare, IsLoadPlan, SettlesLoad, sources_in};
ghost use Rattle.kr_cmd_steps.specs.inner.Lent.{Name, with_lent_tape};

use kr_base::{List, NoMemory, Sink, Tape};
use kr_cmd_fleet::fleet::{Record, begin, budget_stop};
use kr_cmd_fleet::{LoadedFleet, Outfit};
use kr_cmd_messages::{LoadWords, Object, Stop};
use kr_cmd_steps::{Programs, load_store, open_tape, settle_tape};
use kr_kms::{Access, Kms, World};
use kr_provider::Links;
use kr_script::WriteNo;
use kr_workers::{Ending, script_budgets};
use kr_workload::{StreamDice, ending_of_load, generate_load, worker_dice, write_summary};
use std::alloc::Global;
use std::sync::Wait;
use std::thread::Threads;

/// How many workers a load has.
const SEATS: u32 = 4;

/// Runs the load and writes its summary.
pub fn load<R: Threads + Wait + Sync, W: World, O: Sink>(
    rt: &R,
    alloc: Global,
    words: &LoadWords,
    world: &mut W,
    output: &mut O,
) -> Result<Ending, Stop>
    ensures did { (a : Environment) → IsUnheard a
        → DidLoad W.Tap W.Link.link W.Link.step words.now
        (with_world (W.told world.old) a) (with_world (W.told world.new) a)
        (receipt (O.held output.old) (O.held output.new) (O.count output.old) (O.count output.new))
        result }
    ensures later { O.count output.old ≤ O.count output.new }
{
    let plan = match make_plan(alloc, words) {
        Ok(plan) => plan,
        Err(NoMemory) => return Err(Stop::NoMemory),
    };
    let record = match run_load_over_store(rt, alloc, words, &plan, world) {
        Ok(record) => record,
        Err(stop) => return Err(stop),
    };
    write_load(alloc, words, &plan, &record, output)
}

/// What the fleet of the load works by: no plugin, and so no program.
fn make_plan(alloc: Global, words: &LoadWords) -> Result<LoadedFleet, NoMemory>
    ensures plan { IfOk result (λ plan. plan_of plan ≡ load_plan words.now) }
    ensures known { IfOk result IsLoadPlan }
{
    let load = generate_load(alloc, words.seed, words.size)?;
    Ok(LoadedFleet {
        script: load.script,
        files: load.files,
        programs: Programs::new(alloc),
    })
}

/// Runs the load over the store that the words name, with a random source for each worker.
fn run_load_over_store<R: Threads + Wait + Sync, W: World>(
    rt: &R,
    alloc: Global,
    words: &LoadWords,
    plan: &LoadedFleet,
    world: &mut W,
) -> Result<Record, Stop>
    requires plan { IsLoadPlan plan.now }
    ensures runs { (a : Environment) → IsUnheard a
        → SettlesLoad W.Tap W.Link.link W.Link.step words.now.seed
        (load_over words.now.store (plan_of plan.now)) words.now.store (plan_of plan.now)
        (with_world (W.told world.old) a) (with_world (W.told world.new) a) result }
    ensures others { LeavesOthers (W.told world.old) (W.told world.new) }
{
    let store = words.store.as_str();
    let mut outfits: List<Outfit<W::Link, StreamDice>> = List::new(alloc);
    match make_outfits(alloc, words.seed, &mut outfits) {
        Ok(()) => {}
        Err(NoMemory) => {
            end_outfits(outfits);
            return Err(Stop::NoMemory);
        }
    }
    let tape = match open_tape(alloc, world, store, Access::ToMake) {
        Ok(tape) => tape,
        Err(stop) => {
            end_outfits(outfits);
            return Err(stop);
        }
    };
    let (made, tape, outfits) = run_load_on_tape(rt, alloc, plan, tape, outfits);
    end_outfits(outfits);
    settle_tape(world, store, Object::Store, tape, made)
}

/// Runs the load over the store on a tape. The tape and the outfits come back.
fn run_load_on_tape<R: Threads + Wait + Sync, T: Tape + Send, L: Kms + Send>(
    rt: &R,
    alloc: Global,
    plan: &LoadedFleet,
    tape: T,
    outfits: List<Outfit<L, StreamDice>>,
) -> (Result<Record, Stop>, T, List<Outfit<L, StreamDice>>)
    requires plan { IsLoadPlan plan.now }
    requires four { length outfits.0 ≡ 4 }
    requires bare { AreBare outfits.0 }
    requires cuts { T.loose tape ≡ false }
    ensures made { (name : Name) (a : Environment) → IsUnheard a
        → RunsBy T L.link L.step left_in link_faults (Anyhow T L StreamState) false
        (and_then (stored_on Object.Store name) (load_beginning (plan_of plan.now))) name
        (plan_of plan.now)
        (with_lent_tape name (T.told tape) (T.count tape) (with_sources (sources_in outfits.0) a))
        (with_lent_tape name (T.told result.1) (T.count result.1)
        (with_sources (sources_in result.2.0) a)) result.0 }
    ensures bare { AreBare result.2.0 }
{
    let store = match load_store(alloc, tape, Object::Store) {
        Ok(store) => store,
        Err((stop, tape)) => return (Err(stop), tape, outfits),
    };
    let budgets = match script_budgets(alloc, store.live_count(), plan.script.workers.as_slice()) {
        Ok(budgets) => budgets,
        Err(why) => return (Err(budget_stop(why)), store.close(), outfits),
    };
    let (made, store, outfits) = begin(rt, alloc, plan, false, &budgets, store, outfits);
    (made, store.close(), outfits)
}

/// Makes an outfit for each seat, with the random source of its worker and no links.
fn make_outfits<L: Kms>(
    alloc: Global,
    seed: u64,
    outfits: &mut List<Outfit<L, StreamDice>>,
) -> Result<(), NoMemory>
    requires none { outfits.old.0 ≡ [] }
    ensures sources { OnOk result (sources_in outfits.new.0 ≡ streams_of seed) }
    ensures bare { AreBare outfits.new.0 }
{
    outfits.reserve(SEATS as usize)?;
    for seat in 0..SEATS {
        outfits.push_in_room(Outfit {
            links: Links::new(alloc),
            dice: worker_dice(seed, seat),
        });
    }
    Ok(())
}

/// Lets outfits without links go.
fn end_outfits<L: Kms>(outfits: List<Outfit<L, StreamDice>>)
    requires bare { AreBare outfits.0 }
{
    let mut outfits = outfits;
    while let Some(outfit) = outfits.pop() {
        let Outfit { links, dice: _dice } = outfit;
        links.end();
    }
    outfits.end();
}

/// Writes the summary of what the workers told, which says how the load ended.
fn write_load<O: Sink>(
    alloc: Global,
    words: &LoadWords,
    plan: &LoadedFleet,
    made: &Record,
    output: &mut O,
) -> Result<Ending, Stop>
    ensures written { WritesLoad words.now (plan_of plan.now).fleet.workers made.now.replies.0
        (receipt (O.held output.old) (O.held output.new) (O.count output.old) (O.count output.new))
        result }
    ensures later { O.count output.old ≤ O.count output.new }
{
    let parts = plan.script.workers.as_slice();
    let replies = made.replies.as_slice();
    match write_summary(alloc, output, words.seed, words.size, parts, replies) {
        Ok(()) => Ok(ending_of_load(replies)),
        Err(WriteNo::Failed) => Err(Stop::Fault(Object::Output, output.faults())),
        Err(WriteNo::NoMemory) => Err(Stop::NoMemory),
    }
}
