//! `fleet`: the fleet file and the configurations that it names, the store, each worker's random
//! source and links, what each replica publishes, and the workers at one core.
ghost use Rattle.std.specs.Prelude.{◌≡◌, ◌≤◌, Bool, All, IfErr, IfOk, [], ◌∷◌, false, length, sum};
ghost use Rattle.kr_base.specs.Limits.{store_limit, journal_limit};
ghost use Rattle.kr_base.specs.Walks.{Talk};
ghost use Rattle.kr_provider.specs.AskedLinks.{Among, AskedOnly};
ghost use Rattle.kr_provider.specs.Names.{names_of as plugin_names};
ghost use Rattle.kr_rollout.specs.Openings.{AreAmong};
ghost use Rattle.kr_opening.specs.Replicas.{IsFirstIn};
ghost use Rattle.kr_script.specs.Fleets.{fleet_of};
ghost use Rattle.kr_script.specs.Output.{fleet_output};
ghost use Rattle.kr_cmd_steps.specs.Environment.{Environment, with_exchanges, with_world};
ghost use Rattle.kr_cmd_steps.specs.Phases.{stored_on};
ghost use Rattle.kr_cmd_fleet.specs.FirstItems.{LiveItems};
ghost use Rattle.kr_cmd_fleet.specs.StartExchanges.{AsksFirst, Exchanges, OpenBy};
ghost use Rattle.kr_cmd_fleet.specs.Fleets.{DidFleet, WritesFleet, beginning, equipping_all, launching};
ghost use Rattle.kr_cmd_fleet.specs.Fleets.{over_store, publishing, starting};
ghost use Rattle.kr_cmd_messages.specs.Receipts.{receipt};
ghost use Rattle.kr_cmd_steps.specs.Steps.{and_then, hearing};
ghost use Rattle.kr_cmd_fleet.specs.inner.Beginnings.{MayPublish, PublishesNext, begun_in, begun_with};
ghost use Rattle.kr_cmd_fleet.specs.inner.Beginnings.{first_core, with_first};
ghost use Rattle.kr_cmd_steps.specs.inner.Starts.{start_stop};
ghost use Rattle.kr_cmd_fleet.specs.inner.Crews.{IsCrew, IsReadyCore, outfits_of};
ghost use Rattle.kr_cmd_fleet.specs.inner.CrewRuns.{RunsCrew};
ghost use Rattle.kr_cmd_fleet.specs.inner.Plans.{IsWholePlan, named, plan_of};
ghost use Rattle.kr_cmd_fleet.specs.inner.FleetOutcomes.{ArePublished, IsPublishedBy, RunsBy, SettlesOr, budget_stop};
ghost use Rattle.kr_cmd_fleet.specs.inner.FleetOutcomes.{published_in};
ghost use Rattle.kr_cmd_steps.specs.inner.Lent.{Name, with_lent_tape};
ghost use Rattle.kr_cmd_fleet.specs.inner.Outfits.{AreLater, AreNamed, links_of, with_outfits};
ghost use Rattle.kr_cmd_steps.specs.inner.ProgramNames.{names_in};
ghost use Rattle.kr_cmd_steps.specs.inner.Phases.{Does};
ghost use Rattle.kr_cmd_steps.specs.inner.Tapes.{stored_of};
ghost use Rattle.kr_cmd_fleet.specs.inner.Workings.{AsksOutfits, BeginsLent, IsPublished, Outfits};
ghost use Rattle.kr_cmd_fleet.specs.inner.Workings.{StartsFrom, StartsLent, StaysIdle, TakesOutfits, with_crew};
ghost use Rattle.kr_workers.specs.Budgets.{AreBudgets, all_reloads};
ghost use Rattle.kr_workers.specs.Endings.{gravest_ending};

use crate::crew::{Crew, hire};
use crate::fleet_file::{LoadedFleet, NO_FILE, load_plan};
use crate::outfit::{Outfit, close_outfits, open_outfits};
use crate::watch_start::{WatchStart, read_first};
use kr_base::{Dice, List, NoMemory, Shared, Sink, Tape, Text};
use kr_cmd_messages::{FleetWords, Limit, Object, Refusal, Stop};
use kr_cmd_steps::{
    load_store, open_tape, program_plugins, publish_settings, settle_tape, start_stop,
};
use kr_kms::{Access, Kms, World};
use kr_provider::{Links, Published};
use kr_rollout::{Core, Line};
use kr_script::{Script, Told, WriteNo, write_fleet};
use kr_store::Store;
use kr_workers::{
    BudgetNo, Budgets, Ending, SettingsFile, file_settings, gravest_ending, run_fleet,
    script_budgets,
};
use std::alloc::Global;
use std::sync::Wait;
use std::thread::Threads;

/// What a fleet leaves: the journal, each worker's replies, and what a watch begins with.
#[derive(Drop)]
pub struct Record {
    /// The journal.
    pub lines: List<Line>,
    /// Each worker's replies, in the order of the seats.
    pub replies: List<List<Told>>,
    /// What a watch begins with.
    pub start: WatchStart,
}

/// Runs the fleet and writes its journal and its replies.
pub fn fleet<R: Threads + Wait + Sync, W: World, O: Sink>(
    rt: &R,
    alloc: Global,
    words: &FleetWords,
    world: &mut W,
    output: &mut O,
) -> Result<Ending, Stop>
    ensures did { (es : Exchanges) × ((a : Environment)
        → DidFleet W.Tap W.Link.link W.Link.step W.lent W.took W.Rand.left W.Rand.count words.now
        (with_world (W.told world.old) a) (with_world (W.told world.new) (with_exchanges es a))
        (receipt (O.held output.old) (O.held output.new) (O.count output.old) (O.count output.new))
        result) }
    ensures later { O.count output.old ≤ O.count output.new }
{
    let plan = match load_plan(alloc, words.file.as_str(), &words.options, world) {
        Ok(plan) => plan,
        Err(stop) => return Err(stop),
    };
    let record = match run_fleet_over_store(rt, alloc, words.store.as_str(), &plan, false, world) {
        Ok(record) => record,
        Err(stop) => {
            drop(plan);
            return Err(stop);
        }
    };
    let written = write_record(alloc, &plan.script, &record, output);
    drop(record);
    drop(plan);
    written
}

/// Runs the fleet over the store of this name, where someone may watch.
pub fn run_fleet_over_store<R: Threads + Wait + Sync, W: World>(
    rt: &R,
    alloc: Global,
    store: &str,
    plan: &LoadedFleet,
    watched: bool,
    world: &mut W,
) -> Result<Record, Stop>
    requires plan { IsWholePlan (plan_of plan.now) }
    ensures { StartsLent W.Link.link W.lent W.took W.Link.step (W.told world.old)
        (W.told world.new) (λ es begun back. (a : Environment)
        → SettlesOr W.Tap W.Link.link W.Link.step W.Rand.left W.Rand.count (back ≡ begun)
        (BeginsLent (hearing es a.heard) es W.Link.step W.lent W.took begun back) watched
        (over_store watched store.now (plan_of plan.now)) store.now (plan_of plan.now)
        (with_world (W.told world.old) a) (with_world (W.told world.new) (with_exchanges es a))
        result) }
{
    let tape = match open_tape(alloc, world, store, Access::ToMake) {
        Ok(tape) => tape,
        Err(stop) => return Err(stop),
    };
    let (made, tape) = run_fleet_on_tape(rt, alloc, plan, watched, tape, world);
    settle_tape(world, store, Object::Store, tape, made)
}

/// Runs the fleet over the store on a tape, which comes back.
fn run_fleet_on_tape<R: Threads + Wait + Sync, W: World>(
    rt: &R,
    alloc: Global,
    plan: &LoadedFleet,
    watched: bool,
    tape: W::Tap,
    world: &mut W,
) -> (Result<Record, Stop>, W::Tap)
    requires plan { IsWholePlan (plan_of plan.now) }
    requires cuts { W.Tap.loose tape ≡ false }
    ensures made { StartsLent W.Link.link W.lent W.took W.Link.step (W.told world.old)
        (W.told world.new) (λ es begun back. StaysIdle result.0 begun back
        × ((name : Name) (a : Environment)
        → RunsBy W.Tap W.Link.link W.Link.step W.Rand.left W.Rand.count
        (BeginsLent (hearing es a.heard) es W.Link.step W.lent W.took begun back) watched
        (and_then (stored_on Object.Store name) (beginning watched (plan_of plan.now))) name
        (plan_of plan.now)
        (with_lent_tape name (W.Tap.told tape) (W.Tap.count tape)
        (with_world (W.told world.old) a))
        (with_lent_tape name (W.Tap.told result.1) (W.Tap.count result.1)
        (with_world (W.told world.new) (with_exchanges es a))) result.0)) }
    ensures out { (W.told world.new).tapes ≡ (W.told world.old).tapes }
{
    let store = match load_store(alloc, tape, Object::Store) {
        Ok(store) => store,
        Err((stop, tape)) => return (Err(stop), tape),
    };
    let budgets = match script_budgets(alloc, store.live_count(), plan.script.workers.as_slice()) {
        Ok(budgets) => budgets,
        Err(why) => return (Err(budget_stop(why)), store.close()),
    };
    let (made, store) = run_outfitted_fleet(rt, alloc, plan, watched, &budgets, store, world);
    drop(budgets);
    (made, store.close())
}

/// Why there are no budgets, as a command says it.
pub fn budget_stop(why: BudgetNo) -> Stop
    ensures { result ≡ budget_stop why }
{
    match why {
        BudgetNo::TooMany => Stop::Refused(Refusal::Limit(Limit::Journal)),
        BudgetNo::NoMemory => Stop::NoMemory,
    }
}

/// Runs the fleet with an outfit for each worker. The store comes back.
fn run_outfitted_fleet<R: Threads + Wait + Sync, W: World>(
    rt: &R,
    alloc: Global,
    plan: &LoadedFleet,
    watched: bool,
    budgets: &Budgets,
    store: Store<W::Tap>,
    world: &mut W,
) -> (Result<Record, Stop>, Store<W::Tap>)
    requires entries { AreBudgets store.rows plan.now.script.workers.0 budgets.now.entries.items }
    requires reloads { budgets.now.reloads.items ≡ all_reloads plan.now.script.workers.0 }
    requires few { sum budgets.now.entries.items ≤ journal_limit }
    requires fit { sum budgets.now.reloads.items ≤ sum budgets.now.entries.items }
    requires store { (store.limit ≡ store_limit) × (store.torn ≡ false) }
    requires plan { IsWholePlan (plan_of plan.now) }
    ensures made { StartsLent W.Link.link W.lent W.took W.Link.step (W.told world.old)
        (W.told world.new) (λ es begun back. StaysIdle result.0 begun back
        × ((name : Name) (a : Environment)
        → RunsBy W.Tap W.Link.link W.Link.step W.Rand.left W.Rand.count
        (BeginsLent (hearing es a.heard) es W.Link.step W.lent W.took begun back) watched
        (equipping_all watched (plan_of plan.now) (stored_of store) budgets.now.entries.items) name
        (plan_of plan.now)
        (with_lent_tape name store.told store.count (with_world (W.told world.old) a))
        (with_lent_tape name result.1.told result.1.count
        (with_world (W.told world.new) (with_exchanges es a))) result.0)) }
    ensures out { (W.told world.new).tapes ≡ (W.told world.old).tapes }
{
    let mut outfits = List::new(alloc);
    let seats = plan.script.workers.as_slice().len() as u32;
    let opened = open_outfits(alloc, world, plan.programs.as_slice(), seats, &mut outfits);
    match opened {
        Ok(()) => {
            let (made, store, outfits) = begin(rt, alloc, plan, watched, budgets, store, outfits);
            close_outfits(world, outfits);
            (made, store)
        }
        Err(stop) => {
            close_outfits(world, outfits);
            (Err(stop), store)
        }
    }
}

/// Publishes for each replica, reads the live rows where someone watches, starts the core, and lets
/// the workers work. The store and the outfits come back.
pub fn begin<R: Threads + Wait + Sync, T: Tape + Send, L: Kms + Send, D: Dice + Send>(
    rt: &R,
    alloc: Global,
    plan: &LoadedFleet,
    watched: bool,
    budgets: &Budgets,
    store: Store<T>,
    outfits: List<Outfit<L, D>>,
) -> (Result<Record, Stop>, Store<T>, List<Outfit<L, D>>)
    requires entries { AreBudgets store.rows plan.now.script.workers.0 budgets.now.entries.items }
    requires reloads { budgets.now.reloads.items ≡ all_reloads plan.now.script.workers.0 }
    requires few { sum budgets.now.entries.items ≤ journal_limit }
    requires fit { sum budgets.now.reloads.items ≤ sum budgets.now.entries.items }
    requires store { (store.limit ≡ store_limit) × (store.torn ≡ false) }
    requires plan { IsWholePlan (plan_of plan.now) }
    requires seats { length outfits.0 ≡ length plan.now.script.workers.0 }
    requires named { AreNamed L.link (names_in plan.now.programs) outfits.0 }
    ensures made { StartsFrom L.step outfits.0 (λ es begun.
        StaysIdle result.0 begun (links_of result.2.0) × ((name : Name) (a : Environment)
        → RunsBy T L.link L.step D.left D.count
        (AsksOutfits (hearing es a.heard) es begun (links_of result.2.0)) watched
        (launching watched (plan_of plan.now) (stored_of store) budgets.now.entries.items) name
        (plan_of plan.now)
        (with_outfits L.link D.left D.count 0 outfits.0
        (with_lent_tape name store.told store.count a))
        (with_outfits L.link D.left D.count 0 result.2.0
        (with_lent_tape name result.1.told result.1.count (with_exchanges es a))) result.0)) }
    ensures later { AreLater L.link D.count outfits.0 result.2.0 }
{
    let (published, outfits) = publish_first(alloc, plan, outfits);
    let replicas = match published {
        Ok(replicas) => replicas,
        Err(stop) => return (Err(stop), store, outfits),
    };
    let (read, outfits) = read_first(alloc, watched, &store, replicas.as_slice(), outfits);
    let start = match read {
        Ok(start) => start,
        Err(stop) => return (Err(stop), store, outfits),
    };
    run_core_and_workers(rt, alloc, plan, budgets, store, replicas, start, outfits)
}

/// Starts the core with what the replicas published, and lets the workers work with these outfits.
/// The store and the outfits come back.
fn run_core_and_workers<R: Threads + Wait + Sync, T: Tape + Send, L: Kms + Send, D: Dice + Send>(
    rt: &R,
    alloc: Global,
    plan: &LoadedFleet,
    budgets: &Budgets,
    store: Store<T>,
    replicas: List<Option<Shared<Published>>>,
    start: WatchStart,
    outfits: List<Outfit<L, D>>,
) -> (Result<Record, Stop>, Store<T>, List<Outfit<L, D>>)
    requires entries { AreBudgets store.rows plan.now.script.workers.0 budgets.now.entries.items }
    requires reloads { budgets.now.reloads.items ≡ all_reloads plan.now.script.workers.0 }
    requires few { sum budgets.now.entries.items ≤ journal_limit }
    requires fit { sum budgets.now.reloads.items ≤ sum budgets.now.entries.items }
    requires store { (store.limit ≡ store_limit) × (store.torn ≡ false) }
    requires plan { IsWholePlan (plan_of plan.now) }
    requires seats { length outfits.0 ≡ length plan.now.script.workers.0 }
    requires named { AreNamed L.link (names_in plan.now.programs) outfits.0 }
    requires published { ArePublished (named plan.now.files.0)
        plan.now.script.replicas.0 replicas.0 }
    requires revision { start.revision ≡ length store.rows }
    ensures made { (name : Name) (first a : Environment) (olds : Outfits L D) (es : Exchanges)
        (watched : Bool) → IsPublished L.link D.left D.count L.step watched plan.now
        budgets.now.entries.items name store first a olds outfits.0 es replicas.0 start.items.0
        → RunsBy T L.link L.step D.left D.count
        (TakesOutfits a.heard es outfits.0 result.2.0) watched
        (launching watched (plan_of plan.now) (stored_of store) budgets.now.entries.items) name
        (plan_of plan.now) first
        (with_crew L.link D.left D.count name result.1 result.2.0 a) result.0 }
    ensures idle { StaysIdle result.0 (links_of outfits.0) (links_of result.2.0) }
    ensures later { AreLater L.link D.count outfits.0 result.2.0 }
{
    let core = match start_core(alloc, plan, budgets, store, replicas) {
        Ok(core) => core,
        Err((stop, store)) => {
            drop(start);
            return (Err(stop), store, outfits);
        }
    };
    let crew = match hire(alloc, plan.script.workers.as_slice(), outfits) {
        Ok(crew) => crew,
        Err((_, outfits)) => {
            let (store, lines) = core.close();
            store.known();
            drop(lines);
            drop(start);
            return (Err(Stop::NoMemory), store, outfits);
        }
    };
    run_crew(rt, alloc, plan, budgets, start, core, crew)
}

/// Lets the workers work at the core.
fn run_crew<R: Threads + Wait + Sync, T: Tape + Send, L: Kms + Send, D: Dice + Send>(
    rt: &R,
    alloc: Global,
    plan: &LoadedFleet,
    budgets: &Budgets,
    start: WatchStart,
    core: Core<T>,
    crew: Crew<T, L, D>,
) -> (Result<Record, Stop>, Store<T>, List<Outfit<L, D>>)
    requires plan { IsWholePlan (plan_of plan.now) }
    requires core { IsReadyCore plan.now budgets.now.entries.items core }
    requires entries { AreBudgets core.opening.rows plan.now.script.workers.0
        budgets.now.entries.items }
    requires few { sum budgets.now.entries.items ≤ journal_limit }
    requires crew { IsCrew plan.now.script.workers.0 (outfits_of crew.workers.items)
        crew.workers.items }
    requires named { AreNamed L.link (names_in plan.now.programs)
        (outfits_of crew.workers.items) }
    ensures ran { RunsCrew L.link L.step D.left D.count plan.now budgets.now.entries.items
        core.opening start crew.workers.items result.0 result.1 result.2.0 }
{
    let mut crew = crew;
    let ended = run_fleet(
        rt,
        alloc,
        core,
        budgets.entries.as_slice(),
        plan.files.as_slice(),
        plan.script.workers.as_slice(),
        &mut crew.workers,
    );
    let (outfits, replies) = crew.part();
    match ended {
        Ok(core) => {
            let (store, lines) = core.close();
            store.known();
            let record = Record {
                lines,
                replies,
                start,
            };
            (Ok(record), store, outfits)
        }
        Err((NoMemory, core)) => {
            let (store, lines) = core.close();
            store.known();
            drop(lines);
            drop(replies);
            drop(start);
            (Err(Stop::NoMemory), store, outfits)
        }
    }
}

/// Publishes the configuration of each replica that is in, with the first worker's outfit.
fn publish_first<L: Kms, D: Dice>(
    alloc: Global,
    plan: &LoadedFleet,
    outfits: List<Outfit<L, D>>,
) -> (
    Result<List<Option<Shared<Published>>>, Stop>,
    List<Outfit<L, D>>,
)
    requires plan { IsWholePlan (plan_of plan.now) }
    requires some { 1 ≤ length outfits.0 }
    requires named { AreNamed L.link (names_in plan.now.programs) outfits.0 }
    ensures does { (es : Exchanges)
        × AsksFirst L.step es (links_of outfits.0) (links_of result.1.0)
        × ((a : Environment) → Does (publishing (named plan.now.files.0) []
        plan.now.script.replicas.0) (with_outfits L.link D.left D.count 0 outfits.0 a)
        (with_outfits L.link D.left D.count 0 result.1.0 (with_exchanges es a))
        (published_in result.0)) × IfOk result.0 (λ made. OpenBy es made.0) }
    ensures replicas { IfOk result.0 (λ made. ArePublished
        (named plan.now.files.0) plan.now.script.replicas.0 made.0) }
    ensures later { AreLater L.link D.count outfits.0 result.1.0 }
{
    let files = plan.files.as_slice();
    let replicas = plan.script.replicas.as_slice();
    let mut outfits = outfits.into_vec();
    let first = &mut outfits[0];
    let published = publish_each(alloc, files, replicas, &mut first.links, &mut first.dice);
    (published, List::from_vec(outfits))
}

/// Publishes the configuration of each replica that is in.
fn publish_each<L: Kms, D: Dice>(
    alloc: Global,
    files: &[SettingsFile],
    replicas: &[(Text, Text)],
    links: &mut Links<L>,
    dice: &mut D,
) -> Result<List<Option<Shared<Published>>>, Stop>
    requires read { All (λ replica. MayPublish (plugin_names L.link links.old)
        (named files.now) replica.1) replicas.now }
    ensures does { Talk (Among L.step) links.old links.new (λ es. ((a : Environment)
        → Does (publishing (named files.now) [] replicas.now)
        (with_first L.link links.old (D.left dice.old) (D.count dice.old) a)
        (with_first L.link links.new (D.left dice.new) (D.count dice.new) (with_exchanges es a))
        (published_in result)) × IfOk result (λ made. OpenBy es made.0)) }
    ensures replicas { IfOk result (λ made. ArePublished (named files.now) replicas.now
        made.0) }
    ensures asked { AskedOnly L.link (plugin_names L.link links.old) links.old links.new }
    ensures later { D.count dice.old ≤ D.count dice.new }
{
    let mut made = List::new(alloc);
    for replica in replicas {
        let published = match publish_replica(alloc, files, replica, links, dice) {
            Ok(published) => published,
            Err(stop) => return Err(stop),
        };
        match made.push(published) {
            Ok(()) => {}
            Err(_) => return Err(Stop::NoMemory),
        }
    }
    Ok(made)
}

/// Publishes the configuration of a replica, if it is in.
fn publish_replica<L: Kms, D: Dice>(
    alloc: Global,
    files: &[SettingsFile],
    replica: &(Text, Text),
    links: &mut Links<L>,
    dice: &mut D,
) -> Result<Option<Shared<Published>>, Stop>
    requires read { MayPublish (plugin_names L.link links.old) (named files.now) replica.now.1 }
    ensures does { Talk (Among L.step) links.old links.new (λ es. ((a : Environment)
        → PublishesNext (named files.now) replica.now
        (with_first L.link links.old (D.left dice.old) (D.count dice.old) a)
        (with_first L.link links.new (D.left dice.new) (D.count dice.new) (with_exchanges es a))
        result) × IfOk result (λ published. OpenBy es (published ∷ []))) }
    ensures published { IfOk result (IsPublishedBy (named files.now) replica.now) }
    ensures asked { AskedOnly L.link (plugin_names L.link links.old) links.old links.new }
    ensures later { D.count dice.old ≤ D.count dice.new }
{
    let file = replica.1.as_str();
    if file == NO_FILE {
        return Ok(None);
    }
    let Some(settings) = file_settings(files, file) else {
        unreachable!();
    };
    let Ok(settings) = settings.share() else {
        return Err(Stop::NoMemory);
    };
    match publish_settings(alloc, settings, links, dice) {
        Ok(published) => match Shared::new(alloc, published) {
            Ok(published) => Ok(Some(published)),
            Err(_) => Err(Stop::NoMemory),
        },
        Err(stop) => Err(stop),
    }
}

/// The core at its opening. A refusal gives the store back.
fn start_core<T: Tape>(
    alloc: Global,
    plan: &LoadedFleet,
    budgets: &Budgets,
    store: Store<T>,
    replicas: List<Option<Shared<Published>>>,
) -> Result<Core<T>, (Stop, Store<T>)>
    requires first { IsFirstIn replicas.0 }
    requires replicas { length replicas.0 ≤ 16 }
    requires names { AreAmong (names_in plan.now.programs) replicas.0 }
    requires seats { (1 ≤ length plan.now.script.workers.0)
        × (length plan.now.script.workers.0 ≤ 64) }
    requires reloads { budgets.now.reloads.items ≡ all_reloads plan.now.script.workers.0 }
    requires few { sum budgets.now.entries.items ≤ journal_limit }
    requires fit { sum budgets.now.reloads.items ≤ sum budgets.now.entries.items }
    ensures does { (a : Environment) (items : LiveItems) → Does (starting (plan_of plan.now)
        (stored_of store) budgets.now.entries.items replicas.0 items) a a (begun_in
        (begun_with plan.now budgets.now.entries.items store replicas.0 items) result) }
    ensures core { IfOk result (λ core. core ≡ first_core plan.now budgets.now.reloads.items
        (sum budgets.now.entries.items) store replicas.0) }
    ensures back { IfErr result (λ refused. refused.1 ≡ store) }
{
    let names = match program_plugins(alloc, plan.programs.as_slice()) {
        Ok(names) => names,
        Err(NoMemory) => {
            drop(replicas);
            return Err((Stop::NoMemory, store));
        }
    };
    let seats = plan.script.workers.as_slice().len() as u32;
    let room = budgets.entries.iter().sum::<u64>();
    match Core::start(
        alloc,
        store,
        replicas,
        names,
        seats,
        room,
        budgets.reloads.as_slice(),
    ) {
        Ok(core) => Ok(core),
        Err((why, store)) => Err((start_stop(why), store)),
    }
}

/// Writes the journal and the replies, which say how the fleet ended.
fn write_record<O: Sink>(
    alloc: Global,
    script: &Script,
    made: &Record,
    output: &mut O,
) -> Result<Ending, Stop>
    ensures written { WritesFleet
        (fleet_output (fleet_of script.now) made.now.lines.0 made.now.replies.0)
        (gravest_ending made.now.replies.0) (receipt (O.held output.old) (O.held output.new)
        (O.count output.old) (O.count output.new)) result }
    ensures later { O.count output.old ≤ O.count output.new }
{
    let lines = made.lines.as_slice();
    let replies = made.replies.as_slice();
    match write_fleet(alloc, output, script, lines, replies) {
        Ok(()) => Ok(gravest_ending(replies)),
        Err(WriteNo::Failed) => Err(Stop::Fault(Object::Output, output.faults())),
        Err(WriteNo::NoMemory) => Err(Stop::NoMemory),
    }
}
