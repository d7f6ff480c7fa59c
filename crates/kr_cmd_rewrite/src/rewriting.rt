//! `rewrite`: configuration, programs of its plugins, store, random source, links, publish, start,
//! drive, the report.
ghost use Rattle.std.specs.Prelude.{◌≡◌, ◌++◌, ◌-◌, ◌^◌, ◌<◌, ◌≤◌, ◌∷◌, ℕ, [], false, None, Some, Ok, Err, IfOk, IfErr, MatchOption, map};
ghost use Rattle.kr_base.specs.Limits.{store_limit};
ghost use Rattle.kr_config.specs.Kept.{plugins_in, rows_of};
ghost use Rattle.kr_base.specs.Walks.{Talk};
ghost use Rattle.kr_provider.specs.AskedLinks.{Among};
ghost use Rattle.kr_provider.specs.KeyPages.{size_of};
ghost use Rattle.kr_provider.specs.Names.{AreDistinct, names_of};
ghost use Rattle.kr_provider.specs.PluginOrder.{plugin_order};
ghost use Rattle.kr_provider.specs.Publication.{Publication};
ghost use Rattle.kr_history.specs.Calls.{AreServed};
ghost use Rattle.kr_store.specs.Stores.{IsListing};
ghost use Rattle.kr_cmd_steps.specs.Environment.{Environment, with_exchanges, with_world};
ghost use Rattle.kr_cmd_steps.specs.Heard.{Heard};
ghost use Rattle.kr_cmd_steps.specs.RewriteSteps.{nothing_done, driving, rewriting_on, rewriting_by};
ghost use Rattle.kr_cmd_steps.specs.Phases.{stored_on};
ghost use Rattle.kr_cmd_steps.specs.Plugins.{borrow_links};
ghost use Rattle.kr_cmd_messages.specs.Reports.{report_done};
ghost use Rattle.kr_cmd_messages.specs.declared.command.Command.TheVariants.{Rewrite};
ghost use Rattle.kr_cmd_messages.specs.declared.refusal.Object.TheVariants as object;
ghost use Rattle.kr_cmd_steps.specs.inner.Lent.{Name, Tapes, with_tapes, with_lent_dice, with_lent_links, with_lent_tape};
ghost use Rattle.kr_cmd_steps.specs.inner.Phases.{Does};
ghost use Rattle.kr_cmd_steps.specs.inner.Reporting.{DoesAll, saying};
ghost use Rattle.kr_cmd_rewrite.specs.inner.Rewriting.{HasRoom, LacksRoom, LiveRows, Told, IsAlone, IsDriveStop, IsReported, MayCutShort, StartsAlone, report_counts, opened_store, to_settle};
ghost use Rattle.kr_cmd_steps.specs.inner.Tapes.{stored_of};

use kr_base::{Dice, JOURNAL_LIMIT, List, NoMemory, Shared, Tape, Text};
use kr_cmd_messages::{
    Done, Ended, Limit, Object, Outcome, Refusal, RewriteCounts, Rewriting, Stop, report_text,
};
use kr_cmd_steps::{
    Program, close_dice, close_link, linked_settings, load_store, open_dice, open_link, open_tape,
    program_plugins, publish_settings, settle_tape, split_first_program, start_stop, take_last,
};
use kr_config::Settings;
use kr_history::{Acts, CallNo, Solo};
use kr_kms::{Access, Kms, World};
use kr_provider::{Bench, Links, Published};
use kr_rewrite::{Report, drive};
use kr_rollout::Core;
use kr_store::Store;
use std::alloc::Global;

/// How many keys the bench holds expanded, and how many unwrapped seeds.
const PAGES: u32 = 64;

const CACHE: u32 = 64;

/// Writes the stale rows of a store anew.
pub fn rewrite<W: World>(alloc: Global, words: &Rewriting, world: &mut W) -> Ended
    ensures { Heard W.Link.link W.lent W.took W.Link.step 0
        (W.told world.old) (W.told world.new) [] [] (λ es. (a : Environment)
        → a.said ≡ [] → DoesAll (Rewrite words.now)
        (with_world (W.told world.old) a)
        (saying result.said (with_world (W.told world.new) (with_exchanges es a)))
        result.made) }
{
    let (settings, programs) = match linked_settings(alloc, world, &words.config, &words.options) {
        Ok(read) => read,
        Err(stop) => return stopped(stop),
    };
    let name = words.store.as_str();
    let tape = match open_tape(alloc, world, name, Access::ToWrite) {
        Ok(tape) => tape,
        Err(stop) => {
            drop(settings);
            return stopped(stop);
        }
    };
    let (ended, tape) = rewrite_on_tape(alloc, settings, programs.as_slice(), world, tape);
    match settle_tape(world, name, Object::Store, tape, to_settle(ended)) {
        Ok(ended) => ended,
        Err(stop) => stopped(stop),
    }
}

/// What is told once the tape is settled: a value, or the report of a command that was stopped. A
/// stop alone tells of no row.
fn to_settle(ended: Ended) -> Result<Ended, Stop>
    ensures { result ≡ to_settle ended.made ended.said }
{
    let Ended { made, said } = ended;
    match made {
        Ok(outcome) => Ok(Ended {
            made: Ok(outcome),
            said,
        }),
        Err(stop) => match said {
            None => Err(stop),
            Some(counts) => Ok(cut_short(counts, stop)),
        },
    }
}

/// Rewrites the store on a tape, which comes back.
fn rewrite_on_tape<W: World>(
    alloc: Global,
    settings: Settings,
    programs: &[Program],
    world: &mut W,
    tape: W::Tap,
) -> (Ended, W::Tap)
    requires programs { map (λ program. program.plugin) programs.now
        ≡ plugin_order (rows_of settings.entries.0) }
    requires cuts { W.Tap.loose tape ≡ false }
    ensures ended { Heard W.Link.link W.lent W.took W.Link.step 0
        (W.told world.old) (W.told world.new) [] [] (λ es. (name : Name) (a : Environment)
        → Does
        (rewriting_on name (rows_of settings.entries.0) programs.now)
        (with_lent_tape name (W.Tap.told tape) (W.Tap.count tape) (with_world (W.told world.old) a))
        (saying result.0.said (with_lent_tape name (W.Tap.told result.1) (W.Tap.count result.1)
        (with_world (W.told world.new) (with_exchanges es a)))) result.0.made) }
    ensures tapes { (W.told world.new).tapes ≡ (W.told world.old).tapes }
{
    let store = match load_counted(alloc, tape) {
        Ok(store) => store,
        Err((stop, tape)) => {
            drop(settings);
            return (stopped(stop), tape);
        }
    };
    let Some(room) = rewrite_room(&store) else {
        drop(settings);
        let limit = Stop::Refused(Refusal::Limit(Limit::Journal));
        return (stopped(limit), store.close());
    };
    let names = match program_plugins(alloc, programs) {
        Ok(names) => names,
        Err(NoMemory) => {
            drop(settings);
            return (stopped(Stop::NoMemory), store.close());
        }
    };
    let dice = match open_dice(alloc, world, 0) {
        Ok(dice) => dice,
        Err(stop) => {
            drop(settings);
            return (stopped(stop), store.close());
        }
    };
    let links = Links::<W::Link>::new(alloc);
    let rollout = LoneStart { store, names, room };
    let (ended, store, links, dice) = rewrite_linked(
        alloc, settings, programs, world, rollout, links, dice,
    );
    links.end();
    close_dice(world, 0, dice);
    (ended, store.close())
}

/// Loads the store of a tape. Where the tape's count of faults can't rise any more, a write that
/// failed couldn't be told, so the tape counts as failed.
fn load_counted<T: Tape>(alloc: Global, tape: T) -> Result<Store<T>, (Stop, T)>
    requires cuts { T.loose tape ≡ false }
    ensures ok { IfOk result (λ store. (name : Name) (a : Environment)
        → Does (stored_on object.Store name)
        (with_lent_tape name (T.told tape) (T.count tape) a)
        (with_lent_tape name store.told store.count a) (Ok (stored_of store))) }
    ensures err { IfErr result (λ refused. (name : Name) (a : Environment)
        → Does (stored_on object.Store name)
        (with_lent_tape name (T.told tape) (T.count tape) a)
        (with_lent_tape name (T.told refused.1) (T.count refused.1) a) (Err refused.0)) }
    ensures limit { IfOk result (λ store. (store.limit ≡ store_limit) × (store.torn ≡ false)) }
    ensures counts { IfOk result (λ store. store.count < 2 ^ 64 - 1) }
{
    let store = match load_store(alloc, tape, Object::Store) {
        Ok(store) => store,
        Err(refused) => return Err(refused),
    };
    let faults = store.faults();
    if faults == u64::MAX {
        return Err((Stop::Fault(Object::Store, faults), store.close()));
    }
    Ok(store)
}

/// How many entries the rewrite may make, where the journal has room for them.
fn rewrite_room<T: Tape>(store: &Store<T>) -> Option<u64>
    ensures { MatchOption result (LacksRoom store.now.rows) (HasRoom store.now.rows) }
{
    let live = store.live_count();
    if live > (JOURNAL_LIMIT - 3) / 4 {
        return None;
    }
    Some(4 * live + 3)
}

/// What a core of one replica is started with.
struct LoneStart<T: Tape> {
    store: Store<T>,
    /// The plugins that its configuration may name.
    names: List<Text>,
    /// How many entries it may make.
    room: u64,
}

impl<T: Tape> LoneStart<T> {
    /// Gives the store up.
    fn into_store(self) -> Store<T>
        ensures { result ≡ self.store }
    {
        let LoneStart {
            store,
            names: _,
            room: _,
        } = self;
        store
    }
}

/// Borrows a link to each of the plugins, behind the links that are there, and gives it back.
fn rewrite_linked<W: World, T: Tape>(
    alloc: Global,
    settings: Settings,
    programs: &[Program],
    world: &mut W,
    rollout: LoneStart<T>,
    mut links: Links<W::Link>,
    dice: W::Rand,
) -> (Ended, Store<T>, Links<W::Link>, W::Rand)
    requires programs { names_of W.Link.link links
        ++ map (λ program. program.plugin) programs.now
        ≡ plugin_order (rows_of settings.entries.0) }
    requires names { rollout.names.0 ≡ plugin_order (rows_of settings.entries.0) }
    requires room { HasRoom rollout.store.rows rollout.room }
    requires within { rollout.store.limit ≡ store_limit }
    requires whole { rollout.store.torn ≡ false }
    requires counts { rollout.store.count < 2 ^ 64 - 1 }
    ensures ended { Heard W.Link.link W.lent W.took W.Link.step 0
        (W.told world.old) (W.told world.new) links result.2 (λ es. (name : Name)
        (tapes : Tapes) (a : Environment) (live : LiveRows)
        → IsListing rollout.store.rows live → Does
        (borrow_links programs.now (rewriting_by name (rows_of settings.entries.0)
        (stored_of rollout.store) live))
        (with_lent_links W.Link.link 0 links
        (with_lent_dice 0 (W.Rand.left dice) (W.Rand.count dice)
        (with_lent_tape name rollout.store.told rollout.store.count
        (with_world (with_tapes tapes (W.told world.old)) a))))
        (saying result.0.said
        (with_lent_links W.Link.link 0 result.2
        (with_lent_dice 0 (W.Rand.left result.3) (W.Rand.count result.3)
        (with_lent_tape name result.1.told result.1.count
        (with_world (with_tapes tapes (W.told world.new)) (with_exchanges es a))))))
        result.0.made) }
    ensures tapes { (W.told world.new).tapes ≡ (W.told world.old).tapes }
    ensures names { names_of W.Link.link result.2 ≡ names_of W.Link.link links }
    ensures dice { (W.told world.new).dice ≡ (W.told world.old).dice }
    ensures out { (key : ℕ × Name)
        → (W.told world.new).links.out key ≡ (W.told world.old).links.out key }
{
    let Some((program, more)) = split_first_program(programs) else {
        return rewrite_by_settings(alloc, settings, rollout, links, dice);
    };
    let link = match open_link(
        alloc,
        world,
        0,
        program.plugin.as_str(),
        program.file.as_str(),
    ) {
        Ok(link) => link,
        Err(stop) => {
            drop(settings);
            return (stopped(stop), rollout.into_store(), links, dice);
        }
    };
    match links.add(link) {
        Ok(()) => {}
        Err((_, link)) => {
            drop(settings);
            close_link(world, 0, link);
            return (stopped(Stop::NoMemory), rollout.into_store(), links, dice);
        }
    }
    let (ended, store, mut links, dice) = rewrite_linked(
        alloc, settings, more, world, rollout, links, dice,
    );
    let link = take_last(&mut links);
    close_link(world, 0, link);
    (ended, store, links, dice)
}

/// Publishes the settings, starts a core of one replica with them, and drives.
fn rewrite_by_settings<T: Tape, L: Kms, D: Dice>(
    alloc: Global,
    settings: Settings,
    rollout: LoneStart<T>,
    mut links: Links<L>,
    mut dice: D,
) -> (Ended, Store<T>, Links<L>, D)
    requires links { names_of L.link links ≡ plugin_order (rows_of settings.entries.0) }
    requires names { rollout.names.0 ≡ plugin_order (rows_of settings.entries.0) }
    requires room { HasRoom rollout.store.rows rollout.room }
    requires within { rollout.store.limit ≡ store_limit }
    requires whole { rollout.store.torn ≡ false }
    requires counts { rollout.store.count < 2 ^ 64 - 1 }
    ensures ended { Talk (Among L.step) links result.2 (λ es. (name : Name) (a : Environment)
        (live : LiveRows) → IsListing rollout.store.rows live → Does
        (rewriting_by name (rows_of settings.entries.0) (stored_of rollout.store) live)
        (with_lent_links L.link 0 links (with_lent_dice 0 (D.left dice) (D.count dice)
        (with_lent_tape name rollout.store.told rollout.store.count a)))
        (saying result.0.said
        (with_lent_links L.link 0 result.2 (with_lent_dice 0 (D.left result.3) (D.count result.3)
        (with_lent_tape name result.1.told result.1.count (with_exchanges es a)))))
        result.0.made) }
    ensures names { names_of L.link result.2 ≡ names_of L.link links }
{
    let settings = match Shared::new(alloc, settings) {
        Ok(settings) => settings,
        Err(refused) => {
            drop(refused);
            return (stopped(Stop::NoMemory), rollout.into_store(), links, dice);
        }
    };
    let published = match publish_settings(alloc, settings, &mut links, &mut dice) {
        Ok(published) => published,
        Err(stop) => return (stopped(stop), rollout.into_store(), links, dice),
    };
    links.known();
    let bench = match Bench::new(alloc, links, dice, PAGES, CACHE) {
        Ok(bench) => bench,
        Err((_, links, dice)) => {
            drop(published);
            return (stopped(Stop::NoMemory), rollout.into_store(), links, dice);
        }
    };
    let core = match start(alloc, rollout, published) {
        Ok(core) => core,
        Err((stop, store)) => {
            let (links, dice) = bench.close();
            return (stopped(stop), store, links, dice);
        }
    };
    drive_all(alloc, core, bench)
}

/// The core at its opening. A refusal gives the store back.
fn start<T: Tape>(
    alloc: Global,
    rollout: LoneStart<T>,
    published: Published,
) -> Result<Core<T>, (Stop, Store<T>)>
    requires names { AreServed (plugins_in published.rows) rollout.names.0 }
    requires room { HasRoom rollout.store.rows rollout.room }
    ensures starts { StartsAlone rollout.store published rollout.names.0 rollout.room result }
    ensures back { IfErr result (λ refused. refused.1 ≡ rollout.store) }
{
    let LoneStart { store, names, room } = rollout;
    let replicas = match alone(alloc, published) {
        Ok(replicas) => replicas,
        Err(NoMemory) => return Err((Stop::NoMemory, store)),
    };
    match Core::start(alloc, store, replicas, names, 1, room, &[0]) {
        Ok(core) => Ok(core),
        Err((why, store)) => Err((start_stop(why), store)),
    }
}

/// One replica, which is in.
fn alone(alloc: Global, published: Published) -> Result<List<Option<Shared<Published>>>, NoMemory>
    ensures { IfOk result (λ replicas. replicas.0 ≡ Some published ∷ []) }
{
    let Ok(published) = Shared::new(alloc, published) else {
        return Err(NoMemory);
    };
    let mut replicas = List::new(alloc);
    match replicas.push(Some(published)) {
        Ok(()) => Ok(replicas),
        Err(_) => Err(NoMemory),
    }
}

/// Drives over all rows of the core. What the core and the bench were made of comes back.
fn drive_all<T: Tape, L: Kms, D: Dice>(
    alloc: Global,
    core: Core<T>,
    mut bench: Bench<L, D>,
) -> (Ended, Store<T>, Links<L>, D)
    requires alone { IsAlone core }
    requires names { core.opening.names ≡ names_of L.link bench.links }
    requires distinct { AreDistinct L.link bench.links }
    requires pages { 64 ≤ size_of bench.pages }
    requires unadopted { bench.published ≡ None }
    ensures ended { Talk (Among L.step) bench.links result.2 (λ es. (name : Name) (a : Environment)
        (live : LiveRows) (told : Told) (p : Publication) → IsListing core.opening.rows live
        → core.opening.replicas ≡ Some p ∷ [] → Does
        (driving name p live bench.cache (nothing_done (opened_store core)))
        (with_lent_links L.link 0 bench.links
        (with_lent_dice 0 (D.left bench.dice) (D.count bench.dice)
        (with_lent_tape name told core.opening.count a)))
        (saying result.0.said
        (with_lent_links L.link 0 result.2 (with_lent_dice 0 (D.left result.3) (D.count result.3)
        (with_lent_tape name result.1.told result.1.count (with_exchanges es a)))))
        result.0.made) }
    ensures names { names_of L.link result.2 ≡ names_of L.link bench.links }
{
    let mut solo = Solo::new(core);
    solo.known();
    let driven = drive(alloc, &mut solo, 0, &mut bench, "");
    solo.known();
    let (store, lines) = solo.into_core().close();
    drop(lines);
    store.known();
    let _faults = store.faults();
    let (links, dice) = bench.close();
    match driven {
        Ok(report) => (reported(alloc, report_counts(&report)), store, links, dice),
        Err((report, why)) => {
            let stop = drive_stop(why, &store, &links, &dice);
            (cut_short(report_counts(&report), stop), store, links, dice)
        }
    }
}

fn report_counts(report: &Report) -> RewriteCounts
    ensures { result ≡ report_counts report.now }
{
    RewriteCounts {
        rewritten: report.rewritten,
        fresh: report.fresh,
        changed: report.changed,
        left: report.left,
    }
}

/// Why a drive was cut short, as a command says it.
fn drive_stop<T: Tape, L: Kms, D: Dice>(
    why: CallNo,
    store: &Store<T>,
    links: &Links<L>,
    dice: &D,
) -> Stop
    requires { MayCutShort (names_of L.link links.now) why }
    ensures { IsDriveStop L.link store.now links.now (D.count dice.now) why result }
{
    match why {
        CallNo::PluginFailed { name } => {
            let count = links.faults(name.as_str());
            Stop::Fault(Object::Plugin(name), count)
        }
        CallNo::DiceFailed => Stop::Fault(Object::Dice(0), dice.faults()),
        CallNo::StoreFailed => Stop::Fault(Object::Store, store.faults()),
        CallNo::StoreFull { needed: _needed } => Stop::Refused(Refusal::Limit(Limit::Store)),
        CallNo::NoMemory => Stop::NoMemory,
        _ => unreachable!(),
    }
}

/// The report of a drive that came to the end.
fn reported(alloc: Global, counts: RewriteCounts) -> Ended
    ensures { IsReported counts result }
{
    match report_text(alloc, counts) {
        Ok(bytes) => Ended {
            made: Ok(Outcome {
                bytes,
                done: report_done(counts),
            }),
            said: Some(counts),
        },
        Err(NoMemory) => cut_short(counts, Stop::NoMemory),
    }
}

fn report_done(counts: RewriteCounts) -> Done
    ensures { result ≡ report_done counts }
{
    if counts.left == 0 {
        Done::Silent
    } else {
        Done::Blocked
    }
}

/// A command that was stopped, with what it reports before.
fn cut_short(counts: RewriteCounts, stop: Stop) -> Ended
    ensures { result ≡ record { made = Err stop; said = Some counts } }
{
    Ended {
        made: Err(stop),
        said: Some(counts),
    }
}

/// A command that was stopped, and says nothing else.
fn stopped(stop: Stop) -> Ended
    ensures { result ≡ record { made = Err stop; said = None } }
{
    Ended {
        made: Err(stop),
        said: None,
    }
}
