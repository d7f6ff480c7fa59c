//! What the values of a store read as: random source, links, publish, unseal each row.
ghost use Rattle.std.specs.Prelude.{◌≡◌, ◌++◌, [], ℕ, All, Err, IfOk, IfErr, IfSome, IsSome, length, map};
ghost use Rattle.kr_base.specs.Walks.{Talk};
ghost use Rattle.kr_config.specs.Kept.{rows_of};
ghost use Rattle.kr_provider.specs.AskedLinks.{Among};
ghost use Rattle.kr_provider.specs.Names.{AreDistinct, names_of};
ghost use Rattle.kr_provider.specs.PluginOrder.{plugin_order};
ghost use Rattle.kr_cmd_steps.specs.Environment.{Environment, with_exchanges, with_world};
ghost use Rattle.kr_cmd_steps.specs.StoreSteps.{row_findings, verifying_by, verifying_with};
ghost use Rattle.kr_cmd_steps.specs.Heard.{Heard};
ghost use Rattle.kr_cmd_steps.specs.Plugins.{borrow_links};
ghost use Rattle.kr_cmd_steps.specs.inner.Lent.{Name, with_lent_dice, with_lent_links};
ghost use Rattle.kr_cmd_steps.specs.inner.Phases.{Does};
ghost use Rattle.kr_cmd_messages.specs.declared.refusal.Stop.{Stop};
ghost use Rattle.kr_cmd_store.specs.inner.Verifying.{IsRowRead, IsToldOf, IsUnreadStop, IsWithin, NamesUnread, findings_in, value_finding, read_finding};

use crate::finding_lines::tell_findings;
use kr_base::{Dice, List, NoMemory, Shared, Text};
use kr_cmd_messages::{Object, Outcome, Stop};
use kr_cmd_steps::{
    Finding, Program, adopted, close_dice, close_link, open_dice, open_link, publish_settings,
    split_first_program, take_last,
};
use kr_config::Settings;
use kr_kms::{Kms, World};
use kr_provider::{Bench, Links, Opened, UnsealNo};
use kr_store::Row;
use std::alloc::Global;

/// Borrows the random source of seat 0, and a link of it to each plugin, for what is told of the
/// rows by these settings.
pub fn read_by_links<W: World>(
    alloc: Global,
    settings: Settings,
    programs: &[Program],
    rows: &[Shared<Row>],
    world: &mut W,
) -> Result<Outcome, Stop>
    requires programs { map (λ program. program.plugin) programs.now
        ≡ plugin_order (rows_of settings.entries.0) }
    requires within { All IsWithin rows.now }
    ensures { Heard W.Link.link W.lent W.took W.Link.step 0
        (W.told world.old) (W.told world.new) [] [] (λ es. (a : Environment)
        → Does
        (verifying_with programs.now (rows_of settings.entries.0) rows.now)
        (with_world (W.told world.old) a)
        (with_world (W.told world.new) (with_exchanges es a)) result) }
{
    let dice = match open_dice(alloc, world, 0) {
        Ok(dice) => dice,
        Err(stop) => {
            drop(settings);
            return Err(stop);
        }
    };
    let links = Links::<W::Link>::new(alloc);
    let (told, links, dice) = read_linked(alloc, settings, programs, rows, world, links, dice);
    links.end();
    close_dice(world, 0, dice);
    told
}

/// Borrows a link to each of the plugins, behind the links that are there, and gives it back.
fn read_linked<W: World>(
    alloc: Global,
    settings: Settings,
    programs: &[Program],
    rows: &[Shared<Row>],
    world: &mut W,
    mut links: Links<W::Link>,
    dice: W::Rand,
) -> (Result<Outcome, Stop>, Links<W::Link>, W::Rand)
    requires programs { names_of W.Link.link links
        ++ map (λ program. program.plugin) programs.now
        ≡ plugin_order (rows_of settings.entries.0) }
    requires within { All IsWithin rows.now }
    ensures does { Heard W.Link.link W.lent W.took W.Link.step 0
        (W.told world.old) (W.told world.new) links result.1 (λ es. (a : Environment)
        → Does
        (borrow_links programs.now (verifying_by (rows_of settings.entries.0) rows.now))
        (with_lent_links W.Link.link 0 links
        (with_lent_dice 0 (W.Rand.left dice) (W.Rand.count dice) (with_world (W.told world.old) a)))
        (with_lent_links W.Link.link 0 result.1
        (with_lent_dice 0 (W.Rand.left result.2) (W.Rand.count result.2)
        (with_world (W.told world.new) (with_exchanges es a))))
        result.0) }
    ensures names { names_of W.Link.link result.1 ≡ names_of W.Link.link links }
    ensures dice { (W.told world.new).dice ≡ (W.told world.old).dice }
    ensures out { (key : ℕ × Name)
        → (W.told world.new).links.out key ≡ (W.told world.old).links.out key }
{
    let Some((program, more)) = split_first_program(programs) else {
        return read_stored_rows(alloc, settings, rows, links, dice);
    };
    let link = match open_link(
        alloc,
        world,
        0,
        program.plugin.as_str(),
        program.file.as_str(),
    ) {
        Ok(link) => link,
        Err(stop) => {
            drop(settings);
            return (Err(stop), links, dice);
        }
    };
    match links.add(link) {
        Ok(()) => {}
        Err((_, link)) => {
            close_link(world, 0, link);
            drop(settings);
            return (Err(Stop::NoMemory), links, dice);
        }
    }
    let (told, mut links, dice) = read_linked(alloc, settings, more, rows, world, links, dice);
    let link = take_last(&mut links);
    close_link(world, 0, link);
    (told, links, dice)
}

/// What a bench of these settings tells of the rows. The links and the random source come back.
fn read_stored_rows<L: Kms, D: Dice>(
    alloc: Global,
    settings: Settings,
    rows: &[Shared<Row>],
    mut links: Links<L>,
    mut dice: D,
) -> (Result<Outcome, Stop>, Links<L>, D)
    requires links { names_of L.link links ≡ plugin_order (rows_of settings.entries.0) }
    requires within { All IsWithin rows.now }
    ensures does { Talk (Among L.step) links result.1 (λ es. (a : Environment)
        → Does (verifying_by (rows_of settings.entries.0) rows.now)
        (with_lent_links L.link 0 links (with_lent_dice 0 (D.left dice) (D.count dice) a))
        (with_lent_links L.link 0 result.1
        (with_lent_dice 0 (D.left result.2) (D.count result.2) (with_exchanges es a)))
        result.0) }
    ensures names { names_of L.link result.1 ≡ names_of L.link links }
{
    let settings = match Shared::new(alloc, settings) {
        Ok(settings) => settings,
        Err(refused) => {
            drop(refused);
            return (Err(Stop::NoMemory), links, dice);
        }
    };
    let published = match publish_settings(alloc, settings, &mut links, &mut dice) {
        Ok(published) => published,
        Err(stop) => return (Err(stop), links, dice),
    };
    links.known();
    let bench = match adopted(alloc, published, links, dice) {
        Ok(bench) => bench,
        Err((links, dice)) => return (Err(Stop::NoMemory), links, dice),
    };
    let (found, links, dice) = read_rows(alloc, bench, rows);
    (tell(alloc, rows, found), links, dice)
}

/// What each row's value is found to be. Its links and its random source come back.
fn read_rows<L: Kms, D: Dice>(
    alloc: Global,
    mut bench: Bench<L, D>,
    rows: &[Shared<Row>],
) -> (Result<List<Finding>, Stop>, Links<L>, D)
    requires adopted { IsSome bench.published }
    requires distinct { AreDistinct L.link bench.links }
    requires within { All IsWithin rows.now }
    ensures does { Talk (Among L.step) bench.links result.1 (λ es. (a : Environment)
        → IfSome bench.published (λ p. Does (row_findings p rows.now bench.cache)
        (with_lent_links L.link 0 bench.links
        (with_lent_dice 0 (D.left bench.dice) (D.count bench.dice) a))
        (with_lent_links L.link 0 result.1
        (with_lent_dice 0 (D.left result.2) (D.count result.2) (with_exchanges es a)))
        (findings_in result.0))) }
    ensures all { IfOk result.0 (λ findings. length findings.0 ≡ length rows.now) }
    ensures names { names_of L.link result.1 ≡ names_of L.link bench.links }
{
    let mut findings = List::new(alloc);
    for row in rows {
        let finding = match read_row(alloc, &mut bench, row.get()) {
            Ok(finding) => finding,
            Err(why) => return cut_short(bench, why),
        };
        match findings.push(finding) {
            Ok(()) => {}
            Err(_) => return cut_short(bench, Unread::NoMemory),
        }
    }
    let (links, dice) = bench.close();
    (Ok(findings), links, dice)
}

/// Why a row wasn't read to its end.
#[derive(Drop)]
enum Unread {
    /// The plugin of this name failed.
    PluginFailed { name: Text },
    /// There was no memory.
    NoMemory,
}

/// What the value of a row is found to be.
fn read_row<L: Kms, D: Dice>(
    alloc: Global,
    bench: &mut Bench<L, D>,
    row: &Row,
) -> Result<Finding, Unread>
    requires adopted { IsSome bench.old.published }
    requires distinct { AreDistinct L.link bench.old.links }
    requires within { IsWithin row.now }
    ensures read { Talk (Among L.step) bench.old.links bench.new.links
        (IsRowRead L.link D.left D.count row.now bench.old bench.new result) }
    ensures named { IfErr result (NamesUnread (names_of L.link bench.new.links)) }
    ensures names { names_of L.link bench.new.links ≡ names_of L.link bench.old.links }
    ensures kept { bench.new
        ≡ record bench.old { links = bench.new.links; cache = bench.new.cache } }
{
    let opened = bench.unseal(
        alloc,
        row.resource.as_str(),
        row.path.as_str(),
        row.stored.as_slice(),
    );
    value_finding(opened)
}

/// What a value is found to be by what a bench read of it.
fn value_finding(opened: Result<Opened, UnsealNo>) -> Result<Finding, Unread>
    ensures { result ≡ value_finding opened }
{
    match opened {
        Ok(
            Opened {
                plain: _plain,
                stale,
            },
        ) => Ok(read_finding(stale)),
        Err(UnsealNo::Refused(why)) => Ok(Finding::Refused(why)),
        Err(UnsealNo::PluginFailed { name }) => Err(Unread::PluginFailed { name }),
        Err(UnsealNo::NoMemory) => Err(Unread::NoMemory),
    }
}

/// What a value that is read is found to be.
fn read_finding(stale: bool) -> Finding
    ensures { result ≡ read_finding stale }
{
    if stale {
        Finding::Stale
    } else {
        Finding::Fresh
    }
}

/// Gives up at a row. The links and the random source come back.
fn cut_short<L: Kms, D: Dice>(
    bench: Bench<L, D>,
    why: Unread,
) -> (Result<List<Finding>, Stop>, Links<L>, D)
    requires { NamesUnread (names_of L.link bench.links) why }
    ensures stop { (stop : Stop) × (findings_in result.0 ≡ Err stop)
        × IsUnreadStop L.link bench.links why stop }
    ensures links { result.1 ≡ bench.links }
    ensures dice { result.2 ≡ bench.dice }
{
    let (links, dice) = bench.close();
    let stop = unread_stop(why, &links);
    (Err(stop), links, dice)
}

/// Why a row wasn't read, as a command says it.
fn unread_stop<L: Kms>(why: Unread, links: &Links<L>) -> Stop
    requires { NamesUnread (names_of L.link links.now) why }
    ensures { IsUnreadStop L.link links.now why result }
{
    match why {
        Unread::PluginFailed { name } => {
            let count = links.faults(name.as_str());
            Stop::Fault(Object::Plugin(name), count)
        }
        Unread::NoMemory => Stop::NoMemory,
    }
}

/// What is told of the findings, where the rows were read.
fn tell(
    alloc: Global,
    rows: &[Shared<Row>],
    found: Result<List<Finding>, Stop>,
) -> Result<Outcome, Stop>
    requires { IfOk found (λ findings. length findings.0 ≡ length rows.now) }
    ensures { IsToldOf rows.now (findings_in found) result }
{
    match found {
        Ok(findings) => match tell_findings(alloc, rows, findings.as_slice()) {
            Ok(made) => Ok(made),
            Err(NoMemory) => Err(Stop::NoMemory),
        },
        Err(stop) => Err(stop),
    }
}
