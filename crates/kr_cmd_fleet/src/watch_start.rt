//! What a watch begins with: the live rows of the opening, as the first replica's configuration
//! reads them.
ghost use Rattle.std.specs.Prelude.{◌≡◌, ◌≤◌, All, Err, IfOk, IfSome, IsSome, None, Some, [], length};
ghost use Rattle.std.specs.List.{last_or};
ghost use Rattle.kr_base.specs.Walks.{Talk};
ghost use Rattle.kr_provider.specs.Names.{AreDistinct, HasLinks, names_of as plugin_names};
ghost use Rattle.kr_provider.specs.AskedLinks.{Among, AskedOnly};
ghost use Rattle.kr_opening.specs.Replicas.{IsFirstIn};
ghost use Rattle.kr_store.specs.Stores.{IsListing};
ghost use Rattle.kr_cmd_fleet.specs.FirstItems.{item_with, reading_rows, watching};
ghost use Rattle.kr_cmd_fleet.specs.StartExchanges.{AsksFirst, Exchanges};
ghost use Rattle.kr_cmd_fleet.specs.inner.Beginnings.{with_first};
ghost use Rattle.kr_cmd_fleet.specs.inner.Outfits.{AreLater, links_of, with_outfits};
ghost use Rattle.kr_cmd_fleet.specs.inner.Readings.{AreReadOf, HasFirst, IsReadEnd, IsReadable};
ghost use Rattle.kr_cmd_fleet.specs.inner.Readings.{KnowsItems, NamesALink, ReadsAll, ReadsRow};
ghost use Rattle.kr_cmd_fleet.specs.inner.Readings.{first_in, items_in, read_in};
ghost use Rattle.kr_cmd_steps.specs.Environment.{Environment, with_exchanges};
ghost use Rattle.kr_cmd_steps.specs.ValueSteps.{none_kept};
ghost use Rattle.kr_cmd_steps.specs.inner.Phases.{Does};
ghost use Rattle.kr_cmd_steps.specs.inner.Tapes.{walk_path};

use crate::crew::in_turn;
use crate::outfit::Outfit;
use kr_base::{Bytes, Dice, List, NoMemory, Shared, Tape, Text};
use kr_cmd_messages::{Object, Stop};
use kr_kms::Kms;
use kr_provider::{Bench, Links, Published, UnsealNo};
use kr_store::{Row, Store};
use kr_watch::Item;
use std::alloc::Global;

/// How many keys the reading bench holds expanded, and how many unwrapped seeds.
const PAGES: u32 = 64;

const CACHE: u32 = 64;

/// What a watch begins with.
#[derive(Drop)]
pub struct WatchStart {
    /// The objects of the live rows, in the order of their paths, where they were read.
    pub items: List<Item>,
    /// The revision of the opening's last row.
    pub revision: u64,
}

impl WatchStart {
    /// That of a fleet that no one watches.
    pub fn unread<T: Tape>(alloc: Global, store: &Store<T>) -> WatchStart
        ensures items { result.items.0 ≡ [] }
        ensures revision { result.revision ≡ length store.now.rows }
    {
        WatchStart {
            items: List::new(alloc),
            revision: store.revision(),
        }
    }
}

/// Why a row wasn't read.
enum RowReadNo {
    /// The plugin of this name failed.
    PluginFailed { name: Text },
    /// There was no memory.
    NoMemory,
}

/// Reads the live rows by what the first replica published, with the first worker's outfit. Where
/// no one watches none is read.
pub(crate) fn read_first<T: Tape, L: Kms, D: Dice>(
    alloc: Global,
    watched: bool,
    store: &Store<T>,
    replicas: &[Option<Shared<Published>>],
    outfits: List<Outfit<L, D>>,
) -> (Result<WatchStart, Stop>, List<Outfit<L, D>>)
    requires first { IsFirstIn replicas.now }
    requires some { 1 ≤ length outfits.0 }
    requires links { HasFirst L.link outfits.0 replicas.now }
    ensures does { (es : Exchanges)
        × AsksFirst L.step es (links_of outfits.0) (links_of result.1.0)
        × ((a : Environment) → Does (watching watched store.now.rows replicas.now)
        (with_outfits L.link D.left D.count 0 outfits.0 a)
        (with_outfits L.link D.left D.count 0 result.1.0 (with_exchanges es a)) (read_in result.0))
        × IfOk result.0 (λ start.
        KnowsItems watched es store.now.rows replicas.now start.items.0) }
    ensures revision { IfOk result.0 (λ start. start.revision ≡ length store.now.rows) }
    ensures later { AreLater L.link D.count outfits.0 result.1.0 }
{
    if !watched {
        return (Ok(WatchStart::unread(alloc, store)), outfits);
    }
    let published = first_published(replicas);
    let rows = match live_rows(alloc, store) {
        Ok(rows) => rows,
        Err(NoMemory) => return (Err(Stop::NoMemory), outfits),
    };
    let mut outfits = in_turn(outfits);
    let Some(outfit) = outfits.pop() else {
        unreachable!();
    };
    let (read, outfit) = read_start_rows(alloc, rows.as_slice(), published, outfit);
    drop(rows);
    outfits.push_in_room(outfit);
    let outfits = in_turn(outfits);
    match read {
        Ok(items) => {
            let start = WatchStart {
                items,
                revision: store.revision(),
            };
            (Ok(start), outfits)
        }
        Err(stop) => (Err(stop), outfits),
    }
}

/// What the first replica published.
fn first_published(replicas: &[Option<Shared<Published>>]) -> &Shared<Published>
    requires { IsFirstIn replicas.now }
    ensures { first_in replicas.now ≡ Some result.now }
{
    match replicas {
        [Some(published), ..] => published,
        _ => unreachable!(),
    }
}

/// The live rows, in the order of their paths.
fn live_rows<T: Tape>(alloc: Global, store: &Store<T>) -> Result<List<Shared<Row>>, NoMemory>
    ensures lists { IfOk result (λ rows. IsListing store.now.rows rows.0) }
    ensures rules { IfOk result (λ rows. All IsReadable rows.0) }
{
    store.known();
    let mut rows = List::new(alloc);
    loop {
        let row = match store.successor(walk_path(rows.as_slice())) {
            Ok(Some(row)) => row,
            Ok(None) => return Ok(rows),
            Err(_) => return Err(NoMemory),
        };
        match rows.push(row) {
            Ok(()) => {}
            Err(_) => return Err(NoMemory),
        }
    }
}

/// The path where a walk is that has passed these rows; the empty one at its begin.
fn walk_path(passed: &[Shared<Row>]) -> &str
    ensures { result.now ≡ walk_path (last_or None passed.now) }
{
    match passed.last() {
        Some(row) => row.get().path.as_str(),
        None => "",
    }
}

/// Reads the rows by a bench over the outfit, which comes back.
fn read_start_rows<L: Kms, D: Dice>(
    alloc: Global,
    rows: &[Shared<Row>],
    published: &Shared<Published>,
    outfit: Outfit<L, D>,
) -> (Result<List<Item>, Stop>, Outfit<L, D>)
    requires links { HasLinks (plugin_names L.link outfit.links) published.now.rows }
    requires rules { All IsReadable rows.now }
    ensures does { Talk (Among L.step) outfit.links result.1.links (λ es. ((a : Environment)
        → Does (reading_rows published.now rows.now [] none_kept)
        (with_first L.link outfit.links (D.left outfit.dice) (D.count outfit.dice) a)
        (with_first L.link result.1.links (D.left outfit.dice) (D.count outfit.dice)
        (with_exchanges es a)) (items_in result.0))
        × IfOk result.0 (λ items. AreReadOf es published.now rows.now items.0)) }
    ensures asked { AskedOnly L.link (plugin_names L.link outfit.links) outfit.links
        result.1.links }
    ensures dice { result.1.dice ≡ outfit.dice }
{
    published.get().known();
    let Ok(published) = published.share() else {
        return (Err(Stop::NoMemory), outfit);
    };
    let Outfit { links, dice } = outfit;
    let mut bench = match Bench::new(alloc, links, dice, PAGES, CACHE) {
        Ok(bench) => bench,
        Err((_, links, dice)) => {
            drop(published);
            return (Err(Stop::NoMemory), Outfit { links, dice });
        }
    };
    let Ok(()) = bench.adopt(published) else {
        unreachable!();
    };
    match read_rows(alloc, rows, &mut bench) {
        Ok(items) => {
            let (links, dice) = bench.close();
            (Ok(items), Outfit { links, dice })
        }
        Err(why) => {
            let (links, dice) = bench.close();
            let stop = read_stop(why, &links);
            (Err(stop), Outfit { links, dice })
        }
    }
}

/// Why the rows weren't read, as a command says it.
fn read_stop<L: Kms>(why: RowReadNo, links: &Links<L>) -> Stop
    requires { NamesALink (plugin_names L.link links.now) why }
    ensures { IsReadEnd L.link links.now (Err why) (Err result) }
{
    match why {
        RowReadNo::PluginFailed { name } => {
            let count = links.faults(name.as_str());
            Stop::Fault(Object::Plugin(name), count)
        }
        RowReadNo::NoMemory => Stop::NoMemory,
    }
}

/// Reads the rows, one after another.
fn read_rows<L: Kms, D: Dice>(
    alloc: Global,
    rows: &[Shared<Row>],
    bench: &mut Bench<L, D>,
) -> Result<List<Item>, RowReadNo>
    requires adopted { IsSome bench.old.published }
    requires distinct { AreDistinct L.link bench.old.links }
    requires cold { bench.old.cache ≡ none_kept }
    requires rules { All IsReadable rows.now }
    ensures read { IfSome bench.old.published (λ p. ReadsAll L.link L.step p rows.now
        bench.old.links result bench.new.links) }
    ensures kept { bench.new
        ≡ record bench.old { links = bench.new.links; cache = bench.new.cache } }
{
    let mut items = List::new(alloc);
    for row in rows {
        let item = match read_row(alloc, row.get(), bench) {
            Ok(item) => item,
            Err(why) => return Err(why),
        };
        match items.push(item) {
            Ok(()) => {}
            Err(_) => return Err(RowReadNo::NoMemory),
        }
    }
    Ok(items)
}

/// The object of a row, with the data that its value reads as.
fn read_row<L: Kms, D: Dice>(
    alloc: Global,
    row: &Row,
    bench: &mut Bench<L, D>,
) -> Result<Item, RowReadNo>
    requires adopted { IsSome bench.old.published }
    requires rules { IsReadable row.now }
    ensures read { IfSome bench.old.published (λ p. ReadsRow L.link L.step p row.now
        bench.old.links bench.new.links bench.old.cache bench.new.cache result) }
    ensures kept { bench.new
        ≡ record bench.old { links = bench.new.links; cache = bench.new.cache } }
{
    let resource = row.resource.as_str();
    let path = row.path.as_str();
    let plain = match bench.unseal(alloc, resource, path, row.stored.as_slice()) {
        Ok(opened) => Some(opened.plain),
        Err(UnsealNo::Refused(_)) => None,
        Err(UnsealNo::PluginFailed { name }) => return Err(RowReadNo::PluginFailed { name }),
        Err(UnsealNo::NoMemory) => return Err(RowReadNo::NoMemory),
    };
    match watched_item(alloc, row, plain) {
        Ok(item) => Ok(item),
        Err(NoMemory) => Err(RowReadNo::NoMemory),
    }
}

/// The object of a row with these data.
fn watched_item(alloc: Global, row: &Row, plain: Option<Bytes>) -> Result<Item, NoMemory>
    ensures { IfOk result (λ item. item ≡ item_with row.now plain) }
{
    let path = Text::copy(alloc, row.path.as_str())?;
    let resource = Text::copy(alloc, row.resource.as_str())?;
    Ok(Item {
        path,
        resource,
        revision: row.revision,
        plain,
    })
}
