//! What a worker has of the world: a random source, and a link to each plugin.
ghost use Rattle.std.specs.Prelude.{◌≡◌, ◌<◌, ◌≤◌, ◌^◌, All, IfOk, OnOk, [], length};
ghost use Rattle.kr_provider.specs.Names.{names_of};
ghost use Rattle.kr_cmd_steps.specs.Environment.{Environment, with_world};
ghost use Rattle.kr_cmd_fleet.specs.Fleets.{equipping};
ghost use Rattle.kr_cmd_fleet.specs.StartExchanges.{AreOfSeats};
ghost use Rattle.kr_cmd_steps.specs.Steps.{give};
ghost use Rattle.kr_cmd_steps.specs.inner.Lent.{Tapes, with_tapes};
ghost use Rattle.kr_cmd_fleet.specs.inner.Outfits.{AreBorrowed, AreNamed, AreOut, ArePlugins, HasOut, IsOut};
ghost use Rattle.kr_cmd_fleet.specs.inner.Outfits.{HandsLinks, HandsOutfit, HandsOutfits};
ghost use Rattle.kr_cmd_fleet.specs.inner.Outfits.{KeepsOthers, LinksReturn, Opens, OpensLinks, OutfitReturn};
ghost use Rattle.kr_cmd_fleet.specs.inner.Outfits.{links_of, with_outfits};
ghost use Rattle.kr_cmd_steps.specs.inner.ProgramNames.{names_in};
ghost use Rattle.kr_cmd_steps.specs.inner.Phases.{Does};

use kr_base::{Dice, List, NoMemory};
use kr_cmd_messages::Stop;
use kr_cmd_steps::{Program, close_dice, close_link, open_dice, open_link};
use kr_kms::{Kms, World};
use kr_provider::Links;
use std::alloc::Global;

/// What a worker has of the world. It can't be dropped: it goes back.
pub struct Outfit<L: Kms, D: Dice> {
    /// A link to each plugin, in the order of the programs.
    pub links: Links<L>,
    /// Its random source.
    pub dice: D,
}

/// Borrows an outfit for each seat from 0 on, behind each other. After a refusal those of the first
/// seats are there.
pub fn open_outfits<W: World>(
    alloc: Global,
    world: &mut W,
    programs: &[Program],
    seats: u32,
    outfits: &mut List<Outfit<W::Link, W::Rand>>,
) -> Result<(), Stop>
    requires none { outfits.old.0 ≡ [] }
    requires programs { ArePlugins programs.now }
    ensures does { (tapes : Tapes) (a : Environment)
        → Does (equipping programs.now 0 seats (give tt))
        (with_world (with_tapes tapes (W.told world.old)) a)
        (with_outfits W.Link.link W.Rand.left W.Rand.count 0 outfits.new.0
        (with_world (with_tapes tapes (W.told world.new)) a)) result }
    ensures tapes { (W.told world.new).tapes ≡ (W.told world.old).tapes }
    ensures many { OnOk result (length outfits.new.0 ≡ seats) }
    ensures few { length outfits.new.0 ≤ seats }
    ensures named { AreNamed W.Link.link (names_in programs.now) outfits.new.0 }
    ensures out { AreOut (names_in programs.now) (length outfits.new.0) (W.told world.new) }
    ensures lent { AreOfSeats W.lent 0 (links_of outfits.new.0) }
    ensures handed { HandsOutfits W.Link.link W.lent W.took (W.told world.old) (W.told world.new)
        (links_of outfits.new.0) result }
{
    match outfits.reserve(seats as usize) {
        Ok(()) => {}
        Err(NoMemory) => return Err(Stop::NoMemory),
    }
    for seat in 0..seats {
        match open_outfit(alloc, world, programs, seat) {
            Ok(outfit) => outfits.push_in_room(outfit),
            Err(stop) => return Err(stop),
        }
    }
    Ok(())
}

/// Gives all outfits back, that of the last seat first.
pub fn close_outfits<W: World>(world: &mut W, outfits: List<Outfit<W::Link, W::Rand>>)
    requires out { AreBorrowed W.Link.link outfits.0 (W.told world.old) }
    requires few { length outfits.0 < 2 ^ 32 }
    ensures back { (tapes : Tapes) (a : Environment)
        → with_outfits W.Link.link W.Rand.left W.Rand.count 0 outfits.0
        (with_world (with_tapes tapes (W.told world.old)) a)
        ≡ with_world (with_tapes tapes (W.told world.new)) a }
    ensures tapes { (W.told world.new).tapes ≡ (W.told world.old).tapes }
    ensures taken { AreOfSeats W.took 0 (links_of outfits.0) }
    ensures handed { (W.told world.new).links.handed ≡ (W.told world.old).links.handed }
{
    let mut outfits = outfits;
    while let Some(outfit) = outfits.pop() {
        let seat = outfits.as_slice().len() as u32;
        close_outfit(world, seat, outfit);
    }
    outfits.end();
}

/// Borrows the random source of the seat, and a link of it to each plugin.
fn open_outfit<W: World>(
    alloc: Global,
    world: &mut W,
    programs: &[Program],
    seat: u32,
) -> Result<Outfit<W::Link, W::Rand>, Stop>
    requires programs { ArePlugins programs.now }
    ensures does { Opens W.Link.link W.Rand.left W.Rand.count seat programs.now
        (W.told world.old) (W.told world.new) result }
    ensures tapes { (W.told world.new).tapes ≡ (W.told world.old).tapes }
    ensures named { IfOk result
        (λ outfit. names_of W.Link.link outfit.links ≡ names_in programs.now) }
    ensures out { OnOk result (IsOut (names_in programs.now) seat (W.told world.new)) }
    ensures lent { IfOk result (λ outfit. All (W.lent seat) outfit.links) }
    ensures handed { HandsOutfit W.Link.link W.lent W.took seat (W.told world.old)
        (W.told world.new) result }
    ensures others { KeepsOthers seat (W.told world.old) (W.told world.new) }
{
    let dice = match open_dice(alloc, world, seat) {
        Ok(dice) => dice,
        Err(stop) => return Err(stop),
    };
    let mut links = Links::<W::Link>::new(alloc);
    match open_links(alloc, world, programs, seat, &mut links) {
        Ok(()) => Ok(Outfit { links, dice }),
        Err(stop) => {
            close_outfit(world, seat, Outfit { links, dice });
            Err(stop)
        }
    }
}

/// Borrows a link of the seat to each plugin. After a refusal the first ones are there.
fn open_links<W: World>(
    alloc: Global,
    world: &mut W,
    programs: &[Program],
    seat: u32,
    links: &mut Links<W::Link>,
) -> Result<(), Stop>
    requires none { links.old ≡ [] }
    requires programs { ArePlugins programs.now }
    ensures does { OpensLinks W.Link.link W.Rand.left W.Rand.count seat programs.now
        (W.told world.old) (W.told world.new) links.new result }
    ensures tapes { (W.told world.new).tapes ≡ (W.told world.old).tapes }
    ensures dice { (W.told world.new).dice ≡ (W.told world.old).dice }
    ensures named { OnOk result (names_of W.Link.link links.new ≡ names_in programs.now) }
    ensures out { HasOut W.Link.link seat links.new (W.told world.new) }
    ensures lent { All (W.lent seat) links.new }
    ensures handed { HandsLinks W.Link.link W.lent W.took seat (W.told world.old)
        (W.told world.new) links.new result }
    ensures others { KeepsOthers seat (W.told world.old) (W.told world.new) }
{
    for program in programs {
        let link = match open_link(
            alloc,
            world,
            seat,
            program.plugin.as_str(),
            program.file.as_str(),
        ) {
            Ok(link) => link,
            Err(stop) => return Err(stop),
        };
        match links.add(link) {
            Ok(()) => {}
            Err((_, link)) => {
                close_link(world, seat, link);
                return Err(Stop::NoMemory);
            }
        }
    }
    Ok(())
}

/// Gives an outfit of the seat back.
fn close_outfit<W: World>(world: &mut W, seat: u32, outfit: Outfit<W::Link, W::Rand>)
    requires out { IsOut (names_of W.Link.link outfit.links) seat (W.told world.old) }
    ensures back { OutfitReturn W.Link.link W.Rand.left W.Rand.count seat (W.told world.old)
        (W.told world.new) outfit }
    ensures taken { All (W.took seat) outfit.links }
{
    let Outfit { links, dice } = outfit;
    close_links(world, seat, links);
    close_dice(world, seat, dice);
}

/// Gives links of the seat back, the last one first.
fn close_links<W: World>(world: &mut W, seat: u32, links: Links<W::Link>)
    requires out { HasOut W.Link.link seat links (W.told world.old) }
    ensures back { LinksReturn W.Link.link seat (W.told world.old) (W.told world.new) links }
    ensures taken { All (W.took seat) links }
{
    links.known();
    let mut links = links;
    while let Some(link) = links.take() {
        close_link(world, seat, link);
    }
    links.end();
}
