//! Borrows a random source, and a link to each plugin, for what is made of the input.
ghost use Rattle.std.specs.Prelude.{◌≡◌, ◌≢◌, ◌≤◌, ℕ, List, ◌∷◌, ◌++◌, length, map, [], IfOk, MatchOption};
ghost use Rattle.kr_base.specs.Limits.{path_limit, value_limit};
ghost use Rattle.kr_base.specs.Walks.{Talk};
ghost use Rattle.kr_config.specs.Kept.{rows_of};
ghost use Rattle.kr_provider.specs.AskedLinks.{Among};
ghost use Rattle.kr_provider.specs.Names.{names_of};
ghost use Rattle.kr_provider.specs.PluginOrder.{plugin_order};
ghost use Rattle.kr_cmd_steps.specs.Environment.{Environment, with_exchanges, with_world};
ghost use Rattle.kr_cmd_steps.specs.ValueSteps.{bench_steps, working};
ghost use Rattle.kr_cmd_steps.specs.Phases.{input_limit};
ghost use Rattle.kr_cmd_steps.specs.Heard.{Heard};
ghost use Rattle.kr_cmd_steps.specs.Plugins.{borrow_links};
ghost use Rattle.kr_cmd_messages.specs.declared.command.Direction.{Direction};
ghost use Rattle.kr_cmd_steps.specs.inner.Lent.{Tapes, with_tapes, with_lent_dice, with_lent_links};
ghost use Rattle.kr_cmd_steps.specs.inner.Phases.{Does};

use crate::bench::{adopted, work};
use crate::phases::{close_dice, close_link, open_dice, open_link};
use crate::programs::Program;
use crate::publication::publish_settings;
use kr_base::{Bytes, Dice, Shared};
use kr_cmd_messages::{Direction, Outcome, Stop};
use kr_config::Settings;
use kr_kms::{Kms, World};
use kr_provider::Links;
use std::alloc::Global;

/// What a bench is to make of some bytes.
#[derive(Clone, Copy)]
pub struct Task<'a> {
    /// Whether they are data or a stored value.
    pub direction: Direction,
    /// The resource that they are of.
    pub resource: &'a str,
    /// The path at which the value stands.
    pub path: &'a str,
}

/// Borrows the random source of seat 0, and a link of it to each plugin, for what is made of the
/// bytes by these settings, in their own buffer. A tape may be out meanwhile.
pub fn make<W: World>(
    alloc: Global,
    task: &Task<'_>,
    bytes: Bytes,
    settings: Settings,
    programs: &[Program],
    world: &mut W,
) -> Result<Outcome, Stop>
    requires programs { map (λ program. program.plugin) programs.now
        ≡ plugin_order (rows_of settings.entries.0) }
    requires path { length task.now.path.now ≤ path_limit }
    requires fits { length bytes ≤ input_limit task.now.direction }
    ensures made { Heard W.Link.link W.lent W.took W.Link.step 0 (W.told world.old)
        (W.told world.new) [] [] (λ es. (tapes : Tapes) (a : Environment) → Does
        (bench_steps programs.now task.now.direction task.now.resource.now task.now.path.now
        (rows_of settings.entries.0) bytes)
        (with_world (with_tapes tapes (W.told world.old)) a)
        (with_world (with_tapes tapes (W.told world.new)) (with_exchanges es a)) result) }
    ensures size { task.now.direction ≡ Direction.Encrypt
        → IfOk result (λ made. length made.bytes ≤ value_limit) }
    ensures tapes { (W.told world.new).tapes ≡ (W.told world.old).tapes }
{
    let dice = match open_dice(alloc, world, 0) {
        Ok(dice) => dice,
        Err(stop) => {
            drop(bytes);
            drop(settings);
            return Err(stop);
        }
    };
    let links = Links::<W::Link>::new(alloc);
    let (made, links, dice) = make_linked(
        alloc, task, bytes, settings, programs, world, links, dice,
    );
    links.end();
    close_dice(world, 0, dice);
    made
}

/// Borrows a link to each of the plugins, behind the links that are there, and gives it back.
fn make_linked<W: World>(
    alloc: Global,
    task: &Task<'_>,
    bytes: Bytes,
    settings: Settings,
    programs: &[Program],
    world: &mut W,
    mut links: Links<W::Link>,
    dice: W::Rand,
) -> (Result<Outcome, Stop>, Links<W::Link>, W::Rand)
    requires programs { names_of W.Link.link links
        ++ map (λ program. program.plugin) programs.now
        ≡ plugin_order (rows_of settings.entries.0) }
    requires path { length task.now.path.now ≤ path_limit }
    requires fits { length bytes ≤ input_limit task.now.direction }
    ensures made { Heard W.Link.link W.lent W.took W.Link.step 0 (W.told world.old)
        (W.told world.new) links result.1
        (λ es. (tapes : Tapes) (a : Environment) → Does
        (borrow_links programs.now (working task.now.direction task.now.resource.now
        task.now.path.now (rows_of settings.entries.0) bytes))
        (with_lent_links W.Link.link 0 links
        (with_lent_dice 0 (W.Rand.left dice) (W.Rand.count dice)
        (with_world (with_tapes tapes (W.told world.old)) a)))
        (with_lent_links W.Link.link 0 result.1
        (with_lent_dice 0 (W.Rand.left result.2) (W.Rand.count result.2)
        (with_world (with_tapes tapes (W.told world.new)) (with_exchanges es a))))
        result.0) }
    ensures tapes { (W.told world.new).tapes ≡ (W.told world.old).tapes }
    ensures names { names_of W.Link.link result.1 ≡ names_of W.Link.link links }
    ensures size { task.now.direction ≡ Direction.Encrypt
        → IfOk result.0 (λ made. length made.bytes ≤ value_limit) }
    ensures dice { (W.told world.new).dice ≡ (W.told world.old).dice }
    ensures out { (key : ℕ × List ℕ)
        → (W.told world.new).links.out key ≡ (W.told world.old).links.out key }
{
    let Some((program, more)) = split_first_program(programs) else {
        return make_on_bench(alloc, task, bytes, settings, links, dice);
    };
    let link = match open_link(
        alloc,
        world,
        0,
        program.plugin.as_str(),
        program.file.as_str(),
    ) {
        Ok(link) => link,
        Err(stop) => {
            drop(bytes);
            drop(settings);
            return (Err(stop), links, dice);
        }
    };
    match links.add(link) {
        Ok(()) => {}
        Err((_, link)) => {
            close_link(world, 0, link);
            drop(bytes);
            drop(settings);
            return (Err(Stop::NoMemory), links, dice);
        }
    }
    let (made, mut links, dice) = make_linked(
        alloc, task, bytes, settings, more, world, links, dice,
    );
    let link = take_last(&mut links);
    close_link(world, 0, link);
    (made, links, dice)
}

/// The last of some links.
pub fn take_last<L: Kms>(links: &mut Links<L>) -> L
    requires { names_of L.link links.old ≢ [] }
    ensures { links.old ≡ links.new ++ result ∷ [] }
{
    let last = links.take();
    let Some(link) = last else { unreachable!() };
    link
}

/// The first of programs, and the others.
pub fn split_first_program(programs: &[Program]) -> Option<(&Program, &[Program])>
    ensures { MatchOption result (programs.now ≡ [])
        (λ parts. programs.now ≡ parts.0.now ∷ parts.1.now) }
{
    match programs {
        [program, more @ ..] => Some((program, more)),
        [] => None,
    }
}

/// What a bench of these settings makes of the bytes. The links and the random source come back.
fn make_on_bench<L: Kms, D: Dice>(
    alloc: Global,
    task: &Task<'_>,
    bytes: Bytes,
    settings: Settings,
    mut links: Links<L>,
    mut dice: D,
) -> (Result<Outcome, Stop>, Links<L>, D)
    requires links { names_of L.link links ≡ plugin_order (rows_of settings.entries.0) }
    requires path { length task.now.path.now ≤ path_limit }
    requires fits { length bytes ≤ input_limit task.now.direction }
    ensures made { Talk (Among L.step) links result.1
        (λ es. (a : Environment) → Does
        (working task.now.direction task.now.resource.now task.now.path.now
        (rows_of settings.entries.0) bytes)
        (with_lent_links L.link 0 links (with_lent_dice 0 (D.left dice) (D.count dice) a))
        (with_lent_links L.link 0 result.1
        (with_lent_dice 0 (D.left result.2) (D.count result.2) (with_exchanges es a)))
        result.0) }
    ensures names { names_of L.link result.1 ≡ names_of L.link links }
    ensures size { task.now.direction ≡ Direction.Encrypt
        → IfOk result.0 (λ made. length made.bytes ≤ value_limit) }
{
    let settings = match Shared::new(alloc, settings) {
        Ok(settings) => settings,
        Err(refused) => {
            drop(refused);
            drop(bytes);
            return (Err(Stop::NoMemory), links, dice);
        }
    };
    let published = match publish_settings(alloc, settings, &mut links, &mut dice) {
        Ok(published) => published,
        Err(stop) => {
            drop(bytes);
            return (Err(stop), links, dice);
        }
    };
    links.known();
    let bench = match adopted(alloc, published, links, dice) {
        Ok(bench) => bench,
        Err((links, dice)) => {
            drop(bytes);
            return (Err(Stop::NoMemory), links, dice);
        }
    };
    work(
        alloc,
        task.direction,
        bench,
        task.resource,
        task.path,
        bytes,
    )
}
