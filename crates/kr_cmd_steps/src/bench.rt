//! Seals or unseals by a bench of one configuration.
ghost use Rattle.std.specs.Prelude.{◌≡◌, ◌≤◌, length, Some, IfOk, IfSome, IsSome, MatchResult};
ghost use Rattle.kr_base.specs.Limits.{path_limit, value_limit};
ghost use Rattle.kr_base.specs.Walks.{Talk};
ghost use Rattle.kr_provider.specs.AskedLinks.{Among};
ghost use Rattle.kr_provider.specs.Names.{AreDistinct, HasLinks, names_of};
ghost use Rattle.kr_cmd_steps.specs.Environment.{Environment, with_exchanges};
ghost use Rattle.kr_cmd_steps.specs.ValueSteps.{freshness, none_kept, working_by};
ghost use Rattle.kr_cmd_steps.specs.Phases.{input_limit};
ghost use Rattle.kr_cmd_messages.specs.declared.command.Direction.{Direction};
ghost use Rattle.kr_cmd_steps.specs.inner.Lent.{with_lent_dice, with_lent_links};
ghost use Rattle.kr_cmd_steps.specs.inner.Phases.{Does};
ghost use Rattle.kr_cmd_steps.specs.inner.Plugins.{NamesAnUnread, IsUnsealEnd, seal_outcome};

use kr_base::{Bytes, Dice, Shared};
use kr_cmd_messages::{Direction, Done, Object, Outcome, Refusal, Stop};
use kr_kms::Kms;
use kr_provider::{Bench, Links, Opened, Published, SealNo, UnsealNo, ValueNo};
use std::alloc::Global;

/// How many keys a bench holds expanded, and how many unwrapped seeds.
const PAGES: u32 = 64;

const CACHE: u32 = 64;

/// A bench that adopted a published configuration; where there is no memory, the links and the
/// random source come back.
pub fn adopted<L: Kms, D: Dice>(
    alloc: Global,
    published: Published,
    links: Links<L>,
    dice: D,
) -> Result<Bench<L, D>, (Links<L>, D)>
    requires links { HasLinks (names_of L.link links) published.rows }
    ensures published { IfOk result (λ bench. bench.published ≡ Some published) }
    ensures links { MatchResult result (λ bench. bench.links ≡ links) (λ back. back.0 ≡ links) }
    ensures dice { MatchResult result (λ bench. bench.dice ≡ dice) (λ back. back.1 ≡ dice) }
    ensures cold { IfOk result (λ bench. bench.cache ≡ none_kept) }
{
    published.known();
    let published = match Shared::new(alloc, published) {
        Ok(published) => published,
        Err(refused) => {
            drop(refused);
            return Err((links, dice));
        }
    };
    let mut bench = match Bench::new(alloc, links, dice, PAGES, CACHE) {
        Ok(bench) => bench,
        Err((_, links, dice)) => {
            drop(published);
            return Err((links, dice));
        }
    };
    let Ok(()) = bench.adopt(published) else {
        unreachable!();
    };
    Ok(bench)
}

/// What a bench that adopted a configuration, and unsealed nothing so far, makes of the bytes, in
/// their own buffer. Its links and its random source come back.
pub fn work<L: Kms, D: Dice>(
    alloc: Global,
    direction: Direction,
    mut bench: Bench<L, D>,
    resource: &str,
    path: &str,
    bytes: Bytes,
) -> (Result<Outcome, Stop>, Links<L>, D)
    requires adopted { IsSome bench.published }
    requires distinct { AreDistinct L.link bench.links }
    requires cold { bench.cache ≡ none_kept }
    requires path { length path.now ≤ path_limit }
    requires fits { length bytes ≤ input_limit direction }
    ensures made { Talk (Among L.step) bench.links result.1
        (λ es. (a : Environment) → IfSome bench.published (λ p. Does
        (working_by direction resource.now path.now p.rows bytes p.seeds)
        (with_lent_links L.link 0 bench.links
        (with_lent_dice 0 (D.left bench.dice) (D.count bench.dice) a))
        (with_lent_links L.link 0 result.1
        (with_lent_dice 0 (D.left result.2) (D.count result.2) (with_exchanges es a)))
        result.0)) }
    ensures names { names_of L.link result.1 ≡ names_of L.link bench.links }
    ensures size { direction ≡ Direction.Encrypt
        → IfOk result.0 (λ made. length made.bytes ≤ value_limit) }
{
    match direction {
        Direction::Encrypt => {
            let sealed = bench.seal_in_place(alloc, resource, path, bytes);
            let (links, dice) = bench.close();
            let faults = dice.faults();
            (seal_outcome(sealed, faults), links, dice)
        }
        Direction::Decrypt => {
            let opened = bench.unseal_in_place(alloc, resource, path, bytes);
            let (links, dice) = bench.close();
            (unseal_outcome(opened, &links), links, dice)
        }
    }
}

/// What a bench sealed, as a command says it, by the faults of its random source.
fn seal_outcome(sealed: Result<Bytes, SealNo>, faults: u64) -> Result<Outcome, Stop>
    ensures { result ≡ seal_outcome faults sealed }
{
    match sealed {
        Ok(bytes) => Ok(Outcome {
            bytes,
            done: Done::Silent,
        }),
        Err(SealNo::LooksEncrypted) => Err(Stop::Refused(Refusal::Value(ValueNo::LooksEncrypted))),
        Err(SealNo::TooLarge { length: _length }) => {
            Err(Stop::Refused(Refusal::Value(ValueNo::TooLarge)))
        }
        Err(SealNo::DiceFailed) => Err(Stop::Fault(Object::Dice(0), faults)),
        Err(SealNo::NoMemory) => Err(Stop::NoMemory),
    }
}

/// What a bench read, as a command says it.
fn unseal_outcome<L: Kms>(
    opened: Result<Opened, UnsealNo>,
    links: &Links<L>,
) -> Result<Outcome, Stop>
    requires { NamesAnUnread (names_of L.link links.now) opened }
    ensures { IsUnsealEnd L.link links.now opened result }
{
    match opened {
        Ok(Opened { plain, stale }) => Ok(Outcome {
            bytes: plain,
            done: freshness(stale),
        }),
        Err(UnsealNo::Refused(why)) => Err(Stop::Refused(Refusal::Value(why))),
        Err(UnsealNo::PluginFailed { name }) => {
            let count = links.faults(name.as_str());
            Err(Stop::Fault(Object::Plugin(name), count))
        }
        Err(UnsealNo::NoMemory) => Err(Stop::NoMemory),
    }
}

fn freshness(stale: bool) -> Done
    ensures { result ≡ freshness stale }
{
    if stale { Done::Stale } else { Done::Fresh }
}
