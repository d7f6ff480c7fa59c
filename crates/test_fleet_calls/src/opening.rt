//! A core with two replicas, of which the first is in, two seats, and `p` as the only plugin.
ghost use Rattle.std.specs.Prelude.{◌≡◌, IfOk, IfSome, Some, codes, [], ◌∷◌};
ghost use Rattle.kr_provider.specs.Names.{names_of};
ghost use Rattle.kr_rollout.specs.Openings.{NamesAmong};
ghost use Rattle.test_fleet_calls.specs.Desks.{IsBench};
ghost use Rattle.test_fleet_calls.specs.Openings.{IsCore};

use crate::linked::share_allowed;
use kr_base::{List, MemDice, MemTape, Shared, Text, both};
use kr_config::Settings;
use kr_kms::Kms;
use kr_provider::{Bench, Published};
use kr_rollout::Core;
use kr_store::Store;
use std::alloc::Global;
use test_support::{NamedValues, Wrong, shared, split_number, two_words};

/// How many configurations each seat may bring, and how many lines the journal may have.
#[derive(Clone, Copy)]
pub struct Budget {
    /// How many configurations each seat may bring.
    pub reloads: u32,
    /// How many lines the journal may have.
    pub room: u32,
}

/// What a core is started with.
#[derive(Drop)]
pub struct Terms {
    /// The settings of the first replica, which is in.
    pub first: Shared<Settings>,
    /// The settings of the second one, if it is in.
    pub second: Option<Shared<Settings>>,
    /// What may be brought and noted.
    pub budget: Budget,
    /// Whether there is a second caller.
    pub with_rival: bool,
}

/// `KIND ROOM RELOADS NAME NAME`: `two` for two callers, the journal's room, how many
/// configurations each seat may bring, and each replica's settings, `-` for one that is out.
pub fn parse_terms(named: &NamedValues<Settings>, words: &str) -> Result<Terms, Wrong> {
    let (kind, rest) = two_words(words)?;
    let (room, rest) = split_number(rest)?;
    let (reloads, names) = split_number(rest)?;
    let (first, second) = two_words(names)?;
    let (first, second) = both(named.share(first), named.share_some(second))?;
    Ok(Terms {
        first,
        second,
        budget: Budget { reloads, room },
        with_rival: kind == "two",
    })
}

/// Publishes settings.
fn published<L: Kms>(
    alloc: Global,
    bench: &mut Bench<L, MemDice>,
    settings: &Shared<Settings>,
) -> Result<Shared<Published>, Wrong>
    requires { IsBench (names_of L.link bench.old.links) bench.old.pages }
    ensures named { IfOk result (λ p. NamesAmong (codes "p" ∷ []) p.rows) }
    ensures bench { IsBench (names_of L.link bench.new.links) bench.new.pages }
{
    let settings = share_allowed(alloc, settings)?;
    match bench.publish(alloc, settings) {
        Ok(published) => shared(alloc, published),
        Err(refused) => {
            drop(refused);
            Err(Wrong::Form)
        }
    }
}

/// The same where there are some.
fn published_some<L: Kms>(
    alloc: Global,
    bench: &mut Bench<L, MemDice>,
    settings: &Option<Shared<Settings>>,
) -> Result<Option<Shared<Published>>, Wrong>
    requires { IsBench (names_of L.link bench.old.links) bench.old.pages }
    ensures named { IfOk result (λ some. IfSome some (λ p. NamesAmong (codes "p" ∷ []) p.rows)) }
    ensures bench { IsBench (names_of L.link bench.new.links) bench.new.pages }
{
    match settings {
        Some(settings) => Ok(Some(published(alloc, bench, settings)?)),
        None => Ok(None),
    }
}

/// A core over the store.
pub fn core_over_store<L: Kms>(
    alloc: Global,
    bench: &mut Bench<L, MemDice>,
    store: Store<MemTape>,
    terms: &Terms,
) -> Result<Core<MemTape>, Wrong>
    requires { IsBench (names_of L.link bench.old.links) bench.old.pages }
    ensures core { IfOk result (λ core. IsCore terms.now.budget core) }
    ensures bench { IsBench (names_of L.link bench.new.links) bench.new.pages }
{
    let first = match published(alloc, bench, &terms.first) {
        Ok(first) => first,
        Err(why) => {
            drop(store);
            return Err(why);
        }
    };
    match published_some(alloc, bench, &terms.second) {
        Ok(second) => started(alloc, store, first, second, terms.budget),
        Err(why) => {
            drop(store);
            drop(first);
            Err(why)
        }
    }
}

/// The name of the plugin, in a list.
fn one_name(alloc: Global) -> Result<List<Text>, Wrong>
    ensures { IfOk result (λ names. names.0 ≡ codes "p" ∷ []) }
{
    Ok(List::from_vec(vec![in alloc; Text::copy(alloc, "p")?]?))
}

/// The configurations of the replicas, and the names of the plugins.
type Lists = (List<Option<Shared<Published>>>, List<Text>);

/// The configurations of both replicas in a list, and the name of the plugin in another.
fn replica_lists(
    alloc: Global,
    first: Shared<Published>,
    second: Option<Shared<Published>>,
) -> Result<Lists, Wrong>
    ensures { IfOk result (λ made. (made.0.0 ≡ Some first ∷ second ∷ [])
        × (made.1.0 ≡ codes "p" ∷ [])) }
{
    let replicas = List::from_vec(vec![in alloc; Some(first), second]?);
    match one_name(alloc) {
        Ok(names) => Ok((replicas, names)),
        Err(why) => {
            drop(replicas);
            Err(why)
        }
    }
}

/// A core over the store.
fn started(
    alloc: Global,
    store: Store<MemTape>,
    first: Shared<Published>,
    second: Option<Shared<Published>>,
    budget: Budget,
) -> Result<Core<MemTape>, Wrong>
    requires first { NamesAmong (codes "p" ∷ []) first.rows }
    requires second { IfSome second (λ p. NamesAmong (codes "p" ∷ []) p.rows) }
    ensures { IfOk result (λ core. IsCore budget core) }
{
    let Budget { reloads, room } = budget;
    if room > 4_000_000 || reloads > room / 2 {
        drop(store);
        drop(first);
        drop(second);
        return Err(Wrong::Form);
    }
    let (replicas, names) = match replica_lists(alloc, first, second) {
        Ok(lists) => lists,
        Err(why) => {
            drop(store);
            return Err(why);
        }
    };
    let each = [reloads, reloads];
    match Core::start(alloc, store, replicas, names, 2, room as u64, &each) {
        Ok(core) => Ok(core),
        Err(refused) => {
            drop(refused);
            Err(Wrong::Form)
        }
    }
}
