//! Benches with one link, to the plugin `p`.
ghost use Rattle.std.specs.Prelude.{◌≡◌, IfOk, codes, [], ◌∷◌};
ghost use Rattle.kr_config.specs.Kept.{rows_of};
ghost use Rattle.kr_provider.specs.Names.{names_of};
ghost use Rattle.kr_rollout.specs.Openings.{NamesAmong};
ghost use Rattle.test_fleet_calls.specs.Desks.{IsBench};

use kr_base::{Bytes, List, MemDice, Shared, Text, both, whole};
use kr_config::Settings;
use kr_keywrap::{ExampleRing, KeyLink};
use kr_kms::{Kms, TablePlugin};
use kr_provider::{Bench, Links};
use std::alloc::Global;
use test_support::{Page, Wrong, kept, parse_longs, split_number, two_words};

/// How many keys a bench holds expanded.
const PAGES: u32 = 64;

/// How many unwrapped seeds it keeps.
const SEEDS: u32 = 8;

/// A link to the plugin `p` that a line spells.
pub trait Spelled: Kms + Drop {
    /// `KEYID`, and the numbers of its calls that fail.
    fn spelled(alloc: Global, word: &str, fails: List<u64>) -> Result<Self, Wrong>;
}

impl Spelled for KeyLink<ExampleRing> {
    fn spelled(alloc: Global, word: &str, fails: List<u64>) -> Result<Self, Wrong> {
        let name = Text::copy(alloc, "p")?;
        match word {
            "k1" => Ok(KeyLink::new(ExampleRing, name, Text::copy(alloc, "k1")?, fails)),
            "k2" => Ok(KeyLink::new(ExampleRing, name, Text::copy(alloc, "k2")?, fails)),
            _ => {
                drop(name);
                drop(fails);
                Err(Wrong::Form)
            }
        }
    }
}

impl Spelled for TablePlugin {
    /// `KEYID` or `KEYID/HEALTHZ`.
    fn spelled(alloc: Global, word: &str, fails: List<u64>) -> Result<Self, Wrong> {
        let (key_id, healthz) = match word.split_once('/') {
            Some(parts) => parts,
            None => (word, "ok"),
        };
        let named = both(kept(alloc, "p"), kept(alloc, key_id));
        let told = both(kept(alloc, "v2"), kept(alloc, healthz));
        match both(named, told) {
            Ok((named, told)) => {
                let (name, key_id) = named;
                let (version, healthz) = told;
                Ok(TablePlugin::new(name, key_id, 1, version, healthz, fails))
            }
            Err(why) => {
                drop(fails);
                Err(why)
            }
        }
    }
}

/// Links of which this, to the plugin `p`, is the only one.
fn one_link<L: Kms + Drop>(alloc: Global, link: L) -> Result<Links<L>, Wrong>
    ensures { IfOk result (λ links. names_of L.link links ≡ codes "p" ∷ []) }
{
    if link.name() != "p" {
        drop(link);
        return Err(Wrong::Form);
    }
    let mut links = Links::new(alloc);
    match links.add(link) {
        Ok(()) => Ok(links),
        Err(refused) => {
            drop(refused);
            drop(links);
            Err(Wrong::Memory)
        }
    }
}

/// One more owner of settings that name no other plugin.
pub fn share_allowed(alloc: Global, settings: &Shared<Settings>) -> Result<Shared<Settings>, Wrong>
    ensures { IfOk result (λ own. NamesAmong (codes "p" ∷ []) (rows_of own.entries.0)) }
{
    let link = TablePlugin::spelled(alloc, "k1", List::new(alloc))?;
    let links = one_link(alloc, link)?;
    let serves = links.serve(settings.get());
    drop(links);
    if !serves {
        return Err(Wrong::Form);
    }
    Ok(settings.share()?)
}

/// So many bytes, which count up from 00 and begin again behind ff.
fn counted_bytes(alloc: Global, size: u32) -> Result<Bytes, Wrong> {
    let mut bytes = Vec::new(alloc);
    let done = add_counted(&mut bytes, size);
    Ok(Bytes::from_vec(whole(bytes, done)?))
}

fn add_counted(bytes: &mut Vec<u8>, size: u32) -> Result<(), Wrong> {
    for place in 0..size {
        bytes.push((place % 256) as u8)?;
    }
    Ok(())
}

/// `KEYID FAILS DRAWN DICEFAILS`: a bench with a link whose calls of these numbers fail, and so
/// many random bytes, whose draws of these numbers fail.
pub fn parse_bench<L: Spelled>(alloc: Global, words: &str) -> Result<Bench<L, MemDice>, Wrong>
    ensures { IfOk result (λ bench. IsBench (names_of L.link bench.links) bench.pages) }
{
    let (key_id, rest) = two_words(words)?;
    let (fails, rest) = two_words(rest)?;
    let fails = parse_longs(alloc, fails)?;
    match both(L::spelled(alloc, key_id, fails), parse_dice(alloc, rest)) {
        Ok((link, dice)) => bench_of_link(alloc, link, dice),
        Err(why) => Err(why),
    }
}

/// A bench with this link and this random source.
fn bench_of_link<L: Kms + Drop>(
    alloc: Global,
    link: L,
    dice: MemDice,
) -> Result<Bench<L, MemDice>, Wrong>
    ensures { IfOk result (λ bench. IsBench (names_of L.link bench.links) bench.pages) }
{
    let links = match one_link(alloc, link) {
        Ok(links) => links,
        Err(why) => {
            drop(dice);
            return Err(why);
        }
    };
    match Bench::new(alloc, links, dice, PAGES, SEEDS) {
        Ok(bench) => Ok(bench),
        Err(refused) => {
            drop(refused);
            Err(Wrong::Memory)
        }
    }
}

/// `DRAWN DICEFAILS`: a random source.
fn parse_dice(alloc: Global, words: &str) -> Result<MemDice, Wrong> {
    let (size, fails) = split_number(words)?;
    let (bytes, fails) = both(counted_bytes(alloc, size), parse_longs(alloc, fails))?;
    Ok(MemDice::new(bytes, fails))
}

/// Ends a bench, and prints how often its link and its random source failed.
pub fn end_bench<L: Kms + Drop>(bench: Bench<L, MemDice>, page: &mut Page) {
    let faults = bench.dice_faults();
    let (mut links, dice) = bench.close();
    drop(dice);
    let link = links.take();
    drop(links);
    page.word("faults");
    if let Some(link) = link {
        page.counted("link", link.faults());
        drop(link);
    }
    page.counted("dice", faults);
    page.end_line();
}

/// Ends both benches.
pub fn end_benches<L: Kms + Drop>(
    own: Bench<L, MemDice>,
    other: Bench<L, MemDice>,
    page: &mut Page,
) {
    end_bench(own, page);
    end_bench(other, page);
}
