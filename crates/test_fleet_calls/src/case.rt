//! Cases, each of a few lines.
//!
//!     keys KEYID FAILS DRAWN DICEFAILS     a bench with a link over keys; `masks` with one in
//!                                          memory
//!     store HEX LIMIT FAILS                a store of these bytes
//!     solo ROOM RELOADS NAME NAME          a core with one caller; `two`: with a second one, with
//!                                          a bench of its own like the first one's
//!     CALL                                 prints its answer
//!     bench KEYID FAILS DRAWN DICEFAILS    another bench
//!     between NUMBER CALL                  of two callers: the second one's, before the event of
//!                                          this number of the first one, counted from here
//!
//! A case whose first line begins with `settings` names settings for those behind it (`naming`).
ghost use Rattle.kr_provider.specs.Names.{names_of};
ghost use Rattle.test_fleet_calls.specs.Desks.{IsBench};
ghost use Rattle.test_fleet_calls.specs.Openings.{IsCore};

use crate::call::serve_line;
use crate::desk::Desk;
use crate::linked::{Spelled, end_bench, end_benches, parse_bench};
use crate::naming::{Names, name_all};
use crate::opening::{Budget, Terms, core_over_store, parse_terms};
use crate::stored::add_rows;
use crate::two::{play_two, seated};
use kr_base::{MemDice, MemTape, both};
use kr_history::{Acts, Solo};
use kr_keywrap::{ExampleRing, KeyLink};
use kr_kms::TablePlugin;
use kr_provider::Bench;
use kr_rollout::Core;
use kr_store::Store;
use std::sync::Wait;
use test_support::{Page, Wrong, load_store, strip_key, two_lines, two_words};

/// How many bytes a tape may have.
const ROOM: usize = 262_144;

/// Runs a case, and prints what came of its lines.
pub fn run<R: Wait>(rt: &R, names: &mut Names, case: &str, page: &mut Page) -> Result<(), Wrong> {
    let (first, rest) = two_lines(case);
    let (key, words) = two_words(first)?;
    match key {
        "settings" => name_all(names.alloc, &mut names.settings, case),
        "keys" => begin::<KeyLink<ExampleRing>, R>(rt, names, words, rest, page),
        "masks" => begin::<TablePlugin, R>(rt, names, words, rest, page),
        _ => Err(Wrong::Form),
    }
}

/// Starts the core, and lets its callers make their calls.
fn begin<L: Spelled, R: Wait>(
    rt: &R,
    names: &Names,
    words: &str,
    rest: &str,
    page: &mut Page,
) -> Result<(), Wrong> {
    let (second, rest) = two_lines(rest);
    let (third, calls) = two_lines(rest);
    let stored = strip_key("store", second)?;
    let (store, terms) = both(
        load_store(names.alloc, stored, ROOM),
        parse_terms(&names.settings, third),
    )?;
    match parse_bench::<L>(names.alloc, words) {
        Ok(bench) => {
            let done = play(rt, names, store, &terms, bench, words, calls, page);
            drop(terms);
            done
        }
        Err(why) => {
            drop(store);
            drop(terms);
            Err(why)
        }
    }
}

/// Starts the core by the bench.
fn play<L: Spelled, R: Wait>(
    rt: &R,
    names: &Names,
    store: Store<MemTape>,
    terms: &Terms,
    mut bench: Bench<L, MemDice>,
    words: &str,
    calls: &str,
    page: &mut Page,
) -> Result<(), Wrong>
    requires { IsBench (names_of L.link bench.links) bench.pages }
{
    let budget = terms.budget;
    let made = core_over_store(names.alloc, &mut bench, store, terms);
    match made {
        Ok(core) => {
            if terms.with_rival {
                play_with_rival(rt, names, core, budget, bench, words, calls, page)
            } else {
                play_alone(names, core, budget, bench, calls, page)
            }
        }
        Err(why) => {
            end_bench(bench, page);
            Err(why)
        }
    }
}

/// The calls of two callers, of which the second one has a bench like the first one's.
fn play_with_rival<L: Spelled, R: Wait>(
    rt: &R,
    names: &Names,
    core: Core<MemTape>,
    budget: Budget,
    bench: Bench<L, MemDice>,
    words: &str,
    calls: &str,
    page: &mut Page,
) -> Result<(), Wrong>
    requires core { IsCore budget core }
    requires bench { IsBench (names_of L.link bench.links) bench.pages }
{
    let other = match parse_bench(names.alloc, words) {
        Ok(other) => other,
        Err(why) => {
            drop(core);
            end_bench(bench, page);
            return Err(why);
        }
    };
    match seated(names.alloc, core, budget) {
        Some(seats) => play_two(rt, names, seats, budget, bench, other, calls, page),
        None => {
            end_benches(bench, other, page);
            Err(Wrong::Memory)
        }
    }
}

/// The calls of an only caller.
fn play_alone<L: Spelled>(
    names: &Names,
    core: Core<MemTape>,
    budget: Budget,
    bench: Bench<L, MemDice>,
    calls: &str,
    page: &mut Page,
) -> Result<(), Wrong>
    requires core { IsCore budget core }
    requires bench { IsBench (names_of L.link bench.links) bench.pages }
{
    let solo = Solo::new(core);
    let mut desk = Desk::new(solo, bench, 2, budget.reloads);
    let done = serve_all(names, &mut desk, calls, page);
    let (solo, bench) = desk.into_parts();
    let (store, lines) = solo.into_core().close();
    drop(lines);
    end_bench(bench, page);
    if done.is_ok() {
        add_rows(page, &store);
    }
    drop(store);
    done
}

/// Makes the calls, one behind another.
fn serve_all<A: Acts, L: Spelled>(
    names: &Names,
    desk: &mut Desk<A, L>,
    calls: &str,
    page: &mut Page,
) -> Result<(), Wrong> {
    for line in calls.lines() {
        serve_line(names, desk, line, page)?;
    }
    Ok(())
}
