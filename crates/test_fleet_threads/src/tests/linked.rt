//! Links to the plugin `p` alone, and a bench with them.
ghost use Rattle.std.specs.Prelude.{◌≡◌, IfSome};
ghost use Rattle.kr_provider.specs.Names.{names_of};
ghost use Rattle.test_fleet_threads.specs.Ready.{HasLink, one_name};

use crate::tests::single::{both_values, text};
use kr_base::{Dice, List};
use kr_kms::{Kms, TablePlugin};
use kr_provider::{Bench, Links};
use std::alloc::Global;

/// The plugin `p` in memory, which wraps by the key `k1`.
pub fn plugin(alloc: Global) -> Option<TablePlugin> {
    let (name, key_id) = both_values(text(alloc, "p"), text(alloc, "k1"))?;
    let (version, healthz) = both_values(text(alloc, "v2"), text(alloc, "ok"))?;
    Some(TablePlugin::new(name, key_id, 1, version, healthz, List::new(alloc)))
}

/// Links of which this, to the plugin `p`, is the only one.
pub fn one_link<L: Kms + Drop>(alloc: Global, link: L) -> Option<Links<L>>
    ensures { IfSome result (λ links. names_of L.link links ≡ one_name) }
{
    if link.name() != "p" {
        return None;
    }
    let mut links = Links::new(alloc);
    match links.add(link) {
        Ok(()) => Some(links),
        Err(_) => None,
    }
}

/// A bench with the link, and with as many pages as any configuration may need.
pub fn bench<L: Kms + Drop, D: Dice + Drop>(alloc: Global, link: L, dice: D) -> Option<Bench<L, D>>
    ensures { IfSome result (λ bench. HasLink L.link bench) }
{
    let links = one_link(alloc, link)?;
    match Bench::new(alloc, links, dice, 64, 8) {
        Ok(bench) => Some(bench),
        Err(_) => None,
    }
}

/// Lets the bench go with its link.
pub fn end_bench<L: Kms + Drop, D: Dice + Drop>(bench: Bench<L, D>) {
    let (_links, _dice) = bench.close();
}
