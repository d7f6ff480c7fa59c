//! A watch that is handed a fleet's opening and its journal.
ghost use Rattle.std.specs.Prelude.{◌≡◌, IfOk, Ok};
ghost use Rattle.kr_rollout.specs.declared.opening.Entry.{Entry};
ghost use Rattle.kr_rollout.specs.declared.opening.Opening.{Opening};
ghost use Rattle.kr_watch.specs.Laws.{PutsAll};
ghost use Rattle.kr_watch.specs.Watches.{Follows, new_watch};
ghost use Rattle.kr_cmd_watch.specs.Watchings.{keep};
ghost use Rattle.kr_cmd_watch.specs.inner.Followings.{AreOf, AreOfOne, Entries, IsSeeded};

use kr_base::{List, NoMemory};
use kr_cmd_fleet::WatchStart;
use kr_rollout::Line;
use kr_watch::{Item, Watch};
use std::alloc::Global;

/// How many changes are kept.
const KEEP: u32 = 1_000;

/// A watch that was handed the opening's items and all lines.
pub(crate) fn follow(alloc: Global, start: WatchStart, lines: &[Line]) -> Result<Watch, NoMemory>
    requires { AreOfOne start.items.0 start.revision lines.now }
    ensures keeps { IfOk result (λ watch. watch.keep ≡ keep) }
    ensures follows { (o : Opening) (history : Entries)
        → AreOf start.items.0 start.revision lines.now o history
        → IfOk result (λ watch. Follows start.items.0 o history watch) }
{
    let WatchStart { items, revision } = start;
    let mut watch = seeded(alloc, revision, items)?;
    for line in lines {
        watch.apply(line)?;
    }
    Ok(watch)
}

/// A new watch to which these items were handed, one after another.
fn seeded(alloc: Global, revision: u64, items: List<Item>) -> Result<Watch, NoMemory>
    ensures { IfOk result (IsSeeded items.0 revision) }
{
    let mut watch = Watch::new(alloc, KEEP, revision)?;
    watch.known();
    let mut items = items.into_vec();
    items.reverse();
    let mut items = List::from_vec(items);
    while let Some(item) = items.pop() {
        watch.seed(item)?;
    }
    watch.known();
    Ok(watch)
}
