//! The row that was found, rewritten where it is stale.
ghost use Rattle.std.specs.Prelude.{◌≡◌, ◌≤◌, [], length, IfOk, IfSome, Some};
ghost use Rattle.kr_base.specs.Walks.{Talk};
ghost use Rattle.kr_provider.specs.AskedLinks.{Among, AskedOnly};
ghost use Rattle.kr_provider.specs.Names.{names_of};
ghost use Rattle.kr_provider.specs.Publication.{list_at};
ghost use Rattle.kr_provider.specs.Reading.{HasSomeReading, data_of};
ghost use Rattle.kr_store.specs.Rows.{IsRow};
ghost use Rattle.kr_rollout.specs.Callers.{found_in, holding};
ghost use Rattle.kr_history.specs.Calls.{HoldsAdopted};
ghost use Rattle.kr_history.specs.Parts.{AddsWithin};
ghost use Rattle.kr_rewrite.specs.Rewrites.{IsStepTo, Rewrites, unread_step, unsealed_step};
ghost use Rattle.kr_rewrite.specs.inner.Stages.{ResealsRow, RewritesRowBy, replaced_step};

use crate::outcome::Step;
use kr_base::{Bytes, Dice, Text};
use kr_history::{Acts, CallNo, Replacing, replace, seal_in_place, unseal};
use kr_kms::Kms;
use kr_provider::{Bench, Opened, SealNo, UnsealNo};
use kr_store::Row;
use std::alloc::Global;

/// Rewrites the row that was found, by the configuration that the bench adopted.
pub(crate) fn rewrite<A: Acts, L: Kms, D: Dice>(
    alloc: Global,
    acts: &mut A,
    bench: &mut Bench<L, D>,
    row: &Row,
) -> Result<Step, CallNo>
    requires held { HoldsAdopted bench.old.published (A.caller acts.old).mine }
    requires found { found_in (A.caller acts.old).mine ≡ Some row.now }
    requires rules { IsRow (A.caller acts.old).opening.format row.now }
    ensures rewrites { IfSome bench.old.published (λ p. Rewrites L.link D.left D.count p
        row.now (A.caller acts.old) bench.old.links bench.old.dice result (A.caller acts.new)
        bench.new.links bench.new.dice) }
    ensures exchanged { IfSome bench.old.published (λ p. Talk (Among L.step) bench.old.links
        bench.new.links (RewritesRowBy D.left D.count p row.now (A.caller acts.old)
        bench.old.cache bench.old.dice result (A.caller acts.new) bench.new.cache
        bench.new.dice)) }
    ensures path { IfOk result IsStepTo }
    ensures adds { AddsWithin 1 0 [] (A.caller acts.old) (A.caller acts.new) }
    ensures holds { holding (A.caller acts.new).mine ≡ holding (A.caller acts.old).mine }
    ensures asked { AskedOnly L.link (names_of L.link bench.old.links) bench.old.links
        bench.new.links }
    ensures later { D.count bench.old.dice ≤ D.count bench.new.dice }
    ensures kept { bench.new
        ≡ record bench.old {
          links = bench.new.links;
          dice = bench.new.dice;
          cache = bench.new.cache;
        } }
    ensures place { A.place acts.new ≡ A.place acts.old }
{
    let Ok(path) = Text::copy(alloc, row.path.as_str()) else {
        return Err(CallNo::NoMemory);
    };
    let opened = match unseal(alloc, bench, row) {
        Ok(opened) => opened,
        Err(why) => return unread_step(path, why),
    };
    let Opened { plain, stale } = opened;
    if !stale {
        return Ok(Step::Fresh(path));
    }
    reseal(alloc, acts, bench, row, path, plain)
}

/// Seals the row's data anew, and offers them in its place.
fn reseal<A: Acts, L: Kms, D: Dice>(
    alloc: Global,
    acts: &mut A,
    bench: &mut Bench<L, D>,
    row: &Row,
    path: Text,
    plain: Bytes,
) -> Result<Step, CallNo>
    requires held { HoldsAdopted bench.old.published (A.caller acts.old).mine }
    requires found { found_in (A.caller acts.old).mine ≡ Some row.now }
    requires rules { IsRow (A.caller acts.old).opening.format row.now }
    requires path { path ≡ row.now.path }
    requires reads { IfSome bench.old.published (λ p. HasSomeReading (list_at p row.now.resource)
        row.now.path row.now.stored (data_of plain)) }
    ensures reseals { IfSome bench.old.published (λ p. ResealsRow D.left D.count p row.now plain
        (A.caller acts.old) bench.old.dice result (A.caller acts.new) bench.new.dice) }
    ensures path { IfOk result IsStepTo }
    ensures adds { AddsWithin 1 0 [] (A.caller acts.old) (A.caller acts.new) }
    ensures holds { holding (A.caller acts.new).mine ≡ holding (A.caller acts.old).mine }
    ensures later { D.count bench.old.dice ≤ D.count bench.new.dice }
    ensures kept { bench.new ≡ record bench.old { dice = bench.new.dice } }
    ensures place { A.place acts.new ≡ A.place acts.old }
{
    let Ok(copy) = Text::copy(alloc, row.path.as_str()) else {
        return Err(CallNo::NoMemory);
    };
    let stored = match seal_in_place(alloc, bench, &row.resource, &row.path, plain) {
        Ok(stored) => stored,
        Err(why) => return unsealed_step(path, why),
    };
    acts.known();
    replaced_step(path, replace(acts, copy, row.revision, stored))
}

/// What became of the row.
fn replaced_step(path: Text, done: Result<Replacing, CallNo>) -> Result<Step, CallNo>
    ensures { result ≡ replaced_step path done }
{
    match done {
        Ok(Replacing::Written(_revision)) => Ok(Step::Rewritten(path)),
        Ok(Replacing::Changed(_last)) => Ok(Step::Changed(path)),
        Err(why) => Err(why),
    }
}

/// What a row is whose value isn't read.
fn unread_step(path: Text, why: UnsealNo) -> Result<Step, CallNo>
    ensures { result ≡ unread_step path why }
{
    match why {
        UnsealNo::Refused(_why) => Ok(Step::Left(path)),
        UnsealNo::PluginFailed { name } => Err(CallNo::PluginFailed { name }),
        UnsealNo::NoMemory => Err(CallNo::NoMemory),
    }
}

/// What a row is whose data can't be sealed anew.
fn unsealed_step(path: Text, why: SealNo) -> Result<Step, CallNo>
    ensures { result ≡ unsealed_step path why }
{
    match why {
        SealNo::LooksEncrypted => Ok(Step::Left(path)),
        SealNo::TooLarge { length: _ } => Ok(Step::Left(path)),
        SealNo::DiceFailed => Err(CallNo::DiceFailed),
        SealNo::NoMemory => Err(CallNo::NoMemory),
    }
}
