//! Values of configurations that name no plugin.
ghost use Rattle.std.specs.Prelude.{◌≡◌, ◌≤◌, false, length, Some, IfOk, IfSome, IsSome, IsTrue};
ghost use Rattle.kr_base.specs.Limits.{value_limit};
ghost use Rattle.kr_base.specs.Rules.{IsPath};
ghost use Rattle.kr_provider.specs.Publication.{list_at, names_plugin};
ghost use Rattle.kr_provider.specs.Reading.{HasSomeReading, data_of};
ghost use Rattle.kr_provider.specs.Sealing.{IsSealing};
ghost use Rattle.kr_rollout.specs.Callers.{IsResealing};

use kr_base::{Bytes, Dice, List, MemDice, Shared, Text, VALUE_LIMIT};
use kr_kms::{Kms, TablePlugin};
use kr_provider::{Bench, Links, Published, names_plugin};
use kr_store::Row;
use std::alloc::Global;
use test_support::Wrong;

/// How many keys a bench holds expanded.
const PAGES: u32 = 64;

/// How many random bytes it has; a value takes fewer.
const DRAWN: usize = 64;

type PlainBench = Bench<TablePlugin, MemDice>;

/// The value of the data for the resource at the path.
pub fn sealed(
    alloc: Global,
    published: &Shared<Published>,
    resource: &Text,
    path: &str,
    plain: &Bytes,
) -> Result<Bytes, Wrong>
    requires { IsPath path.now }
    ensures { IfOk result (λ value.
        IsSealing published.now resource.now path.now plain.now value) }
{
    if !is_plain(published.get()) {
        return Err(Wrong::Form);
    }
    let mut bench = adopted_bench(alloc, published)?;
    let value = bench.seal(alloc, resource.as_str(), path, plain.as_slice());
    end(bench);
    match value {
        Ok(value) => Ok(value),
        Err(_) => Err(Wrong::Form),
    }
}

/// The value of the data as which the row reads, for the same resource and path.
pub fn resealed(alloc: Global, published: &Shared<Published>, row: &Row) -> Result<Bytes, Wrong>
    requires { IsPath row.now.path }
    ensures { IfOk result (λ value. IsResealing published.now row.now row.now.path value) }
{
    let plain = unsealed(alloc, published, row)?;
    let value = sealed(alloc, published, &row.resource, row.path.as_str(), &plain)?;
    Ok(value)
}

/// The data as which the row reads.
fn unsealed(alloc: Global, published: &Shared<Published>, row: &Row) -> Result<Bytes, Wrong>
    requires path { IsPath row.now.path }
    ensures { IfOk result (λ plain. HasSomeReading (list_at published.now row.now.resource)
        row.now.path row.now.stored (data_of plain)) }
{
    if row.stored.as_slice().len() as u64 > VALUE_LIMIT {
        return Err(Wrong::Form);
    }
    if !is_plain(published.get()) {
        return Err(Wrong::Form);
    }
    let mut bench = adopted_bench(alloc, published)?;
    let plain = opened(
        alloc,
        &mut bench,
        row.resource.as_str(),
        row.path.as_str(),
        row.stored.as_slice(),
    );
    end(bench);
    plain
}

/// The data as which the value reads by what the bench adopted, if that names no plugin.
fn opened<L: Kms, D: Dice>(
    alloc: Global,
    bench: &mut Bench<L, D>,
    resource: &str,
    path: &str,
    value: &[u8],
) -> Result<Bytes, Wrong>
    requires adopted { IsSome bench.old.published }
    requires path { IsPath path.now }
    requires fits { length value.now ≤ value_limit }
    ensures { IfSome bench.old.published (λ p. names_plugin p.rows ≡ false
        → IfOk result (λ plain. HasSomeReading (list_at p resource.now) path.now value.now
        (data_of plain))) }
{
    match bench.unseal(alloc, resource, path, value) {
        Ok(opened) => Ok(opened.plain),
        Err(_) => Err(Wrong::Form),
    }
}

/// Whether the configuration names no plugin.
pub fn is_plain(published: &Published) -> bool
    ensures { IsTrue result → names_plugin published.now.rows ≡ false }
{
    !names_plugin(published.settings.get())
}

/// A bench that adopted the configuration.
fn adopted_bench(alloc: Global, published: &Shared<Published>) -> Result<PlainBench, Wrong>
    requires { names_plugin published.now.rows ≡ false }
    ensures { IfOk result (λ bench. bench.published ≡ Some published.now) }
{
    let own = published.share()?;
    let dice = MemDice::new(Bytes::from_vec(vec![in alloc; 7; DRAWN]?), List::new(alloc));
    match Bench::new(alloc, Links::new(alloc), dice, PAGES, 1) {
        Ok(bench) => adopted(bench, own),
        Err(_) => Err(Wrong::Memory),
    }
}

/// The bench with the configuration, if it has pages for all keys.
fn adopted(mut bench: PlainBench, published: Shared<Published>) -> Result<PlainBench, Wrong>
    requires { names_plugin published.rows ≡ false }
    ensures { IfOk result (λ made. made.published ≡ Some published) }
{
    match bench.adopt(published) {
        Ok(()) => Ok(bench),
        Err(_) => {
            end(bench);
            Err(Wrong::Form)
        }
    }
}

/// Lets a bench go.
fn end(bench: PlainBench) {
    drop(bench.close());
}
