//! What a bench does by the configuration that it adopted.
ghost use Rattle.std.specs.Prelude.{◌≡◌, ◌≤◌, length, IfOk, IfSome, IsSome};
ghost use Rattle.kr_base.specs.Limits.{path_limit, value_limit};
ghost use Rattle.kr_base.specs.Walks.{Talk};
ghost use Rattle.kr_provider.specs.AskedLinks.{Among, AskedOnly};
ghost use Rattle.kr_provider.specs.Exchanges.{ReadsBy};
ghost use Rattle.kr_provider.specs.Names.{names_of};
ghost use Rattle.kr_provider.specs.Publication.{list_at, writer_at};
ghost use Rattle.kr_provider.specs.Sealing.{IsSealing, Seals};
ghost use Rattle.kr_provider.specs.Unsealing.{UnsealsBy};

use kr_base::{Bytes, Dice, Text};
use kr_kms::Kms;
use kr_paths::Path;
use kr_provider::{Bench, Opened, SealNo, UnsealNo};
use kr_store::Row;
use std::alloc::Global;

/// What the row's value holds, by the configuration that the bench adopted.
pub fn unseal<L: Kms, D: Dice>(
    alloc: Global,
    bench: &mut Bench<L, D>,
    row: &Row,
) -> Result<Opened, UnsealNo>
    requires adopted { IsSome bench.old.published }
    requires path { length row.now.path ≤ path_limit }
    requires fits { length row.now.stored ≤ value_limit }
    ensures opened { IfSome bench.old.published (λ p. UnsealsBy L.link p.seeds
        (list_at p row.now.resource) row.now.path row.now.stored bench.old.links result
        bench.new.links) }
    ensures exchanged { IfSome bench.old.published (λ p. Talk (Among L.step) bench.old.links
        bench.new.links (ReadsBy p.seeds (list_at p row.now.resource) row.now.path row.now.stored
        bench.old.cache result bench.new.cache)) }
    ensures asked { AskedOnly L.link (names_of L.link bench.old.links) bench.old.links
        bench.new.links }
    ensures kept { bench.new
        ≡ record bench.old { links = bench.new.links; cache = bench.new.cache } }
{
    bench.unseal(
        alloc,
        row.resource.as_str(),
        row.path.as_str(),
        row.stored.as_slice(),
    )
}

/// Seals the data by the configuration that the bench adopted.
pub fn seal<L: Kms, D: Dice>(
    alloc: Global,
    bench: &mut Bench<L, D>,
    resource: &Text,
    path: &Text,
    plain: &Bytes,
) -> Result<Bytes, SealNo>
    requires adopted { IsSome bench.old.published }
    requires path { length path.now ≤ path_limit }
    ensures sealed { IfSome bench.old.published (λ p. Seals D.left D.count p.seeds
        (writer_at p resource.now) path.now plain.now bench.old.dice bench.new.dice result) }
    ensures sealing { IfSome bench.old.published (λ p. IfOk result
        (λ value. IsSealing p resource.now path.now plain.now value)) }
    ensures later { D.count bench.old.dice ≤ D.count bench.new.dice }
    ensures kept { bench.new ≡ record bench.old { dice = bench.new.dice } }
{
    bench.seal(alloc, resource.as_str(), path.as_str(), plain.as_slice())
}

/// The same, in the buffer of data that are given away.
pub fn seal_in_place<L: Kms, D: Dice>(
    alloc: Global,
    bench: &mut Bench<L, D>,
    resource: &Text,
    path: &Path,
    plain: Bytes,
) -> Result<Bytes, SealNo>
    requires adopted { IsSome bench.old.published }
    requires path { length path.now ≤ path_limit }
    ensures sealed { IfSome bench.old.published (λ p. Seals D.left D.count p.seeds
        (writer_at p resource.now) path.now plain bench.old.dice bench.new.dice result) }
    ensures sealing { IfSome bench.old.published (λ p. IfOk result
        (λ value. IsSealing p resource.now path.now plain value)) }
    ensures later { D.count bench.old.dice ≤ D.count bench.new.dice }
    ensures kept { bench.new ≡ record bench.old { dice = bench.new.dice } }
{
    bench.seal_in_place(alloc, resource.as_str(), path.as_str(), plain)
}
