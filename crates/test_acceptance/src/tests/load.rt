//! The generated load, of which a put fails: whose it is depends on the order of the workers.
use super::{both, called, list_of_one};
use kr_base::{Bytes, List, MemTape, NoMemory, Text};
use kr_kms::TablePlugin;
use kr_top::MemWorld;
use std::alloc::Global;
use std::sync::Wait;
use std::test::Fail;
use std::thread::Threads;

/// What is written where the first put of a worker fails, by reference/load.py.
const BEGIN: &str = "gen 1 2\nputs 7\ngets 7\ndigest ";

const DIGESTS: [&str; 4] = [
    "efa010f400894581aaf55b9699b31f4c29f8414141a58547396ef01745ffc188\n",
    "4a33176732240d4718f3049db163d757ecc78ce628ba2da84d4dfb64196fda08\n",
    "bdc448852978a285acb2e43b491ecdaf8a8a36e303882ccc10f8a3f283bb8cec\n",
    "8185eff80163d4317f765088ff7d73a69264b7cd4dc948aa3a84ede2ebb17ae7\n",
];

/// A world with an empty tape `s`, whose first put fails.
fn world(alloc: Global) -> Result<MemWorld<TablePlugin>, NoMemory> {
    let fails = list_of_one(alloc, 1u64)?;
    let settles = List::new(alloc);
    let tape = MemTape::new(Bytes::new(alloc), 65536, List::new(alloc), fails, settles);
    let tapes = list_of_one(alloc, both(Text::copy(alloc, "s"), tape)?)?;
    let none = List::new(alloc);
    Ok(MemWorld::new(alloc, none, tapes, List::new(alloc), List::new(alloc), 0))
}

/// Whether the summary is one of those where a worker's first put fails.
fn is_summary(output: &[u8]) -> bool {
    DIGESTS.iter().any(|digest| output.strip_prefix(BEGIN.as_bytes()) == Some(digest.as_bytes()))
}

fn output_line_count(output: &[u8]) -> usize {
    output.iter().filter(|byte| **byte == b'\n').count()
}

/// Whether seven of eight puts were done, and their rows are there.
fn loses_one<R: Threads + Wait + Sync>(
    rt: &R,
    alloc: Global,
    world: &mut MemWorld<TablePlugin>,
) -> Result<bool, NoMemory> {
    let (status, summary) = called(rt, alloc, "gen|--seed|1|--size|2|--store|s", world)?;
    let lost = status == 4 && is_summary(summary.as_slice());
    drop(summary);
    let (status, rows) = called(rt, alloc, "list|--store|s", world)?;
    let listed = status == 0 && output_line_count(rows.as_slice()) == 7;
    drop(rows);
    Ok(lost && listed)
}

#[test]
fn one_put_fails(rt: HostRuntime) -> Result<(), Fail> {
    let mut world = world(rt.alloc())?;
    let loses = loses_one(&rt, rt.alloc(), &mut world);
    drop(world);
    assert_eq!(rt; loses, Ok(true));
    Ok(())
}
