//! The fleet of a load: two replicas, and four workers that put objects and get them.
ghost use Rattle.std.specs.Prelude.{◌≡◌, ◌+◌, ◌*◌, ◌<◌, ◌^◌, ◌++◌, IfOk, OnOk, codes, map};
ghost use Rattle.std.specs.List.{range_with_len};
ghost use Rattle.kr_script.specs.Fleets.{fleet_of, worker_of};
ghost use Rattle.kr_script.specs.declared.script.ScriptLine.TheVariants.{Reload};
ghost use Rattle.kr_workload.specs.Loads.{load_get_line, load_fleet, load_worker, object_path, put_of, load_reloads};

use crate::configurations::{BOTH, FIRST, RESOURCE, TURNED};
use crate::lists::add;
use crate::pieces::Pieces;
use kr_base::{List, NoMemory, Text};
use kr_script::{Part, Script, ScriptLine};
use std::alloc::Global;

/// How many workers there are.
const WORKERS: u32 = 4;

/// The fleet, each worker of which puts and gets so many objects. Their data are the pieces from
/// the third on.
pub fn generated_script(alloc: Global, pieces: &mut Pieces, size: u32) -> Result<Script, NoMemory>
    requires third { pieces.old.1 ≡ 2 }
    ensures { IfOk result (λ script. fleet_of script ≡ load_fleet pieces.old.0 size) }
{
    let mut replicas = List::new(alloc);
    add(&mut replicas, opening_replica(alloc, "a")?)?;
    add(&mut replicas, opening_replica(alloc, "b")?)?;
    let mut workers = List::new(alloc);
    add_workers(alloc, pieces, size, &mut workers)?;
    Ok(Script { replicas, workers })
}

/// The replica of the name, which opens with the first configuration.
fn opening_replica(alloc: Global, name: &str) -> Result<(Text, Text), NoMemory>
    ensures { IfOk result (λ replica. replica ≡ (name.now, codes "A")) }
{
    Ok((Text::copy(alloc, name)?, Text::copy(alloc, FIRST)?))
}

fn add_workers(
    alloc: Global,
    pieces: &mut Pieces,
    size: u32,
    workers: &mut List<Part>,
) -> Result<(), NoMemory>
    requires third { pieces.old.1 ≡ 2 }
    ensures { OnOk result (map worker_of workers.new.0 ≡ map worker_of workers.old.0
        ++ map (load_worker pieces.old.0 size) (range_with_len 0 4)) }
{
    for worker in 0..WORKERS {
        let part = worker_part(alloc, pieces, worker, size)?;
        add(workers, part)?;
    }
    Ok(())
}

/// The worker of a number, at one of the replicas in turn.
fn worker_part(alloc: Global, pieces: &mut Pieces, worker: u32, size: u32) -> Result<Part, NoMemory>
    requires first { pieces.old.1 ≡ 2 + worker * size }
    requires few { worker < 4 }
    ensures part { IfOk result (λ part. worker_of part ≡ load_worker pieces.old.0 size worker) }
    ensures passed { OnOk result (pieces.new ≡ (pieces.old.0, pieces.old.1 + size)) }
{
    let mut lines = List::new(alloc);
    add_puts(alloc, pieces, worker, size, &mut lines)?;
    add_reloads(alloc, worker, &mut lines)?;
    add_gets(alloc, worker, size, &mut lines)?;
    let name = Text::from_string(format!(in alloc; "w{worker}")?);
    Ok(Part {
        name,
        replica: worker % 2,
        lines,
    })
}

fn add_puts(
    alloc: Global,
    pieces: &mut Pieces,
    worker: u32,
    size: u32,
    lines: &mut List<ScriptLine>,
) -> Result<(), NoMemory>
    requires first { pieces.old.1 ≡ 2 + worker * size }
    requires few { worker < 4 }
    ensures lines { OnOk result (lines.new.0
        ≡ lines.old.0 ++ map (put_of pieces.old.0 size worker) (range_with_len 0 size)) }
    ensures passed { OnOk result (pieces.new ≡ (pieces.old.0, pieces.old.1 + size)) }
{
    for number in 0..size {
        let line = load_put_line(alloc, pieces, worker, size, number)?;
        add(lines, line)?;
    }
    Ok(())
}

/// The `put` of a worker's object of this number.
fn load_put_line(
    alloc: Global,
    pieces: &mut Pieces,
    worker: u32,
    size: u32,
    number: u32,
) -> Result<ScriptLine, NoMemory>
    requires place { pieces.old.1 ≡ 2 + worker * size + number }
    requires few { pieces.old.1 < 2 ^ 60 }
    ensures line { IfOk result (λ line. line ≡ put_of pieces.old.0 size worker number) }
    ensures passed { OnOk result (pieces.new ≡ (pieces.old.0, pieces.old.1 + 1)) }
{
    let resource = Text::copy(alloc, RESOURCE)?;
    let path = object_path(alloc, worker, number)?;
    let plain = pieces.next(alloc)?;
    Ok(ScriptLine::Put {
        resource,
        path,
        plain,
    })
}

/// The first worker's reloads of both replicas.
fn add_reloads(alloc: Global, worker: u32, lines: &mut List<ScriptLine>) -> Result<(), NoMemory>
    ensures { OnOk result (lines.new.0 ≡ lines.old.0 ++ load_reloads worker) }
{
    if worker > 0 {
        return Ok(());
    }
    add(lines, load_reload_line(alloc, 0, BOTH)?)?;
    add(lines, load_reload_line(alloc, 1, BOTH)?)?;
    add(lines, load_reload_line(alloc, 0, TURNED)?)?;
    add(lines, load_reload_line(alloc, 1, TURNED)?)?;
    Ok(())
}

fn load_reload_line(alloc: Global, replica: u32, file: &str) -> Result<ScriptLine, NoMemory>
    ensures { IfOk result (λ line. line ≡ Reload replica file.now) }
{
    let file = Text::copy(alloc, file)?;
    Ok(ScriptLine::Reload { replica, file })
}

fn add_gets(
    alloc: Global,
    worker: u32,
    size: u32,
    lines: &mut List<ScriptLine>,
) -> Result<(), NoMemory>
    ensures { OnOk result
        (lines.new.0 ≡ lines.old.0 ++ map (load_get_line worker) (range_with_len 0 size)) }
{
    for number in 0..size {
        let line = load_get_line(alloc, worker, number)?;
        add(lines, line)?;
    }
    Ok(())
}

/// The `get` of a worker's object of this number.
fn load_get_line(alloc: Global, worker: u32, number: u32) -> Result<ScriptLine, NoMemory>
    ensures { IfOk result (λ line. line ≡ load_get_line worker number) }
{
    Ok(ScriptLine::Get {
        path: object_path(alloc, worker, number)?,
    })
}

/// The path of a worker's object of this number.
fn object_path(alloc: Global, worker: u32, number: u32) -> Result<Text, NoMemory>
    ensures { IfOk result (λ path. path ≡ object_path worker number) }
{
    let path = format!(in alloc; "/registry/secrets/gen/w{worker}-{number}")?;
    Ok(Text::from_string(path))
}
