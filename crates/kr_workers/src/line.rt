//! One line of a worker.
ghost use Rattle.std.specs.Prelude.{◌≡◌, IfOk, IsSome, Some};
ghost use Rattle.kr_config.specs.Kept.{rows_of};
ghost use Rattle.kr_script.specs.declared.script.ScriptLine.TheVariants as line;
ghost use Rattle.kr_workers.specs.Files.{rows_at};
ghost use Rattle.kr_workers.specs.inner.Ways.{line_by};
ghost use Rattle.kr_workers.specs.inner.Serving.{IsReadyFor, Serves};

use crate::files::{SettingsFile, file_settings};
use crate::told::{
    told_of_delete, told_of_drive, told_of_join, told_of_leave, told_of_read, told_of_refresh,
    told_of_reload, told_of_write,
};
use kr_base::{Bytes, Dice, NoMemory, Shared, Spent, Text};
use kr_config::Settings;
use kr_fleet::{delete, join, leave, read, refresh, reload, write};
use kr_history::Acts;
use kr_kms::Kms;
use kr_provider::Bench;
use kr_rewrite::drive;
use kr_script::{ScriptLine, Told};
use std::alloc::Global;

/// Does the line at the worker's replica, and tells its reply. `Spent` comes only where the seat
/// may add fewer lines to the journal than the line may need.
pub(crate) fn serve_line<A: Acts, L: Kms, D: Dice>(
    alloc: Global,
    acts: &mut A,
    bench: &mut Bench<L, D>,
    files: &[SettingsFile],
    replica: u32,
    asked: &ScriptLine,
) -> Result<Told, Spent>
    requires ready { IsReadyFor L.link files.now replica asked.now (A.caller acts.old) bench.old }
    ensures serves { Serves L.link L.step D.left D.count files.now replica asked.now
        (A.caller acts.old) bench.old result (A.caller acts.new) bench.new }
    ensures place { A.place acts.new ≡ A.place acts.old }
{
    match asked {
        ScriptLine::Put {
            resource,
            path,
            plain,
        } => put_line(alloc, acts, bench, files, replica, resource, path, plain),
        ScriptLine::Get { path } => get_line(alloc, acts, bench, files, replica, path),
        ScriptLine::Delete { path } => delete_line(alloc, acts, bench, files, replica, path),
        ScriptLine::Rewrite => rewrite_line(alloc, acts, bench, files, replica),
        ScriptLine::Reload {
            replica: named,
            file,
        } => bring_line(
            alloc,
            acts,
            bench,
            files,
            replica,
            Way::Reload,
            *named,
            file,
        ),
        ScriptLine::Refresh => refresh_line(alloc, acts, bench, files, replica),
        ScriptLine::Join {
            replica: named,
            file,
        } => bring_line(alloc, acts, bench, files, replica, Way::Join, *named, file),
        ScriptLine::Leave { replica: named } => leave_line(acts, bench, files, replica, *named),
    }
}

/// A copy of the data is put.
fn put_line<A: Acts, L: Kms, D: Dice>(
    alloc: Global,
    acts: &mut A,
    bench: &mut Bench<L, D>,
    files: &[SettingsFile],
    replica: u32,
    resource: &Text,
    path: &Text,
    plain: &Bytes,
) -> Result<Told, Spent>
    requires ready { IsReadyFor L.link files.now replica (line.Put resource.now path.now plain.now)
        (A.caller acts.old) bench.old }
    ensures serves { Serves L.link L.step D.left D.count files.now replica
        (line.Put resource.now path.now plain.now) (A.caller acts.old) bench.old result
        (A.caller acts.new) bench.new }
    ensures place { A.place acts.new ≡ A.place acts.old }
{
    let Ok(copy) = Bytes::copy(alloc, plain.as_slice()) else {
        return Ok(Told::Memory);
    };
    let number = acts.seat();
    let done = write(
        alloc,
        acts,
        replica,
        bench,
        resource.as_str(),
        path.as_str(),
        copy,
    );
    told_of_write(number, done)
}

/// The data at the path.
fn get_line<A: Acts, L: Kms, D: Dice>(
    alloc: Global,
    acts: &mut A,
    bench: &mut Bench<L, D>,
    files: &[SettingsFile],
    replica: u32,
    path: &Text,
) -> Result<Told, Spent>
    requires ready { IsReadyFor L.link files.now replica (line.Get path.now)
        (A.caller acts.old) bench.old }
    ensures serves { Serves L.link L.step D.left D.count files.now replica
        (line.Get path.now) (A.caller acts.old) bench.old result
        (A.caller acts.new) bench.new }
    ensures place { A.place acts.new ≡ A.place acts.old }
{
    let number = acts.seat();
    let done = read(alloc, acts, replica, bench, path.as_str());
    told_of_read(number, done)
}

/// The path's object is deleted.
fn delete_line<A: Acts, L: Kms, D: Dice>(
    alloc: Global,
    acts: &mut A,
    bench: &mut Bench<L, D>,
    files: &[SettingsFile],
    replica: u32,
    path: &Text,
) -> Result<Told, Spent>
    requires ready { IsReadyFor L.link files.now replica (line.Delete path.now)
        (A.caller acts.old) bench.old }
    ensures serves { Serves L.link L.step D.left D.count files.now replica
        (line.Delete path.now) (A.caller acts.old) bench.old result
        (A.caller acts.new) bench.new }
    ensures place { A.place acts.new ≡ A.place acts.old }
{
    let number = acts.seat();
    let done = delete(alloc, acts, path.as_str());
    told_of_delete(number, done)
}

/// How the settings of a file come to a replica.
#[derive(Clone, Copy)]
enum Way {
    /// The replica is in.
    Reload,
    /// It isn't in.
    Join,
}

/// The file's settings are brought to the replica.
fn bring_line<A: Acts, L: Kms, D: Dice>(
    alloc: Global,
    acts: &mut A,
    bench: &mut Bench<L, D>,
    files: &[SettingsFile],
    replica: u32,
    way: Way,
    named: u32,
    file: &Text,
) -> Result<Told, Spent>
    requires ready { IsReadyFor L.link files.now replica (line_by way named file.now)
        (A.caller acts.old) bench.old }
    ensures serves { Serves L.link L.step D.left D.count files.now replica
        (line_by way named file.now) (A.caller acts.old) bench.old result
        (A.caller acts.new) bench.new }
    ensures place { A.place acts.new ≡ A.place acts.old }
{
    let Ok(settings) = share_file_settings(files, file.as_str()) else {
        return Ok(Told::Memory);
    };
    let number = acts.seat();
    match way {
        Way::Reload => told_of_reload(number, reload(alloc, acts, bench, named, settings)),
        Way::Join => told_of_join(number, join(alloc, acts, bench, named, settings)),
    }
}

/// All stale objects are sealed anew, from the first path on.
fn rewrite_line<A: Acts, L: Kms, D: Dice>(
    alloc: Global,
    acts: &mut A,
    bench: &mut Bench<L, D>,
    files: &[SettingsFile],
    replica: u32,
) -> Result<Told, Spent>
    requires ready { IsReadyFor L.link files.now replica line.Rewrite
        (A.caller acts.old) bench.old }
    ensures serves { Serves L.link L.step D.left D.count files.now replica
        line.Rewrite (A.caller acts.old) bench.old result
        (A.caller acts.new) bench.new }
    ensures place { A.place acts.new ≡ A.place acts.old }
{
    let number = acts.seat();
    let done = drive(alloc, acts, replica, bench, "");
    told_of_drive(number, done)
}

/// The replica's settings are published anew, where a key has changed.
fn refresh_line<A: Acts, L: Kms, D: Dice>(
    alloc: Global,
    acts: &mut A,
    bench: &mut Bench<L, D>,
    files: &[SettingsFile],
    replica: u32,
) -> Result<Told, Spent>
    requires ready { IsReadyFor L.link files.now replica line.Refresh
        (A.caller acts.old) bench.old }
    ensures serves { Serves L.link L.step D.left D.count files.now replica
        line.Refresh (A.caller acts.old) bench.old result
        (A.caller acts.new) bench.new }
    ensures place { A.place acts.new ≡ A.place acts.old }
{
    let number = acts.seat();
    let done = refresh(alloc, acts, replica, bench);
    told_of_refresh(number, done)
}

/// The replica is taken out.
fn leave_line<A: Acts, L: Kms, D: Dice>(
    acts: &mut A,
    bench: &mut Bench<L, D>,
    files: &[SettingsFile],
    replica: u32,
    named: u32,
) -> Result<Told, Spent>
    requires ready { IsReadyFor L.link files.now replica (line.Leave named)
        (A.caller acts.old) bench.old }
    ensures serves { Serves L.link L.step D.left D.count files.now replica
        (line.Leave named) (A.caller acts.old) bench.old result
        (A.caller acts.new) bench.new }
    ensures place { A.place acts.new ≡ A.place acts.old }
{
    let number = acts.seat();
    let done = leave(acts, named);
    told_of_leave(number, done)
}

/// One more owner of the settings of the file, which was read.
fn share_file_settings(files: &[SettingsFile], file: &str) -> Result<Shared<Settings>, NoMemory>
    requires { IsSome (rows_at files.now file.now) }
    ensures { IfOk result (λ settings.
        rows_at files.now file.now ≡ Some (rows_of settings.entries.0)) }
{
    let Some(settings) = file_settings(files, file) else {
        unreachable!()
    };
    settings.share()
}
