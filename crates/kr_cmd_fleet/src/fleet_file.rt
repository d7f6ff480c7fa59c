//! What a fleet works by: the fleet file, the configurations that it names, and the programs of
//! their plugins.
ghost use Rattle.std.specs.Prelude.{◌≡◌, [], ◌∷◌, map, IfOk};
ghost use Rattle.std.specs.List.{flat_map};
ghost use Rattle.std.specs.Option.{option_map};
ghost use Rattle.std.specs.Ordering.{is_lt};
ghost use Rattle.kr_config.specs.Kept.{plugins_in};
ghost use Rattle.kr_config.specs.Nexts.{earlier, name_cmp, IsNextName};
ghost use Rattle.kr_kms.specs.Outside.{KeepsFiles, KeepsObjects};
ghost use Rattle.kr_kms.specs.declared.world.WorldCall.{WorldCall};
ghost use Rattle.kr_provider.specs.PluginOrder.{plugin_order};
ghost use Rattle.kr_script.specs.Fleets.{fleet_of, worker_of};
ghost use Rattle.kr_cmd_steps.specs.Environment.{Environment, with_world};
ghost use Rattle.kr_cmd_fleet.specs.FleetFiles.{all_rows, file_in, file_of_replica, fleet_in, all_files, planning, file_programs};
ghost use Rattle.kr_cmd_fleet.specs.inner.Plans.{GoesThrough, IsRuled, IsWholePlan, ReadsBytes, ReadsFleet};
ghost use Rattle.kr_cmd_fleet.specs.inner.Plans.{fleet_in_result, named, plan_in, plan_of, script_stop};
ghost use Rattle.kr_cmd_steps.specs.inner.Phases.{AskedFor, Does};

use kr_base::{Bytes, List, STORE_LIMIT, Shared, Text, tell_text};
use kr_cmd_messages::{Limit, Object, Options, Refusal, Stop, visible};
use kr_cmd_steps::{Programs, load_settings, without_program};
use kr_kms::{FileNo, World};
use kr_script::{Part, Script, ScriptLine, ScriptNo, read_script};
use kr_workers::{SettingsFile, file_settings};
use std::alloc::Global;
use std::cmp::Ordering;

/// What a fleet works by.
#[derive(Drop)]
pub struct LoadedFleet {
    /// The replicas and the workers' lines.
    pub script: Script,
    /// The configurations that the script names, each once, in the order of their first mention.
    pub files: List<SettingsFile>,
    /// The programs of all their plugins, by the bytes of the plugins' names.
    pub programs: Programs,
}

/// Loads what the fleet file names.
pub fn load_plan<W: World>(
    alloc: Global,
    name: &str,
    options: &Options,
    world: &mut W,
) -> Result<LoadedFleet, Stop>
    ensures does { (a : Environment) → Does (planning name.now options.now)
        (with_world (W.told world.old) a) (with_world (W.told world.new) a) (plan_in result) }
    ensures whole { IfOk result (λ plan. IsWholePlan (plan_of plan)) }
    ensures links { (W.told world.new).links ≡ (W.told world.old).links }
{
    let script = match load_fleet(alloc, world, name) {
        Ok(script) => script,
        Err(stop) => return Err(stop),
    };
    let mut files = List::new(alloc);
    match load_files(alloc, &script, &mut files, world) {
        Ok(()) => {}
        Err(stop) => {
            drop(files);
            drop(script);
            return Err(stop);
        }
    }
    let programs = match file_programs(alloc, options, files.as_slice()) {
        Ok(programs) => programs,
        Err(stop) => {
            drop(files);
            drop(script);
            return Err(stop);
        }
    };
    Ok(LoadedFleet {
        script,
        files,
        programs,
    })
}

/// The fleet in a file.
fn load_fleet<W: World>(alloc: Global, world: &mut W, name: &str) -> Result<Script, Stop>
    ensures does { (a : Environment) → Does (fleet_in name.now) (with_world (W.told world.old) a)
        (with_world (W.told world.new) a) (fleet_in_result result) }
    ensures links { (W.told world.new).links ≡ (W.told world.old).links }
    ensures rules { IfOk result (λ script. IsRuled (fleet_of script)) }
{
    load_script(alloc, world, name)
}

/// Loads the fleet file. What is printed where there is no such file is made first, so that this
/// refusal needs no memory.
fn load_script<W: World>(alloc: Global, world: &mut W, name: &str) -> Result<Script, Stop>
    ensures script { ReadsFleet (W.told world.old) (W.told world.new) name.now result }
    ensures asked { AskedFor (W.told world.old).asked (W.told world.new).asked
        (WorldCall.File name.now) result }
    ensures files { KeepsFiles (W.told world.old) (W.told world.new) }
    ensures objects { KeepsObjects (W.told world.old) (W.told world.new) }
{
    let absent = match visible(alloc, name) {
        Ok(text) => text,
        Err(_) => return Err(Stop::NoMemory),
    };
    let file: Bytes = match world.load(alloc, name, STORE_LIMIT) {
        Ok(file) => file,
        Err(FileNo::Absent) => return Err(Stop::Refused(Refusal::Absent(absent))),
        Err(FileNo::TooLong) => {
            drop(absent);
            return Err(Stop::Refused(Refusal::Limit(Limit::Script)));
        }
        Err(FileNo::Failed) => {
            drop(absent);
            return Err(Stop::Fault(Object::Files, world.faults()));
        }
        Err(FileNo::NoMemory) => {
            drop(absent);
            return Err(Stop::NoMemory);
        }
    };
    drop(absent);
    let script = script_from_bytes(alloc, file.as_slice());
    drop(file);
    script
}

/// The script by its bytes.
fn script_from_bytes(alloc: Global, bytes: &[u8]) -> Result<Script, Stop>
    ensures { ReadsBytes bytes.now result }
{
    match read_script(alloc, bytes) {
        Ok(script) => Ok(script),
        Err(why) => Err(script_stop(why)),
    }
}

/// Why a fleet file wasn't read, as a command says it.
fn script_stop(why: ScriptNo) -> Stop
    ensures { result ≡ script_stop why }
{
    match why {
        ScriptNo::Breach { line } => Stop::Refused(Refusal::Script(line)),
        ScriptNo::Replicas => Stop::Refused(Refusal::Limit(Limit::Replicas)),
        ScriptNo::Workers => Stop::Refused(Refusal::Limit(Limit::Workers)),
        ScriptNo::TooLarge => Stop::Refused(Refusal::Limit(Limit::Data)),
        ScriptNo::NoMemory => Stop::NoMemory,
    }
}

/// Loads the configurations that the script names.
fn load_files<W: World>(
    alloc: Global,
    script: &Script,
    files: &mut List<SettingsFile>,
    world: &mut W,
) -> Result<(), Stop>
    ensures { GoesThrough (named files.old.0) (named files.new.0) (all_files (fleet_of script.now))
        (W.told world.old) (W.told world.new) result }
{
    match load_replicas(alloc, script.replicas.as_slice(), files, world) {
        Ok(()) => {}
        Err(stop) => return Err(stop),
    }
    load_parts(alloc, script.workers.as_slice(), files, world)
}

/// The file of a replica that isn't in at the opening.
pub const NO_FILE: &str = "-";

/// Loads the configurations of the replicas that are in at the opening.
fn load_replicas<W: World>(
    alloc: Global,
    replicas: &[(Text, Text)],
    files: &mut List<SettingsFile>,
    world: &mut W,
) -> Result<(), Stop>
    ensures { GoesThrough (named files.old.0) (named files.new.0)
        (flat_map file_of_replica replicas.now) (W.told world.old) (W.told world.new) result }
{
    for replica in replicas {
        match load_replica(alloc, replica, files, world) {
            Ok(()) => {}
            Err(stop) => return Err(stop),
        }
    }
    Ok(())
}

fn load_replica<W: World>(
    alloc: Global,
    replica: &(Text, Text),
    files: &mut List<SettingsFile>,
    world: &mut W,
) -> Result<(), Stop>
    ensures { GoesThrough (named files.old.0) (named files.new.0) (file_of_replica replica.now)
        (W.told world.old) (W.told world.new) result }
{
    let file = replica.1.as_str();
    if file == NO_FILE {
        return Ok(());
    }
    load_once(alloc, file, files, world)
}

/// Loads the configurations that the workers' lines name.
fn load_parts<W: World>(
    alloc: Global,
    parts: &[Part],
    files: &mut List<SettingsFile>,
    world: &mut W,
) -> Result<(), Stop>
    ensures { GoesThrough (named files.old.0) (named files.new.0)
        (flat_map (λ part. flat_map file_in part.lines.0) parts.now)
        (W.told world.old) (W.told world.new) result }
{
    for part in parts {
        match load_lines(alloc, part.lines.as_slice(), files, world) {
            Ok(()) => {}
            Err(stop) => return Err(stop),
        }
    }
    Ok(())
}

/// Loads the configurations that the lines name.
fn load_lines<W: World>(
    alloc: Global,
    lines: &[ScriptLine],
    files: &mut List<SettingsFile>,
    world: &mut W,
) -> Result<(), Stop>
    ensures { GoesThrough (named files.old.0) (named files.new.0) (flat_map file_in lines.now)
        (W.told world.old) (W.told world.new) result }
{
    for line in lines {
        match load_line(alloc, line, files, world) {
            Ok(()) => {}
            Err(stop) => return Err(stop),
        }
    }
    Ok(())
}

/// Loads the configuration that a line names, if it names one.
fn load_line<W: World>(
    alloc: Global,
    line: &ScriptLine,
    files: &mut List<SettingsFile>,
    world: &mut W,
) -> Result<(), Stop>
    ensures { GoesThrough (named files.old.0) (named files.new.0) (file_in line.now)
        (W.told world.old) (W.told world.new) result }
{
    match line {
        ScriptLine::Reload { replica: _, file } => load_once(alloc, file.as_str(), files, world),
        ScriptLine::Join { replica: _, file } => load_once(alloc, file.as_str(), files, world),
        _ => Ok(()),
    }
}

/// Loads a configuration that isn't there yet.
fn load_once<W: World>(
    alloc: Global,
    name: &str,
    files: &mut List<SettingsFile>,
    world: &mut W,
) -> Result<(), Stop>
    ensures { GoesThrough (named files.old.0) (named files.new.0) (name.now ∷ [])
        (W.told world.old) (W.told world.new) result }
{
    let None = file_settings(files.as_slice(), name) else {
        return Ok(());
    };
    let settings = match load_settings(alloc, world, name) {
        Ok(settings) => settings,
        Err(stop) => return Err(stop),
    };
    let name = match Text::copy(alloc, name) {
        Ok(name) => name,
        Err(_) => {
            drop(settings);
            return Err(Stop::NoMemory);
        }
    };
    let settings = match Shared::new(alloc, settings) {
        Ok(settings) => settings,
        Err(refused) => {
            drop(refused);
            drop(name);
            return Err(Stop::NoMemory);
        }
    };
    match files.push(SettingsFile { name, settings }) {
        Ok(()) => {}
        Err(refused) => {
            drop(refused);
            return Err(Stop::NoMemory);
        }
    }
    Ok(())
}

/// The program of each plugin that the configurations name, in the order of the names' bytes. The
/// first name for which the options give no program is refused.
fn file_programs(alloc: Global, options: &Options, files: &[SettingsFile]) -> Result<Programs, Stop>
    ensures does { (a : Environment) → Does (file_programs options.now (named files.now)) a a
        result }
    ensures names { IfOk result (λ programs. map (λ program. program.plugin) programs
        ≡ plugin_order (all_rows (named files.now))) }
{
    let mut programs = Programs::new(alloc);
    let mut after = "";
    while let Some(plugin) = next_named_plugin(files, after) {
        let Some(file) = options.program(plugin) else {
            drop(programs);
            return Err(without_program(alloc, plugin));
        };
        match programs.add(alloc, plugin, file) {
            Ok(()) => {}
            Err(_) => {
                drop(programs);
                return Err(Stop::NoMemory);
            }
        }
        tell_text(plugin);
        after = plugin;
    }
    Ok(programs)
}

/// The least name of a plugin after this one by bytes, in any of the configurations.
#[tactic(auto, using(crate::proofs::FleetPrograms::files_begin, crate::proofs::FleetPrograms::files_more, crate::proofs::FleetPrograms::files_end))]
fn next_named_plugin<'a>(files: &'a [SettingsFile], after: &str) -> Option<&'a str>
    ensures { IsNextName (plugins_in (all_rows (named files.now))) after.now
        (option_map (λ name. name.now) result) }
{
    let mut next = None;
    for file in files {
        next = first_name(next, file.settings.get().next_plugin(after));
    }
    next
}

/// The first of two names by bytes.
fn first_name<'a>(one: Option<&'a str>, other: Option<&'a str>) -> Option<&'a str>
    ensures { option_map (λ name. name.now) result
        ≡ earlier name_cmp (option_map (λ name. name.now) one.entry)
        (option_map (λ name. name.now) other.entry) }
{
    match (one, other) {
        (Some(name), Some(rival)) => {
            if comes_earlier(rival, name) {
                Some(rival)
            } else {
                Some(name)
            }
        }
        (Some(name), None) => Some(name),
        (None, other) => other,
    }
}

/// Whether the name comes before the other by bytes.
fn comes_earlier(name: &str, other: &str) -> bool
    ensures { result ≡ is_lt (name_cmp name.now other.now) }
{
    match name.cmp(other) {
        Ordering::Less => true,
        _ => false,
    }
}
