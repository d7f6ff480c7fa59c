//! The programs of the plugins that a configuration names.
ghost use Rattle.std.specs.Prelude.{◌≡◌, ◌⊎◌, [], ◌∷◌, ◌++◌, map, IfOk, OnOk, OnErr};
ghost use Rattle.kr_config.specs.Kept.{rows_of};
ghost use Rattle.kr_provider.specs.PluginOrder.{plugin_order};
ghost use Rattle.kr_cmd_steps.specs.Environment.{Environment};
ghost use Rattle.kr_cmd_steps.specs.Phases.{linking_programs};
ghost use Rattle.kr_cmd_messages.specs.declared.refusal.Refusal.{Refusal};
ghost use Rattle.kr_cmd_messages.specs.declared.refusal.Stop.{Stop};
ghost use Rattle.kr_cmd_steps.specs.inner.ProgramNames.{names_in};
ghost use Rattle.kr_cmd_steps.specs.inner.Phases.{Does, HasPrograms};

use crate::phases::configure;
use kr_base::{List, NoMemory, Text, tell_text};
use kr_cmd_messages::{Options, Refusal, Stop};
use kr_config::Settings;
use kr_kms::World;
use std::alloc::Global;
use std::marker::Model;

/// The program that a plugin is.
#[derive(Drop)]
pub struct Program {
    /// The plugin's name.
    pub plugin: Text,
    /// The program's file.
    pub file: Text,
}

/// Programs, of which contracts see the list.
#[derive(Drop)]
pub struct Programs {
    items: Vec<Program>,
}

impl Model for Programs {
    ghost use Rattle.std.specs.Prelude.{List};
    ghost use Rattle.kr_cmd_steps.specs.declared.programs.Program.{Program};

    ghost Value = { List Program };

    ghost view = { λ programs. programs.items.items };
}

impl Programs {
    ghost use Rattle.kr_cmd_steps.specs.declared.programs.Program.{Program};

    /// None, and no memory yet.
    pub fn new(alloc: Global) -> Programs
        ensures { result ≡ [] }
    {
        Programs {
            items: Vec::new(alloc),
        }
    }

    /// Puts a copy of the program of a plugin at the end.
    pub fn add(&mut self, alloc: Global, plugin: &str, file: &str) -> Result<(), NoMemory>
        ensures added { OnOk result
            (self.new ≡ self.old ++ record { plugin = plugin.now; file = file.now } ∷ []) }
        ensures kept { OnErr result (self.new ≡ self.old) }
    {
        let plugin = Text::copy(alloc, plugin)?;
        let Ok(file) = Text::copy(alloc, file) else {
            drop(plugin);
            return Err(NoMemory);
        };
        match self.items.push(Program { plugin, file }) {
            Ok(()) => Ok(()),
            Err(refused) => {
                drop(refused);
                Err(NoMemory)
            }
        }
    }

    /// All of them.
    pub fn as_slice(&self) -> &[Program]
        ensures { result.now ≡ self.now }
    {
        self.items.as_slice()
    }
}

/// The program of each plugin that the settings name, in the order of the names' bytes. The first
/// name for which the options give no program is refused.
pub fn settings_programs(
    alloc: Global,
    options: &Options,
    settings: &Settings,
) -> Result<Programs, Stop>
    ensures does { (a : Environment) → Does
        (linking_programs options.now (rows_of settings.now.entries.0)) a a result }
    ensures names { IfOk result (λ programs. map (λ program. program.plugin) programs
        ≡ plugin_order (rows_of settings.now.entries.0)) }
{
    let mut programs = Programs::new(alloc);
    let mut after = "";
    while let Some(plugin) = settings.next_plugin(after) {
        let Some(file) = options.program(plugin) else {
            drop(programs);
            return Err(without_program(alloc, plugin));
        };
        match programs.add(alloc, plugin, file) {
            Ok(()) => {}
            Err(_) => {
                drop(programs);
                return Err(Stop::NoMemory);
            }
        }
        tell_text(plugin);
        after = plugin;
    }
    Ok(programs)
}

/// The configuration in a file, and the programs of its plugins.
pub fn linked_settings<W: World>(
    alloc: Global,
    world: &mut W,
    config: &Text,
    options: &Options,
) -> Result<(Settings, Programs), Stop>
    ensures does { HasPrograms (W.told world.old) (W.told world.new) config.now options.now
        result }
    ensures names { IfOk result (λ read. map (λ program. program.plugin) read.1
        ≡ plugin_order (rows_of read.0.entries.0)) }
    ensures links { (W.told world.new).links ≡ (W.told world.old).links }
{
    let settings = match configure(alloc, world, config.as_str()) {
        Ok(settings) => settings,
        Err(stop) => return Err(stop),
    };
    let programs = match settings_programs(alloc, options, &settings) {
        Ok(programs) => programs,
        Err(stop) => {
            drop(settings);
            return Err(stop);
        }
    };
    Ok((settings, programs))
}

/// The refusal of a plugin without a program, or that there is no memory for it.
pub fn without_program(alloc: Global, plugin: &str) -> Stop
    ensures { (result ≡ Stop.Refused (Refusal.NoPlugin plugin.now)) ⊎ (result ≡ Stop.NoMemory) }
{
    match Text::copy(alloc, plugin) {
        Ok(name) => Stop::Refused(Refusal::NoPlugin(name)),
        Err(_) => Stop::NoMemory,
    }
}

/// The names of the programs' plugins.
pub fn program_plugins(alloc: Global, programs: &[Program]) -> Result<List<Text>, NoMemory>
    ensures { IfOk result (λ names. names.0 ≡ names_in programs.now) }
{
    let mut names = List::new(alloc);
    for program in programs {
        let Ok(name) = Text::copy(alloc, program.plugin.as_str()) else {
            return Err(NoMemory);
        };
        match names.push(name) {
            Ok(()) => {}
            Err(_) => return Err(NoMemory),
        }
    }
    Ok(names)
}
