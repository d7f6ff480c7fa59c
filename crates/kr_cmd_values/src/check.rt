//! `check`: configuration, what it says.
ghost use Rattle.std.specs.Prelude.{◌≡◌, Ok};
ghost use Rattle.kr_config.specs.Kept.{rows_of};
ghost use Rattle.kr_cmd_steps.specs.Environment.{Environment, with_world};
ghost use Rattle.kr_cmd_steps.specs.Check.{listing};
ghost use Rattle.kr_cmd_steps.specs.Commands.{steps};
ghost use Rattle.kr_cmd_steps.specs.inner.Phases.{Does, Yields};

use crate::listing::{entry_lines, provider_lines};
use kr_base::{Bytes, Text};
use kr_cmd_messages::{Command, Outcome, Stop};
use kr_cmd_steps::{configure, show};
use kr_config::Settings;
use kr_kms::World;
use std::alloc::Global;

/// Makes the text that shows the configuration in a file, or the providers of a resource by it.
pub fn check<W: World>(
    alloc: Global,
    config: &str,
    resource: &Option<Text>,
    world: &mut W,
) -> Result<Outcome, Stop>
    ensures does { (a : Environment) → Does (steps (Command.Check config.now resource.now))
        (with_world (W.told world.old) a) (with_world (W.told world.new) a) result }
    ensures links { (W.told world.new).links ≡ (W.told world.old).links }
{
    let settings = match configure(alloc, world, config) {
        Ok(settings) => settings,
        Err(stop) => return Err(stop),
    };
    show(listing(alloc, &settings, resource))
}

/// All entries, or the provider list of the resource.
fn listing(alloc: Global, settings: &Settings, resource: &Option<Text>) -> Result<Bytes, Stop>
    ensures { Yields (λ shown. shown ≡ Ok (listing (rows_of settings.now.entries.0) resource.now))
        result }
{
    let made = match resource {
        Some(resource) => provider_lines(alloc, settings.resource_list(resource.as_str())),
        None => entry_lines(alloc, settings.entries.as_slice()),
    };
    match made {
        Ok(text) => Ok(text),
        Err(_) => Err(Stop::NoMemory),
    }
}
