//! What a load is made of.
ghost use Rattle.std.specs.Prelude.{◌≡◌, IfOk, map};
ghost use Rattle.kr_script.specs.Fleets.{fleet_of};
ghost use Rattle.kr_workload.specs.Loads.{configurations, load_fleet, named_configuration};

use crate::configurations::configuration_files;
use crate::pieces::Pieces;
use crate::script::generated_script;
use kr_base::{List, NoMemory};
use kr_script::Script;
use kr_workers::SettingsFile;
use std::alloc::Global;

/// A fleet with the configurations that it names.
#[derive(Drop)]
pub struct Load {
    pub script: Script,
    pub files: List<SettingsFile>,
}

/// The load of a seed, each worker of which puts and gets so many objects.
pub fn generate_load(alloc: Global, seed: u64, size: u32) -> Result<Load, NoMemory>
    ensures fleet { IfOk result (λ load. fleet_of load.script ≡ load_fleet seed size) }
    ensures files { IfOk result (λ load. map named_configuration load.files.0
        ≡ configurations seed) }
{
    let mut pieces = Pieces::all_pieces(seed);
    let g1 = pieces.next(alloc)?;
    let g2 = pieces.next(alloc)?;
    let files = configuration_files(alloc, g1.as_slice(), g2.as_slice())?;
    let script = generated_script(alloc, &mut pieces, size)?;
    Ok(Load { script, files })
}
