//! The configurations of several replicas, in their order.
ghost use Rattle.std.specs.Prelude.{◌≡◌, ◌++◌, ◌∷◌, [], IfOk, Some};
ghost use Rattle.kr_words.specs.Grammar.{replicas_of};
ghost use Rattle.kr_kms.specs.Outside.{KeepsObjects};
ghost use Rattle.kr_cmd_steps.specs.Environment.{Environment, with_world};
ghost use Rattle.kr_cmd_messages.specs.Command.{replica_names};
ghost use Rattle.kr_cmd_steps.specs.StoreSteps.{configurations};
ghost use Rattle.kr_cmd_steps.specs.inner.Lent.{Tapes, with_tapes};
ghost use Rattle.kr_cmd_steps.specs.inner.Phases.{Does};
ghost use Rattle.kr_cmd_store.specs.inner.Judging.{replica_rows, AreIn};

use kr_base::{List, NoMemory, Shared};
use kr_cmd_messages::{Options, Stop};
use kr_cmd_steps::load_settings;
use kr_config::Settings;
use kr_kms::World;
use std::alloc::Global;

/// Loads the configurations, one for each name.
pub fn load_replicas<W: World>(
    alloc: Global,
    options: &Options,
    world: &mut W,
) -> Result<List<Option<Shared<Settings>>>, Stop>
    ensures loads { (tapes : Tapes) (a : Environment)
        → Does (configurations [] (replica_names options.now))
        (with_world (with_tapes tapes (W.told world.old)) a)
        (with_world (with_tapes tapes (W.told world.new)) a) (replica_rows result) }
    ensures are_in { IfOk result (λ replicas. AreIn (replicas_of options.now) replicas.0) }
    ensures objects { KeepsObjects (W.told world.old) (W.told world.new) }
{
    let mut replicas = List::new(alloc);
    for number in 0..options.replicas() {
        let Some(name) = options.replica(number) else {
            unreachable!();
        };
        let settings = match load_settings(alloc, world, name) {
            Ok(settings) => settings,
            Err(stop) => return Err(stop),
        };
        match add_replica(alloc, &mut replicas, settings) {
            Ok(()) => {}
            Err(NoMemory) => return Err(Stop::NoMemory),
        }
    }
    Ok(replicas)
}

/// Puts the settings of one more replica behind the others.
fn add_replica(
    alloc: Global,
    replicas: &mut List<Option<Shared<Settings>>>,
    settings: Settings,
) -> Result<(), NoMemory>
    ensures { IfOk result (λ done. replicas.new.0 ≡ replicas.old.0 ++ Some settings ∷ []) }
{
    let shared = match Shared::new(alloc, settings) {
        Ok(shared) => shared,
        Err(_) => return Err(NoMemory),
    };
    match replicas.push(Some(shared)) {
        Ok(()) => Ok(()),
        Err(_) => Err(NoMemory),
    }
}
