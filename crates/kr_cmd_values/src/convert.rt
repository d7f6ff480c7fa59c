//! `encrypt` and `decrypt`: configuration, programs of its plugins, input, random source, links,
//! publish, seal or unseal.
ghost use Rattle.std.specs.Prelude.{◌≡◌, ◌≤◌, [], length};
ghost use Rattle.kr_base.specs.Limits.{path_limit};
ghost use Rattle.kr_cmd_steps.specs.Environment.{Environment, with_exchanges, with_world};
ghost use Rattle.kr_cmd_steps.specs.Commands.{converting};
ghost use Rattle.kr_cmd_steps.specs.Heard.{Heard};
ghost use Rattle.kr_cmd_steps.specs.inner.Lent.{with_told_input};
ghost use Rattle.kr_cmd_steps.specs.inner.Phases.{Does};

use kr_base::Source;
use kr_cmd_messages::{Conversion, Outcome, Stop};
use kr_cmd_steps::{Task, linked_settings, make, take_input};
use kr_kms::World;
use std::alloc::Global;

/// Encrypts or decrypts the input.
pub fn convert<W: World, I: Source>(
    alloc: Global,
    words: &Conversion,
    world: &mut W,
    input: &mut I,
) -> Result<Outcome, Stop>
    requires path { length words.now.path ≤ path_limit }
    ensures { Heard W.Link.link W.lent W.took W.Link.step 0 (W.told world.old)
        (W.told world.new) [] [] (λ es. (a : Environment) → Does (converting words.now)
        (with_told_input (I.left input.old) (I.count input.old) (with_world (W.told world.old) a))
        (with_told_input (I.left input.new) (I.count input.new)
        (with_world (W.told world.new) (with_exchanges es a))) result) }
{
    let (settings, programs) = match linked_settings(alloc, world, &words.config, &words.options) {
        Ok(read) => read,
        Err(stop) => return Err(stop),
    };
    let bytes = match take_input(alloc, input, words.direction) {
        Ok(bytes) => bytes,
        Err(stop) => return Err(stop),
    };
    let task = Task {
        direction: words.direction,
        resource: words.resource.as_str(),
        path: words.path.as_str(),
    };
    make(alloc, &task, bytes, settings, programs.as_slice(), world)
}
