//! `list`: store, its live rows.
ghost use Rattle.std.specs.Prelude.{◌≡◌, List, ℕ, false};
ghost use Rattle.kr_cmd_steps.specs.Environment.{Environment, with_world};
ghost use Rattle.kr_cmd_steps.specs.Commands.{steps};
ghost use Rattle.kr_cmd_steps.specs.StoreSteps.{listing_on};
ghost use Rattle.kr_cmd_steps.specs.inner.Lent.{with_lent_tape};
ghost use Rattle.kr_cmd_steps.specs.inner.Phases.{Does};

use crate::row_lines::row_lines;
use kr_base::Tape;
use kr_cmd_messages::{Command, Object, Outcome, Stop};
use kr_cmd_steps::{close_tape, load_store, open_tape, show};
use kr_kms::{Access, World};
use std::alloc::Global;

/// Makes the text of the live rows of the store in a file.
pub fn list<W: World>(alloc: Global, name: &str, world: &mut W) -> Result<Outcome, Stop>
    ensures does { (a : Environment) → Does (steps (Command.Rows name.now))
        (with_world (W.told world.old) a) (with_world (W.told world.new) a) result }
    ensures links { (W.told world.new).links ≡ (W.told world.old).links }
{
    let tape = match open_tape(alloc, world, name, Access::ToRead) {
        Ok(tape) => tape,
        Err(stop) => return Err(stop),
    };
    let (made, tape) = list_on_tape(alloc, tape);
    close_tape(world, name, tape);
    made
}

/// The text of the live rows of the store on a tape, which comes back.
fn list_on_tape<T: Tape>(alloc: Global, tape: T) -> (Result<Outcome, Stop>, T)
    requires cuts { T.loose tape ≡ false }
    ensures { (name : List ℕ) (a : Environment) → Does (listing_on name)
        (with_lent_tape name (T.told tape) (T.count tape) a)
        (with_lent_tape name (T.told result.1) (T.count result.1) a) result.0 }
{
    let store = match load_store(alloc, tape, Object::Store) {
        Ok(store) => store,
        Err((stop, tape)) => return (Err(stop), tape),
    };
    let made = show(row_lines(alloc, &store));
    (made, store.close())
}
