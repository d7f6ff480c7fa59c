//! The call that does a command.
ghost use Rattle.std.specs.Prelude.{◌≡◌, ◌≤◌, None};
ghost use Rattle.kr_words.specs.Grammar.{texts};
ghost use Rattle.kr_cmd_steps.specs.Environment.{around};
ghost use Rattle.kr_cmd_fleet.specs.Fleets.{RanAlone, TellsFleet};
ghost use Rattle.kr_cmd_messages.specs.Message.{line_of, status_of};
ghost use Rattle.kr_cmd_messages.specs.Receipts.{Tells, receipt};
ghost use Rattle.kr_cmd_messages.specs.inner.Asking.{KeepsRules};
ghost use Rattle.kr_top.specs.Asked.{AloneHearing};
ghost use Rattle.kr_top.specs.Run.{Runs};
ghost use Rattle.kr_top.specs.inner.Parts.{AnswersHearing, Performs};

use crate::team::{read_team, run_team};
use kr_base::{Sink, Source};
use kr_cmd_messages::{Command, Done, Ended, Outcome, Stop, read_command, tell};
use kr_cmd_rewrite::rewrite;
use kr_cmd_steps::write_output;
use kr_cmd_store::judge::judge;
use kr_cmd_store::{get, list, migrate, put, verify};
use kr_cmd_values::check::check;
use kr_cmd_values::convert::convert;
use kr_cmd_values::inspect::inspect;
use kr_cmd_values::plan;
use kr_kms::World;
use kr_workers::Ending;
use std::alloc::Global;
use std::sync::Wait;
use std::thread::Threads;

/// Does the command that the words mean, and answers its status: 0 done, 1 a value or a reload was
/// refused, two configurations clash, a rewrite left some objects, or a watch's revision is gone or
/// ahead, 2 the words mean no command, 3 a configuration or a store is not read, or they don't go
/// together, 4 an object of the outside failed, 5 want of memory, 6 a limit was passed. Each status
/// other than 0 has one line on `errors`, but for a reload that was refused, for values that
/// `verify` finds refused, for a rewrite that left some, for a revision that is gone or ahead, and
/// for those that the replies of a fleet, a watch or a load decide, of which the output says why;
/// where the line can't be written the status is 4. The workers of these three wait for each other
/// by `rt`. What is promised, by what the words ask for, stands on one page, field by field: `Runs`
/// of specs/Run.antt.
pub fn run<R: Threads + Wait + Sync, W: World, I: Source, O: Sink, E: Sink>(
    rt: &R,
    alloc: Global,
    words: &[String],
    world: &mut W,
    input: &mut I,
    output: &mut O,
    errors: &mut E,
) -> u8
    ensures { Runs W.Tap W.Link.link W.Link.step W.lent W.took W.Rand.left
        W.Rand.count
        (texts words.now)
        (around (W.told world.old) (I.left input.old) (I.count input.old))
        (around (W.told world.new) (I.left input.new) (I.count input.new))
        (receipt (O.held output.old) (O.held output.new) (O.count output.old) (O.count output.new))
        (receipt (E.held errors.old) (E.held errors.new) (E.count errors.old) (E.count errors.new))
        result }
{
    match read_team(alloc, words) {
        Ok(Some(asked)) => {
            let ended = run_team(rt, alloc, &asked, world, output);
            drop(asked);
            tell_ending(errors, ended)
        }
        Ok(None) => tell_end(errors, answer(alloc, words, world, input, output)),
        Err(stop) => tell_end(errors, Err(stop)),
    }
}

/// The same for each command but `fleet`, `watch` and `gen`. Where the words ask for one of these
/// nothing is done, and there is no status.
pub fn run_alone<W: World, I: Source, O: Sink, E: Sink>(
    alloc: Global,
    words: &[String],
    world: &mut W,
    input: &mut I,
    output: &mut O,
    errors: &mut E,
) -> Option<u8>
    ensures ran { RanAlone (texts words.now)
        (around (W.told world.old) (I.left input.old) (I.count input.old))
        (around (W.told world.new) (I.left input.new) (I.count input.new))
        (receipt (O.held output.old) (O.held output.new) (O.count output.old) (O.count output.new))
        (receipt (E.held errors.old) (E.held errors.new) (E.count errors.old) (E.count errors.new))
        result }
    ensures asked { AloneHearing W.Link.link W.lent W.took W.Link.step (texts words.now)
        (around (W.told world.old) (I.left input.old) (I.count input.old))
        (around (W.told world.new) (I.left input.new) (I.count input.new))
        (receipt (O.held output.old) (O.held output.new) (O.count output.old) (O.count output.new))
        (receipt (E.held errors.old) (E.held errors.new) (E.count errors.old) (E.count errors.new))
        result }
{
    match read_team(alloc, words) {
        Ok(Some(asked)) => {
            drop(asked);
            None
        }
        Ok(None) => Some(tell_end(errors, answer(alloc, words, world, input, output))),
        Err(stop) => Some(tell_end(errors, Err(stop))),
    }
}

/// Does the command that the words mean, and writes what it made.
fn answer<W: World, I: Source, O: Sink>(
    alloc: Global,
    words: &[String],
    world: &mut W,
    input: &mut I,
    output: &mut O,
) -> Result<Done, Stop>
    ensures answers { AnswersHearing W.Link.link W.Link.step W.lent W.took (texts words.now)
        (around (W.told world.old) (I.left input.old) (I.count input.old))
        (around (W.told world.new) (I.left input.new) (I.count input.new))
        (receipt (O.held output.old) (O.held output.new) (O.count output.old) (O.count output.new))
        result }
    ensures later { O.count output.old ≤ O.count output.new }
{
    let command = match read_command(alloc, words) {
        Ok(command) => command,
        Err(stop) => return Err(stop),
    };
    let ended = perform(alloc, &command, world, input);
    drop(command);
    write_output(output, ended)
}

/// Does a command up to its value.
fn perform<W: World, I: Source>(
    alloc: Global,
    command: &Command,
    world: &mut W,
    input: &mut I,
) -> Ended
    requires path { KeepsRules (Some command.now) }
    ensures { Performs W.Link.link W.Link.step W.lent W.took command.now
        (around (W.told world.old) (I.left input.old) (I.count input.old))
        (around (W.told world.new) (I.left input.new) (I.count input.new))
        result }
{
    match command {
        Command::Convert(words) => silent(convert(alloc, words, world, input)),
        Command::Check { config, resource } => {
            silent(check(alloc, config.as_str(), resource, world))
        }
        Command::Inspect => silent(inspect(alloc, input)),
        Command::Put { object, store } => silent(put(alloc, object, store, world, input)),
        Command::Get(words) => silent(get(alloc, words, world)),
        Command::Verify(words) => silent(verify(alloc, words, world)),
        Command::Migrate(words) => silent(migrate(alloc, words, world)),
        Command::Rows { store } => silent(list(alloc, store.as_str(), world)),
        Command::Judge(words) => silent(judge(alloc, words, world)),
        Command::Plan(words) => silent(plan(alloc, words, world)),
        Command::Rewrite(words) => rewrite(alloc, words, world),
    }
}

/// A command that reports nothing where it stopped.
fn silent(made: Result<Outcome, Stop>) -> Ended
    ensures { result ≡ record { made = made; said = None } }
{
    Ended { made, said: None }
}

/// Tells how workers ended, which their status says, or the line of what stopped them.
fn tell_ending<E: Sink>(errors: &mut E, ended: Result<Ending, Stop>) -> u8
    ensures told { TellsFleet ended
        (receipt (E.held errors.old) (E.held errors.new) (E.count errors.old) (E.count errors.new))
        result }
    ensures later { E.count errors.old ≤ E.count errors.new }
{
    match ended {
        Ok(ending) => ending.status(),
        Err(stop) => tell_end(errors, Err(stop)),
    }
}

/// Tells how a call ended, and lets that go.
fn tell_end<E: Sink>(errors: &mut E, answer: Result<Done, Stop>) -> u8
    ensures told { Tells (line_of answer) (status_of answer)
        (receipt (E.held errors.old) (E.held errors.new) (E.count errors.old) (E.count errors.new))
        result }
    ensures later { E.count errors.old ≤ E.count errors.new }
{
    let status = tell(errors, &answer);
    drop(answer);
    status
}
