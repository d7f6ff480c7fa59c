//! `judge`: store, the replicas' configurations, the new one, the verdict on it.
ghost use Rattle.std.specs.Prelude.{◌≡◌, ◌≤◌, length, false};
ghost use Rattle.kr_config.specs.Kept.{rows_of};
ghost use Rattle.kr_opening.specs.Replicas.{IsFirstIn, rows_in};
ghost use Rattle.kr_cmd_steps.specs.Environment.{Environment, with_world};
ghost use Rattle.kr_cmd_steps.specs.Commands.{judging};
ghost use Rattle.kr_cmd_steps.specs.StoreSteps.{judging_on, judging_by, judging_at};
ghost use Rattle.kr_cmd_steps.specs.Judgements.{verdict_done};
ghost use Rattle.kr_cmd_steps.specs.inner.Lent.{Name, Tapes, with_tapes, with_lent_tape};
ghost use Rattle.kr_cmd_steps.specs.inner.Phases.{Does};
ghost use Rattle.kr_cmd_store.specs.inner.Judging.{Judges, IsOutcome};
ghost use Rattle.kr_cmd_messages.specs.inner.Asking.{HasReplicas};

use crate::replicas::load_replicas;
use crate::verdict_line::verdict_line;
use kr_base::{List, NoMemory, Shared, Tape};
use kr_cmd_messages::{Done, JudgeWords, Object, Outcome, Refusal, Stop};
use kr_cmd_steps::{close_tape, load_settings, load_store, open_tape};
use kr_config::Settings;
use kr_judge::Verdict;
use kr_kms::{Access, World};
use kr_opening::{StartNo, make_opening_board};
use kr_store::Store;
use std::alloc::Global;

/// Judges the reload.
pub fn judge<W: World>(alloc: Global, words: &JudgeWords, world: &mut W) -> Result<Outcome, Stop>
    requires replicas { HasReplicas words.now.options }
    ensures does { (a : Environment) → Does (judging words.now)
        (with_world (W.told world.old) a) (with_world (W.told world.new) a) result }
    ensures links { (W.told world.new).links ≡ (W.told world.old).links }
{
    let name = words.store.as_str();
    let tape = match open_tape(alloc, world, name, Access::ToRead) {
        Ok(tape) => tape,
        Err(stop) => return Err(stop),
    };
    let (made, tape) = judge_on_tape(alloc, words, tape, world);
    close_tape(world, name, tape);
    made
}

/// Judges the reload by the store on a tape, which comes back.
fn judge_on_tape<W: World>(
    alloc: Global,
    words: &JudgeWords,
    tape: W::Tap,
    world: &mut W,
) -> (Result<Outcome, Stop>, W::Tap)
    requires replicas { HasReplicas words.now.options }
    requires cuts { W.Tap.loose tape ≡ false }
    ensures made { (name : Name) (a : Environment) → Does (judging_on name words.now.options)
        (with_lent_tape name (W.Tap.told tape) (W.Tap.count tape)
        (with_world (W.told world.old) a))
        (with_lent_tape name (W.Tap.told result.1) (W.Tap.count result.1)
        (with_world (W.told world.new) a)) result.0 }
    ensures tapes { (W.told world.new).tapes ≡ (W.told world.old).tapes }
    ensures links { (W.told world.new).links ≡ (W.told world.old).links }
{
    let store = match load_store(alloc, tape, Object::Store) {
        Ok(store) => store,
        Err((stop, tape)) => return (Err(stop), tape),
    };
    let made = judge_stored(alloc, words, &store, world);
    (made, store.close())
}

/// Judges the reload by what is stored.
fn judge_stored<W: World, T: Tape>(
    alloc: Global,
    words: &JudgeWords,
    store: &Store<T>,
    world: &mut W,
) -> Result<Outcome, Stop>
    requires { HasReplicas words.now.options }
    ensures made { (tapes : Tapes) (a : Environment)
        → Does (judging_by words.now.options store.now.rows)
        (with_world (with_tapes tapes (W.told world.old)) a)
        (with_world (with_tapes tapes (W.told world.new)) a) result }
    ensures tapes { (W.told world.new).tapes ≡ (W.told world.old).tapes }
    ensures links { (W.told world.new).links ≡ (W.told world.old).links }
{
    let replicas = match load_replicas(alloc, &words.options, world) {
        Ok(replicas) => replicas,
        Err(stop) => return Err(stop),
    };
    let settings = match load_settings(alloc, world, words.options.reload_file()) {
        Ok(settings) => settings,
        Err(stop) => return Err(stop),
    };
    judgement_outcome(alloc, store, &replicas, words.options.reloaded(), &settings)
}

/// What the command makes of the new settings of a replica.
fn judgement_outcome<T: Tape>(
    alloc: Global,
    store: &Store<T>,
    replicas: &List<Option<Shared<Settings>>>,
    replica: u32,
    settings: &Settings,
) -> Result<Outcome, Stop>
    requires first { IsFirstIn replicas.now.0 }
    requires few { length replicas.now.0 ≤ 16 }
    ensures { (a : Environment) → Does (judging_at store.now.rows (rows_in replicas.now.0) replica
        (rows_of settings.now.entries.0)) a a result }
{
    match replica_verdict(alloc, store, replicas, replica, settings) {
        Ok(verdict) => judged_outcome(alloc, &verdict),
        Err(stop) => Err(stop),
    }
}

/// The verdict on the new settings of a replica.
fn replica_verdict<T: Tape>(
    alloc: Global,
    store: &Store<T>,
    replicas: &List<Option<Shared<Settings>>>,
    replica: u32,
    settings: &Settings,
) -> Result<Verdict, Stop>
    requires first { IsFirstIn replicas.now.0 }
    requires few { length replicas.now.0 ≤ 16 }
    ensures { Judges store.now.rows (rows_in replicas.now.0) replica
        (rows_of settings.now.entries.0) result }
{
    let board = match make_opening_board(alloc, store, replicas, 16) {
        Ok(board) => board,
        Err(StartNo::Stray { path }) => return Err(Stop::Refused(Refusal::Stray(path))),
        Err(StartNo::OtherSecret { path }) => {
            return Err(Stop::Refused(Refusal::OtherSecret(path)));
        }
        Err(StartNo::Unfit { replica, verdict }) => {
            return Err(Stop::Refused(Refusal::Unfit(replica, verdict)));
        }
        Err(StartNo::NoMemory) => return Err(Stop::NoMemory),
    };
    match board.judge(replica, settings) {
        Ok(verdict) => Ok(verdict),
        Err(NoMemory) => Err(Stop::NoMemory),
    }
}

/// A verdict as what the command makes.
fn judged_outcome(alloc: Global, verdict: &Verdict) -> Result<Outcome, Stop>
    ensures { IsOutcome verdict.now result }
{
    match verdict_line(alloc, verdict) {
        Ok(bytes) => Ok(Outcome {
            bytes,
            done: verdict_done(verdict),
        }),
        Err(NoMemory) => Err(Stop::NoMemory),
    }
}

fn verdict_done(verdict: &Verdict) -> Done
    ensures { result ≡ verdict_done verdict.now }
{
    match verdict {
        Verdict::Pass => Done::Silent,
        Verdict::DropsStored { path: _, who: _ } => Done::Blocked,
        Verdict::DropsWriter {
            generation: _,
            class: _,
            who: _,
        } => Done::Blocked,
        Verdict::Unread {
            generation: _,
            class: _,
            who: _,
        } => Done::Blocked,
    }
}
