//! The text of a line of the journal.
ghost use Rattle.std.specs.Prelude.{◌≡◌, ◌++◌, IfOk, codes, decimal, map};
ghost use Rattle.kr_script.specs.Fleets.{fleet_of, worker_of};
ghost use Rattle.kr_script.specs.Statements.{replica_name};
ghost use Rattle.kr_script.specs.Output.{two, three, event_kind, event_path, path_text, event_replica, did_object};
ghost use Rattle.kr_judge.specs.Texts.{verdict_text};
ghost use Rattle.kr_script.specs.Output.{event_text, seat_worker, journal_text};

use crate::line_text::LineText;
use crate::script::{Part, Script};
use kr_base::{NoMemory, Text};
use kr_judge::Verdict;
use kr_rollout::{Did, Gave, Line};

/// The word of an event's kind.
fn event_kind(did: &Did) -> &'static str
    ensures { result.now ≡ event_kind did.now }
{
    match did {
        Did::Adopt { .. } => "adopt",
        Did::Fetch { .. } => "fetch",
        Did::After { .. } => "after",
        Did::Put { .. } => "put",
        Did::Delete { .. } => "delete",
        Did::Replace { .. } => "replace",
        Did::LetGo => "letgo",
        Did::Reload { .. } => "reload",
        Did::Join { .. } => "join",
        Did::Leave { .. } => "leave",
    }
}

/// The path that an event is about, or nothing.
fn event_path(did: &Did) -> &str
    ensures { result.now ≡ event_path did.now }
{
    match did {
        Did::Fetch { path } => path.as_str(),
        Did::After { path } => path.as_str(),
        Did::Put { path, .. } => path.as_str(),
        Did::Delete { path } => path.as_str(),
        Did::Replace { path, .. } => path.as_str(),
        _ => "",
    }
}

/// A path as it is printed.
fn path_text(path: &str) -> &str
    ensures { result.now ≡ path_text path.now }
{
    match path.as_bytes() {
        [] => "-",
        [_, ..] => path,
    }
}

/// The name of the replica with this number.
fn replica_name(replicas: &[(Text, Text)], number: u32) -> &str
    ensures { result.now ≡ replica_name replicas.now number }
{
    match replicas.get(number as usize) {
        Some(replica) => replica.0.as_str(),
        None => "",
    }
}

/// The name of the worker of a seat.
#[tactic(auto, using(crate::proofs::Seats::worker_there, crate::proofs::Seats::worker_missing))]
fn seat_worker(workers: &[Part], seat: u32) -> &str
    ensures { result.now ≡ seat_worker (map worker_of workers.now) seat }
{
    let seat = seat as usize;
    if seat < workers.len() {
        workers[seat].name.as_str()
    } else {
        ""
    }
}

/// The name of the replica that an event is about, or nothing.
fn event_replica<'a>(replicas: &'a [(Text, Text)], did: &Did) -> &'a str
    ensures { result.now ≡ event_replica replicas.now did.now }
{
    match did {
        Did::Adopt { replica } => replica_name(replicas, *replica),
        Did::Reload { replica, .. } => replica_name(replicas, *replica),
        Did::Join { replica, .. } => replica_name(replicas, *replica),
        Did::Leave { replica } => replica_name(replicas, *replica),
        _ => "",
    }
}

/// Adds the path of an event, and for a replace the revision that it replaced.
fn add_object(text: &mut LineText, did: &Did) -> Result<(), NoMemory>
    ensures { IfOk result (λ done. text.new.bytes.items
        ≡ text.old.bytes.items ++ did_object did.now) }
{
    match did {
        Did::Replace { path, revision } => { text.add_counted(path_text(path.as_str()), *revision) }
        Did::Fetch { path } => text.add(path_text(path.as_str())),
        Did::After { path } => text.add(path_text(path.as_str())),
        Did::Put { path, .. } => text.add(path_text(path.as_str())),
        Did::Delete { path } => text.add(path_text(path.as_str())),
        _ => text.add("-"),
    }
}

/// Adds a word, the object of an event and a revision.
fn add_write(text: &mut LineText, word: &str, did: &Did, revision: u64) -> Result<(), NoMemory>
    ensures { IfOk result (λ done. text.new.bytes.items ≡ text.old.bytes.items
        ++ three word.now (did_object did.now) (decimal revision)) }
{
    text.add_spaced(word)?;
    add_object(text, did)?;
    text.add(" ")?;
    text.add_number(revision)
}

/// Adds the replica's name behind `refused`, and the verdict.
fn add_refusal(text: &mut LineText, name: &str, verdict: &Verdict) -> Result<(), NoMemory>
    ensures { IfOk result (λ done. text.new.bytes.items ≡ text.old.bytes.items
        ++ three (codes "refused") name.now (verdict_text verdict.now)) }
{
    text.add_two("refused", name)?;
    text.add(" ")?;
    text.add_verdict(verdict)
}

/// Adds an event with its answer.
fn add_event(
    text: &mut LineText,
    replicas: &[(Text, Text)],
    did: &Did,
    gave: &Gave,
) -> Result<(), NoMemory>
    ensures { IfOk result (λ done. text.new.bytes.items
        ≡ text.old.bytes.items ++ event_text replicas.now did.now gave.now) }
{
    match gave {
        Gave::Adopted { generation } => {
            text.add_placed("adopt", event_replica(replicas, did), *generation as u64)
        }
        Gave::Found { revision } => {
            text.add_placed(event_kind(did), path_text(event_path(did)), *revision)
        }
        Gave::Absent => text.add_three(event_kind(did), path_text(event_path(did)), "0"),
        Gave::Written { revision } => add_write(text, event_kind(did), did, *revision),
        Gave::Changed { revision } => add_write(text, "changed", did, *revision),
        Gave::Released => text.add("letgo"),
        Gave::Reloaded { generation } => {
            text.add_placed("reload", event_replica(replicas, did), *generation as u64)
        }
        Gave::Joined { generation } => {
            text.add_placed("join", event_replica(replicas, did), *generation as u64)
        }
        Gave::Refused(verdict) => add_refusal(text, event_replica(replicas, did), verdict),
        Gave::Moved { generation } => {
            text.add_placed("moved", event_replica(replicas, did), *generation as u64)
        }
        Gave::Present { generation } => {
            text.add_placed("present", event_replica(replicas, did), *generation as u64)
        }
        Gave::Departed { generation } => {
            text.add_placed("leave", event_replica(replicas, did), *generation as u64)
        }
        Gave::Gone { replica } => {
            text.add_three("gone", event_kind(did), replica_name(replicas, *replica))
        }
        Gave::StoreFailed => text.add_three("failed", event_kind(did), path_text(event_path(did))),
        Gave::StoreFull { .. } => text.add_three(
            "full",
            event_kind(did),
            path_text(event_path(did)),
        ),
        Gave::Nothing => text.add_two("nothing", event_kind(did)),
    }
}

/// Adds the worker's name and the event.
fn add_seen(text: &mut LineText, script: &Script, line: &Line) -> Result<(), NoMemory>
    ensures { IfOk result (λ done. text.new.bytes.items ≡ text.old.bytes.items
        ++ two (seat_worker (fleet_of script.now).workers line.now.seat)
        (event_text (fleet_of script.now).replicas line.now.did line.now.gave)) }
{
    text.add_spaced(seat_worker(script.workers.as_slice(), line.seat))?;
    add_event(text, script.replicas.as_slice(), &line.did, &line.gave)
}

/// The text of a line of the journal with its LF, in the place of what the text was.
pub fn set_line(
    text: &mut LineText,
    script: &Script,
    number: usize,
    line: &Line,
) -> Result<(), NoMemory>
    ensures { IfOk result (λ done. text.new.bytes.items
        ≡ journal_text (fleet_of script.now) number line.now ++ codes "\n") }
{
    text.clear();
    text.add_number(number as u64)?;
    text.add(" ")?;
    add_seen(text, script, line)?;
    text.add("\n")
}
