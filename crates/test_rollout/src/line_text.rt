//! What is printed of a line of the journal: the seat, what it held, what it did, what the core
//! gave, and how often the tape had failed by then.
use kr_opening::StartNo;
use kr_rollout::{Did, Gave, Line};
use std::alloc::Global;
use test_support::Page;

/// Adds a line of the journal, without its end.
pub fn add_line(alloc: Global, page: &mut Page, line: &Line) {
    page.number(line.seat as u64);
    page.option(line.held);
    add_did(page, &line.did);
    page.word("|");
    add_gave(alloc, page, &line.gave);
    page.word("|");
    page.number(line.faults);
}

/// Adds what the seat did.
fn add_did(page: &mut Page, did: &Did) {
    match did {
        Did::Adopt { replica } => page.counted("adopt", *replica as u64),
        Did::Fetch { path } => page.named("fetch", path.as_str()),
        Did::After { path } => page.named("after", path.as_str()),
        Did::Put {
            path,
            resource,
            plain,
        } => {
            page.named("put", path.as_str());
            page.word(resource.as_str());
            page.number(plain.as_slice().len() as u64);
        }
        Did::Delete { path } => page.named("delete", path.as_str()),
        Did::Replace { path, revision } => {
            page.named("replace", path.as_str());
            page.number(*revision);
        }
        Did::LetGo => page.word("letgo"),
        Did::Reload {
            replica,
            expect,
            ..
        } => {
            page.counted("reload", *replica as u64);
            page.option(*expect);
        }
        Did::Join { replica, .. } => page.counted("join", *replica as u64),
        Did::Leave { replica } => page.counted("leave", *replica as u64),
    }
}

/// Adds what the core gave.
fn add_gave(alloc: Global, page: &mut Page, gave: &Gave) {
    match gave {
        Gave::Adopted { generation } => page.counted("adopted", *generation as u64),
        Gave::Found { revision } => page.counted("found", *revision),
        Gave::Absent => page.word("absent"),
        Gave::Written { revision } => page.counted("written", *revision),
        Gave::Changed { revision } => page.counted("changed", *revision),
        Gave::Released => page.word("released"),
        Gave::Reloaded { generation } => page.counted("reloaded", *generation as u64),
        Gave::Joined { generation } => page.counted("joined", *generation as u64),
        Gave::Refused(verdict) => {
            page.word("refused");
            page.verdict(alloc, verdict);
        }
        Gave::Moved { generation } => page.counted("moved", *generation as u64),
        Gave::Present { generation } => page.counted("present", *generation as u64),
        Gave::Departed { generation } => page.counted("departed", *generation as u64),
        Gave::Gone { replica } => page.counted("gone", *replica as u64),
        Gave::StoreFailed => page.word("failed"),
        Gave::StoreFull { needed } => page.counted("full", *needed),
        Gave::Nothing => page.word("nothing"),
    }
}

/// A line that tells why no core started.
pub fn add_refusal(alloc: Global, page: &mut Page, why: StartNo) {
    add_start_no(alloc, page, &why);
    drop(why);
}

fn add_start_no(alloc: Global, page: &mut Page, why: &StartNo) {
    match why {
        StartNo::Stray { path } => page.named("stray", path.as_str()),
        StartNo::OtherSecret { path } => page.named("other-secret", path.as_str()),
        StartNo::Unfit { replica, verdict } => {
            page.counted("unfit", *replica as u64);
            page.verdict(alloc, verdict);
        }
        StartNo::NoMemory => page.lack(),
    }
    page.end_line();
}
