//! What calls answered, as words of a line.
use kr_fleet::{Joining, Loaded, Read};
use kr_history::CallNo;
use kr_judge::Verdict;
use kr_rewrite::{Report, Step};
use std::alloc::Global;
use test_support::{Page, Wrong};

/// What a call may answer.
pub trait Answer: Drop {
    /// Adds it to the line.
    fn add(&self, alloc: Global, page: &mut Page);
}

/// Why a call was cut short stands in the answer's place.
impl<T: Answer> Answer for Result<T, CallNo> {
    fn add(&self, alloc: Global, page: &mut Page) {
        match self {
            Ok(answer) => answer.add(alloc, page),
            Err(why) => add_refusal(page, why),
        }
    }
}

/// A read's revision, the data and whether the value is stale.
impl Answer for Read {
    fn add(&self, alloc: Global, page: &mut Page) {
        match self {
            Read::Absent => page.word("absent"),
            Read::Value {
                revision,
                plain,
                stale,
            } => {
                page.counted("value", *revision);
                page.digits(alloc, plain.as_slice());
                page.word(if *stale { "stale" } else { "fresh" });
            }
        }
    }
}

/// A write's revision.
impl Answer for u64 {
    fn add(&self, _alloc: Global, page: &mut Page) {
        page.counted("written", *self);
    }
}

/// A delete's revision, or that there was nothing.
impl Answer for Option<u64> {
    fn add(&self, _alloc: Global, page: &mut Page) {
        add_found(page, "deleted", *self);
    }
}

/// The generation that a replica had which left, or that it was out.
impl Answer for Option<u32> {
    fn add(&self, _alloc: Global, page: &mut Page) {
        let generation = match self {
            Some(generation) => Some(*generation as u64),
            None => None,
        };
        add_found(page, "departed", generation);
    }
}

/// A number behind its word, or that there was nothing.
fn add_found(page: &mut Page, word: &str, number: Option<u64>) {
    match number {
        Some(number) => page.counted(word, number),
        None => page.word("absent"),
    }
}

/// The generation, or why there is no new one.
impl Answer for Loaded {
    fn add(&self, alloc: Global, page: &mut Page) {
        match self {
            Loaded::Generation(number) => page.counted("generation", *number as u64),
            Loaded::Refused(verdict) => add_verdict(alloc, page, verdict),
            Loaded::Moved(number) => page.counted("moved", *number as u64),
            Loaded::Unchanged(number) => page.counted("unchanged", *number as u64),
        }
    }
}

/// The generation, or why the replica didn't join.
impl Answer for Joining {
    fn add(&self, alloc: Global, page: &mut Page) {
        match self {
            Joining::Generation(number) => page.counted("generation", *number as u64),
            Joining::Refused(verdict) => add_verdict(alloc, page, verdict),
            Joining::Present(number) => page.counted("present", *number as u64),
        }
    }
}

/// What became of the object, and its path.
impl Answer for Step {
    fn add(&self, _alloc: Global, page: &mut Page) {
        match self {
            Step::End => page.word("end"),
            Step::Rewritten(path) => page.named("rewritten", path.as_str()),
            Step::Fresh(path) => page.named("fresh", path.as_str()),
            Step::Changed(path) => page.named("changed", path.as_str()),
            Step::Left(path) => page.named("left", path.as_str()),
        }
    }
}

/// The counts and the last path, and why the drive was cut short, if it was.
impl Answer for (Report, Result<(), CallNo>) {
    fn add(&self, _alloc: Global, page: &mut Page) {
        let report = &self.0;
        page.counted("rewritten", report.rewritten);
        page.counted("fresh", report.fresh);
        page.counted("changed", report.changed);
        page.counted("left", report.left);
        page.named("last", report.last.as_str());
        if let Err(why) = &self.1 {
            add_refusal(page, why);
        }
    }
}

/// Ends the line with what a call answered, or with `line` where it can't be made.
pub fn tell<T: Answer>(alloc: Global, page: &mut Page, made: Result<T, Wrong>) {
    match made {
        Ok(answer) => {
            answer.add(alloc, page);
            drop(answer);
            page.end_line();
        }
        Err(why) => page.told_wrong("line", why),
    }
}

/// Adds why a call was cut short.
fn add_refusal(page: &mut Page, why: &CallNo) {
    match why {
        CallNo::Value(why) => page.counted("refused", why.number() as u64),
        CallNo::PluginFailed { name } => page.named("plugin", name.as_str()),
        CallNo::DiceFailed => page.word("dice"),
        CallNo::StoreFailed => page.word("store"),
        CallNo::StoreFull { needed } => page.counted("full", *needed),
        CallNo::Unhealthy { name, text, .. } => {
            page.named("unhealthy", name.as_str());
            page.word(text.as_str());
        }
        CallNo::Gone => page.word("gone"),
        CallNo::Spent => page.word("spent"),
        CallNo::NoMemory => page.word("memory"),
    }
}

/// Adds a verdict.
fn add_verdict(alloc: Global, page: &mut Page, verdict: &Verdict) {
    page.word("verdict");
    page.verdict(alloc, verdict);
}
