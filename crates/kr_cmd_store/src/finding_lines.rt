//! The lines of what the values of a store are found to be.
ghost use Rattle.std.specs.Prelude.{◌≡◌, ◌++◌, IfOk, length};
ghost use Rattle.std.specs.List.{count_by};
ghost use Rattle.kr_cmd_steps.specs.RowFindings.{finding_lines, finding_text, findings_outcome, found_fresh, is_refused, is_stale};
ghost use Rattle.kr_cmd_steps.specs.RowLines.{spaced_word, row_line};

use crate::row_lines::{add_revision, add_word};
use kr_base::{Bytes, NoMemory, Shared};
use kr_cmd_messages::{Done, Outcome, add, add_count, add_number};
use kr_cmd_steps::Finding;
use kr_provider::ValueNo;
use kr_store::Row;
use std::alloc::Global;

/// What `verify` makes of what the rows were found to be: a line for each row, and three counts.
pub fn tell_findings(
    alloc: Global,
    rows: &[Shared<Row>],
    findings: &[Finding],
) -> Result<Outcome, NoMemory>
    requires { length findings.now ≡ length rows.now }
    ensures { IfOk result (λ made. made ≡ findings_outcome rows.now findings.now) }
{
    let refused = count_refused(findings);
    let mut text = Vec::new(alloc);
    add_lines(&mut text, rows, findings)?;
    add_count(&mut text, "fresh", count_fresh(findings) as u64)?;
    add_count(&mut text, "stale", count_stale(findings) as u64)?;
    add_count(&mut text, "refused", refused as u64)?;
    Ok(Outcome {
        bytes: Bytes::from_vec(text),
        done: if refused == 0 {
            Done::Silent
        } else {
            Done::Blocked
        },
    })
}

/// Adds a line for each row.
fn add_lines(text: &mut Vec<u8>, rows: &[Shared<Row>], findings: &[Finding]) -> Result<(), NoMemory>
    requires { length findings.now ≡ length rows.now }
    ensures { IfOk result (λ done. text.new.items
        ≡ text.old.items ++ finding_lines rows.now findings.now) }
{
    for at in 0..rows.len() {
        add_line(text, rows[at].get(), findings[at])?;
    }
    Ok(())
}

/// Adds the line of the row: its revision, its resource, its path, and what its value is found to
/// be.
fn add_line(text: &mut Vec<u8>, row: &Row, finding: Finding) -> Result<(), NoMemory>
    ensures { IfOk result (λ done. text.new.items
        ≡ text.old.items ++ row_line row.now (finding_text finding)) }
{
    add_revision(text, row.revision)?;
    add_word(text, row.resource.as_str())?;
    add_word(text, row.path.as_str())?;
    add_finding(text, finding)?;
    add(text, "\n")
}

fn add_finding(text: &mut Vec<u8>, finding: Finding) -> Result<(), NoMemory>
    ensures { IfOk result (λ done. text.new.items
        ≡ text.old.items ++ spaced_word (finding_text finding)) }
{
    match finding {
        Finding::Fresh => add(text, " fresh"),
        Finding::Stale => add(text, " stale"),
        Finding::Refused(why) => add_refusal(text, why),
    }
}

fn add_refusal(text: &mut Vec<u8>, why: ValueNo) -> Result<(), NoMemory>
    ensures { IfOk result (λ done. text.new.items ≡ text.old.items
        ++ spaced_word (finding_text (Finding.Refused why))) }
{
    add(text, " refused ")?;
    add_number(text, why.number() as usize)?;
    add_word(text, why.name())
}

fn count_fresh(findings: &[Finding]) -> usize
    ensures { result ≡ count_by found_fresh findings.now }
{
    let mut fresh = 0;
    for finding in findings {
        if matches!(finding, Finding::Fresh) {
            fresh += 1;
        }
    }
    fresh
}

fn count_stale(findings: &[Finding]) -> usize
    ensures { result ≡ count_by is_stale findings.now }
{
    let mut stale = 0;
    for finding in findings {
        if matches!(finding, Finding::Stale) {
            stale += 1;
        }
    }
    stale
}

fn count_refused(findings: &[Finding]) -> usize
    ensures { result ≡ count_by is_refused findings.now }
{
    let mut refused = 0;
    for finding in findings {
        if matches!(finding, Finding::Refused(_)) {
            refused += 1;
        }
    }
    refused
}
