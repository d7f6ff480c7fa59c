//! The text of what a worker told.
ghost use Rattle.std.specs.Prelude.{◌≡◌, ◌++◌, IfOk, codes, decimal};
ghost use Rattle.kr_base.specs.Visible.{visible};
ghost use Rattle.kr_judge.specs.Texts.{verdict_text};
ghost use Rattle.kr_script.specs.Output.{two, three, four, data_text, field_text};
ghost use Rattle.kr_provider.specs.Refusals.{number_of, name_of};
ghost use Rattle.kr_script.specs.Output.{reply_text, told_text};

use crate::line_text::LineText;
use crate::told::Told;
use base64::engine::general_purpose::STANDARD;
use kr_base::{Bytes, NoMemory};
use kr_judge::Verdict;
use kr_kms::Field;
use kr_provider::ValueNo;
use std::alloc::Global;

/// The name of a field of a status.
fn field_text(field: &Field) -> &'static str
    ensures { result.now ≡ field_text field.now }
{
    match field {
        Field::Version => "version",
        Field::Healthz => "healthz",
        Field::KeyId => "key_id",
    }
}

/// Adds the data in base64, or `-`.
fn add_data(alloc: Global, text: &mut LineText, plain: &[u8]) -> Result<(), NoMemory>
    ensures { IfOk result (λ done. text.new.bytes.items
        ≡ text.old.bytes.items ++ data_text plain.now) }
{
    match plain {
        [] => text.add("-"),
        [_, ..] => {
            let encoded = STANDARD.encode(alloc, plain)?;
            text.add(encoded.as_str())
        }
    }
}

fn add_got(alloc: Global, text: &mut LineText, revision: u64, plain: &Bytes) -> Result<(), NoMemory>
    ensures { IfOk result (λ done. text.new.bytes.items ≡ text.old.bytes.items
        ++ three (codes "get") (decimal revision) (data_text plain.now)) }
{
    text.add_counted("get", revision)?;
    text.add(" ")?;
    add_data(alloc, text, plain.as_slice())
}

fn add_more_counts(text: &mut LineText, fresh: u64, changed: u64, left: u64) -> Result<(), NoMemory>
    ensures { IfOk result (λ done. text.new.bytes.items ≡ text.old.bytes.items
        ++ three (decimal fresh) (decimal changed) (decimal left)) }
{
    text.add_number(fresh)?;
    text.add(" ")?;
    text.add_number(changed)?;
    text.add(" ")?;
    text.add_number(left)
}

fn add_rewritten(
    text: &mut LineText,
    rewritten: u64,
    fresh: u64,
    changed: u64,
    left: u64,
) -> Result<(), NoMemory>
    ensures { IfOk result (λ done. text.new.bytes.items ≡ text.old.bytes.items
        ++ two (codes "rewrite") (four (decimal rewritten) (decimal fresh) (decimal changed)
        (decimal left))) }
{
    text.add_counted("rewrite", rewritten)?;
    text.add(" ")?;
    add_more_counts(text, fresh, changed, left)
}

fn add_refusal(text: &mut LineText, verdict: &Verdict) -> Result<(), NoMemory>
    ensures { IfOk result (λ done. text.new.bytes.items ≡ text.old.bytes.items
        ++ two (codes "refused") (verdict_text verdict.now)) }
{
    text.add("refused ")?;
    text.add_verdict(verdict)
}

fn add_value(text: &mut LineText, why: ValueNo) -> Result<(), NoMemory>
    ensures { IfOk result (λ done. text.new.bytes.items ≡ text.old.bytes.items
        ++ three (codes "refused") (decimal (number_of why)) (name_of why)) }
{
    text.add("refused ")?;
    add_why(text, why)
}

fn add_why(text: &mut LineText, why: ValueNo) -> Result<(), NoMemory>
    ensures { IfOk result (λ done. text.new.bytes.items ≡ text.old.bytes.items
        ++ two (decimal (number_of why)) (name_of why)) }
{
    add_refusal_number(text, why)?;
    text.add(" ")?;
    text.add(why.name())
}

fn add_refusal_number(text: &mut LineText, why: ValueNo) -> Result<(), NoMemory>
    ensures { IfOk result (λ done. text.new.bytes.items
        ≡ text.old.bytes.items ++ decimal (number_of why)) }
{
    text.add_number(why.number() as u64)
}

fn add_unhealthy(
    text: &mut LineText,
    name: &str,
    field: &Field,
    answered: &str,
) -> Result<(), NoMemory>
    ensures { IfOk result (λ done. text.new.bytes.items ≡ text.old.bytes.items
        ++ four (codes "unhealthy") name.now (field_text field.now) (visible answered.now)) }
{
    text.add_two("unhealthy", name)?;
    text.add(" ")?;
    add_field(text, field, answered)
}

fn add_field(text: &mut LineText, field: &Field, answered: &str) -> Result<(), NoMemory>
    ensures { IfOk result (λ done. text.new.bytes.items ≡ text.old.bytes.items
        ++ two (field_text field.now) (visible answered.now)) }
{
    text.add_spaced(field_text(field))?;
    text.add_visible(answered)
}

/// Adds a reply.
fn add_reply(alloc: Global, text: &mut LineText, reply: &Told) -> Result<(), NoMemory>
    ensures { IfOk result (λ done. text.new.bytes.items
        ≡ text.old.bytes.items ++ reply_text reply.now) }
{
    match reply {
        Told::Put { revision } => text.add_counted("put", *revision),
        Told::Got { revision, plain } => add_got(alloc, text, *revision, plain),
        Told::Deleted { revision } => text.add_counted("delete", *revision),
        Told::Absent => text.add("absent"),
        Told::Rewritten {
            rewritten,
            fresh,
            changed,
            left,
        } => add_rewritten(text, *rewritten, *fresh, *changed, *left),
        Told::Reloaded { generation } => text.add_counted("reload", *generation as u64),
        Told::Joined { generation } => text.add_counted("join", *generation as u64),
        Told::Present { generation } => text.add_counted("present", *generation as u64),
        Told::Left { generation } => text.add_counted("leave", *generation as u64),
        Told::Gone => text.add("gone"),
        Told::Refused { verdict } => add_refusal(text, verdict),
        Told::Refreshed { generation } => text.add_counted("refresh", *generation as u64),
        Told::Unchanged => text.add("refresh unchanged"),
        Told::Moved { generation } => text.add_counted("refresh moved", *generation as u64),
        Told::Value { why } => add_value(text, *why),
        Told::Unhealthy {
            name,
            field,
            text: answered,
        } => add_unhealthy(text, name.as_str(), field, answered.as_str()),
        Told::FaultPlugin { name } => text.add_two("fault plugin", name.as_str()),
        Told::FaultDice { seat } => text.add_counted("fault dice", *seat as u64),
        Told::FaultStore => text.add("fault store"),
        Told::Full => text.add("full"),
        Told::Memory => text.add("memory"),
    }
}

/// The text of a reply's line with its LF, in the place of what the text was.
pub fn set_reply(
    alloc: Global,
    text: &mut LineText,
    worker: &str,
    number: u64,
    reply: &Told,
) -> Result<(), NoMemory>
    ensures { IfOk result (λ done. text.new.bytes.items
        ≡ told_text worker.now number reply.now ++ codes "\n") }
{
    text.clear();
    text.add_counted(worker, number)?;
    text.add(" ")?;
    add_reply(alloc, text, reply)?;
    text.add("\n")
}
