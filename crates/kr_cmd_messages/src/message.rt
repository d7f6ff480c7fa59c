//! What a command says at its end.
ghost use Rattle.std.specs.Prelude.{◌≡◌, ◌≤◌, ◌++◌, codes};
ghost use Rattle.kr_base.specs.Streams.{whole_text};
ghost use Rattle.kr_cmd_messages.specs.Message.{status_of, status_of_words, status_of_configuration, status_of_refusal, status_of_done};
ghost use Rattle.kr_cmd_messages.specs.Message.{words_line, limit_line, limit_text, limit_size, refusal_line, done_line, counted_text, counted_line, broken_code, breach_place, breach_line, configuration_line, fault_line, line_of, field_text, unhealthy_line};
ghost use Rattle.kr_cmd_messages.specs.Receipts.{receipt, Tells};
ghost use Rattle.kr_cmd_messages.specs.inner.Sayings.{Says};

use crate::refusal::{BadWords, Breach, Done, Limit, Object, Refusal, Stop};
use itoa::Buffer;
use kr_base::{
    CONFIG_LIMIT, DATA_LIMIT, Failed, JOURNAL_LIMIT, STORE_LIMIT, Sink, Text, VALUE_LIMIT,
    write_each,
};
use kr_config::{ConfigNo, Counted};
use kr_judge::Verdict;
use kr_kms::Field;
use kr_provider::ValueNo;

fn status_of_words(why: BadWords) -> u8
    ensures { result ≡ status_of_words why }
{
    match why {
        BadWords::Usage => 2,
        BadWords::Replicas => 6,
        BadWords::Size => 6,
        BadWords::Page => 6,
    }
}

fn status_of_done(done: Done) -> u8
    ensures { result ≡ status_of_done done }
{
    match done {
        Done::Silent => 0,
        Done::Fresh => 0,
        Done::Stale => 0,
        Done::Blocked => 1,
    }
}

fn status_of_configuration(why: ConfigNo) -> u8
    ensures { result ≡ status_of_configuration why }
{
    match why {
        ConfigNo::Breach(_, _) => 3,
        ConfigNo::Yaml(_, _) => 3,
        ConfigNo::Limit(_) => 6,
    }
}

fn status_of_refusal(why: &Refusal) -> u8
    ensures { result ≡ status_of_refusal why.now }
{
    match why {
        Refusal::Value(_) => 1,
        Refusal::Placed(_, _) => 1,
        Refusal::NoPath(_) => 1,
        Refusal::Clash(_) => 1,
        Refusal::NotEmpty(_) => 3,
        Refusal::NotOld => 3,
        Refusal::Absent(_) => 3,
        Refusal::Broken(_) => 3,
        Refusal::Stray(_) => 3,
        Refusal::OtherSecret(_) => 3,
        Refusal::Unfit(_, _) => 3,
        Refusal::Script(_) => 3,
        Refusal::NoPlugin(_) => 3,
        Refusal::Unhealthy(_, _, _) => 3,
        Refusal::Configuration(why) => status_of_configuration(*why),
        Refusal::Limit(_) => 6,
    }
}

/// The status of a command by how it ended.
fn exit_status(answer: &Result<Done, Stop>) -> u8
    ensures { result ≡ status_of answer.now }
{
    match answer {
        Ok(done) => status_of_done(*done),
        Err(Stop::Words(why)) => status_of_words(*why),
        Err(Stop::Refused(why)) => status_of_refusal(why),
        Err(Stop::Fault(_object, _count)) => 4,
        Err(Stop::NoMemory) => 5,
    }
}

/// Writes the line of how a command ended, and answers its status; 4 where the line can't be
/// written. It takes no memory.
pub fn tell<E: Sink>(errors: &mut E, answer: &Result<Done, Stop>) -> u8
    ensures told { Tells (line_of answer.now) (status_of answer.now)
        (receipt (E.held errors.old) (E.held errors.new) (E.count errors.old) (E.count errors.new))
        result }
    ensures later { E.count errors.old ≤ E.count errors.new }
{
    match write_line(errors, answer) {
        Ok(()) => exit_status(answer),
        Err(Failed) => 4,
    }
}

fn write_line<E: Sink>(errors: &mut E, answer: &Result<Done, Stop>) -> Result<(), Failed>
    ensures { Says (receipt (E.held errors.old) (E.held errors.new)
        (E.count errors.old) (E.count errors.new))
        (line_of answer.now) result }
{
    match answer {
        Ok(done) => write_text(errors, done_line(*done)),
        Err(Stop::Words(why)) => write_words(errors, *why),
        Err(Stop::Refused(why)) => write_refusal(errors, why),
        Err(Stop::Fault(object, count)) => write_fault(errors, object, *count),
        Err(Stop::NoMemory) => write_text(errors, "kmsrest: memory\n"),
    }
}

fn done_line(done: Done) -> &'static str
    ensures { result.now ≡ done_line done }
{
    match done {
        Done::Silent => "",
        Done::Fresh => "fresh\n",
        Done::Stale => "stale\n",
        Done::Blocked => "",
    }
}

fn write_words<E: Sink>(errors: &mut E, why: BadWords) -> Result<(), Failed>
    ensures { Says (receipt (E.held errors.old) (E.held errors.new)
        (E.count errors.old) (E.count errors.new))
        (words_line why) result }
{
    match why {
        BadWords::Usage => write_text(errors, "kmsrest: usage: kmsrest COMMAND OPTIONS\n"),
        BadWords::Replicas => write_limit(errors, "replicas", 16),
        BadWords::Size => write_limit(errors, "size", 10_000),
        BadWords::Page => write_limit(errors, "page", 10_000),
    }
}

fn write_refusal<E: Sink>(errors: &mut E, why: &Refusal) -> Result<(), Failed>
    ensures { Says (receipt (E.held errors.old) (E.held errors.new)
        (E.count errors.old) (E.count errors.new))
        (refusal_line why.now) result }
{
    match why {
        Refusal::Absent(name) => write_named(errors, "kmsrest: text 40 ", name),
        Refusal::Configuration(why) => write_configuration(errors, *why),
        Refusal::NoPlugin(name) => write_named(errors, "kmsrest: text 44 ", name),
        Refusal::Unhealthy(name, field, text) => {
            write_unhealthy(errors, name.as_str(), field_text(*field), text.as_str())
        }
        Refusal::Limit(which) => write_limit(errors, limit_text(*which), limit_size(*which)),
        Refusal::Value(why) => write_value(errors, *why),
        Refusal::Placed(why, at) => write_placed(errors, *why, *at),
        Refusal::Broken(why) => write_broken(errors, *why),
        Refusal::NoPath(path) => write_named(errors, "kmsrest: absent ", path),
        Refusal::NotEmpty(length) => write_counted(errors, "kmsrest: text ", "52", *length),
        Refusal::NotOld => write_text(errors, "kmsrest: text 53 2\n"),
        Refusal::Stray(path) => write_named(errors, "kmsrest: text 48 ", path),
        Refusal::OtherSecret(path) => write_named(errors, "kmsrest: text 51 ", path),
        Refusal::Unfit(replica, verdict) => write_unfit(errors, *replica, verdict),
        Refusal::Clash(text) => write_named(errors, "kmsrest: clash ", text),
        Refusal::Script(line) => write_counted(errors, "kmsrest: text ", "47", *line),
    }
}

/// Writes a line of these words and a text.
fn write_named<E: Sink>(errors: &mut E, start: &str, name: &Text) -> Result<(), Failed>
    ensures { Says (receipt (E.held errors.old) (E.held errors.new)
        (E.count errors.old) (E.count errors.new))
        (start.now ++ (name.now ++ codes "\n")) result }
{
    say(errors, &[start, name.as_str(), "\n"])
}

/// Writes the line of an unhealthy plugin.
fn write_unhealthy<'a, E: Sink>(
    errors: &mut E,
    name: &'a str,
    field: &'a str,
    text: &'a str,
) -> Result<(), Failed>
    ensures { Says (receipt (E.held errors.old) (E.held errors.new)
        (E.count errors.old) (E.count errors.new))
        (unhealthy_line name.now field.now text.now) result }
{
    say(
        errors,
        &["kmsrest: text 45 ", name, " ", field, " ", text, "\n"],
    )
}

/// A field of a plugin's status.
fn field_text(field: Field) -> &'static str
    ensures { result.now ≡ field_text field }
{
    match field {
        Field::Version => "version",
        Field::Healthz => "healthz",
        Field::KeyId => "key_id",
    }
}

/// Writes the line of a limit that was passed.
fn write_limit<E: Sink>(errors: &mut E, word: &str, limit: u64) -> Result<(), Failed>
    ensures { Says (receipt (E.held errors.old) (E.held errors.new)
        (E.count errors.old) (E.count errors.new))
        (limit_line word.now limit) result }
{
    write_counted(errors, "kmsrest: limit ", word, limit)
}

fn limit_text(which: Limit) -> &'static str
    ensures { result.now ≡ limit_text which }
{
    match which {
        Limit::Config => "config",
        Limit::Data => "data",
        Limit::Value => "value",
        Limit::Store => "store",
        Limit::Script => "script",
        Limit::Replicas => "replicas",
        Limit::Workers => "workers",
        Limit::Journal => "journal",
    }
}

fn limit_size(which: Limit) -> u64
    ensures { result ≡ limit_size which }
{
    match which {
        Limit::Config => CONFIG_LIMIT,
        Limit::Data => DATA_LIMIT,
        Limit::Value => VALUE_LIMIT,
        Limit::Store => STORE_LIMIT,
        Limit::Script => STORE_LIMIT,
        Limit::Replicas => 16,
        Limit::Workers => 64,
        Limit::Journal => JOURNAL_LIMIT,
    }
}

/// Writes the line of a refused value.
fn write_value<E: Sink>(errors: &mut E, why: ValueNo) -> Result<(), Failed>
    ensures { Says (receipt (E.held errors.old) (E.held errors.new)
        (E.count errors.old) (E.count errors.new))
        (refusal_line (Refusal.Value why)) result }
{
    let mut buffer = Buffer::new();
    let digits = buffer.format(why.number());
    say(
        errors,
        &["kmsrest: refused ", digits, " ", why.name(), "\n"],
    )
}

/// Writes the line of a refused value with its place.
fn write_placed<E: Sink>(errors: &mut E, why: ValueNo, at: u64) -> Result<(), Failed>
    ensures { Says (receipt (E.held errors.old) (E.held errors.new)
        (E.count errors.old) (E.count errors.new))
        (refusal_line (Refusal.Placed why at)) result }
{
    let mut buffer = Buffer::new();
    let digits = buffer.format(why.number());
    let mut place_buffer = Buffer::new();
    let place = place_buffer.format(at);
    say(
        errors,
        &[
            "kmsrest: refused ",
            digits,
            " ",
            why.name(),
            " ",
            place,
            "\n",
        ],
    )
}

/// Writes the line of what a store's file breaks.
fn write_broken<E: Sink>(errors: &mut E, why: Breach) -> Result<(), Failed>
    ensures { Says (receipt (E.held errors.old) (E.held errors.new)
        (E.count errors.old) (E.count errors.new))
        (refusal_line (Refusal.Broken why)) result }
{
    write_counted(
        errors,
        "kmsrest: text ",
        broken_code(why),
        breach_place(why),
    )
}

/// Writes the line of a replica that is refused.
fn write_unfit<E: Sink>(errors: &mut E, replica: u32, verdict: &Verdict) -> Result<(), Failed>
    ensures { Says (receipt (E.held errors.old) (E.held errors.new)
        (E.count errors.old) (E.count errors.new))
        (refusal_line (Refusal.Unfit replica verdict.now)) result }
{
    let mut buffer = Buffer::new();
    let digits = buffer.format(replica);
    match say(errors, &["kmsrest: text 49 ", digits, " "]) {
        Ok(()) => {}
        Err(Failed) => return Err(Failed),
    }
    match verdict.write(errors) {
        Ok(()) => {}
        Err(Failed) => return Err(Failed),
    }
    write_text(errors, "\n")
}

fn broken_code(why: Breach) -> &'static str
    ensures { result.now ≡ broken_code why }
{
    match why {
        Breach::Magic => "41",
        Breach::Torn(_) => "42",
        Breach::BadRow(_) => "43",
        Breach::Order(_) => "46",
    }
}

fn breach_place(why: Breach) -> u64
    ensures { result ≡ breach_place why }
{
    match why {
        Breach::Magic => 0,
        Breach::Torn(at) => at,
        Breach::BadRow(at) => at,
        Breach::Order(at) => at,
    }
}

/// Writes the line of what a configuration breaks.
fn write_configuration<E: Sink>(errors: &mut E, why: ConfigNo) -> Result<(), Failed>
    ensures { Says (receipt (E.held errors.old) (E.held errors.new)
        (E.count errors.old) (E.count errors.new))
        (configuration_line why) result }
{
    match why {
        ConfigNo::Breach(_, _) => write_breach(errors, why),
        ConfigNo::Yaml(_, _) => write_breach(errors, why),
        ConfigNo::Limit(counted) => write_limit(
            errors,
            counted_text(counted),
            counted.limit() as u64,
        ),
    }
}

/// Writes the line of a breach with its code and numbers.
fn write_breach<E: Sink>(errors: &mut E, why: ConfigNo) -> Result<(), Failed>
    ensures { Says (receipt (E.held errors.old) (E.held errors.new)
        (E.count errors.old) (E.count errors.new))
        (breach_line why) result }
{
    let mut code_buffer = Buffer::new();
    let code = code_buffer.format(why.code());
    let mut first_buffer = Buffer::new();
    let first = first_buffer.format(why.first_number());
    let mut second_buffer = Buffer::new();
    let second = second_buffer.format(why.second_number());
    say(
        errors,
        &["kmsrest: text ", code, " ", first, " ", second, "\n"],
    )
}

/// What a configuration has too many of.
fn counted_text(counted: Counted) -> &'static str
    ensures { result.now ≡ counted_text counted }
{
    match counted {
        Counted::Entries => "entries",
        Counted::Patterns => "patterns",
        Counted::Keys => "keys",
        Counted::Plugins => "kms",
    }
}

fn write_fault<E: Sink>(errors: &mut E, object: &Object, count: u64) -> Result<(), Failed>
    ensures { Says (receipt (E.held errors.old) (E.held errors.new)
        (E.count errors.old) (E.count errors.new))
        (fault_line object.now count) result }
{
    match object {
        Object::Input => write_counted(errors, "kmsrest: fault ", "input", count),
        Object::Output => write_counted(errors, "kmsrest: fault ", "output", count),
        Object::Files => write_counted(errors, "kmsrest: fault ", "files", count),
        Object::Store => write_counted(errors, "kmsrest: fault ", "store", count),
        Object::Target => write_counted(errors, "kmsrest: fault ", "target", count),
        Object::Dice(seat) => write_dice_fault(errors, *seat, count),
        Object::Plugin(name) => write_plugin_fault(errors, name, count),
    }
}

fn write_dice_fault<E: Sink>(errors: &mut E, seat: u32, count: u64) -> Result<(), Failed>
    ensures { Says (receipt (E.held errors.old) (E.held errors.new)
        (E.count errors.old) (E.count errors.new))
        (fault_line (Object.Dice seat) count) result }
{
    let mut buffer = Buffer::new();
    let seat = buffer.format(seat);
    write_counted(errors, "kmsrest: fault dice ", seat, count)
}

fn write_plugin_fault<E: Sink>(errors: &mut E, name: &Text, count: u64) -> Result<(), Failed>
    ensures { Says (receipt (E.held errors.old) (E.held errors.new)
        (E.count errors.old) (E.count errors.new))
        (fault_line (Object.Plugin name.now) count) result }
{
    write_counted(errors, "kmsrest: fault plugin ", name.as_str(), count)
}

/// Writes some words, one that tells of what, and a number.
fn write_counted<E: Sink>(
    errors: &mut E,
    start: &str,
    word: &str,
    number: u64,
) -> Result<(), Failed>
    ensures { Says (receipt (E.held errors.old) (E.held errors.new)
        (E.count errors.old) (E.count errors.new))
        (counted_line start.now word.now number) result }
{
    let mut buffer = Buffer::new();
    let digits = buffer.format(number);
    say(errors, &[start, word, " ", digits, "\n"])
}

/// Writes the text.
fn write_text<E: Sink>(errors: &mut E, text: &str) -> Result<(), Failed>
    ensures { Says (receipt (E.held errors.old) (E.held errors.new)
        (E.count errors.old) (E.count errors.new))
        text.now result }
{
    say(errors, &[text])
}

/// Writes the pieces, one behind another.
pub(crate) fn say<E: Sink>(errors: &mut E, pieces: &[&str]) -> Result<(), Failed>
    ensures { Says (receipt (E.held errors.old) (E.held errors.new)
        (E.count errors.old) (E.count errors.new))
        (whole_text pieces.now) result }
{
    write_each(errors, pieces)
}
