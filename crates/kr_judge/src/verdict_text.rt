//! The text of a verdict, written to a sink without memory.
ghost use Rattle.std.specs.Prelude.{◌≡◌, ◌++◌, OnOk, OnErr, codes, decimal};
ghost use Rattle.std.specs.Io.KnownBytes.{Appends};
ghost use Rattle.kr_base.specs.Faults.{IsCounted};
ghost use Rattle.kr_base.specs.Streams.{AppendsFront};
ghost use Rattle.kr_judge.specs.declared.verdict.Verdict.TheVariants.{DropsStored};
ghost use Rattle.kr_judge.specs.Texts.{who_text, class_text, place_text, verdict_text};

use crate::verdict::Verdict;
use itoa::Buffer;
use kr_base::{Failed, Sink, Text, write_all, write_each};
use kr_config::{Class, Who};

impl Verdict {
    /// Writes the verdict's text, as `drops-writer 1 secrets aescbc:key1`. After a fault the sink
    /// has taken a prefix of it. It takes no memory.
    pub fn write<S: Sink>(&self, sink: &mut S) -> Result<(), Failed>
        ensures ok { OnOk result
            (Appends (S.held sink.old) (S.held sink.new) (verdict_text self.now)) }
        ensures err { OnErr result
            (AppendsFront (S.held sink.old) (S.held sink.new) (verdict_text self.now)) }
        ensures cause { IsCounted (S.count sink.old) (S.count sink.new) result }
    {
        match self {
            Verdict::Pass => write_all(sink, b"pass"),
            Verdict::DropsStored { path, who } => write_stored(sink, path, who),
            Verdict::DropsWriter {
                generation,
                class,
                who,
            } => { write_numbered(sink, "drops-writer ", *generation, class, who) }
            Verdict::Unread {
                generation,
                class,
                who,
            } => { write_numbered(sink, "unread ", *generation, class, who) }
        }
    }
}

/// Writes a reason about what is stored.
fn write_stored<'a, S: Sink>(sink: &mut S, path: &'a Text, who: &'a Who) -> Result<(), Failed>
    ensures ok { OnOk result (Appends (S.held sink.old) (S.held sink.new)
        (verdict_text (DropsStored path.now who.now))) }
    ensures err { OnErr result (AppendsFront (S.held sink.old) (S.held sink.new)
        (verdict_text (DropsStored path.now who.now))) }
    ensures cause { IsCounted (S.count sink.old) (S.count sink.new) result }
{
    let (kind, name) = who_words(who);
    write_each(sink, &["drops-stored ", path.as_str(), " ", kind, name])
}

/// Writes a reason's name, and behind it a generation's number, a class and a provider.
fn write_numbered<S: Sink>(
    sink: &mut S,
    name: &str,
    generation: u32,
    class: &Class,
    who: &Who,
) -> Result<(), Failed>
    ensures ok { OnOk result (Appends (S.held sink.old) (S.held sink.new)
        (name.now ++ place_text (decimal generation) class.now who.now)) }
    ensures err { OnErr result (AppendsFront (S.held sink.old) (S.held sink.new)
        (name.now ++ place_text (decimal generation) class.now who.now)) }
    ensures cause { IsCounted (S.count sink.old) (S.count sink.new) result }
{
    let mut buffer = Buffer::new();
    let digits = buffer.format(generation);
    write_placed(sink, name, digits, class, who)
}

/// The same, of the number's digits.
fn write_placed<'a, S: Sink>(
    sink: &mut S,
    name: &'a str,
    digits: &'a str,
    class: &'a Class,
    who: &'a Who,
) -> Result<(), Failed>
    ensures ok { OnOk result (Appends (S.held sink.old) (S.held sink.new)
        (name.now ++ place_text digits.now class.now who.now)) }
    ensures err { OnErr result (AppendsFront (S.held sink.old) (S.held sink.new)
        (name.now ++ place_text digits.now class.now who.now)) }
    ensures cause { IsCounted (S.count sink.old) (S.count sink.new) result }
{
    let (all, text) = class_words(class);
    let (kind, key) = who_words(who);
    write_each(sink, &[name, digits, " ", all, text, " ", kind, key])
}

/// What stands before a class's own text, and that text.
pub fn class_words(class: &Class) -> (&str, &str)
    ensures { result.0.now ++ result.1.now ≡ class_text class.now }
{
    match class {
        Class::Exact(text) => ("", text.as_str()),
        Class::Group(group) => ("*.", group.as_str()),
        Class::Rest => ("*.*", ""),
    }
}

/// A provider's kind, and its name where it has one.
pub fn who_words(who: &Who) -> (&str, &str)
    ensures { result.0.now ++ result.1.now ≡ who_text who.now }
{
    match who {
        Who::Identity => ("identity", ""),
        Who::Aescbc(name, _) => ("aescbc:", name.as_str()),
        Who::Aesgcm(name, _) => ("aesgcm:", name.as_str()),
        Who::Kms(name) => ("kms:", name.as_str()),
    }
}
