//! A class and a provider, as a clash is printed.
ghost use Rattle.std.specs.Prelude.{◌≡◌, ◌++◌, codes, IfOk, OnOk};
ghost use Rattle.std.specs.String.{string_bytes};
ghost use Rattle.kr_judge.specs.Texts.{class_text, who_text};

use kr_base::{NoMemory, Text};
use kr_config::{Class, Who};
use kr_judge::{class_words, who_words};
use std::alloc::Global;

/// The class, a space and the provider, as a verdict has them.
pub fn clash_text(alloc: Global, class: &Class, who: &Who) -> Result<Text, NoMemory>
    ensures { IfOk result
        (λ text. text ≡ class_text class.now ++ (codes " " ++ who_text who.now)) }
{
    let mut text = String::new(alloc);
    push_class(&mut text, class)?;
    text.push_str(" ")?;
    push_who(&mut text, who)?;
    Ok(Text::from_string(text))
}

fn push_class(text: &mut String, class: &Class) -> Result<(), NoMemory>
    ensures { OnOk result (string_bytes text.new ≡ string_bytes text.old ++ class_text class.now) }
{
    let (all, name) = class_words(class);
    push_pair(text, all, name)
}

fn push_who(text: &mut String, who: &Who) -> Result<(), NoMemory>
    ensures { OnOk result (string_bytes text.new ≡ string_bytes text.old ++ who_text who.now) }
{
    let (kind, name) = who_words(who);
    push_pair(text, kind, name)
}

fn push_pair(text: &mut String, one: &str, other: &str) -> Result<(), NoMemory>
    ensures { OnOk result
        (string_bytes text.new ≡ string_bytes text.old ++ (one.now ++ other.now)) }
{
    text.push_str(one)?;
    text.push_str(other)?;
    Ok(())
}
