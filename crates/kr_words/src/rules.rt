//! The rules for the options of a command.
ghost use Rattle.std.specs.Prelude.{◌≡◌, ◌↔◌, ◌⊎◌, ◌≤◌, ◌<◌, ℕ, IsTrue, MatchOption, Contains, All, AllPairs};
ghost use Rattle.kr_words.specs.Names.{option_text, required_options, optional, IsRepeatable};
ghost use Rattle.kr_words.specs.Options.{count_options};
ghost use Rattle.kr_words.specs.Rules.{before_equals, after_equals, IsPlugin, IsReloadOption, MayBeShown};
ghost use Rattle.kr_words.specs.Rules.{MayHaveEmptyPath};
ghost use Rattle.kr_words.specs.Rules.{IsOptionValue, IsOption, HaveTwoNames, IsCommand};
ghost use Rattle.kr_words.specs.Numerals.{IsDecimal};
ghost use Rattle.kr_words.specs.declared.name.OptionName.{OptionName};

use crate::command::{Verb, count_named, count_options};
use crate::name::OptionName;
use crate::numeral::{is_numeral, parse_numeral};
use kr_base::{Text, name_ok, path_ok, resource_ok};

/// Whether the options make the command.
pub fn is_command(verb: Verb, options: &[(Text, Text)]) -> bool
    ensures { IsTrue result ↔ IsCommand verb options.now }
{
    have_values(verb, options)
        && are_whole(verb, options)
        && stand_once(options)
        && have_own_names(options)
}

/// Whether each option is one of the command's, with a value that it may have.
fn have_values(verb: Verb, options: &[(Text, Text)]) -> bool
    ensures { IsTrue result
        ↔ All (IsOption verb (count_options options.now (option_text OptionName.Replica)))
        options.now }
{
    let replicas = count_named(options, OptionName::Replica);
    for option in options {
        if !is_option(verb, replicas, option) {
            return false;
        }
    }
    true
}

/// Whether it is one of the command's, with a value that it may have.
fn is_option(verb: Verb, replicas: usize, option: &(Text, Text)) -> bool
    ensures { IsTrue result ↔ IsOption verb replicas option.now }
{
    match OptionName::read(option.0.as_str()) {
        Some(name) => verb.takes(name) && is_value(verb, replicas, name, option.1.as_str()),
        None => false,
    }
}

/// Whether the option may have the value.
fn is_value(verb: Verb, replicas: usize, name: OptionName, value: &str) -> bool
    ensures { IsTrue result ↔ IsOptionValue verb replicas name value.now }
{
    match name {
        OptionName::Config
        | OptionName::Store
        | OptionName::Replica
        | OptionName::File
        | OptionName::To
        | OptionName::From => true,
        OptionName::Resource => resource_ok(value),
        OptionName::Path => path_ok(value) || (may_have_empty_path(verb) && value.is_empty()),
        OptionName::Plugin => is_plugin(value),
        OptionName::Reload => is_reload(replicas, value),
        OptionName::Seed => parse_numeral(value).is_some(),
        OptionName::Size => is_positive(value),
        OptionName::Replicas => is_positive(value),
        OptionName::Show => is_shown(value),
        OptionName::Limit => is_positive(value),
        OptionName::Since => parse_numeral(value).is_some(),
    }
}

/// Whether it is a number of at least 1.
fn is_positive(value: &str) -> bool
    ensures { IsTrue result ↔ ((n : ℕ) × IsDecimal value.now n × (1 ≤ n)) }
{
    is_numeral(value) && value != "0"
}

/// Whether it names settings of a plan that may be shown.
fn is_shown(value: &str) -> bool
    ensures { IsTrue result ↔ MayBeShown value.now }
{
    value == "wide" || value == "turned"
}

/// Whether the command's path may be empty.
fn may_have_empty_path(verb: Verb) -> bool
    ensures { IsTrue result ↔ MayHaveEmptyPath verb }
{
    matches!(verb, Verb::Encrypt | Verb::Decrypt)
}

/// Whether it is `NAME=PROGRAM`.
fn is_plugin(value: &str) -> bool
    ensures { IsTrue result ↔ IsPlugin value.now }
{
    match split_at_equals(value) {
        Some((name, program)) => name_ok(name) && !program.is_empty(),
        None => false,
    }
}

/// Whether it is `N=FILE`, of a replica that there is.
fn is_reload(replicas: usize, value: &str) -> bool
    ensures { IsTrue result ↔ IsReloadOption replicas value.now }
{
    match split_at_equals(value) {
        Some((replica, _)) => is_below(replica, replicas),
        None => false,
    }
}

/// Whether it is a number below the limit.
fn is_below(number: &str, limit: usize) -> bool
    ensures { IsTrue result ↔ ((n : ℕ) × IsDecimal number.now n × (n < limit)) }
{
    match parse_numeral(number) {
        Some(number) => number < limit as u64,
        None => false,
    }
}

/// Whether no required option is missing.
fn are_whole(verb: Verb, options: &[(Text, Text)]) -> bool
    ensures { IsTrue result
        ↔ All (λ name. 1 ≤ count_options options.now (option_text name)) (required_options verb) }
{
    verb.required()
        .iter()
        .all(|name| count_options(options, name.text()) >= 1)
}

/// Whether each option stands at most once, plugins and replicas apart.
fn stand_once(options: &[(Text, Text)]) -> bool
    ensures { IsTrue result
        ↔ ((name : OptionName) → IsRepeatable name
        ⊎ (count_options options.now (option_text name) ≤ 1)) }
{
    for name in OptionName::ALL {
        if !may_stand(name, options) {
            return false;
        }
    }
    true
}

/// Whether the option stands at most once or may repeat.
fn may_stand(name: OptionName, options: &[(Text, Text)]) -> bool
    ensures { IsTrue result ↔ (IsRepeatable name
        ⊎ (count_options options.now (option_text name) ≤ 1)) }
{
    name.may_repeat() || count_options(options, name.text()) <= 1
}

/// Whether no two plugins have one name.
fn have_own_names(options: &[(Text, Text)]) -> bool
    ensures { IsTrue result ↔ AllPairs HaveTwoNames options.now }
{
    for (i, later) in options.iter().enumerate() {
        if !has_own_name(later, &options[..i]) {
            return false;
        }
    }
    true
}

/// Whether no plugin before this option has its name.
fn has_own_name(later: &(Text, Text), before: &[(Text, Text)]) -> bool
    ensures { IsTrue result ↔ All (λ earlier. HaveTwoNames earlier later.now) before.now }
{
    if later.0.as_str() != OptionName::Plugin.text() {
        return true;
    }
    for earlier in before {
        if !have_two_names(earlier, later) {
            return false;
        }
    }
    true
}

/// Whether these aren't two plugins of one name.
fn have_two_names(a: &(Text, Text), b: &(Text, Text)) -> bool
    ensures { IsTrue result ↔ HaveTwoNames a.now b.now }
{
    let plugin = OptionName::Plugin.text();
    a.0.as_str() != plugin
        || b.0.as_str() != plugin
        || name_before_equals(a.1.as_str()) != name_before_equals(b.1.as_str())
}

/// What stands before and behind the first `=`.
pub(crate) fn split_at_equals(value: &str) -> Option<(&str, &str)>
    ensures { MatchOption result
        (Contains value.now 0x3D → ⊥)
        (λ parts. Contains value.now 0x3D × (parts.0.now ≡ before_equals value.now)
        × (parts.1.now ≡ after_equals value.now)) }
{
    match value.split_once('=') {
        Some((before, after)) => Some((before, after)),
        None => None,
    }
}

/// What stands before the first `=`.
pub(crate) fn name_before_equals(value: &str) -> &str
    ensures { result.now ≡ before_equals value.now }
{
    match value.split_once('=') {
        Some((name, _)) => name,
        None => value,
    }
}
