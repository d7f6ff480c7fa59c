//! What the options of a command give beyond first values: programs, replicas, a reload, numbers.
ghost use Rattle.std.specs.Prelude.{◌≡◌, ◌^◌, ◌<◌, ◌≤◌, ℕ, List, MatchOption, IsSome, IsSomeAnd};
ghost use Rattle.std.specs.Prelude.{codes, slice_get};
ghost use Rattle.std.specs.Option.{option_copied};
ghost use Rattle.kr_words.specs.Options.{value_of, values_of, count_options};
ghost use Rattle.kr_words.specs.Arguments.{is_plugin, plugin_program, ReadsNumberAt, IsReloadOf};
ghost use Rattle.kr_words.specs.Arguments.{IsReloadAt};
ghost use Rattle.kr_words.specs.Names.{option_text};
ghost use Rattle.kr_words.specs.Rules.{after_equals, IsCommand};
ghost use Rattle.kr_words.specs.Grammar.{replica_limit, replicas_of, HasFewReplicas, IsWithinPage};
ghost use Rattle.kr_words.specs.Grammar.{IsWithinSize};
ghost use Rattle.kr_words.specs.declared.command.Verb.{Verb};

use crate::command::{CommandWords, count_named, first_value};
use crate::name::OptionName;
use crate::numeral::parse_numeral;
use crate::rules::{name_before_equals, split_at_equals};
use kr_base::Text;

/// A reload of one replica.
#[derive(Clone, Copy)]
pub struct Reload<'a> {
    /// The replica's number, counted from 0.
    pub replica: u64,
    /// The file that it is to read.
    pub file: &'a str,
}

impl CommandWords {
    /// The program of the plugin of that name.
    pub fn program(&self, plugin: &str) -> Option<&str>
        ensures { option_copied result ≡ plugin_program self.now.options.0 plugin.now }
    {
        plugin_program(self.options.as_slice(), plugin)
    }

    /// How many replicas there are.
    pub fn replicas(&self) -> usize
        ensures { result ≡ count_options self.now.options.0 (codes "replica") }
    {
        count_named(self.options.as_slice(), OptionName::Replica)
    }

    /// The file of the replica with this number, counted from 0 in the order of the words.
    pub fn replica(&self, number: usize) -> Option<&str>
        ensures { option_copied result
            ≡ slice_get (values_of self.now.options.0 (codes "replica")) number }
    {
        numbered_value(self.options.as_slice(), OptionName::Replica.text(), number)
    }

    /// The reload. `judge` has one, of a replica that there is.
    pub fn reload(&self) -> Option<Reload<'_>>
        ensures reload { MatchOption result
            ((replica : ℕ) (file : List ℕ) → IsReloadAt self.now.options.0 replica file
            → 2 ^ 64 ≤ replica)
            (λ reload. IsReloadAt self.now.options.0 reload.replica reload.file.now) }
        ensures given { IsCommand self.now.verb self.now.options.0 → self.now.verb ≡ Verb.Judge
            → replicas_of self.now.options.0 ≤ replica_limit
            → IsSomeAnd result (λ reload. reload.replica < replicas_of self.now.options.0) }
    {
        find_reload(self.options.as_slice())
    }

    /// The seed. `gen` has one.
    pub fn seed(&self) -> Option<u64>
        ensures number { ReadsNumberAt self.now.options.0 (codes "seed") result }
        ensures given { IsCommand self.now.verb self.now.options.0 → self.now.verb ≡ Verb.Gen
            → IsSome result }
    {
        self.number(OptionName::Seed)
    }

    /// The size. `gen` has one.
    pub fn size(&self) -> Option<u64>
        ensures number { ReadsNumberAt self.now.options.0 (codes "size") result }
        ensures given { IsCommand self.now.verb self.now.options.0 → self.now.verb ≡ Verb.Gen
            → IsWithinSize self.now.options.0 → IsSome result }
    {
        self.number(OptionName::Size)
    }

    /// How many replicas a plan is for. `plan` has it.
    pub fn planned(&self) -> Option<u64>
        ensures number { ReadsNumberAt self.now.options.0 (codes "replicas") result }
        ensures given { IsCommand self.now.verb self.now.options.0 → self.now.verb ≡ Verb.Plan
            → HasFewReplicas self.now.options.0
            → IsSomeAnd result (λ n. (1 ≤ n) × (n ≤ replica_limit)) }
    {
        self.number(OptionName::Replicas)
    }

    /// How many items a page has. `watch` says it.
    pub fn limit(&self) -> Option<u64>
        ensures number { ReadsNumberAt self.now.options.0 (codes "limit") result }
        ensures given { IsCommand self.now.verb self.now.options.0 → self.now.verb ≡ Verb.Watch
            → IsWithinPage self.now.options.0 → IsSome result }
    {
        self.number(OptionName::Limit)
    }

    /// The revision since which changes are to be shown. `watch` may have one.
    pub fn since_revision(&self) -> Option<u64>
        ensures number { ReadsNumberAt self.now.options.0 (codes "since") result }
        ensures given { IsCommand self.now.verb self.now.options.0
            → IsSome (value_of self.now.options.0 (codes "since")) → IsSome result }
    {
        self.number(OptionName::Since)
    }

    /// The number at that name, if it is below 2^64.
    fn number(&self, name: OptionName) -> Option<u64>
        ensures { ReadsNumberAt self.now.options.0 (option_text name) result }
    {
        match self.value(name.text()) {
            Some(text) => parse_numeral(text),
            None => None,
        }
    }
}

/// The reload among the options.
fn find_reload(options: &[(Text, Text)]) -> Option<Reload<'_>>
    ensures { MatchOption result
        ((replica : ℕ) (file : List ℕ) → IsReloadAt options.now replica file → 2 ^ 64 ≤ replica)
        (λ reload. IsReloadAt options.now reload.replica reload.file.now) }
{
    match first_value(options, OptionName::Reload.text()) {
        Some(value) => parse_reload(value),
        None => None,
    }
}

/// The reload that the value says.
fn parse_reload(value: &str) -> Option<Reload<'_>>
    ensures { MatchOption result
        ((replica : ℕ) → IsReloadOf value.now replica → 2 ^ 64 ≤ replica)
        (λ reload. IsReloadOf value.now reload.replica
        × (reload.file.now ≡ after_equals value.now)) }
{
    match split_at_equals(value) {
        Some((replica, file)) => match parse_numeral(replica) {
            Some(replica) => Some(Reload { replica, file }),
            None => None,
        },
        None => None,
    }
}

/// The value of the option of that name with this number, counted from 0.
fn numbered_value<'a>(options: &'a [(Text, Text)], name: &str, number: usize) -> Option<&'a str>
    ensures { option_copied result ≡ slice_get (values_of options.now name.now) number }
{
    let mut left = number;
    for option in options {
        if option.0.as_str() == name {
            if left == 0 {
                return Some(option.1.as_str());
            }
            left -= 1;
        }
    }
    None
}

/// The program of the plugin of that name.
fn plugin_program<'a>(options: &'a [(Text, Text)], plugin: &str) -> Option<&'a str>
    ensures { option_copied result ≡ plugin_program options.now plugin.now }
{
    options
        .iter()
        .find(|option| is_plugin(option, plugin))
        .map(|option| text_past_equals(option.1.as_str()))
}

/// Whether the option is the plugin of that name.
fn is_plugin(option: &(Text, Text), plugin: &str) -> bool
    ensures { result ≡ is_plugin plugin.now option.now }
{
    option.0.as_str() == OptionName::Plugin.text()
        && name_before_equals(option.1.as_str()) == plugin
}

/// What stands behind the first `=`.
fn text_past_equals(value: &str) -> &str
    ensures { result.now ≡ after_equals value.now }
{
    match value.split_once('=') {
        Some((_, program)) => program,
        None => "",
    }
}
