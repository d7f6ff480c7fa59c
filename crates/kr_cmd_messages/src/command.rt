//! The commands that are done alone.
ghost use Rattle.std.specs.Prelude.{◌≡◌, ◌≤◌, IfOk, IfSome, codes, length};
ghost use Rattle.std.specs.Option.{option_copied};
ghost use Rattle.kr_base.specs.Limits.{path_limit};
ghost use Rattle.kr_kms.specs.Outside.{same_name};
ghost use Rattle.kr_words.specs.Grammar.{texts, HasFewReplicas};
ghost use Rattle.kr_words.specs.declared.command.Verb.{Verb};
ghost use Rattle.kr_words.specs.Options.{value_of};
ghost use Rattle.kr_words.specs.Rules.{IsCommand};
ghost use Rattle.kr_cmd_messages.specs.Command.{verb_command, conversion_command, check_command, lookup_command, migration_command, listing_command, judgement_command, planning_command, put_command, rewriting_command, shown_option, shown_word};
ghost use Rattle.kr_cmd_messages.specs.Command.{verification_command};
ghost use Rattle.kr_cmd_messages.specs.inner.Asking.{IsReadAs, KeepsRules};

use crate::options::Options;
use crate::reading::command_words;
use crate::refusal::{BadWords, Stop};
use crate::text::{copy_four, copy_three, copy_two};
use kr_base::{NoMemory, Text};
use kr_words::Verb;
use std::alloc::Global;

/// Which way an object goes.
#[derive(Clone, Copy)]
pub enum Direction {
    /// Its data are sealed.
    Encrypt,
    /// Its stored value is read.
    Decrypt,
}

/// What is to be done with an object.
#[derive(Drop)]
pub struct Conversion {
    /// Which way it goes.
    pub direction: Direction,
    /// The name of the configuration file.
    pub config: Text,
    /// The resource of the object.
    pub resource: Text,
    /// The path that the object is stored at; it may be empty.
    pub path: Text,
    /// All options of the words, which give the programs of plugins.
    pub options: Options,
}

/// Which value of a store is to be read.
#[derive(Drop)]
pub struct Lookup {
    /// The name of the configuration file.
    pub config: Text,
    /// The name of the store's file.
    pub store: Text,
    /// The path of the value.
    pub path: Text,
    /// All options of the words, which give the programs of plugins.
    pub options: Options,
}

/// Which store is to be read through.
#[derive(Drop)]
pub struct Verification {
    /// The name of the configuration file.
    pub config: Text,
    /// The name of the store's file.
    pub store: Text,
    /// All options of the words, which give the programs of plugins.
    pub options: Options,
}

/// Which store is to be migrated.
#[derive(Drop)]
pub struct Migration {
    /// The name of the configuration file, of whose providers the checks are.
    pub config: Text,
    /// The name of the store's file.
    pub store: Text,
    /// The name of the file of the store that is written.
    pub to: Text,
}

/// Which reload is to be judged.
#[derive(Drop)]
pub struct JudgeWords {
    /// The name of the store's file.
    pub store: Text,
    /// All options of the words, which name the replicas' files and the reload.
    pub options: Options,
}

/// Which settings of a plan are shown in place of its moves.
#[derive(Clone, Copy)]
pub enum ShownSettings {
    /// Those that all replicas take up first.
    Wide,
    /// Those that they take up next.
    Turned,
}

/// Which rollout is to be planned.
#[derive(Drop)]
pub struct Planning {
    /// The name of the file of the configuration that it begins with.
    pub from: Text,
    /// The name of the file of the one that it ends with.
    pub to: Text,
    /// How many replicas there are.
    pub replicas: u32,
    /// Which settings are shown, in place of the moves.
    pub shown: Option<ShownSettings>,
}

/// Which store is to be rewritten.
#[derive(Drop)]
pub struct Rewriting {
    /// The name of the configuration file.
    pub config: Text,
    /// The name of the store's file.
    pub store: Text,
    /// All options of the words, which give the programs of plugins.
    pub options: Options,
}

/// A command with what its words say.
#[derive(Drop)]
pub enum Command {
    /// Encrypts or decrypts the input.
    Convert(Conversion),
    /// Shows a configuration.
    Check {
        /// The name of the configuration file.
        config: Text,
        /// The resource whose providers are shown; without one all entries are.
        resource: Option<Text>,
    },
    /// Shows what the input, a stored value, says of itself.
    Inspect,
    /// Encrypts the input, and puts the value into a store.
    Put {
        /// The object.
        object: Conversion,
        /// The name of the store's file.
        store: Text,
    },
    /// Reads a value of a store.
    Get(Lookup),
    /// Tells what each value of a store reads as.
    Verify(Verification),
    /// Copies a store of the first format into a new one of the second.
    Migrate(Migration),
    /// Lists the rows of a store.
    Rows {
        /// The name of the store's file.
        store: Text,
    },
    /// Judges a reload.
    Judge(JudgeWords),
    /// Plans a rollout.
    Plan(Planning),
    /// Writes the stale rows of a store anew.
    Rewrite(Rewriting),
}

/// Reads the words as a command.
pub fn read_command(alloc: Global, words: &[String]) -> Result<Command, Stop>
    ensures { IsReadAs (texts words.now) result }
{
    let words = match command_words(alloc, words) {
        Ok(words) => words,
        Err(stop) => return Err(stop),
    };
    let command = match verb_command(alloc, words) {
        Ok(command) => command,
        Err(_) => return Err(Stop::NoMemory),
    };
    match command {
        Some(command) => Ok(command),
        None => Err(Stop::Words(BadWords::Usage)),
    }
}

/// The command of a verb with its options, where it is one that is done alone.
fn verb_command(alloc: Global, words: kr_words::CommandWords) -> Result<Option<Command>, NoMemory>
    requires command { IsCommand words.verb words.options.0 }
    requires few { HasFewReplicas words.options.0 }
    ensures command { IfOk result (λ command. command ≡ verb_command words.verb words.options.0) }
    ensures path { IfOk result KeepsRules }
{
    match words.verb {
        Verb::Encrypt => conversion_command(alloc, Direction::Encrypt, words),
        Verb::Decrypt => conversion_command(alloc, Direction::Decrypt, words),
        Verb::Check => check_command(alloc, &words),
        Verb::Inspect => Ok(Some(Command::Inspect)),
        Verb::Put => put_command(alloc, words),
        Verb::Get => lookup_command(alloc, words),
        Verb::Verify => verification_command(alloc, words),
        Verb::Migrate => migration_command(alloc, &words),
        Verb::Rows => listing_command(alloc, &words),
        Verb::Judge => judgement_command(alloc, words),
        Verb::Plan => planning_command(alloc, &words),
        Verb::Rewrite => rewriting_command(alloc, words),
        _ => Ok(None),
    }
}

/// The words of `encrypt` and `decrypt`.
fn conversion_command(
    alloc: Global,
    direction: Direction,
    words: kr_words::CommandWords,
) -> Result<Option<Command>, NoMemory>
    requires { IsCommand words.verb words.options.0 }
    ensures command { IfOk result (λ command. command ≡ conversion_command direction words.options.0
        (value_of words.options.0 (codes "config"))
        (value_of words.options.0 (codes "resource"))
        (value_of words.options.0 (codes "path"))) }
    ensures path { IfOk result KeepsRules }
{
    let Some(config) = words.value("config") else {
        drop(words);
        return Ok(None);
    };
    let Some(resource) = words.value("resource") else {
        drop(words);
        return Ok(None);
    };
    let Some(path) = path_value(&words) else {
        drop(words);
        return Ok(None);
    };
    match copy_three(alloc, config, resource, path) {
        Ok((config, resource, path)) => Ok(Some(Command::Convert(Conversion {
            direction,
            config,
            resource,
            path,
            options: Options::new(words),
        }))),
        Err(NoMemory) => {
            drop(words);
            Err(NoMemory)
        }
    }
}

/// The path, which keeps its rule.
fn path_value(words: &kr_words::CommandWords) -> Option<&str>
    requires { IsCommand words.now.verb words.now.options.0 }
    ensures value { option_copied result ≡ value_of words.now.options.0 (codes "path") }
    ensures short { IfSome result (λ path. length path.now ≤ path_limit) }
{
    words.value("path")
}

/// The words of `check`.
fn check_command(alloc: Global, words: &kr_words::CommandWords) -> Result<Option<Command>, NoMemory>
    ensures command { IfOk result (λ command. command ≡ check_command
        (value_of words.now.options.0 (codes "config"))
        (value_of words.now.options.0 (codes "resource"))) }
    ensures path { IfOk result KeepsRules }
{
    let Some(config) = words.value("config") else {
        return Ok(None);
    };
    let config = Text::copy(alloc, config)?;
    match copy_value(alloc, words, "resource") {
        Ok(resource) => Ok(Some(Command::Check { config, resource })),
        Err(NoMemory) => {
            drop(config);
            Err(NoMemory)
        }
    }
}

/// The words of `put`.
fn put_command(alloc: Global, words: kr_words::CommandWords) -> Result<Option<Command>, NoMemory>
    requires command { IsCommand words.verb words.options.0 }
    requires verb { words.verb ≡ Verb.Put }
    ensures command { IfOk result (λ command. command ≡ put_command words.options.0
        (value_of words.options.0 (codes "config"))
        (value_of words.options.0 (codes "store"))
        (value_of words.options.0 (codes "resource"))
        (value_of words.options.0 (codes "path"))) }
    ensures path { IfOk result KeepsRules }
{
    let Some(config) = words.value("config") else {
        drop(words);
        return Ok(None);
    };
    let Some(store) = words.value("store") else {
        drop(words);
        return Ok(None);
    };
    let Some(resource) = words.value("resource") else {
        drop(words);
        return Ok(None);
    };
    let Some(path) = words.value("path") else {
        drop(words);
        return Ok(None);
    };
    match copy_four(alloc, config, store, resource, path) {
        Ok((config, store, resource, path)) => Ok(Some(Command::Put {
            object: Conversion {
                direction: Direction::Encrypt,
                config,
                resource,
                path,
                options: Options::new(words),
            },
            store,
        })),
        Err(NoMemory) => {
            drop(words);
            Err(NoMemory)
        }
    }
}

/// The words of `get`.
fn lookup_command(alloc: Global, words: kr_words::CommandWords) -> Result<Option<Command>, NoMemory>
    requires { IsCommand words.verb words.options.0 }
    ensures command { IfOk result (λ command. command ≡ lookup_command words.options.0
        (value_of words.options.0 (codes "config"))
        (value_of words.options.0 (codes "store"))
        (value_of words.options.0 (codes "path"))) }
    ensures path { IfOk result KeepsRules }
{
    let Some(config) = words.value("config") else {
        drop(words);
        return Ok(None);
    };
    let Some(store) = words.value("store") else {
        drop(words);
        return Ok(None);
    };
    let Some(path) = path_value(&words) else {
        drop(words);
        return Ok(None);
    };
    match copy_three(alloc, config, store, path) {
        Ok((config, store, path)) => Ok(Some(Command::Get(Lookup {
            config,
            store,
            path,
            options: Options::new(words),
        }))),
        Err(NoMemory) => {
            drop(words);
            Err(NoMemory)
        }
    }
}

/// The words of `verify`.
fn verification_command(
    alloc: Global,
    words: kr_words::CommandWords,
) -> Result<Option<Command>, NoMemory>
    ensures command { IfOk result (λ command. command ≡ verification_command words.options.0
        (value_of words.options.0 (codes "config"))
        (value_of words.options.0 (codes "store"))) }
    ensures path { IfOk result KeepsRules }
{
    let Some(config) = words.value("config") else {
        drop(words);
        return Ok(None);
    };
    let Some(store) = words.value("store") else {
        drop(words);
        return Ok(None);
    };
    match copy_two(alloc, config, store) {
        Ok((config, store)) => Ok(Some(Command::Verify(Verification {
            config,
            store,
            options: Options::new(words),
        }))),
        Err(NoMemory) => {
            drop(words);
            Err(NoMemory)
        }
    }
}

/// The words of `migrate`.
fn migration_command(
    alloc: Global,
    words: &kr_words::CommandWords,
) -> Result<Option<Command>, NoMemory>
    ensures command { IfOk result (λ command. command ≡ migration_command
        (value_of words.now.options.0 (codes "config"))
        (value_of words.now.options.0 (codes "store"))
        (value_of words.now.options.0 (codes "to"))) }
    ensures path { IfOk result KeepsRules }
{
    let Some(config) = words.value("config") else {
        return Ok(None);
    };
    let Some(store) = words.value("store") else {
        return Ok(None);
    };
    let Some(to) = words.value("to") else {
        return Ok(None);
    };
    if is_same(store, to) {
        return Ok(None);
    }
    let (config, store, to) = copy_three(alloc, config, store, to)?;
    Ok(Some(Command::Migrate(Migration { config, store, to })))
}

/// Whether two names are the same.
fn is_same(name: &str, other: &str) -> bool
    ensures { result ≡ same_name name.now other.now }
{
    name == other
}

/// The words of `list`.
fn listing_command(
    alloc: Global,
    words: &kr_words::CommandWords,
) -> Result<Option<Command>, NoMemory>
    ensures command { IfOk result (λ command. command ≡ listing_command
        (value_of words.now.options.0 (codes "store"))) }
    ensures path { IfOk result KeepsRules }
{
    let Some(store) = words.value("store") else {
        return Ok(None);
    };
    let store = Text::copy(alloc, store)?;
    Ok(Some(Command::Rows { store }))
}

/// The words of `judge`.
fn judgement_command(
    alloc: Global,
    words: kr_words::CommandWords,
) -> Result<Option<Command>, NoMemory>
    requires command { IsCommand words.verb words.options.0 }
    requires few { HasFewReplicas words.options.0 }
    requires verb { words.verb ≡ Verb.Judge }
    ensures command { IfOk result (λ command. command ≡ judgement_command words.options.0
        (value_of words.options.0 (codes "store"))) }
    ensures path { IfOk result KeepsRules }
{
    let Some(_reload) = words.reload() else {
        unreachable!();
    };
    let Some(store) = words.value("store") else {
        drop(words);
        return Ok(None);
    };
    match Text::copy(alloc, store) {
        Ok(store) => Ok(Some(Command::Judge(JudgeWords {
            store,
            options: Options::new(words),
        }))),
        Err(_) => {
            drop(words);
            Err(NoMemory)
        }
    }
}

/// The words of `plan`.
fn planning_command(
    alloc: Global,
    words: &kr_words::CommandWords,
) -> Result<Option<Command>, NoMemory>
    requires command { IsCommand words.now.verb words.now.options.0 }
    requires few { HasFewReplicas words.now.options.0 }
    requires verb { words.now.verb ≡ Verb.Plan }
    ensures command { IfOk result (λ command. command ≡ planning_command
        (value_of words.now.options.0 (codes "from"))
        (value_of words.now.options.0 (codes "to"))
        (value_of words.now.options.0 (codes "replicas"))
        (value_of words.now.options.0 (codes "show"))) }
    ensures path { IfOk result KeepsRules }
{
    let Some(replicas) = words.planned() else {
        unreachable!();
    };
    let Some(from) = words.value("from") else {
        return Ok(None);
    };
    let Some(to) = words.value("to") else {
        return Ok(None);
    };
    let (from, to) = copy_two(alloc, from, to)?;
    Ok(Some(Command::Plan(Planning {
        from,
        to,
        replicas: replicas as u32,
        shown: shown_option(words),
    })))
}

/// Which settings of the plan are shown.
fn shown_option(words: &kr_words::CommandWords) -> Option<ShownSettings>
    ensures { result ≡ shown_option (value_of words.now.options.0 (codes "show")) }
{
    match words.value("show") {
        Some(text) => Some(shown_word(text)),
        None => None,
    }
}

/// The settings that the text names.
fn shown_word(text: &str) -> ShownSettings
    ensures { result ≡ shown_word text.now }
{
    if text == "wide" {
        ShownSettings::Wide
    } else {
        ShownSettings::Turned
    }
}

/// The words of `rewrite`.
fn rewriting_command(
    alloc: Global,
    words: kr_words::CommandWords,
) -> Result<Option<Command>, NoMemory>
    ensures command { IfOk result (λ command. command ≡ rewriting_command words.options.0
        (value_of words.options.0 (codes "config"))
        (value_of words.options.0 (codes "store"))) }
    ensures path { IfOk result KeepsRules }
{
    let Some(config) = words.value("config") else {
        drop(words);
        return Ok(None);
    };
    let Some(store) = words.value("store") else {
        drop(words);
        return Ok(None);
    };
    match copy_two(alloc, config, store) {
        Ok((config, store)) => Ok(Some(Command::Rewrite(Rewriting {
            config,
            store,
            options: Options::new(words),
        }))),
        Err(NoMemory) => {
            drop(words);
            Err(NoMemory)
        }
    }
}

/// A copy of the first value at the name.
fn copy_value(
    alloc: Global,
    words: &kr_words::CommandWords,
    name: &str,
) -> Result<Option<Text>, NoMemory>
    ensures { IfOk result (λ value. value ≡ value_of words.now.options.0 name.now) }
{
    match words.value(name) {
        Some(text) => match Text::copy(alloc, text) {
            Ok(text) => Ok(Some(text)),
            Err(_) => Err(NoMemory),
        },
        None => Ok(None),
    }
}
