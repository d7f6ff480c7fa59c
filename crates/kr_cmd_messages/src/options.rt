//! The options of a command, which give programs of plugins, files of replicas and a reload.
ghost use Rattle.std.specs.Prelude.{◌≡◌, slice_get};
ghost use Rattle.std.specs.Option.{option_copied};
ghost use Rattle.kr_words.specs.Arguments.{plugin_program};
ghost use Rattle.kr_words.specs.Grammar.{replicas_of};
ghost use Rattle.kr_cmd_messages.specs.Command.{replica_names, reload_number, reload_file, reload_in};
ghost use Rattle.kr_cmd_messages.specs.inner.Asking.{HasReplicas};

use kr_words::CommandWords;
use std::marker::Model;

/// The options of words, in their order. Contracts see the pairs of a name and a value.
#[derive(Drop)]
pub struct Options {
    words: CommandWords,
}

impl Model for Options {
    ghost use Rattle.std.specs.Prelude.{ℕ, List};

    ghost Value = { List (List ℕ × List ℕ) };

    ghost view = { λ options. options.words.options.0 };
}

impl Options {
    /// Those of these words.
    pub fn new(words: CommandWords) -> Options
        ensures { result ≡ words.options.0 }
    {
        Options { words }
    }

    /// The program of the plugin of that name.
    pub fn program(&self, plugin: &str) -> Option<&str>
        ensures { option_copied result ≡ plugin_program self.now plugin.now }
    {
        self.words.program(plugin)
    }

    /// How many replicas they name.
    pub fn replicas(&self) -> usize
        ensures { result ≡ replicas_of self.now }
    {
        self.words.replicas()
    }

    /// The file of the replica with this number.
    pub fn replica(&self, number: usize) -> Option<&str>
        ensures { option_copied result ≡ slice_get (replica_names self.now) number }
    {
        self.words.replica(number)
    }

    /// The replica that is to be reloaded.
    pub fn reloaded(&self) -> u32
        requires { HasReplicas self.now }
        ensures { result ≡ reload_number (reload_in self.now) }
    {
        match self.words.reload() {
            Some(reload) => reload.replica as u32,
            None => unreachable!(),
        }
    }

    /// The file that it is to read.
    pub fn reload_file(&self) -> &str
        requires { HasReplicas self.now }
        ensures { result.now ≡ reload_file (reload_in self.now) }
    {
        match self.words.reload() {
            Some(reload) => reload.file,
            None => unreachable!(),
        }
    }
}
