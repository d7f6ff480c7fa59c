//! The commands and the names of their options.
ghost use Rattle.std.specs.Prelude.{◌≡◌, ◌↔◌, ◌⊎◌, ℕ, IsTrue, MatchOption, Contains};
ghost use Rattle.kr_words.specs.Names.{word_of, option_text, required_options, optional, IsRepeatable};

use crate::command::Verb;

/// The name of an option.
#[derive(Clone, Copy, PartialEq, Eq)]
pub enum OptionName {
    /// A configuration's file.
    Config,
    /// A resource, as `secrets` or `deployments.apps`.
    Resource,
    /// The path of a value in a store.
    Path,
    /// A KMS plugin's name and program.
    Plugin,
    /// A store's file.
    Store,
    /// The configuration's file of one of many replicas.
    Replica,
    /// A replica's number, and the file that it reads anew.
    Reload,
    /// The file of a fleet.
    File,
    /// The seed of a load.
    Seed,
    /// The size of a load.
    Size,
    /// The file of the store that is written, or of the configuration that a rollout ends with.
    To,
    /// The file of the configuration that a rollout begins with.
    From,
    /// How many replicas a rollout has.
    Replicas,
    /// Which settings of a plan are shown in place of its moves.
    Show,
    /// How many items a page has.
    Limit,
    /// The revision since which changes are shown.
    Since,
}

/// The command of a word.
pub fn parse_verb(word: &str) -> Option<Verb>
    ensures { MatchOption result
        ((verb : Verb) → word.now ≡ word_of verb → ⊥)
        (λ verb. word.now ≡ word_of verb) }
{
    match word {
        "encrypt" => Some(Verb::Encrypt),
        "decrypt" => Some(Verb::Decrypt),
        "check" => Some(Verb::Check),
        "inspect" => Some(Verb::Inspect),
        "put" => Some(Verb::Put),
        "get" => Some(Verb::Get),
        "verify" => Some(Verb::Verify),
        "list" => Some(Verb::Rows),
        "migrate" => Some(Verb::Migrate),
        "judge" => Some(Verb::Judge),
        "plan" => Some(Verb::Plan),
        "rewrite" => Some(Verb::Rewrite),
        "fleet" => Some(Verb::Fleet),
        "gen" => Some(Verb::Gen),
        "watch" => Some(Verb::Watch),
        _ => None,
    }
}

impl OptionName {
    /// Each name once.
    pub const ALL: [OptionName; 16] = [
        OptionName::Config,
        OptionName::Resource,
        OptionName::Path,
        OptionName::Plugin,
        OptionName::Store,
        OptionName::Replica,
        OptionName::Reload,
        OptionName::File,
        OptionName::Seed,
        OptionName::Size,
        OptionName::To,
        OptionName::From,
        OptionName::Replicas,
        OptionName::Show,
        OptionName::Limit,
        OptionName::Since,
    ];

    /// The option of that name, without its dashes.
    pub fn read(text: &str) -> Option<OptionName>
        ensures { MatchOption result
            ((name : OptionName) → text.now ≡ option_text name → ⊥)
            (λ name. text.now ≡ option_text name) }
    {
        match text {
            "config" => Some(OptionName::Config),
            "resource" => Some(OptionName::Resource),
            "path" => Some(OptionName::Path),
            "plugin" => Some(OptionName::Plugin),
            "store" => Some(OptionName::Store),
            "replica" => Some(OptionName::Replica),
            "reload" => Some(OptionName::Reload),
            "file" => Some(OptionName::File),
            "seed" => Some(OptionName::Seed),
            "size" => Some(OptionName::Size),
            "to" => Some(OptionName::To),
            "from" => Some(OptionName::From),
            "replicas" => Some(OptionName::Replicas),
            "show" => Some(OptionName::Show),
            "limit" => Some(OptionName::Limit),
            "since" => Some(OptionName::Since),
            _ => None,
        }
    }

    /// The name without its dashes.
    pub fn text(self) -> &'static str
        ensures { result.now ≡ option_text self }
    {
        match self {
            OptionName::Config => "config",
            OptionName::Resource => "resource",
            OptionName::Path => "path",
            OptionName::Plugin => "plugin",
            OptionName::Store => "store",
            OptionName::Replica => "replica",
            OptionName::Reload => "reload",
            OptionName::File => "file",
            OptionName::Seed => "seed",
            OptionName::Size => "size",
            OptionName::To => "to",
            OptionName::From => "from",
            OptionName::Replicas => "replicas",
            OptionName::Show => "show",
            OptionName::Limit => "limit",
            OptionName::Since => "since",
        }
    }

    /// Whether a command may have several options of the name.
    pub fn may_repeat(self) -> bool
        ensures { IsTrue result ↔ IsRepeatable self }
    {
        matches!(self, OptionName::Plugin | OptionName::Replica)
    }
}

impl Verb {
    /// The options that the command must have.
    pub fn required(self) -> &'static [OptionName]
        ensures { result.now ≡ required_options self }
    {
        match self {
            Verb::Encrypt | Verb::Decrypt => {
                &[OptionName::Config, OptionName::Resource, OptionName::Path]
            }
            Verb::Check => &[OptionName::Config],
            Verb::Inspect => &[],
            Verb::Put => &[
                OptionName::Config,
                OptionName::Store,
                OptionName::Resource,
                OptionName::Path,
            ],
            Verb::Get => &[OptionName::Config, OptionName::Store, OptionName::Path],
            Verb::Verify => &[OptionName::Config, OptionName::Store],
            Verb::Rows => &[OptionName::Store],
            Verb::Migrate => &[OptionName::Config, OptionName::Store, OptionName::To],
            Verb::Judge => &[OptionName::Store, OptionName::Replica, OptionName::Reload],
            Verb::Plan => &[OptionName::From, OptionName::To, OptionName::Replicas],
            Verb::Rewrite => &[OptionName::Config, OptionName::Store],
            Verb::Fleet => &[OptionName::File, OptionName::Store],
            Verb::Gen => &[OptionName::Seed, OptionName::Size, OptionName::Store],
            Verb::Watch => &[
                OptionName::File,
                OptionName::Store,
                OptionName::Resource,
                OptionName::Limit,
            ],
        }
    }

    /// The options that the command may have besides.
    pub fn optional(self) -> &'static [OptionName]
        ensures { result.now ≡ optional self }
    {
        match self {
            Verb::Encrypt
            | Verb::Decrypt
            | Verb::Put
            | Verb::Get
            | Verb::Verify
            | Verb::Rewrite
            | Verb::Fleet => &[OptionName::Plugin],
            Verb::Check => &[OptionName::Resource],
            Verb::Plan => &[OptionName::Show],
            Verb::Watch => &[OptionName::Plugin, OptionName::Since],
            Verb::Inspect | Verb::Rows | Verb::Migrate | Verb::Judge | Verb::Gen => &[],
        }
    }

    /// Whether the option is one of the command's.
    pub fn takes(self, name: OptionName) -> bool
        ensures { IsTrue result
            ↔ (Contains (required_options self) name ⊎ Contains (optional self) name) }
    {
        self.required().contains(&name) || self.optional().contains(&name)
    }
}
