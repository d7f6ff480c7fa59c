//! Why a configuration wasn't read.
ghost use Rattle.std.specs.Prelude.{◌≡◌, ◌+◌, nat_lt};
ghost use Rattle.kr_config.specs.declared.refusal.ConfigNo.TheVariants.{Breach};
ghost use Rattle.kr_config.specs.Refusals.{code_of_rule, number_of_yaml_rule, number_of_counted};
ghost use Rattle.kr_config.specs.Refusals.{limit_of, code_of, first_number, second_number};

use crate::place::ConfigPlace;
use kr_base::NoMemory;

/// A rule of a configuration, by what breaks it.
#[derive(Clone, Copy, Debug, PartialEq, Eq)]
pub enum Rule {
    /// The text begins as JSON, and isn't JSON or isn't UTF-8.
    Json,
    /// A named value is missing or hasn't its form.
    Form,
    /// The whole's `apiVersion` isn't `apiserver.config.k8s.io/v1`.
    ApiVersion,
    /// Its `kind` isn't `EncryptionConfiguration`.
    Kind,
    /// A named list is empty.
    EmptyList,
    /// A provider element has no provider.
    NoProvider,
    /// It has several.
    SeveralProviders,
    /// It is secretbox.
    Secretbox,
    /// A kms element has no `apiVersion`, or `v1`.
    KmsV1,
    /// Its `apiVersion` is another than `v2`.
    KmsVersion,
    /// The name of a key or a plugin isn't of its form.
    Name,
    /// An endpoint doesn't begin `unix://`.
    Endpoint,
    /// A secret isn't strict standard base64.
    Base64,
    /// It hasn't 16, 24 or 32 bytes.
    SecretLength,
    /// A pattern isn't `name`, `name.group`, `*.group`, `*.` or `*.*`.
    Pattern,
    /// It stands earlier in its list.
    SamePattern,
    /// It overlaps an earlier one of its list.
    Overlap,
    /// A provider has the kind and name of an earlier one of its list.
    SameProvider,
}

/// A rule of the YAML profile, by what breaks it.
#[derive(Clone, Copy, Debug, PartialEq, Eq)]
pub enum YamlRule {
    /// A line isn't of the profile.
    Outside,
    /// The text up to a line forms no tree.
    Indent,
    /// A mapping has a key twice.
    DuplicateKey,
    /// It has more than 16 levels of lists and mappings.
    Deep,
    /// The text isn't UTF-8.
    NotUtf8,
}

/// What a configuration may have a limited number of, counted over the whole of it.
#[derive(Clone, Copy, Debug, PartialEq, Eq)]
pub enum Counted {
    /// Its entries.
    Entries,
    /// Their patterns.
    Patterns,
    /// Their keys.
    Keys,
    /// Their kms elements.
    Plugins,
}

/// What a configuration breaks first.
#[derive(Clone, Copy, Debug, PartialEq, Eq)]
pub enum ConfigNo {
    /// This rule, at the element of this place.
    Breach(Rule, ConfigPlace),
    /// This rule of the YAML profile, in the line of this number, from 1; 0 where it isn't UTF-8.
    Yaml(YamlRule, u32),
    /// The limit of these.
    Limit(Counted),
}

/// Why a configuration wasn't read.
#[derive(Clone, Copy)]
pub enum ConfigErr {
    /// It breaks the rules.
    No(ConfigNo),
    /// There was no memory.
    NoMemory,
}

impl From<ConfigNo> for ConfigErr {
    ghost use Rattle.kr_config.specs.declared.refusal.ConfigErr.TheVariants.{No};

    ghost from_gives = { λ why e. e ≡ No why };

    fn from(why: ConfigNo) -> ConfigErr {
        ConfigErr::No(why)
    }
}

impl From<NoMemory> for ConfigErr {
    ghost use Rattle.kr_config.specs.declared.refusal.ConfigErr.TheVariants.{NoMemory};

    ghost from_gives = { λ _ e. e ≡ NoMemory };

    fn from(_want: NoMemory) -> ConfigErr {
        ConfigErr::NoMemory
    }
}

impl Rule {
    /// The breach of the rule at a place.
    pub fn to_breach(self, place: ConfigPlace) -> ConfigNo
        ensures { result ≡ Breach self place }
    {
        ConfigNo::Breach(self, place)
    }

    /// Its code in messages.
    fn code(self) -> u8
        ensures { result ≡ code_of_rule self }
    {
        match self {
            Rule::Json => 20,
            Rule::Form => 22,
            Rule::ApiVersion => 23,
            Rule::Kind => 24,
            Rule::EmptyList => 25,
            Rule::NoProvider => 26,
            Rule::SeveralProviders => 27,
            Rule::Secretbox => 28,
            Rule::KmsV1 => 29,
            Rule::KmsVersion => 30,
            Rule::Name => 31,
            Rule::Endpoint => 32,
            Rule::Base64 => 33,
            Rule::SecretLength => 34,
            Rule::Pattern => 35,
            Rule::SamePattern => 36,
            Rule::Overlap => 37,
            Rule::SameProvider => 38,
        }
    }
}

impl YamlRule {
    /// Its number in messages.
    fn number(self) -> u32
        ensures { result ≡ number_of_yaml_rule self }
    {
        match self {
            YamlRule::Outside => 1,
            YamlRule::Indent => 2,
            YamlRule::DuplicateKey => 3,
            YamlRule::Deep => 4,
            YamlRule::NotUtf8 => 5,
        }
    }
}

impl Counted {
    /// The most that a configuration may have.
    pub fn limit(self) -> u32
        ensures { result ≡ limit_of self }
    {
        match self {
            Counted::Entries => 64,
            Counted::Patterns => 256,
            Counted::Keys => 64,
            Counted::Plugins => 16,
        }
    }

    /// Whether there may be one more of them.
    pub fn has_room(self, earlier: usize, here: usize) -> bool
        ensures { result ≡ nat_lt (earlier + here) (limit_of self) }
    {
        let limit = self.limit() as usize;
        earlier < limit && here < limit - earlier
    }

    /// Its number in messages.
    fn number(self) -> u32
        ensures { result ≡ number_of_counted self }
    {
        match self {
            Counted::Entries => 1,
            Counted::Patterns => 2,
            Counted::Keys => 3,
            Counted::Plugins => 4,
        }
    }
}

impl ConfigNo {
    /// Its code in messages.
    pub fn code(self) -> u8
        ensures { result ≡ code_of self }
    {
        match self {
            ConfigNo::Breach(rule, _) => rule.code(),
            ConfigNo::Yaml(_, _) => 21,
            ConfigNo::Limit(_) => 39,
        }
    }

    /// The first number behind the code: of the entry, the line, or what has the limit.
    pub fn first_number(self) -> u32
        ensures { result ≡ first_number self }
    {
        match self {
            ConfigNo::Breach(_, place) => place.entry,
            ConfigNo::Yaml(_, line) => line,
            ConfigNo::Limit(counted) => counted.number(),
        }
    }

    /// The second: of the pattern or provider element, of the rule of the profile, or the limit.
    pub fn second_number(self) -> u32
        ensures { result ≡ second_number self }
    {
        match self {
            ConfigNo::Breach(_, place) => place.item,
            ConfigNo::Yaml(rule, _) => rule.number(),
            ConfigNo::Limit(counted) => counted.limit(),
        }
    }
}
