//! Why data aren't sealed, values aren't read, and settings aren't published or adopted.
ghost use Rattle.std.specs.Prelude.{◌≡◌};
ghost use Rattle.kr_provider.specs.Refusals.{number_of, name_of};

use kr_base::{Bytes, Text};
use kr_kms::Field;

/// Why data aren't sealed.
#[derive(Clone, Copy)]
pub enum SealNo {
    /// Identity would write data that begin as a value of another provider does, which it couldn't
    /// read back.
    LooksEncrypted,
    /// The data have more than 2,097,152 bytes; `length` is how many.
    TooLarge { length: u64 },
    /// The random source failed; its count of faults tells so.
    DiceFailed,
    /// There was no memory for the value.
    NoMemory,
}

/// What a stored value holds.
#[derive(Drop)]
pub struct Opened {
    /// The data.
    pub plain: Bytes,
    /// Whether it should be written anew, since the list's first provider wouldn't write it so
    /// today.
    pub stale: bool,
}

/// A refusal of data or of a value, which has a number and a name.
#[derive(Clone, Copy, Debug, PartialEq, Eq)]
pub enum ValueNo {
    /// The body is too short.
    Short,
    /// The body isn't of whole blocks.
    BadBlock,
    /// The last block has no padding.
    BadPadding,
    /// The tag is another than that of the data and the path.
    BadTag,
    /// The encrypted object is no message.
    Wire,
    /// The object's key id passes a limit.
    KeyId,
    /// The object's wrapped source passes a limit.
    Source,
    /// The object's annotations pass a limit.
    Annotations,
    /// The object's source is of a type that isn't read.
    SourceType,
    /// The object has no data.
    NoData,
    /// A key id or an annotation's key isn't UTF-8.
    NotUtf8,
    /// No provider of the list reads the value.
    NoProvider,
    /// Identity would write data that begin as a prefix does.
    LooksEncrypted,
    /// The data have too many bytes to be sealed.
    TooLarge,
    /// The unwrapped source hasn't the length of a seed.
    SeedLength,
}

impl ValueNo {
    /// Its number in messages.
    pub fn number(self) -> u8
        ensures { result ≡ number_of self }
    {
        match self {
            ValueNo::Short => 1,
            ValueNo::BadBlock => 2,
            ValueNo::BadPadding => 3,
            ValueNo::BadTag => 4,
            ValueNo::Wire => 5,
            ValueNo::KeyId => 6,
            ValueNo::Source => 7,
            ValueNo::Annotations => 8,
            ValueNo::SourceType => 9,
            ValueNo::NoData => 10,
            ValueNo::NotUtf8 => 11,
            ValueNo::NoProvider => 12,
            ValueNo::LooksEncrypted => 13,
            ValueNo::TooLarge => 14,
            ValueNo::SeedLength => 15,
        }
    }

    /// Its name in messages.
    pub fn name(self) -> &'static str
        ensures { result.now ≡ name_of self }
    {
        match self {
            ValueNo::Short => "Short",
            ValueNo::BadBlock => "BadBlock",
            ValueNo::BadPadding => "BadPadding",
            ValueNo::BadTag => "BadTag",
            ValueNo::Wire => "Wire",
            ValueNo::KeyId => "KeyId",
            ValueNo::Source => "Source",
            ValueNo::Annotations => "Annotations",
            ValueNo::SourceType => "SourceType",
            ValueNo::NoData => "NoData",
            ValueNo::NotUtf8 => "NotUtf8",
            ValueNo::NoProvider => "NoProvider",
            ValueNo::LooksEncrypted => "LooksEncrypted",
            ValueNo::TooLarge => "TooLarge",
            ValueNo::SeedLength => "SeedLength",
        }
    }
}

/// Why a stored value isn't read.
#[derive(Drop)]
pub enum UnsealNo {
    /// By its prefix, its body or its encrypted object.
    Refused(ValueNo),
    /// The plugin of this name failed; its link's count of faults tells so.
    PluginFailed { name: Text },
    /// There was no memory for the data.
    NoMemory,
}

/// Why settings weren't published.
#[derive(Drop)]
pub enum PublishNo {
    /// The plugin of this name failed; its link's count of faults tells so.
    PluginFailed {
        name: Text,
    },
    /// The random source failed; its count of faults tells so.
    DiceFailed,
    /// The plugin of this name answered a status that shows it unhealthy by this field.
    Unhealthy {
        name: Text,
        field: Field,
        text: Text,
    },
    /// There was no memory for the seeds.
    NoMemory,
}

/// The settings have more keys than there are pages for them.
#[derive(Clone, Copy)]
pub struct PagesFull;
