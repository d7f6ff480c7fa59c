//! The formats of a store's file, and what the second one keeps beside each put.
ghost use Rattle.std.specs.Prelude.{◌≡◌};
ghost use Rattle.kr_store.specs.File.{store_name, magic};
ghost use Rattle.kr_store.specs.Rows.{HasCheck, check_in};

/// What the magic of each format begins with.
pub(crate) const STORE_NAME: &[u8] = b"KRSTORE";

/// How many bytes name the format.
pub(crate) const MAGIC_LENGTH: usize = 8;

/// How a store's file is written. A new store has the second format.
#[derive(Clone, Copy, PartialEq, Eq)]
pub enum Format {
    /// `KRSTORE1`: puts have no check.
    One,
    /// `KRSTORE2`: each put has a check.
    Two,
}

/// Tells the secret that sealed a value from another secret under the same name: 8 bytes, kept as
/// the number that they are with the highest byte first.
#[derive(Clone, Copy, PartialEq, Eq)]
pub struct Check {
    pub value: u64,
}

impl Format {
    /// The bytes with which a file of the format begins.
    pub(crate) fn magic(self) -> &'static [u8]
        ensures { result.now ≡ magic self }
    {
        match self {
            Format::One => b"KRSTORE1",
            Format::Two => b"KRSTORE2",
        }
    }

    /// What a file of the format keeps of a check.
    pub(crate) fn keep(self, check: Check) -> Option<Check>
        ensures kept { result ≡ check_in self check }
        ensures rule { HasCheck self result }
    {
        let _value = check.value;
        match self {
            Format::One => None,
            Format::Two => Some(check),
        }
    }
}
