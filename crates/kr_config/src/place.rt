//! Where in a configuration its walk is, and what it has counted.
ghost use Rattle.std.specs.Prelude.{◌≡◌};
ghost use Rattle.kr_config.specs.Walk.{start};

/// The numbers of an entry, and of the pattern or provider element in it, each from 0; 0 where a
/// breach is of none.
#[derive(Clone, Copy, Debug, PartialEq, Eq)]
pub struct ConfigPlace {
    /// The entry's number.
    pub entry: u32,
    /// The number in it.
    pub item: u32,
}

/// How many patterns, keys and plugins the entries so far have.
#[derive(Clone, Copy)]
pub struct Counts {
    /// Their patterns.
    pub patterns: usize,
    /// Their keys.
    pub keys: usize,
    /// Their kms elements.
    pub plugins: usize,
}

/// Before all entries.
pub fn start() -> ConfigPlace
    ensures { result ≡ start }
{
    ConfigPlace { entry: 0, item: 0 }
}
