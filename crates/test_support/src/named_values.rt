//! Values by the names that lines gave them.
ghost use Rattle.std.specs.Prelude.{◌≡◌, IfOk};

use crate::words::{kept, two_words};
use crate::wrong::Wrong;
use kr_base::{Shared, Text, both};
use kr_config::{ConfigErr, Settings, read};
use std::alloc::Global;

/// Values that lines named.
#[derive(Drop)]
pub struct NamedValues<T> {
    all: Vec<(Text, Shared<T>)>,
}

impl<T: Drop> NamedValues<T> {
    /// None yet.
    pub fn new(alloc: Global) -> NamedValues<T> {
        NamedValues {
            all: Vec::new(alloc),
        }
    }

    /// Keeps a value that was made by this name.
    pub fn add(
        &mut self,
        alloc: Global,
        name: &str,
        value: Result<Shared<T>, Wrong>,
    ) -> Result<(), Wrong> {
        let own = both(kept(alloc, name), value)?;
        self.all.push(own)?;
        Ok(())
    }

    /// The value of the name.
    pub fn find_named(&self, name: &str) -> Result<&Shared<T>, Wrong> {
        for own in &self.all {
            if own.0.as_str() == name {
                return Ok(&own.1);
            }
        }
        Err(Wrong::Form)
    }

    /// One more owner of the value of the name.
    pub fn share(&self, name: &str) -> Result<Shared<T>, Wrong> {
        Ok(self.find_named(name)?.share()?)
    }

    /// The same; none for `-`.
    pub fn share_some(&self, name: &str) -> Result<Option<Shared<T>>, Wrong> {
        if name == "-" {
            return Ok(None);
        }
        Ok(Some(self.share(name)?))
    }
}

impl NamedValues<Settings> {
    /// `NAME JSON`.
    pub fn add_settings(&mut self, alloc: Global, rest: &str) -> Result<(), Wrong> {
        let (name, text) = two_words(rest)?;
        self.add(alloc, name, parse_settings(alloc, text))
    }
}

/// A value to be shared.
pub fn shared<T: Drop>(alloc: Global, value: T) -> Result<Shared<T>, Wrong>
    ensures { IfOk result (λ shared. shared ≡ value) }
{
    match Shared::new(alloc, value) {
        Ok(shared) => Ok(shared),
        Err(refused) => {
            drop(refused);
            Err(Wrong::Memory)
        }
    }
}

/// The settings of a configuration, in JSON or YAML.
pub fn parse_settings(alloc: Global, text: &str) -> Result<Shared<Settings>, Wrong> {
    match read(alloc, text.as_bytes()) {
        Ok(settings) => shared(alloc, settings),
        Err(ConfigErr::No(_)) => Err(Wrong::Form),
        Err(ConfigErr::NoMemory) => Err(Wrong::Memory),
    }
}
