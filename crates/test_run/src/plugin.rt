//! A plugin in memory that takes other key ids as it is called.
ghost use Rattle.std.specs.Prelude.{◌≡◌, None};
ghost use Rattle.kr_kms.specs.Exchanges.{KeepsLink, TellsAnswer};

use kr_base::{Bytes, List, NoMemory, Text};
use kr_kms::{Kms, KmsNo, Status, TablePlugin, Wrapped, WrappedRef};
use std::alloc::Global;

/// Key ids, each of which a plugin has from the call of a number on, the first being 1.
#[derive(Drop)]
struct KeyIds {
    changes: List<(u64, Text)>,
    made: u64,
}

impl KeyIds {
    /// Counts one more call, and gives the plugin the key id that it has from this call on.
    fn turn(&mut self, alloc: Global, plugin: &mut TablePlugin) -> Result<(), NoMemory>
        ensures name { plugin.new.name ≡ plugin.old.name }
        ensures calls { plugin.new.calls ≡ plugin.old.calls }
    {
        self.made = self.made.saturating_add(1);
        match self.begun(alloc) {
            Ok(Some(key_id)) => {
                plugin.set_key_id(key_id);
                return Ok(());
            }
            Ok(None) => return Ok(()),
            Err(NoMemory) => return Err(NoMemory),
        }
    }

    /// The key id that begins with the latest call, if one does.
    fn begun(&self, alloc: Global) -> Result<Option<Text>, NoMemory> {
        for change in self.changes.as_slice() {
            if change.0 == self.made {
                return Ok(Some(Text::copy(alloc, change.1.as_str())?));
            }
        }
        Ok(None)
    }
}

/// A plugin in memory whose key id may be another from a call on. So it tells no status, and it
/// doesn't tell what its sources open to.
#[derive(Drop)]
pub struct TurningPlugin {
    plugin: TablePlugin,
    key_ids: KeyIds,
}

impl TurningPlugin {
    /// The plugin with these further key ids; no call was made so far.
    pub fn new(plugin: TablePlugin, changes: List<(u64, Text)>) -> TurningPlugin {
        TurningPlugin {
            plugin,
            key_ids: KeyIds { changes, made: 0 },
        }
    }

    /// How many calls were made on it.
    pub fn made(&self) -> u64 {
        self.key_ids.made
    }
}

impl Kms for TurningPlugin {
    ghost link = { λ it. record {
      name = it.plugin.name;
      count = it.plugin.calls.faults;
      status = None;
    } };

    // No more is said of its exchanges than of any link's.
    ghost step = { λ old exchange new. KeepsLink
        (record { name = old.plugin.name; count = old.plugin.calls.faults; status = None }) exchange
        (record { name = new.plugin.name; count = new.plugin.calls.faults; status = None })
        × TellsAnswer None exchange };

    ghost keeps = { λ old exchange new h. h.0 };

    ghost tells = { λ old exchange new h. h.1 };

    fn name(&self) -> &str {
        self.plugin.name()
    }

    fn faults(&self) -> u64 {
        self.plugin.faults()
    }

    fn status(&mut self, alloc: Global) -> Result<Status, KmsNo> {
        match self.key_ids.turn(alloc, &mut self.plugin) {
            Ok(()) => self.plugin.status(alloc),
            Err(_) => Err(KmsNo::NoMemory),
        }
    }

    fn wrap(&mut self, alloc: Global, plain: &[u8]) -> Result<Wrapped, KmsNo> {
        match self.key_ids.turn(alloc, &mut self.plugin) {
            Ok(()) => self.plugin.wrap(alloc, plain),
            Err(_) => Err(KmsNo::NoMemory),
        }
    }

    fn unwrap_source(&mut self, alloc: Global, wrapped: &WrappedRef<'_>) -> Result<Bytes, KmsNo> {
        match self.key_ids.turn(alloc, &mut self.plugin) {
            Ok(()) => self.plugin.unwrap_source(alloc, wrapped),
            Err(_) => Err(KmsNo::NoMemory),
        }
    }
}
