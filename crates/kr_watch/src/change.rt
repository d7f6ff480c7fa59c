//! Changes: rows that were written.
ghost use Rattle.std.specs.Prelude.{◌≡◌, IfOk};
ghost use Rattle.kr_watch.specs.inner.ToldEffects.{kind_told};

use kr_base::{NoMemory, Shared, Text};
use kr_rollout::Effect;
use std::alloc::Global;

/// What a change did at its path.
#[derive(Clone, Copy, Debug, PartialEq, Eq)]
pub enum What {
    /// It put data.
    Put,
    /// It took away what was there.
    Delete,
    /// It put the same data, sealed anew.
    Replace,
}

/// A row that was written.
#[derive(Drop)]
pub struct ObjectChange {
    pub revision: u64,
    pub path: Text,
    pub what: What,
}

impl ObjectChange {
    /// A change with a copy of its path, and its first owner.
    pub(crate) fn shared(
        alloc: Global,
        revision: u64,
        path: &str,
        what: What,
    ) -> Result<Shared<ObjectChange>, NoMemory>
        ensures { IfOk result (λ change. change
            ≡ record { revision = revision; path = path.now; what = what }) }
    {
        let path = Text::copy(alloc, path)?;
        let change = ObjectChange {
            revision,
            path,
            what,
        };
        match Shared::new(alloc, change) {
            Ok(change) => Ok(change),
            Err(_) => Err(NoMemory),
        }
    }
}

impl What {
    /// What an effect does at its path.
    pub(crate) fn from_effect(effect: &Effect<'_>) -> What
        ensures { result ≡ kind_told effect.now }
    {
        match effect {
            Effect::Put { .. } => What::Put,
            Effect::Delete => What::Delete,
            Effect::Replace => What::Replace,
        }
    }
}
