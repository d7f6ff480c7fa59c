//! Values that are shared.
ghost use Rattle.std.specs.Prelude.{◌≡◌, IfOk};

use kr_base::{Bytes, NoMemory, Shared};
use std::alloc::Global;
use std::marker::Model;

/// A value as it is stored, which several owners hold. Contracts see it as the list of its bytes.
#[derive(Drop)]
pub struct Stored {
    bytes: Shared<Bytes>,
}

impl Model for Stored {
    ghost use Rattle.std.specs.Prelude.{ℕ, List};

    ghost Value = { List ℕ };

    ghost view = { λ stored. stored.bytes };
}

impl Stored {
    /// The first owner of the bytes, which are taken over as they stand.
    pub fn from_bytes(alloc: Global, bytes: Bytes) -> Result<Stored, NoMemory>
        ensures { IfOk result (λ own. own ≡ bytes) }
    {
        match Shared::new(alloc, bytes) {
            Ok(bytes) => Ok(Stored { bytes }),
            Err(refused) => {
                drop(refused);
                Err(NoMemory)
            }
        }
    }

    /// One more owner.
    pub fn share(&self) -> Result<Stored, NoMemory>
        ensures { IfOk result (λ more. more ≡ self.now) }
    {
        Ok(Stored {
            bytes: self.bytes.share()?,
        })
    }

    /// Lends the bytes.
    pub fn as_slice(&self) -> &[u8]
        ensures { result.now ≡ self.now }
    {
        self.bytes.get().as_slice()
    }
}
