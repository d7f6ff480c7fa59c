//! One value that several owners hold, in any threads.
ghost use Rattle.std.specs.Prelude.{◌≡◌, IfOk, IfErr};

use crate::errors::NoMemory;
use std::alloc::Global;
use std::marker::Model;
use std::sync::Arc;

/// A value that is shared and never changed. Contracts see it as what it holds.
#[derive(Drop)]
pub struct Shared<T> {
    inner: Arc<T, Global>,
}

impl<T> Model for Shared<T> {
    ghost Value = { T };

    ghost coded = { T.code };

    ghost view = { λ shared. shared.inner.value };
}

impl<T> Shared<T> {
    /// The first owner. A value that found no memory comes back.
    pub fn new(alloc: Global, value: T) -> Result<Shared<T>, (NoMemory, T)>
        ensures ok { IfOk result (λ shared. shared ≡ value) }
        ensures returned { IfErr result (λ refused. refused.1 ≡ value) }
    {
        match Arc::new(alloc, value) {
            Ok(inner) => Ok(Shared { inner }),
            Err(refused) => Err((NoMemory, refused.value)),
        }
    }

    /// One more owner.
    pub fn share(&self) -> Result<Shared<T>, NoMemory>
        ensures { IfOk result (λ shared. shared ≡ self.now) }
    {
        Ok(Shared {
            inner: Arc::try_clone(&self.inner)?,
        })
    }

    /// Lends the value.
    pub fn get(&self) -> &T
        ensures { result.now ≡ self.now }
    {
        &self.inner
    }
}
