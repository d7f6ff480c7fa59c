//! Providers.
ghost use Rattle.std.specs.Prelude.{◌≡◌, IfOk};
ghost use Rattle.kr_config.specs.Providers.{rivals, is_key, is_kms};

use kr_base::{Bytes, NoMemory, Text};
use std::alloc::Global;

/// A provider: what writes and reads the values of a resource. A provider is its kind, its name and
/// its secret, so two keys of one name with other secrets are two providers.
#[derive(Debug, Drop, PartialEq, Eq)]
pub enum Who {
    /// The data as they stand.
    Identity,
    /// AES-CBC under the key of this name and secret.
    Aescbc(Text, Bytes),
    /// AES-GCM under the key of this name and secret.
    Aesgcm(Text, Bytes),
    /// The KMS plugin of this name.
    Kms(Text),
}

impl Who {
    /// A copy of the provider.
    pub fn copy(&self, alloc: Global) -> Result<Who, NoMemory>
        ensures { IfOk result (λ copy. copy ≡ self.now) }
    {
        match self {
            Who::Identity => Ok(Who::Identity),
            Who::Aescbc(name, secret) => Ok(Who::Aescbc(
                Text::copy(alloc, name.as_str())?,
                Bytes::copy(alloc, secret.as_slice())?,
            )),
            Who::Aesgcm(name, secret) => Ok(Who::Aesgcm(
                Text::copy(alloc, name.as_str())?,
                Bytes::copy(alloc, secret.as_slice())?,
            )),
            Who::Kms(name) => Ok(Who::Kms(Text::copy(alloc, name.as_str())?)),
        }
    }

    /// Whether the two have one prefix: one kind and name.
    pub fn is_rival(&self, other: &Who) -> bool
        ensures { result ≡ rivals self.now other.now }
    {
        match (self, other) {
            (Who::Identity, Who::Identity) => true,
            (Who::Aescbc(a, _), Who::Aescbc(b, _)) => a.as_str() == b.as_str(),
            (Who::Aesgcm(a, _), Who::Aesgcm(b, _)) => a.as_str() == b.as_str(),
            (Who::Kms(a), Who::Kms(b)) => a.as_str() == b.as_str(),
            _ => false,
        }
    }

    /// Whether this is a key.
    pub fn is_key(&self) -> bool
        ensures { result ≡ is_key self.now }
    {
        matches!(self, Who::Aescbc(_, _) | Who::Aesgcm(_, _))
    }

    /// Whether this is a KMS plugin.
    pub fn is_kms(&self) -> bool
        ensures { result ≡ is_kms self.now }
    {
        matches!(self, Who::Kms(_))
    }
}
