//! Whether a plugin is healthy, and the id of the key that it wraps with.
ghost use Rattle.std.specs.Prelude.{◌≡◌};
ghost use Rattle.kr_kms.specs.Calls.{IsSameLink};
ghost use Rattle.kr_base.specs.Walks.{Talk};
ghost use Rattle.kr_kms.specs.Health.{TellsKeyId, TellsKeyIdBy, IsStatusJudged};

use crate::plugin::{Kms, KmsNo, Status};
use kr_base::{Text, is_short};
use std::alloc::Global;

/// A part of a plugin's status that can show it unhealthy.
#[derive(Clone, Copy, Debug, PartialEq, Eq)]
pub enum Field {
    /// The version isn't `v2`.
    Version,
    /// The health isn't `ok`.
    Healthz,
    /// The key id hasn't 1 to 1,024 bytes.
    KeyId,
}

/// Why a link gave no key id or no seed.
#[derive(Debug, Drop)]
pub enum SeedNo {
    /// The plugin failed or refused; the link's count of faults tells so.
    Failed,
    /// The random source failed; its count of faults tells so.
    DiceFailed,
    /// The status breaks a rule: the first that it breaks, and what that part says.
    Unhealthy { field: Field, text: Text },
    /// There was no memory.
    NoMemory,
}

/// The id of the key that a healthy plugin wraps with, by its status. It never answers
/// `DiceFailed`.
pub fn healthy_key_id<L: Kms>(alloc: Global, link: &mut L) -> Result<Text, SeedNo>
    ensures same { IsSameLink (L.link link.old) (L.link link.new) }
    ensures told { TellsKeyId (L.link link.old) result (L.link link.new) }
    ensures asked { Talk L.step link.old link.new (TellsKeyIdBy (L.link link.old).name result) }
{
    match link.status(alloc) {
        Ok(status) => judge(status),
        Err(KmsNo::Failed) => Err(SeedNo::Failed),
        Err(KmsNo::NoMemory) => Err(SeedNo::NoMemory),
    }
}

/// The key id of a status, or the first rule that the status breaks.
fn judge(status: Status) -> Result<Text, SeedNo>
    ensures { IsStatusJudged status result }
{
    let Status {
        version,
        healthz,
        key_id,
    } = status;
    if version.as_str() != "v2" {
        return Err(unhealthy(Field::Version, version));
    }
    if healthz.as_str() != "ok" {
        return Err(unhealthy(Field::Healthz, healthz));
    }
    if !is_short(key_id.as_str().as_bytes()) {
        return Err(unhealthy(Field::KeyId, key_id));
    }
    Ok(key_id)
}

fn unhealthy(field: Field, text: Text) -> SeedNo
    ensures { result ≡ SeedNo.Unhealthy field text }
{
    SeedNo::Unhealthy { field, text }
}
