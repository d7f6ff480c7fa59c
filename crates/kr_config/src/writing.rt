//! Settings as the text of a configuration.
ghost use Rattle.std.specs.Prelude.{◌≡◌, ◌<◌, Ok, All, IfOk};
ghost use Rattle.kr_config.specs.Kept.{rows_of};
ghost use Rattle.kr_config.specs.Meanings.{MeansConfig};
ghost use Rattle.kr_config.specs.Texts.{settings_text};
ghost use Rattle.kr_config.specs.inner.Written.{IsOfBytes, AreOfBytes};

use crate::settings::{Entry, Settings};
use crate::values::settings_value;
use crate::who::Who;
use kr_base::{Bytes, NoMemory};
use std::alloc::Global;

/// The settings as the text of a configuration, which means them: compact JSON with one provider an
/// element. Settings keep no endpoint, so that of a plugin is made of its name.
pub fn settings_text(alloc: Global, settings: &Settings) -> Result<Bytes, NoMemory>
    ensures text { IfOk result (λ text. text ≡ settings_text (rows_of settings.now.entries.0)) }
    ensures meant { IfOk result (λ text. MeansConfig text (Ok (rows_of settings.now.entries.0))) }
{
    tell_secrets(settings.entries.as_slice());
    settings.known();
    let value = settings_value(alloc, settings.entries.as_slice())?;
    Ok(Bytes::from_vec(value.to_vec(alloc)?))
}

/// Tells what the type of secrets keeps.
#[tactic(auto, using(crate::proofs::ValueLoops::secrets_more, crate::proofs::ValueLoops::secrets_end))]
fn tell_secrets(entries: &[Entry])
    ensures { AreOfBytes (rows_of entries.now) }
{
    for entry in entries {
        tell_key_bytes(entry.providers.as_slice());
    }
}

#[tactic(auto, using(crate::proofs::ValueLoops::among_more, crate::proofs::ValueLoops::among_end))]
fn tell_key_bytes(providers: &[Who])
    ensures { All IsOfBytes providers.now }
{
    for who in providers {
        tell_secret(who);
    }
}

fn tell_secret(who: &Who)
    ensures { IsOfBytes who.now }
{
    match who {
        Who::Aescbc(_, secret) | Who::Aesgcm(_, secret) => secret.known(),
        Who::Identity | Who::Kms(_) => {}
    }
}
