//! How many keys and plugins entries have.
ghost use Rattle.std.specs.Prelude.{◌≡◌, ◌<◌, ◌^◌, count_by};
ghost use Rattle.kr_config.specs.Providers.{is_key, is_kms};
ghost use Rattle.kr_config.specs.Kept.{rows_of, count_entry_keys, kms_in};

use crate::settings::Entry;
use crate::who::Who;

/// How many keys the entries have. Settings have few; of entries that are made the caller knows
/// that the number has room.
#[tactic(auto, using(crate::proofs::Sums::sum_more, crate::proofs::Sums::sum_fits, crate::proofs::Sums::sum_end))]
pub fn count_entry_keys(entries: &[Entry]) -> usize
    requires { count_entry_keys (rows_of entries.now) < 2 ^ 32 }
    ensures { result ≡ count_entry_keys (rows_of entries.now) }
{
    let mut keys = 0;
    for entry in entries {
        keys += count_provider_keys(entry.providers.as_slice());
    }
    keys
}

/// How many kms elements they have.
#[tactic(auto, using(crate::proofs::Sums::sum_more, crate::proofs::Sums::sum_fits, crate::proofs::Sums::sum_end))]
pub fn count_plugins(entries: &[Entry]) -> usize
    requires { kms_in (rows_of entries.now) < 2 ^ 32 }
    ensures { result ≡ kms_in (rows_of entries.now) }
{
    let mut plugins = 0;
    for entry in entries {
        plugins += count_provider_plugins(entry.providers.as_slice());
    }
    plugins
}

/// How many of the providers are keys.
pub fn count_provider_keys(providers: &[Who]) -> usize
    ensures { result ≡ count_by is_key providers.now }
{
    providers.iter().filter(|who| who.is_key()).count()
}

/// How many are plugins.
pub fn count_provider_plugins(providers: &[Who]) -> usize
    ensures { result ≡ count_by is_kms providers.now }
{
    providers.iter().filter(|who| who.is_kms()).count()
}
