//! The check that a store keeps beside a provider's values.
ghost use Rattle.std.specs.Prelude.{◌≡◌};
ghost use Rattle.kr_opening.specs.Checks.{store_check, keeps_check};

use kr_config::Who;
use kr_provider::provider_check;
use kr_store::Check;

/// The provider's check, as a store keeps it. It takes no memory.
pub fn store_check(who: &Who) -> Check
    ensures { result ≡ store_check who.now }
{
    Check {
        value: u64::from_be_bytes(provider_check(who)),
    }
}

/// Whether a row has the provider's check, where it has one.
pub(crate) fn keeps_check(check: Option<Check>, who: &Who) -> bool
    ensures { result ≡ keeps_check check who.now }
{
    match check {
        Some(check) => check.value == store_check(who).value,
        None => true,
    }
}
