//! What tells the secret of a provider from another of the same name.
ghost use Rattle.std.specs.Prelude.{◌≡◌};
ghost use Rattle.kr_provider.specs.Checks.{provider_check, keyed_check};

use kr_config::Who;

/// The bytes of a check.
const CHECK: usize = 8;

/// The check of a provider, which stands beside its values. It takes no memory.
pub fn provider_check(who: &Who) -> [u8; CHECK]
    ensures { result ≡ provider_check who.now }
{
    match who {
        Who::Identity => [0; CHECK],
        Who::Aescbc(name, secret) => keyed_check(secret.as_slice(), name.as_str()),
        Who::Aesgcm(name, secret) => keyed_check(secret.as_slice(), name.as_str()),
        Who::Kms(_) => [0; CHECK],
    }
}

/// The first bytes of the HMAC of a name.
fn keyed_check(secret: &[u8], name: &str) -> [u8; CHECK]
    ensures { result ≡ keyed_check secret.now name.now }
{
    let digest = kr_hkdf::hmac(secret, name.as_bytes());
    let mut check = [0; CHECK];
    check.copy_from_slice(&digest[..CHECK]);
    check
}
