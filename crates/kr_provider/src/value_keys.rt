//! The key of one value of a plugin.
ghost use Rattle.std.specs.Prelude.{◌≡◌, ◌≤◌, length};
ghost use Rattle.kr_provider.specs.Envelopes.{value_key};

/// The bytes of a seed, of an info, and of a key that is made of them.
pub(crate) const SEED: usize = 32;

/// The key that a seed makes with a value's info.
pub(crate) fn value_key(seed: &[u8], info: &[u8]) -> [u8; SEED]
    requires { length info.now ≤ 32 }
    ensures key { result ≡ value_key seed.now info.now }
    ensures size { length result ≡ 32 }
{
    let mut key = [0u8; SEED];
    kr_hkdf::expand(seed, info, &mut key);
    key
}
