//! The rounds of a key.
ghost use Rattle.std.specs.Prelude.{◌≡◌, length};
ghost use Rattle.kr_aes.specs.KeyExpansion.{IsKeyLength, IsSchedule, padded_schedule};
ghost use Rattle.kr_provider.specs.Ciphers.{rounds_under};

use kr_aes::Rounds;

/// The rounds that go with the words of a key.
pub(crate) fn key_rounds(secret: &[u8]) -> Rounds
    requires { IsKeyLength (length secret.now) }
    ensures rounds { result ≡ rounds_under secret.now }
    ensures schedule { IsSchedule (padded_schedule secret.now) result }
{
    match secret.len() {
        16 => Rounds::Ten,
        24 => Rounds::Twelve,
        _ => Rounds::Fourteen,
    }
}
