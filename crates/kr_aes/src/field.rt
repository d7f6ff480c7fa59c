//! The field of 256 elements (FIPS 197 section 4).

ghost use Rattle.std.specs.Prelude.{◌≡◌};
ghost use Rattle.kr_aes.specs.Field.{inverse, product};

/// x times a byte: shifted, and less the modulus where a bit came out.
fn double(b: u8) -> u8
    ensures { result ≡ product 2 b }
{
    (b << 1) ^ (b >> 7) * 0x1b
}

pub(crate) fn product(a: u8, b: u8) -> u8
    ensures { result ≡ product a b }
{
    let mut sum = 0;
    let mut shifted = b;
    for i in 0..8u32 {
        if (a >> i) & 1 == 1 {
            sum ^= shifted;
        }
        shifted = double(shifted);
    }
    sum
}

/// The power 254, as a product of the powers 2, 4 and so on to 128.
pub(crate) fn inverse(b: u8) -> u8
    ensures { result ≡ inverse b }
{
    let mut power = b;
    let mut outcome = 1;
    for _ in 0..7u32 {
        power = product(power, power);
        outcome = product(outcome, power);
    }
    outcome
}
