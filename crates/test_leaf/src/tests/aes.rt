//! The vectors of FIPS 197, appendix C, by the tables and byte by byte, and each cause of a
//! refusal.

use kr_aes::{
    Begun, KeyLength, Rounds, decrypt_block, decrypt_block_by_inverse, encrypt_block, expand,
    invert, plain,
};

// The keys are the first 16, 24 and 32 of the bytes 0, 1, 2 and so on.
const KEY: [u8; 33] = [
    0, 1, 2, 3, 4, 5, 6, 7, 8, 9, 10, 11, 12, 13, 14, 15, 16, 17, 18, 19, 20, 21, 22, 23, 24, 25,
    26, 27, 28, 29, 30, 31, 32,
];

const PLAINTEXT: u128 = 0x00112233445566778899aabbccddeeff;

/// Whether a key has so many rounds, and takes the plain text to this one and back in each way.
fn is_vector(key: &[u8], wanted_rounds: Rounds, ciphertext: u128) -> bool {
    let mut words = [1; 60];
    let Ok(rounds) = expand(key, &mut words) else {
        return false;
    };
    let mut block = PLAINTEXT.to_be_bytes();
    encrypt_block(&words, rounds, &mut block);
    let by_tables = block == ciphertext.to_be_bytes();
    let begun = Begun::new(&words, &PLAINTEXT.to_be_bytes());
    let by_begun = begun.encrypt_block(rounds, 0xff) == ciphertext.to_be_bytes();
    plain::decrypt_block(&words, rounds, &mut block);
    let back = block == PLAINTEXT.to_be_bytes();
    plain::encrypt_block(&words, rounds, &mut block);
    let by_bytes = block == ciphertext.to_be_bytes();
    decrypt_block(&words, rounds, &mut block);
    let back_by_tables = block == PLAINTEXT.to_be_bytes();
    let mut inverse = [1; 60];
    invert(&words, rounds, &mut inverse);
    let mut block = ciphertext.to_be_bytes();
    decrypt_block_by_inverse(&inverse, rounds, &mut block);
    let back_by_inverse = block == PLAINTEXT.to_be_bytes();
    rounds == wanted_rounds
        && by_tables
        && by_begun
        && back
        && by_bytes
        && back_by_tables
        && back_by_inverse
}

#[test]
fn vectors_both_ways(rt: HostRuntime) {
    assert!(rt; is_vector(&KEY[..16], Rounds::Ten, 0x69c4e0d86a7b0430d8cdb78070b4c55a));
    assert!(rt;
        is_vector(
            &KEY[..24],
            Rounds::Twelve,
            0xdda97ca4864cdfe06eaf70a0ec0d7191
        )
    );
    assert!(rt;
        is_vector(
            &KEY[..32],
            Rounds::Fourteen,
            0x8ea2b7ca516745bfeafc49904b496089
        )
    );
}

/// Whether a key is refused, and the words stay.
fn is_refused(key: &[u8]) -> bool {
    let mut words = [1; 60];
    expand(key, &mut words) == Err(KeyLength) && words == [1; 60]
}

#[test]
fn refuses_other_lengths(rt: HostRuntime) {
    for size in [0, 15, 17, 31, 33] {
        assert!(rt; is_refused(&KEY[..size]));
    }
}
