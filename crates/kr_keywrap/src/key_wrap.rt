//! The key wrap (RFC 3394 section 2.2). Nothing is allocated: the steps go over the lent buffer.

ghost use Rattle.std.specs.Prelude.{◌≡◌, ◌≢◌, ◌↔◌, ℕ, ◌≤◌, ◌+◌, ◌-◌, ◌*◌, ◌/◌, List, ◌++◌, length, take, IsOk, IsTrue, IfErr, IsErrOf, OnOk, MatchResult, replicate};
ghost use Rattle.std.specs.Int.{w64, from_be_bytes, to_be_bytes};
ghost use Rattle.kr_aes.specs.Cipher.{cipher};
ghost use Rattle.kr_aes.specs.EquivalentInverse.{inverse_schedule};
ghost use Rattle.kr_aes.specs.InverseCipher.{inverse_cipher};
ghost use Rattle.kr_aes.specs.KeyExpansion.{IsSchedule};
ghost use Rattle.kr_keywrap.specs.KeyWrap.{IsKeyData, IsWrappable, before_steps, initial_value, key_unwrap, key_wrap, steps_of};
ghost use Rattle.kr_keywrap.specs.KeyWrap.{unwrap_step, unwrapped_steps, wrap_step, wrapped_steps};

use kr_aes::Rounds;

/// Why a body isn't unwrapped.
#[derive(Clone, Copy, PartialEq, Eq, Debug)]
pub enum WrapNo {
    /// Its length isn't 8 bytes more than one that can be wrapped.
    Length,
    /// The check value that was wrapped with the plain bytes isn't there.
    Check,
}

/// The initial value of the register, by which a body is checked.
const INITIAL_VALUE: u64 = 0xA6A6_A6A6_A6A6_A6A6;

/// Half a block of AES: the length in bytes of the register and of each block that is wrapped.
const HALF: usize = 8;

/// How often each block is wrapped.
const ROUNDS: usize = 6;

/// Writes the wrap of the plain bytes into `out`, which is 8 bytes longer. The plain bytes are 16
/// to 1,016, a multiple of 8. The words and the rounds are what `kr_aes::expand` gave for one key.
pub fn wrap(words: &[u32; 60], rounds: Rounds, plain: &[u8], out: &mut [u8])
    requires schedule { IsSchedule words.now rounds }
    requires wrappable { IsWrappable (length plain.now) }
    requires size { length out.old ≡ length plain.now + 8 }
    ensures { out.new ≡ key_wrap (cipher words.now rounds) plain.now }
{
    let (register, blocks) = out.split_at_mut(HALF);
    blocks.copy_from_slice(plain);
    let a = wrap_blocks(words, rounds, blocks);
    register.copy_from_slice(&a.to_be_bytes());
}

/// Writes the plain bytes of a body into `out`, which is 8 bytes shorter, or empty where the body
/// has fewer than 8. After `Length` it is as before, after `Check` it is zero, so that nothing of
/// what a wrong key made is left. The words and the rounds are what `kr_aes::expand` gave for one
/// key.
pub fn unwrap_key(
    words: &[u32; 60],
    rounds: Rounds,
    body: &[u8],
    out: &mut [u8],
) -> Result<(), WrapNo>
    requires schedule { IsSchedule words.now rounds }
    requires size { length out.old ≡ length body.now - 8 }
    ensures unwrapped { MatchResult result
        (λ _. key_unwrap (inverse_cipher words.now rounds) body.now ≡ Ok out.new)
        (λ why. key_unwrap (inverse_cipher words.now rounds) body.now ≡ Err why) }
    ensures ok { OnOk result (IsKeyData out.new
        × (body.now ≡ key_wrap (cipher words.now rounds) out.new)) }
    ensures wrapped { (plain : List ℕ) → IsKeyData plain
        → body.now ≡ key_wrap (cipher words.now rounds) plain → IsOk result × (out.new ≡ plain) }
    ensures length { IsErrOf result WrapNo.Length ↔ ¬ IsWrappable (length body.now - 8) }
    ensures check { IsErrOf result WrapNo.Check ↔ (IsWrappable (length body.now - 8)
        × ((before_steps (inverse_cipher words.now rounds) body.now).a ≢ initial_value)) }
    ensures kept { IsErrOf result WrapNo.Length → out.new ≡ out.old }
    ensures wiped { IsErrOf result WrapNo.Check → out.new ≡ replicate (length out.old) 0 }
{
    if !is_wrappable(out.len()) {
        return Err(WrapNo::Length);
    }
    out.copy_from_slice(&body[HALF..]);
    let mut inverse = [0; 60];
    kr_aes::invert(words, rounds, &mut inverse);
    if unwrap_blocks(&inverse, rounds, half_number(&body[..HALF]), out) == INITIAL_VALUE {
        Ok(())
    } else {
        out.fill(0);
        Err(WrapNo::Check)
    }
}

/// Whether so many bytes can be wrapped.
pub(crate) fn is_wrappable(size: usize) -> bool
    ensures { IsTrue result ↔ IsWrappable size }
{
    size % HALF == 0 && (16..=1016).contains(&size)
}

/// All steps of wrapping over the blocks. The register is answered.
fn wrap_blocks(words: &[u32; 60], rounds: Rounds, blocks: &mut [u8]) -> u64
    requires schedule { IsSchedule words.now rounds }
    requires some { 8 ≤ length blocks.old }
    requires few { length blocks.old ≤ 1016 }
    ensures { record { a = result; r = blocks.new } ≡ wrapped_steps (cipher words.now rounds)
        (record { a = initial_value; r = blocks.old }) (steps_of blocks.old) }
{
    let mut a = INITIAL_VALUE;
    for step in 0..ROUNDS * (blocks.len() / HALF) {
        let next = wrap_step(words, rounds, step, a, blocks);
        a = next;
    }
    a
}

/// All steps of unwrapping over the blocks, the last one first. The register is answered. The words
/// are what `kr_aes::invert` made.
fn unwrap_blocks(inverse: &[u32; 60], rounds: Rounds, register: u64, blocks: &mut [u8]) -> u64
    requires some { 8 ≤ length blocks.old }
    requires few { length blocks.old ≤ 1016 }
    ensures { (words : List ℕ) → inverse.now ≡ inverse_schedule words rounds
        → record { a = result; r = blocks.new }
        ≡ unwrapped_steps (inverse_cipher words rounds)
        (record { a = register; r = blocks.old }) (steps_of blocks.old) }
{
    let mut a = register;
    for step in (0..ROUNDS * (blocks.len() / HALF)).rev() {
        let next = unwrap_step(inverse, rounds, step, a, blocks);
        a = next;
    }
    a
}

/// One step of wrapping, the first being step 0. The register is answered.
#[inline(always)]
fn wrap_step(words: &[u32; 60], rounds: Rounds, step: usize, a: u64, blocks: &mut [u8]) -> u64
    requires schedule { IsSchedule words.now rounds }
    requires some { 8 ≤ length blocks.old }
    requires few { step ≤ 1016 }
    ensures { record { a = result; r = blocks.new }
        ≡ wrap_step (cipher words.now rounds) (step + 1) (record { a = a; r = blocks.old }) }
{
    let start = HALF * (step % (blocks.len() / HALF));
    let mut block = joined(a, &blocks[start..start + HALF]);
    kr_aes::encrypt_block(words, rounds, &mut block);
    blocks[start..start + HALF].copy_from_slice(&block[HALF..]);
    half_number(&block[..HALF]) ^ (step as u64 + 1)
}

/// One step of unwrapping, the last being step 0. The register is answered.
#[inline(always)]
fn unwrap_step(inverse: &[u32; 60], rounds: Rounds, step: usize, a: u64, blocks: &mut [u8]) -> u64
    requires some { 8 ≤ length blocks.old }
    requires few { step ≤ 1016 }
    ensures { (words : List ℕ) → inverse.now ≡ inverse_schedule words rounds
        → record { a = result; r = blocks.new }
        ≡ unwrap_step (inverse_cipher words rounds) (step + 1)
        (record { a = a; r = blocks.old }) }
{
    let start = HALF * (step % (blocks.len() / HALF));
    let mut block = joined(a ^ (step as u64 + 1), &blocks[start..start + HALF]);
    kr_aes::decrypt_block_by_inverse(inverse, rounds, &mut block);
    blocks[start..start + HALF].copy_from_slice(&block[HALF..]);
    half_number(&block[..HALF])
}

/// The register and half a block behind it.
#[inline(always)]
fn joined(a: u64, half: &[u8]) -> [u8; 16]
    requires { length half.now ≡ 8 }
    ensures { result ≡ to_be_bytes w64 a ++ half.now }
{
    let mut block = [0; 16];
    block[..HALF].copy_from_slice(&a.to_be_bytes());
    block[HALF..].copy_from_slice(half);
    block
}

/// The number that half a block stands for, its first byte the highest.
#[inline(always)]
fn half_number(half: &[u8]) -> u64
    requires { length half.now ≡ 8 }
    ensures { result ≡ from_be_bytes w64 half.now }
{
    let mut bytes = [0; HALF];
    bytes.copy_from_slice(half);
    u64::from_be_bytes(bytes)
}
