//! A line of a case: the operation's name, the key and the further operands, with one space between
//! them. Operands are in hex, and `-` is the empty one.

ghost use Rattle.std.specs.Prelude.{◌≡◌, ◌↔◌, ◌≤◌, ◌<◌, ◌⊎◌, ℕ, List, [], ◌∷◌, length, map, IsTrue, IfOk, IfErr};
ghost use Rattle.std.specs.Int.{w16, from_be_bytes};
ghost use Rattle.kr_keywrap.specs.KeyWrap.{IsWrappable};
ghost use Rattle.test_vectors.specs.Words.{AskFor, Asks, StandFor, StandsFor, WordsAskFor, split_words};

use crate::case::{Case, Expansion, KeyData, MOST, MOST_INFO, MOST_OUTPUT, Operand, Operation};
use hex::FromHexError;
use std::alloc::{AllocError, Global};

/// Why a line gives no case.
pub enum LineError {
    /// It asks for no case.
    Form,
    /// There was no memory for it.
    Memory,
}

/// The case of a line. `Form` comes exactly where there is none.
pub fn parse_case(alloc: Global, line: &str) -> Result<Case, LineError>
    ensures asked { IfOk result (Asks line.now) }
    ensures refused { IfErr result (λ why. (why ≡ LineError.Memory)
        ⊎ ((case : Case) → ¬ Asks line.now case)) }
{
    match split_words(alloc, line) {
        Ok(words) => case_of_words(alloc, words.as_slice()),
        Err(_) => Err(LineError::Memory),
    }
}

fn split_words(alloc: Global, line: &str) -> Result<Vec<&str>, AllocError>
    ensures { IfOk result (λ words. map (λ word. word.now) words.items ≡ split_words line.now) }
{
    let mut words = Vec::new(alloc);
    for word in line.split(' ') {
        words.push(word)?;
    }
    Ok(words)
}

fn case_of_words(alloc: Global, words: &[&str]) -> Result<Case, LineError>
    ensures asked { IfOk result (WordsAskFor (map (λ word. word.now) words.now)) }
    ensures refused { IfErr result (λ why. (why ≡ LineError.Memory)
        ⊎ ((case : Case) → ¬ WordsAskFor (map (λ word. word.now) words.now) case)) }
{
    let [name, key, operands @ ..] = words else {
        return Err(LineError::Form);
    };
    let key = operand(alloc, key)?;
    match *name {
        "hmac" => Ok(Case::Hmac {
            key,
            message: only(alloc, operands)?,
        }),
        "hkdf" => Ok(Case::Hkdf {
            key,
            expansion: expansion(alloc, operands)?,
        }),
        name => Ok(Case::Cipher {
            key,
            operation: operation(alloc, name, operands)?,
        }),
    }
}

/// The operation of a name and the words behind the key.
fn operation(alloc: Global, name: &str, operands: &[&str]) -> Result<Operation, LineError>
    ensures asked { IfOk result (AskFor name.now (map (λ word. word.now) operands.now)) }
    ensures refused { IfErr result (λ why. (why ≡ LineError.Memory)
        ⊎ ((operation : Operation)
        → ¬ AskFor name.now (map (λ word. word.now) operands.now) operation)) }
{
    match name {
        "aes" => Ok(Operation::Encrypt {
            block: block(operands)?,
        }),
        "unaes" => Ok(Operation::Decrypt {
            block: block(operands)?,
        }),
        "cbc" => {
            let (iv, plain) = after_iv(alloc, operands)?;
            Ok(Operation::CbcSeal { iv, plain })
        }
        "uncbc" => Ok(Operation::CbcUnseal {
            body: only(alloc, operands)?,
        }),
        "gcm" => {
            let (nonce, aad, plain) = after_nonce(alloc, operands)?;
            Ok(Operation::GcmSeal { nonce, aad, plain })
        }
        "ungcm" => {
            let (nonce, aad, body) = after_nonce(alloc, operands)?;
            Ok(Operation::GcmUnseal { nonce, aad, body })
        }
        "wrap" => Ok(Operation::Wrap {
            plain: key_data(alloc, operands)?,
        }),
        "unwrap" => Ok(Operation::Unwrap {
            body: only(alloc, operands)?,
        }),
        _ => Err(LineError::Form),
    }
}

/// The one operand, a block.
fn block(operands: &[&str]) -> Result<[u8; 16], LineError>
    ensures read { IfOk result (λ block. (length block ≡ 16)
        × StandFor (map (λ word. word.now) operands.now) (block ∷ [])) }
    ensures refused { IfErr result (λ why. (block : List ℕ) → length block ≡ 16
        → ¬ StandFor (map (λ word. word.now) operands.now) (block ∷ [])) }
{
    let [block] = operands else {
        return Err(LineError::Form);
    };
    sized(block)
}

/// The one operand.
fn only(alloc: Global, operands: &[&str]) -> Result<Operand, LineError>
    ensures read { IfOk result (λ operand.
        StandFor (map (λ word. word.now) operands.now) (operand.bytes.items ∷ [])) }
    ensures refused { IfErr result (λ why. (why ≡ LineError.Memory)
        ⊎ ((bytes : List ℕ) → length bytes ≤ 4194304
        → ¬ StandFor (map (λ word. word.now) operands.now) (bytes ∷ []))) }
{
    if operands.len() != 1 {
        return Err(LineError::Form);
    }
    let [word] = operands else { unreachable!() };
    operand(alloc, word)
}

/// The one operand, of a length that the key wrap takes.
fn key_data(alloc: Global, operands: &[&str]) -> Result<KeyData, LineError>
    ensures read { IfOk result (λ plain.
        StandFor (map (λ word. word.now) operands.now) (plain.bytes.items ∷ [])) }
    ensures refused { IfErr result (λ why. (why ≡ LineError.Memory)
        ⊎ ((bytes : List ℕ) → IsWrappable (length bytes)
        → ¬ StandFor (map (λ word. word.now) operands.now) (bytes ∷ []))) }
{
    if operands.len() != 1 {
        return Err(LineError::Form);
    }
    let [word] = operands else { unreachable!() };
    let bytes = operand(alloc, word)?.bytes;
    if !is_wrappable(bytes.len()) {
        return Err(LineError::Form);
    }
    Ok(KeyData { bytes })
}

/// Whether the key wrap takes so many bytes.
fn is_wrappable(size: usize) -> bool
    ensures { IsTrue result ↔ IsWrappable size }
{
    size % 8 == 0 && (16..=1016).contains(&size)
}

/// An IV and the data behind it.
fn after_iv(alloc: Global, operands: &[&str]) -> Result<([u8; 16], Operand), LineError>
    ensures read { IfOk result (λ parts. (length parts.0 ≡ 16)
        × StandFor (map (λ word. word.now) operands.now) (parts.0 ∷ parts.1.bytes.items ∷ [])) }
    ensures refused { IfErr result (λ why. (why ≡ LineError.Memory)
        ⊎ ((iv plain : List ℕ) → length iv ≡ 16 → length plain ≤ 4194304
        → ¬ StandFor (map (λ word. word.now) operands.now) (iv ∷ plain ∷ []))) }
{
    if operands.len() != 2 {
        return Err(LineError::Form);
    }
    let [iv, plain] = operands else {
        unreachable!()
    };
    Ok((sized(iv)?, operand(alloc, plain)?))
}

/// A nonce, the associated data and the data behind them.
fn after_nonce(alloc: Global, operands: &[&str]) -> Result<([u8; 12], Operand, Operand), LineError>
    ensures read { IfOk result (λ parts. (length parts.0 ≡ 12)
        × StandFor (map (λ word. word.now) operands.now)
        (parts.0 ∷ parts.1.bytes.items ∷ parts.2.bytes.items ∷ [])) }
    ensures refused { IfErr result (λ why. (why ≡ LineError.Memory)
        ⊎ ((nonce aad plain : List ℕ) → length nonce ≡ 12 → length aad ≤ 4194304
        → length plain ≤ 4194304
        → ¬ StandFor (map (λ word. word.now) operands.now) (nonce ∷ aad ∷ plain ∷ []))) }
{
    if operands.len() != 3 {
        return Err(LineError::Form);
    }
    let [nonce, aad, plain] = operands else {
        unreachable!()
    };
    Ok((sized(nonce)?, operand(alloc, aad)?, operand(alloc, plain)?))
}

/// The info and the size of an output.
fn expansion(alloc: Global, operands: &[&str]) -> Result<Expansion, LineError>
    ensures read { IfOk result (λ expansion. (length expansion.size ≡ 2)
        × StandFor (map (λ word. word.now) operands.now)
        (expansion.info.items ∷ expansion.size ∷ [])) }
    ensures refused { IfErr result (λ why. (why ≡ LineError.Memory)
        ⊎ ((info size : List ℕ) → length info ≤ 1048576 → length size ≡ 2
        → from_be_bytes w16 size ≤ 8160
        → ¬ StandFor (map (λ word. word.now) operands.now) (info ∷ size ∷ []))) }
{
    if operands.len() != 2 {
        return Err(LineError::Form);
    }
    let [info, size] = operands else {
        unreachable!()
    };
    let info = operand(alloc, info)?.bytes;
    let size = sized(size)?;
    if info.len() > MOST_INFO || u16::from_be_bytes(size) as usize > MOST_OUTPUT {
        return Err(LineError::Form);
    }
    Ok(Expansion { info, size })
}

/// The bytes that a word stands for.
fn operand(alloc: Global, word: &str) -> Result<Operand, LineError>
    ensures read { IfOk result (λ operand. StandsFor word.now operand.bytes.items) }
    ensures refused { IfErr result (λ why. (why ≡ LineError.Memory)
        ⊎ ((bytes : List ℕ) → StandsFor word.now bytes → MOST < length bytes)) }
{
    if word == "-" {
        return Ok(Operand {
            bytes: Vec::new(alloc),
        });
    }
    if word.is_empty() {
        return Err(LineError::Form);
    }
    match hex::decode(alloc, word) {
        Ok(bytes) if bytes.len() <= MOST => Ok(Operand { bytes }),
        Err(FromHexError::OutOfMemory) => Err(LineError::Memory),
        _ => Err(LineError::Form),
    }
}

/// The bytes of a word that has to stand for so many.
fn sized<const N: usize>(word: &str) -> Result<[u8; N], LineError>
    requires { 0 < N }
    ensures read { IfOk result (StandsFor word.now) }
    ensures long { IfOk result (λ bytes. length bytes ≡ N) }
    ensures refused { IfErr result (λ why. (why ≡ LineError.Form)
        × ((bytes : List ℕ) → length bytes ≡ N → ¬ StandsFor word.now bytes)) }
{
    let mut bytes = [0; N];
    match hex::decode_to_slice(word, &mut bytes) {
        Ok(()) => Ok(bytes),
        Err(_) => Err(LineError::Form),
    }
}
