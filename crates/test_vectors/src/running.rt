//! Runs cases.

ghost use Rattle.std.specs.Prelude.{◌≡◌, length, IfOk};
ghost use Rattle.std.specs.Int.{w16, from_be_bytes};
ghost use Rattle.kr_aes.specs.KeyExpansion.{IsKeyLength, IsKeyOf, IsSchedule, padded_schedule};
ghost use Rattle.kr_aes.specs.Cipher.{cipher};
ghost use Rattle.kr_aes.specs.InverseCipher.{inverse_cipher};
ghost use Rattle.kr_hkdf.specs.Hkdf.{hkdf_expand};
ghost use Rattle.kr_hkdf.specs.Hmac.{hmac};
ghost use Rattle.kr_keywrap.specs.KeyWrap.{key_unwrap, key_wrap};
ghost use Rattle.kr_modes.specs.Cbc.{cbc, cbc_opened};
ghost use Rattle.kr_modes.specs.Gcm.{gcm, gcm_opened};
ghost use Rattle.kr_modes.specs.Padding.{pad};
ghost use Rattle.test_vectors.specs.Answers.{ComesTo, Gives, Tells, TellsUnwrapped};

use crate::case::{Case, Expansion, KeyData, Operand, Operation};
use crate::outcome::Outcome;
use kr_aes::Rounds;
use std::alloc::{AllocError, Global};

/// What a case comes to, where there is memory for it.
type Ran = Result<Outcome, AllocError>;

/// Runs a case.
pub fn outcome(alloc: Global, case: &Case) -> Result<Outcome, AllocError>
    ensures { IfOk result (ComesTo case.now) }
{
    match case {
        Case::Cipher { key, operation } => by_cipher(alloc, key, operation),
        Case::Hmac { key, message } => hmac(alloc, key, message),
        Case::Hkdf { key, expansion } => hkdf(alloc, key, expansion),
    }
}

fn hmac(alloc: Global, key: &Operand, message: &Operand) -> Ran
    ensures { IfOk result (λ outcome.
        Tells outcome (Ok (hmac key.now.bytes.items message.now.bytes.items))) }
{
    let code = kr_hkdf::hmac(key.bytes.as_slice(), message.bytes.as_slice());
    Ok(Outcome::Bytes(code.to_vec(alloc)?))
}

fn hkdf(alloc: Global, key: &Operand, expansion: &Expansion) -> Ran
    ensures { IfOk result (λ outcome. Tells outcome
        (Ok (hkdf_expand key.now.bytes.items expansion.now.info.items
        (from_be_bytes w16 expansion.now.size)))) }
{
    let size = u16::from_be_bytes(expansion.size) as usize;
    let mut out = vec![in alloc; 0; size]?;
    kr_hkdf::expand(
        key.bytes.as_slice(),
        expansion.info.as_slice(),
        out.as_mut_slice(),
    );
    Ok(Outcome::Bytes(out))
}

fn by_cipher(alloc: Global, key: &Operand, operation: &Operation) -> Ran
    ensures key_length { IfOk result (λ outcome.
        ¬ IsKeyLength (length key.now.bytes.items) → outcome ≡ Outcome.KeyLength) }
    ensures given { IfOk result (λ outcome. (rounds : Rounds)
        → IsKeyOf (length key.now.bytes.items) rounds
        → Gives (padded_schedule key.now.bytes.items) rounds operation.now outcome) }
{
    let mut words = [0; 60];
    match kr_aes::expand(key.bytes.as_slice(), &mut words) {
        Ok(rounds) => {
            let schedule = Schedule { words, rounds };
            schedule.run(alloc, operation)
        }
        Err(_) => Ok(Outcome::KeyLength),
    }
}

/// The schedule of a key of AES: its words, and how many rounds it is for.
#[derive(Drop)]
struct Schedule {
    words: [u32; 60],
    rounds: Rounds,
}

impl Schedule {
    /// Runs an operation under the key.
    fn run(&self, alloc: Global, operation: &Operation) -> Ran
        requires { IsSchedule self.now.words self.now.rounds }
        ensures { IfOk result (Gives self.now.words self.now.rounds operation.now) }
    {
        match operation {
            Operation::Encrypt { block } => {
                let mut block = *block;
                kr_aes::encrypt_block(&self.words, self.rounds, &mut block);
                Ok(Outcome::Bytes(block.to_vec(alloc)?))
            }
            Operation::Decrypt { block } => {
                let mut block = *block;
                kr_aes::decrypt_block(&self.words, self.rounds, &mut block);
                Ok(Outcome::Bytes(block.to_vec(alloc)?))
            }
            Operation::CbcSeal { iv, plain } => self.cbc_seal(alloc, iv, plain),
            Operation::CbcUnseal { body } => self.cbc_unseal(alloc, body),
            Operation::GcmSeal { nonce, aad, plain } => self.gcm_seal(alloc, nonce, aad, plain),
            Operation::GcmUnseal { nonce, aad, body } => self.gcm_unseal(alloc, nonce, aad, body),
            Operation::Wrap { plain } => self.wrap_key(alloc, plain),
            Operation::Unwrap { body } => self.unwrap_key(alloc, body),
        }
    }

    fn cbc_seal(&self, alloc: Global, iv: &[u8; 16], plain: &Operand) -> Ran
        requires { IsSchedule self.now.words self.now.rounds }
        ensures { IfOk result (λ outcome. Tells outcome (Ok (cbc
            (cipher self.now.words self.now.rounds) iv.now (pad plain.now.bytes.items)))) }
    {
        let plain = plain.bytes.as_slice();
        let mut out = vec![in alloc; 0; kr_modes::cbc_length(plain.len())]?;
        kr_modes::cbc_seal(&self.words, self.rounds, iv, plain, out.as_mut_slice());
        Ok(Outcome::Bytes(out))
    }

    fn cbc_unseal(&self, alloc: Global, body: &Operand) -> Ran
        requires { IsSchedule self.now.words self.now.rounds }
        ensures { IfOk result (λ outcome. Tells outcome (cbc_opened
            (inverse_cipher self.now.words self.now.rounds) body.now.bytes.items)) }
    {
        let body = body.bytes.as_slice();
        let mut out = vec![in alloc; 0; body.len()]?;
        match kr_modes::cbc_unseal(&self.words, self.rounds, body, out.as_mut_slice()) {
            Ok(length) => {
                out.truncate(length);
                Ok(Outcome::Bytes(out))
            }
            Err(why) => Ok(Outcome::Refused(why)),
        }
    }

    fn gcm_seal(&self, alloc: Global, nonce: &[u8; 12], aad: &Operand, plain: &Operand) -> Ran
        requires { IsSchedule self.now.words self.now.rounds }
        ensures { IfOk result (λ outcome. Tells outcome (Ok (gcm
            (cipher self.now.words self.now.rounds) nonce.now aad.now.bytes.items
            plain.now.bytes.items))) }
    {
        let plain = plain.bytes.as_slice();
        let mut out = vec![in alloc; 0; plain.len() + 16]?;
        kr_modes::gcm_seal(
            &self.words,
            self.rounds,
            nonce,
            aad.bytes.as_slice(),
            plain,
            out.as_mut_slice(),
        );
        Ok(Outcome::Bytes(out))
    }

    fn gcm_unseal(&self, alloc: Global, nonce: &[u8; 12], aad: &Operand, body: &Operand) -> Ran
        requires { IsSchedule self.now.words self.now.rounds }
        ensures { IfOk result (λ outcome. Tells outcome (gcm_opened
            (cipher self.now.words self.now.rounds) nonce.now aad.now.bytes.items
            body.now.bytes.items)) }
    {
        let body = body.bytes.as_slice();
        let mut out = vec![in alloc; 0; body.len()]?;
        match kr_modes::gcm_unseal(
            &self.words,
            self.rounds,
            nonce,
            aad.bytes.as_slice(),
            body,
            out.as_mut_slice(),
        ) {
            Ok(length) => {
                out.truncate(length);
                Ok(Outcome::Bytes(out))
            }
            Err(why) => Ok(Outcome::Refused(why)),
        }
    }

    fn wrap_key(&self, alloc: Global, plain: &KeyData) -> Ran
        requires { IsSchedule self.now.words self.now.rounds }
        ensures { IfOk result (λ outcome. Tells outcome
            (Ok (key_wrap (cipher self.now.words self.now.rounds) plain.now.bytes.items))) }
    {
        let plain = plain.bytes.as_slice();
        let mut out = vec![in alloc; 0; plain.len() + 8]?;
        kr_keywrap::wrap(&self.words, self.rounds, plain, out.as_mut_slice());
        Ok(Outcome::Bytes(out))
    }

    fn unwrap_key(&self, alloc: Global, body: &Operand) -> Ran
        requires { IsSchedule self.now.words self.now.rounds }
        ensures { IfOk result (λ outcome. TellsUnwrapped outcome
            (key_unwrap (inverse_cipher self.now.words self.now.rounds) body.now.bytes.items)) }
    {
        let body = body.bytes.as_slice();
        let mut out = vec![in alloc; 0; body.len().saturating_sub(8)]?;
        match kr_keywrap::unwrap_key(&self.words, self.rounds, body, out.as_mut_slice()) {
            Ok(()) => Ok(Outcome::Bytes(out)),
            Err(why) => Ok(Outcome::NotWrapped(why)),
        }
    }
}
