//! Modes of operation for AES: CBC (SP 800-38A) with the padding of PKCS #7, and GCM (SP 800-38D).
//! Nothing is allocated: the calls work in the lent buffers.
#![tactic(auto)]

mod blocks;
mod cbc;
mod gcm;
mod gctr;
mod ghash;
pub mod laws;
mod wiping;

pub use cbc::{cbc_length, cbc_seal, cbc_seal_in_place, cbc_unseal, cbc_unseal_in_place};
pub use gcm::{gcm_seal, gcm_seal_in_place, gcm_unseal, gcm_unseal_in_place};

/// Why a sealed value isn't opened.
#[derive(Clone, Copy, PartialEq, Eq, Debug)]
pub enum ModeNo {
    /// Too short: there is no block behind the IV, or no tag.
    Short,
    /// No whole blocks.
    BadBlock,
    /// What the blocks decrypt to is no padded data.
    BadPadding,
    /// The tag isn't the one of the ciphertext and the associated data.
    BadTag,
}
