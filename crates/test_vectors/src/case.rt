//! A case: what a line asks.

ghost use Rattle.std.specs.Prelude.{◌≤◌, length};
ghost use Rattle.std.specs.Int.{w16, from_be_bytes};
ghost use Rattle.kr_keywrap.specs.KeyWrap.{IsWrappable};

/// The most bytes that an operand has.
pub const MOST: usize = 4_194_304;

/// The most bytes that the info of HKDF-Expand has here.
pub const MOST_INFO: usize = 1_048_576;

/// The most bytes that HKDF-Expand gives.
pub const MOST_OUTPUT: usize = 8_160;

/// A string of bytes that isn't longer than the modes take.
#[derive(Drop)]
pub struct Operand {
    /// The bytes.
    pub bytes: Vec<u8>,
    ghost fits: { length bytes.items ≤ 4194304 },
}

/// A string of bytes of a length that the key wrap takes.
#[derive(Drop)]
pub struct KeyData {
    /// The bytes.
    pub bytes: Vec<u8>,
    ghost wrappable: { IsWrappable (length bytes.items) },
}

/// An operation under a key of AES, with its operands.
#[derive(Drop)]
pub enum Operation {
    /// One block is encrypted.
    Encrypt {
        block: [u8; 16],
    },
    /// One block is decrypted.
    Decrypt {
        block: [u8; 16],
    },
    /// Data are padded and sealed by CBC.
    CbcSeal {
        iv: [u8; 16],
        plain: Operand,
    },
    /// What CBC sealed, with its IV in front, is opened.
    CbcUnseal {
        body: Operand,
    },
    /// Data are sealed by GCM.
    GcmSeal {
        nonce: [u8; 12],
        aad: Operand,
        plain: Operand,
    },
    /// What GCM sealed, with its tag behind, is opened.
    GcmUnseal {
        nonce: [u8; 12],
        aad: Operand,
        body: Operand,
    },
    /// A key is wrapped.
    Wrap {
        plain: KeyData,
    },
    /// A wrapped key is unwrapped.
    Unwrap {
        body: Operand,
    },
}

/// What HKDF-Expand is asked for.
#[derive(Drop)]
pub struct Expansion {
    /// What the output is bound to.
    pub info: Vec<u8>,
    /// How many bytes are wanted, the high byte first.
    pub size: [u8; 2],
    ghost info_fits: { length info.items ≤ 1048576 },
    ghost size_fits: { from_be_bytes w16 size ≤ 8160 },
}

/// What a line asks. The key may be of any length.
#[derive(Drop)]
pub enum Case {
    /// An operation under a key of AES.
    Cipher { key: Operand, operation: Operation },
    /// The HMAC of a message.
    Hmac { key: Operand, message: Operand },
    /// HKDF-Expand's output under a key.
    Hkdf { key: Operand, expansion: Expansion },
}
