//! Laws of the definitions, for a reader and for callers' proofs. The functions do nothing.

ghost use Rattle.kr_aes.specs.Cipher.{CipherGivesBlocks};
ghost use Rattle.kr_aes.specs.EquivalentInverse.{EquivalentIsInverse};
ghost use Rattle.kr_aes.specs.Field.{EachHasInverse, ProductDistributes};
ghost use Rattle.kr_aes.specs.InverseCipher.{CipherUndoesInverse, InverseGivesBlocks, InverseUndoesCipher};
ghost use Rattle.kr_aes.specs.KeyExpansion.{EachWordFollows};

/// The product of a byte other than 0 and its inverse is 1.
pub fn product_of_inverse()
    ensures { EachHasInverse }
{}

/// The product of bytes distributes over their sum.
pub fn product_of_sum()
    ensures { ProductDistributes }
{}

/// Each word of a key's schedule follows from the words before it.
pub fn words_of_schedule()
    ensures { EachWordFollows }
{}

/// What a cipher gives has 16 bytes.
pub fn block_of_cipher()
    ensures { CipherGivesBlocks }
{}

/// What an inverse cipher gives has 16 bytes.
pub fn block_of_inverse_cipher()
    ensures { InverseGivesBlocks }
{}

/// The inverse cipher of a cipher is the block itself.
pub fn inverse_of_cipher()
    ensures { InverseUndoesCipher }
{}

/// The cipher of an inverse cipher is the block itself.
pub fn cipher_of_inverse()
    ensures { CipherUndoesInverse }
{}

/// The equivalent inverse cipher under its schedule is the inverse cipher.
pub fn equivalent_of_inverse()
    ensures { EquivalentIsInverse }
{}
