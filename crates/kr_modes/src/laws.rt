//! Laws of the definitions, for a reader and for callers' proofs. The functions do nothing.

ghost use Rattle.kr_modes.specs.Cbc.{CbcOpensSealed};
ghost use Rattle.kr_modes.specs.Gcm.{GcmOpensSealed, OpensOnlyUnderOneTag};
ghost use Rattle.kr_modes.specs.Ghash.{BitsAreCoefficients, BlockOfPolynomial, ProductIsLinear};
ghost use Rattle.kr_modes.specs.Padding.{UnpadInvertsPad};

/// `unpad` is the inverse of `pad`.
pub fn unpad_of_pad()
    ensures { UnpadInvertsPad }
{}

/// What CBC sealed is opened as the data that was sealed.
pub fn cbc_of_sealed()
    ensures { CbcOpensSealed }
{}

/// The bits of a block, from the left, are the coefficients of its polynomial.
pub fn bits_of_block()
    ensures { BitsAreCoefficients }
{}

/// The block that a block's polynomial stands for is that block.
pub fn block_of_polynomial()
    ensures { BlockOfPolynomial }
{}

/// The product in the field of GHASH is linear in each operand.
pub fn product_of_sums()
    ensures { ProductIsLinear }
{}

/// What GCM sealed is opened as the data that was sealed.
pub fn gcm_of_sealed()
    ensures { GcmOpensSealed }
{}

/// What GCM sealed is opened under other associated data exactly where that has the same tag.
pub fn gcm_of_other_data()
    ensures { OpensOnlyUnderOneTag }
{}
