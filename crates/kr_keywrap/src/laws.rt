//! Laws of the definitions, for a reader and for callers' proofs. The functions do nothing.

ghost use Rattle.kr_keywrap.specs.KeyLink.{KeyLinksAgree};
ghost use Rattle.kr_keywrap.specs.KeyWrap.{UnwrapGivesWrapped, UnwrapGivesNothingElse};

use crate::ring::Ring;

/// What was wrapped is unwrapped as the bytes that were wrapped.
pub fn unwrap_of_wrapped()
    ensures { UnwrapGivesWrapped }
{}

/// What is unwrapped is the wrap of what it gives.
pub fn wrap_of_unwrapped()
    ensures { UnwrapGivesNothingElse }
{}

/// Links in memory over a ring answer as is supposed of plugins.
pub fn key_links_agree<R: Ring>()
    ensures { KeyLinksAgree R.keys }
{}
