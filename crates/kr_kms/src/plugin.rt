//! A link to a plugin, which keeps the keys and wraps short secrets with them.
ghost use Rattle.std.specs.Prelude.{◌≡◌, ◌↔◌, IsTrue};
ghost use Rattle.kr_kms.specs.Calls.{AsksLink, Link, Says, Wraps, asked_key};
ghost use Rattle.kr_kms.specs.Exchanges.{Exchange, StatusCall, WrapCall, UnwrapCall, KeepsLink, TellsAnswer};
ghost use Rattle.kr_kms.specs.Limits.{IsWithinLimits};

use kr_base::{Annotations, Bytes, Text, are_few, is_short};
use std::alloc::Global;

/// What a plugin says of itself: its version, its health and the id of the key that it wraps with.
#[derive(Drop)]
pub struct Status {
    pub version: Text,
    pub healthz: Text,
    pub key_id: Text,
}

/// What a plugin made of plain bytes: the wrapped source, the id of its key, and what it wants to
/// see again when it unwraps.
#[derive(Drop)]
pub struct Wrapped {
    pub cipher: Bytes,
    pub key_id: Text,
    pub annotations: Annotations,
}

/// What is to be unwrapped, lent: a wrapped source, and the id of its key with the annotations that
/// the plugin made with it.
#[derive(Clone, Copy)]
pub struct WrappedRef<'a> {
    pub cipher: &'a [u8],
    pub key_id: &'a str,
    pub annotations: &'a Annotations,
}

/// Whether the key id, the source and the annotations are within the limits. A link answers a wrap
/// that isn't as a fault.
pub fn is_within_limits(wrapped: &Wrapped) -> bool
    ensures { IsTrue result ↔ IsWithinLimits wrapped.now }
{
    is_short(wrapped.key_id.as_str().as_bytes())
        && is_short(wrapped.cipher.as_slice())
        && are_few(wrapped.annotations.pairs())
}

/// Why a plugin gave no answer.
#[derive(Clone, Copy, Debug, PartialEq, Eq)]
pub enum KmsNo {
    /// The plugin failed or refused, or its answer can't be used; its count of faults tells so.
    Failed,
    /// There was no memory for the answer.
    NoMemory,
}

/// A link to a plugin. No call changes its name or the status that it tells, and each that fails
/// counts once.
pub trait Kms {
    ghost link: { Self → Link };

    // From the one state to the other the link was asked this, once, and answered it.
    ghost step: { Self → Exchange → Self → Type 0 };

    /// The plugin's name. It needs no memory.
    fn name(&self) -> &str
        ensures { result.now ≡ (link self.now).name };

    /// How often it failed so far, up to the greatest number.
    fn faults(&self) -> u64
        ensures { result ≡ (link self.now).count };

    /// Asks for the status.
    fn status(&mut self, alloc: Global) -> Result<Status, KmsNo>
        ensures says { Says (link self.old) result (link self.new) }
        ensures asked { step self.old (StatusCall (link self.old).name result) self.new };

    /// Wraps plain bytes with the plugin's current key. An answer that passes a limit of wrapped
    /// sources is a fault.
    fn wrap(&mut self, alloc: Global, plain: &[u8]) -> Result<Wrapped, KmsNo>
        ensures wraps { Wraps (link self.old) result (link self.new) }
        ensures asked { step self.old (WrapCall (link self.old).name plain.now result) self.new };

    /// Unwraps what was wrapped under its key id with its annotations.
    fn unwrap_source(&mut self, alloc: Global, wrapped: &WrappedRef<'_>) -> Result<Bytes, KmsNo>
        ensures unwraps { AsksLink (link self.old) result (link self.new) }
        ensures asked { step self.old (UnwrapCall (asked_key (link self.old).name
            wrapped.now.key_id.now wrapped.now.annotations.now wrapped.now.cipher.now)
            result) self.new };

    /// Any step is one of the link's own plugin, keeps the name and the told status, and counts a
    /// fault once.
    ghost keeps: { (old : Self) (exchange : Exchange) (new : Self) → step old exchange new
        → KeepsLink (link old) exchange (link new) };

    /// A status that is answered is the one that the link tells, where it tells one; and what was
    /// wrapped is within the limits.
    ghost tells: { (old : Self) (exchange : Exchange) (new : Self) → step old exchange new
        → TellsAnswer (link old).status exchange };
}
