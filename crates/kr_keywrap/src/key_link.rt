//! A link in memory that wraps under the keys of a ring.
ghost use Rattle.std.specs.Prelude.{◌≡◌, ◌⊎◌, ◌↔◌, ◌≤◌, [], length, take, IsTrue, IsSome, IfOk, MatchOption, Some, None};
ghost use Rattle.std.specs.Prelude.{if◌then◌else◌};
ghost use Rattle.std.specs.Bool.{OnTrue};
ghost use Rattle.kr_base.specs.Faults.{Rose};
ghost use Rattle.kr_base.specs.InMemory.{IsListed, after_call, after_fault};
ghost use Rattle.kr_base.specs.Limits.{IsShort};
ghost use Rattle.kr_kms.specs.Calls.{AsksLink, Says, Wraps, asked_key};
ghost use Rattle.kr_kms.specs.Exchanges.{StatusCall, WrapCall, UnwrapCall};
ghost use Rattle.kr_kms.specs.Limits.{IsWithinLimits};
ghost use Rattle.kr_keywrap.specs.KeyWrap.{IsWrappable};
ghost use Rattle.kr_keywrap.specs.Keys.{opened_by};
ghost use Rattle.kr_keywrap.specs.KeyLink.{AnswersByKeys, IsWrapBy, link_seen, status_of};
ghost use Rattle.kr_keywrap.specs.KeyLink.{wrapped_by, KeyLinkStep, key_link_keeps, key_link_tells};

use crate::key_wrap::is_wrappable;
use crate::keys::{ROOM, unwrap_by_key, wrap_by_key};
use crate::ring::Ring;
use kr_base::{Annotations, Bytes, CallLog, List, NoMemory, Text};
use kr_kms::{Kms, KmsNo, Status, Wrapped, WrappedRef};
use std::alloc::Global;
use std::marker::Model;

/// A link in memory. It wraps under the ring's key of its key id, without annotations, and unwraps
/// under the ring's key of the key id that it is given. Its calls fail by their numbers, the first
/// being 1; a wrap also where the plain bytes can't be wrapped, and an unwrap where the source
/// isn't wrapped under a key of the ring.
#[derive(Drop)]
pub struct KeyLink<R: Ring> {
    ring: R,
    name: Text,
    key_id: Text,
    calls: CallLog,
}

impl<R: Ring> Model for KeyLink<R> {
    ghost use Rattle.std.specs.Prelude.{IsSome};
    ghost use Rattle.kr_base.specs.Limits.{IsShort};
    ghost use Rattle.kr_keywrap.specs.KeyLink.{KeyLinkState};

    ghost Value = { KeyLinkState };

    ghost view = { λ link. record { name = link.name; key_id = link.key_id; calls = link.calls } };

    // What it wraps is within the limits, and there is a key to wrap under.
    ghost invariant = { λ link. IsShort link.key_id × IsSome (R.keys link.key_id) };
}

impl<R: Ring> KeyLink<R> {
    /// A link to the plugin of this name, which wraps under the key of this id; each number in
    /// `fails` is that of a call that fails. The key id has 1 to 1,024 bytes, and the ring has its
    /// key.
    pub fn new(ring: R, name: Text, key_id: Text, fails: List<u64>) -> KeyLink<R>
        requires short { IsShort key_id }
        requires key { IsSome (R.keys key_id) }
        ensures { result ≡ record {
          name = name;
          key_id = key_id;
          calls = record { fails = fails.0; made = 0; faults = 0 };
        } }
    {
        KeyLink {
            ring,
            name,
            key_id,
            calls: CallLog::new(fails),
        }
    }

    /// Counts one more call, and answers whether it fails.
    fn fails(&mut self, served: bool) -> bool
        ensures failed { IsTrue result ↔ (IsListed self.old.calls ⊎ (IsTrue served → ⊥)) }
        ensures after { self.new ≡ record self.old {
          calls = if result then after_fault self.old.calls else after_call self.old.calls;
        } }
        ensures later { self.old.calls.faults ≤ self.new.calls.faults }
        ensures rose { OnTrue result (Rose self.old.calls.faults self.new.calls.faults) }
    {
        self.calls.fails(!served)
    }

    /// The key that it wraps under, whose id is of a size that may be.
    fn own_key(&self) -> [u8; 32]
        ensures key { R.keys self.now.key_id ≡ Some result }
        ensures short { IsShort self.now.key_id }
    {
        match self.ring.kek(self.key_id.as_str()) {
            Some(kek) => kek,
            None => unreachable!(),
        }
    }

    /// What plain bytes are wrapped into.
    fn wrap_own(&self, alloc: Global, plain: &[u8]) -> Result<Wrapped, NoMemory>
        requires { IsWrappable (length plain.now) }
        ensures wrapped { IfOk result (IsWrapBy R.keys self.now plain.now) }
        ensures limits { IfOk result (λ wrapped. IsWithinLimits wrapped) }
    {
        let kek = self.own_key();
        wrap_plain(alloc, &kek, self.key_id.as_str(), plain)
    }
}

impl<R: Ring> Kms for KeyLink<R> {
    ghost link = { link_seen };

    ghost step = { KeyLinkStep R.keys };

    ghost keeps = { key_link_keeps R.keys };

    ghost tells = { key_link_tells R.keys };

    fn name(&self) -> &str {
        self.name.as_str()
    }

    fn faults(&self) -> u64 {
        self.calls.faults()
    }

    fn status(&mut self, alloc: Global) -> Result<Status, KmsNo>
        ensures answers { AnswersByKeys self.old (Unit {0})
            (λ status. status ≡ status_of self.old.key_id) result self.new }

        // As the trait says.
        ensures says { Says (link_seen self.old) result (link_seen self.new) }
        ensures asked { KeyLinkStep R.keys self.old (StatusCall self.old.name result) self.new }
    {
        if self.fails(true) {
            return Err(KmsNo::Failed);
        }
        match healthy_status(alloc, self.key_id.as_str()) {
            Ok(status) => Ok(status),
            Err(NoMemory) => Err(KmsNo::NoMemory),
        }
    }

    fn wrap(&mut self, alloc: Global, plain: &[u8]) -> Result<Wrapped, KmsNo>
        ensures answers { AnswersByKeys self.old (IsWrappable (length plain.now))
            (IsWrapBy R.keys self.old plain.now) result self.new }

        // As the trait says.
        ensures wraps { Wraps (link_seen self.old) result (link_seen self.new) }
        ensures asked { KeyLinkStep R.keys self.old
            (WrapCall self.old.name plain.now result) self.new }
    {
        if !is_wrappable(plain.len()) {
            self.fails(false);
            return Err(KmsNo::Failed);
        }
        if self.fails(true) {
            return Err(KmsNo::Failed);
        }
        let Ok(wrapped) = self.wrap_own(alloc, plain) else {
            return Err(KmsNo::NoMemory);
        };
        Ok(wrapped)
    }

    fn unwrap_source(&mut self, alloc: Global, wrapped: &WrappedRef<'_>) -> Result<Bytes, KmsNo>
        ensures answers { AnswersByKeys self.old
            (IsSome (opened_by R.keys wrapped.now.key_id.now wrapped.now.cipher.now))
            (λ bytes. opened_by R.keys wrapped.now.key_id.now wrapped.now.cipher.now ≡ Some bytes)
            result self.new }

        // As the trait says.
        ensures unwraps { AsksLink (link_seen self.old) result (link_seen self.new) }
        ensures asked { KeyLinkStep R.keys self.old (UnwrapCall (asked_key self.old.name
            wrapped.now.key_id.now wrapped.now.annotations.now wrapped.now.cipher.now)
            result) self.new }
    {
        let mut room = [0; ROOM];
        let Some(size) = open(&self.ring, wrapped.key_id, wrapped.cipher, &mut room) else {
            self.fails(false);
            return Err(KmsNo::Failed);
        };
        if self.fails(true) {
            return Err(KmsNo::Failed);
        }
        match Bytes::copy(alloc, &room[..size]) {
            Ok(bytes) => Ok(bytes),
            Err(NoMemory) => Err(KmsNo::NoMemory),
        }
    }
}

/// The status of a healthy plugin with this key id.
pub(crate) fn healthy_status(alloc: Global, key_id: &str) -> Result<Status, NoMemory>
    ensures { IfOk result (λ status. status ≡ status_of key_id.now) }
{
    Ok(Status {
        version: Text::copy(alloc, "v2")?,
        healthz: Text::copy(alloc, "ok")?,
        key_id: Text::copy(alloc, key_id)?,
    })
}

/// What plain bytes are wrapped into under a key and its id.
fn wrap_plain(
    alloc: Global,
    kek: &[u8; 32],
    key_id: &str,
    plain: &[u8],
) -> Result<Wrapped, NoMemory>
    requires { IsWrappable (length plain.now) }
    ensures wrapped { IfOk result (λ wrapped. wrapped ≡ wrapped_by kek.now key_id.now plain.now) }
    ensures limits { IfOk result (λ wrapped. IsShort key_id.now → IsWithinLimits wrapped) }
{
    Ok(Wrapped {
        cipher: wrap_by_key(alloc, kek, plain)?,
        key_id: Text::copy(alloc, key_id)?,
        annotations: Annotations::new(alloc),
    })
}

/// Unwraps a source under the ring's key of this id to the front of the room.
fn open<R: Ring>(ring: &R, key_id: &str, source: &[u8], room: &mut [u8; ROOM]) -> Option<usize>
    ensures { MatchOption result
        (opened_by R.keys key_id.now source.now ≡ None)
        (λ n. (n ≤ 1016) × (opened_by R.keys key_id.now source.now ≡ Some (take n room.new))) }
{
    let Some(kek) = ring.kek(key_id) else {
        return None;
    };
    match unwrap_by_key(&kek, source, room) {
        Ok(size) => Some(size),
        Err(_) => None,
    }
}
