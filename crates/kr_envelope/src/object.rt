//! The encrypted object of a KMS plugin's value.
ghost use Rattle.std.specs.Prelude.{◌≡◌, IfOk, OnOk};
ghost use Rattle.kr_envelope.specs.Limits.{ReadsMessage};
ghost use Rattle.kr_envelope.specs.Canonical.{IsWritable, IsReadBack, IsKept, canonical};

use crate::canonical::{push_content, push_kind, push_pairs};
use crate::item::{ItemNo, take_item};
use crate::partial::PartialObject;
use kr_base::{Annotations, Bytes, NoMemory, Text};
use std::alloc::{AllocError, Global};

/// What the wrapped source of an object is.
#[derive(Clone, Copy, Debug, PartialEq, Eq)]
pub enum SourceKind {
    /// The key itself.
    Key,
    /// A seed, of which the keys are made.
    Seed,
}

/// What a KMS plugin's value is besides its prefix.
#[derive(Debug, Drop)]
pub struct EncryptedObject {
    /// The sealed data.
    pub encrypted: Bytes,
    /// The id of the plugin's key that wrapped the source.
    pub key_id: Text,
    /// The wrapped source.
    pub source: Bytes,
    /// What the plugin wants back with the source.
    pub annotations: Annotations,
    /// What the source is.
    pub kind: SourceKind,
}

/// Why bytes are no encrypted object.
#[derive(Clone, Copy, Debug, PartialEq, Eq)]
pub enum ObjectNo {
    /// What begins at this byte is no field, or an annotation whose own bytes aren't fields.
    Wire { at: u64 },
    /// The key id hasn't 1 to 1,024 bytes.
    KeyId,
    /// The source hasn't 1 to 1,024 bytes.
    Source,
    /// There are more than 256 annotations, or their keys and values have more than 32,768 bytes.
    Annotations,
    /// The source type is neither 0 nor 1.
    SourceType,
    /// There are no sealed data.
    NoData,
    /// The field that begins at this byte is a key id that isn't UTF-8, or an annotation whose key
    /// isn't.
    NotUtf8 { at: u64 },
    /// There was no memory for the object.
    NoMemory,
}

impl EncryptedObject {
    /// The object of the fields that the bytes spell, or the first breach: one of the wire format
    /// or of UTF-8, by its place, and then of the limits, in the order data, key id, source,
    /// annotations, source type.
    pub fn read(alloc: Global, bytes: &[u8]) -> Result<EncryptedObject, ObjectNo>
        ensures { ReadsMessage bytes.now result }
    {
        let mut partial = PartialObject::new(alloc);
        let mut rest = bytes;
        while !rest.is_empty() {
            let at = (bytes.len() - rest.len()) as u64;
            let (item, behind) = match take_item(rest) {
                Ok(taken) => taken,
                Err(ItemNo::Wire) => return Err(ObjectNo::Wire { at }),
                Err(ItemNo::NotUtf8) => return Err(ObjectNo::NotUtf8 { at }),
            };
            match partial.merge(alloc, item) {
                Ok(()) => {}
                Err(_) => return Err(ObjectNo::NoMemory),
            }
            rest = behind;
        }
        partial.finish(alloc)
    }

    /// The object's bytes, in their one form. They are read back as the object.
    pub fn write(&self, alloc: Global) -> Result<Bytes, NoMemory>
        requires { IsWritable self.now }
        ensures canonical { IfOk result (λ bytes. bytes ≡ canonical self.now) }
        ensures again { IfOk result (λ bytes. IsReadBack bytes self.now) }
    {
        match self.written(alloc) {
            Ok(bytes) => Ok(Bytes::from_vec(bytes)),
            Err(_) => Err(NoMemory),
        }
    }

    fn written(&self, alloc: Global) -> Result<Vec<u8>, AllocError>
        requires { IsWritable self.now }
        ensures canonical { IfOk result (λ bytes. bytes.items ≡ canonical self.now) }
        ensures kept { OnOk result (IsKept self.now) }
    {
        let mut out = Vec::with_capacity(alloc, self.room())?;
        push_content(&mut out, 1, self.encrypted.as_slice())?;
        push_content(&mut out, 2, self.key_id.as_str().as_bytes())?;
        push_content(&mut out, 3, self.source.as_slice())?;
        push_pairs(&mut out, self.annotations.pairs())?;
        push_kind(&mut out, self.kind)?;
        Ok(out)
    }

    /// About as many bytes as it takes, so that the bytes written seldom move.
    fn room(&self) -> usize {
        let mut room = self.encrypted.as_slice().len();
        room = room.saturating_add(self.key_id.as_str().len());
        room = room.saturating_add(self.source.as_slice().len());
        for (key, value) in self.annotations.pairs() {
            room = room.saturating_add(key.as_str().len());
            room = room.saturating_add(value.as_slice().len());
            room = room.saturating_add(12);
        }
        room.saturating_add(40)
    }
}
