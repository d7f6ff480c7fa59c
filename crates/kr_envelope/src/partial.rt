//! An encrypted object of which some fields were read: fields are merged into it, and it is
//! finished within the limits.
ghost use Rattle.std.specs.Prelude.{[], OnOk};
ghost use Rattle.kr_envelope.specs.Messages.{Raw, raw_of};
ghost use Rattle.kr_envelope.specs.Limits.{Judges};
ghost use Rattle.kr_envelope.specs.inner.Reading.{item_of, with_item, with_annotation, Sees};

use crate::item::WireItem;
use crate::object::{EncryptedObject, ObjectNo, SourceKind};
use kr_base::{ANNOTATIONS_LIMIT, Annotations, Bytes, NoMemory, Text, are_few, is_short};
use std::alloc::Global;

/// The last value of each field. The annotations are let be as soon as there are too many, since
/// there will be no fewer.
#[derive(Drop)]
pub struct PartialObject<'a> {
    pub encrypted: &'a [u8],
    pub key_id: &'a str,
    pub source: &'a [u8],
    pub kind: u32,
    pub annotations: Annotations,
    pub crowded: bool,
}

impl<'a> PartialObject<'a> {
    /// No field was merged yet.
    pub fn new(alloc: Global) -> PartialObject<'a>
        ensures { Sees result (raw_of []) }
    {
        PartialObject {
            encrypted: &[],
            key_id: "",
            source: &[],
            kind: 0,
            annotations: Annotations::new(alloc),
            crowded: false,
        }
    }

    /// Merges one more item over those before it.
    pub fn merge(&mut self, alloc: Global, item: WireItem<'a>) -> Result<(), NoMemory>
        ensures { (raw : Raw) → Sees self.old raw
            → OnOk result (Sees self.new (with_item raw (item_of item.entry))) }
    {
        match item {
            WireItem::Encrypted(content) => self.encrypted = content,
            WireItem::KeyId(text) => self.key_id = text,
            WireItem::Source(content) => self.source = content,
            WireItem::Annotation(key, value) => return self.merge_annotation(alloc, key, value),
            WireItem::Kind(n) => self.kind = n,
            WireItem::Other => {}
        }
        Ok(())
    }

    fn merge_annotation(&mut self, alloc: Global, key: &str, value: &[u8]) -> Result<(), NoMemory>
        ensures { (raw : Raw) → Sees self.old raw
            → OnOk result (Sees self.new (with_annotation raw key.now value.now)) }
    {
        if self.crowded {
            return Ok(());
        }
        let Ok(key) = Text::copy(alloc, key) else {
            return Err(NoMemory);
        };
        let Ok(value) = Bytes::copy(alloc, value) else {
            return Err(NoMemory);
        };
        match self.annotations.insert(key, value) {
            Ok(()) => {}
            Err(_) => return Err(NoMemory),
        }
        self.crowded = self.annotations.pairs().len() > ANNOTATIONS_LIMIT;
        Ok(())
    }

    /// The object, within its limits.
    pub fn finish(self, alloc: Global) -> Result<EncryptedObject, ObjectNo>
        ensures { (raw : Raw) → Sees self.entry raw → Judges raw result }
    {
        if self.encrypted.is_empty() {
            return Err(ObjectNo::NoData);
        }
        if !is_short(self.key_id.as_bytes()) {
            return Err(ObjectNo::KeyId);
        }
        if !is_short(self.source) {
            return Err(ObjectNo::Source);
        }
        if self.crowded || !are_few(self.annotations.pairs()) {
            return Err(ObjectNo::Annotations);
        }
        let kind = match self.kind {
            0 => SourceKind::Key,
            1 => SourceKind::Seed,
            _ => return Err(ObjectNo::SourceType),
        };
        let Ok(encrypted) = Bytes::copy(alloc, self.encrypted) else {
            return Err(ObjectNo::NoMemory);
        };
        let Ok(key_id) = Text::copy(alloc, self.key_id) else {
            return Err(ObjectNo::NoMemory);
        };
        let Ok(source) = Bytes::copy(alloc, self.source) else {
            return Err(ObjectNo::NoMemory);
        };
        Ok(EncryptedObject {
            encrypted,
            key_id,
            source,
            annotations: self.annotations,
            kind,
        })
    }
}
