//! A plugin in memory, for tests. It keeps nothing secret.
ghost use Rattle.std.specs.Prelude.{◌≡◌, ◌⊎◌, ◌↔◌, ◌%◌, ◌≤◌, [], IsTrue, IfOk, sum};
ghost use Rattle.std.specs.Prelude.{if◌then◌else◌};
ghost use Rattle.std.specs.Bool.{OnTrue};
ghost use Rattle.kr_base.specs.Faults.{Rose};
ghost use Rattle.kr_base.specs.InMemory.{IsListed, after_call, after_fault};
ghost use Rattle.kr_kms.specs.Calls.{AsksLink, Says, Wraps, asked_key};
ghost use Rattle.kr_kms.specs.Exchanges.{StatusCall, WrapCall, UnwrapCall};
ghost use Rattle.kr_kms.specs.Limits.{IsWithinLimits};
ghost use Rattle.kr_kms.specs.Table.{AnswersByTable, annotated_salt, annotations_mask, xor_of, salt_pair, wrapped_by_table};
ghost use Rattle.kr_kms.specs.Table.{table_status, link_of, TableStep, table_keeps};
ghost use Rattle.kr_kms.specs.Table.{table_tells};

use crate::plugin::{Kms, KmsNo, Status, Wrapped, WrappedRef};
use kr_base::{Annotations, Bytes, CallLog, List, NoMemory, Text, both, is_short};
use std::alloc::Global;
use std::marker::Model;

/// The annotation that has the salt as its value.
const SALT_KEY: &str = "test.kmsrest/salt";

/// A plugin in memory. It masks bytes by the sum of its key id and its salt of one byte. Its calls
/// fail by their numbers, the first being 1, and a wrap also where its answer would pass a limit.
#[derive(Drop)]
pub struct TablePlugin {
    name: Text,
    key_id: Text,
    salt: u8,
    version: Text,
    healthz: Text,
    calls: CallLog,
}

impl Model for TablePlugin {
    ghost use Rattle.kr_kms.specs.Table.{Table};

    ghost Value = { Table };

    ghost view = { λ plugin. record {
      name = plugin.name;
      key_id = plugin.key_id;
      salt = plugin.salt;
      version = plugin.version;
      healthz = plugin.healthz;
      calls = plugin.calls;
    } };
}

impl TablePlugin {
    /// A plugin with this name, current key id and status; each number in `fails` is that of a call
    /// that fails.
    pub fn new(
        name: Text,
        key_id: Text,
        salt: u8,
        version: Text,
        healthz: Text,
        fails: List<u64>,
    ) -> TablePlugin
        ensures { result ≡ record {
          name = name;
          key_id = key_id;
          salt = salt;
          version = version;
          healthz = healthz;
          calls = record { fails = fails.0; made = 0; faults = 0 };
        } }
    {
        TablePlugin {
            name,
            key_id,
            salt,
            version,
            healthz,
            calls: CallLog::new(fails),
        }
    }

    /// Puts another key in the place of the current one. What was wrapped before still opens.
    pub fn set_key_id(&mut self, key_id: Text)
        ensures { self.new ≡ record self.old { key_id = key_id } }
    {
        self.key_id = key_id;
    }

    /// Counts one more call, and answers whether it fails.
    fn fails(&mut self, served: bool) -> bool
        ensures failed { IsTrue result ↔ (IsListed self.old.calls ⊎ (IsTrue served → ⊥)) }
        ensures after { self.new ≡ record self.old {
          calls = if result then after_fault self.old.calls else after_call self.old.calls;
        } }
        ensures later { self.old.calls.faults ≤ self.new.calls.faults }
        ensures rose { OnTrue result (Rose self.old.calls.faults self.new.calls.faults) }
    {
        self.calls.fails(!served)
    }
}

impl Kms for TablePlugin {
    ghost link = { link_of };

    ghost step = { TableStep };

    ghost keeps = { table_keeps };

    ghost tells = { table_tells };

    fn name(&self) -> &str {
        self.name.as_str()
    }

    fn faults(&self) -> u64 {
        self.calls.faults()
    }

    fn status(&mut self, alloc: Global) -> Result<Status, KmsNo>
        ensures answers { AnswersByTable self.old (Unit {0}) (table_status self.old) result
            self.new }

        // As the trait says.
        ensures says { Says (link_of self.old) result (link_of self.new) }
        ensures asked { TableStep self.old (StatusCall self.old.name result) self.new }
    {
        if self.fails(true) {
            return Err(KmsNo::Failed);
        }
        let version = Text::copy(alloc, self.version.as_str());
        let healthz = Text::copy(alloc, self.healthz.as_str());
        let key_id = Text::copy(alloc, self.key_id.as_str());
        match both(both(version, healthz), key_id) {
            Ok(((version, healthz), key_id)) => Ok(Status {
                version,
                healthz,
                key_id,
            }),
            Err(NoMemory) => Err(KmsNo::NoMemory),
        }
    }

    fn wrap(&mut self, alloc: Global, plain: &[u8]) -> Result<Wrapped, KmsNo>
        ensures answers { AnswersByTable self.old
            (IsWithinLimits (wrapped_by_table self.old plain.now))
            (wrapped_by_table self.old plain.now) result self.new }

        // As the trait says.
        ensures wraps { Wraps (link_of self.old) result (link_of self.new) }
        ensures asked { TableStep self.old (WrapCall self.old.name plain.now result) self.new }
    {
        if self.fails(serves(self, plain)) {
            return Err(KmsNo::Failed);
        }
        match wrap_plain(alloc, self, plain) {
            Ok(wrapped) => Ok(wrapped),
            Err(NoMemory) => Err(KmsNo::NoMemory),
        }
    }

    fn unwrap_source(&mut self, alloc: Global, wrapped: &WrappedRef<'_>) -> Result<Bytes, KmsNo>
        ensures answers { AnswersByTable self.old (Unit {0})
            (xor_of (annotations_mask wrapped.now.key_id.now wrapped.now.annotations.now)
            wrapped.now.cipher.now) result self.new }

        // As the trait says.
        ensures unwraps { AsksLink (link_of self.old) result (link_of self.new) }
        ensures asked { TableStep self.old (UnwrapCall (asked_key self.old.name
            wrapped.now.key_id.now wrapped.now.annotations.now wrapped.now.cipher.now)
            result) self.new }
    {
        if self.fails(true) {
            return Err(KmsNo::Failed);
        }
        let mask = annotations_mask(wrapped.key_id, wrapped.annotations);
        match xor_all(alloc, wrapped.cipher, mask) {
            Ok(bytes) => Ok(bytes),
            Err(NoMemory) => Err(KmsNo::NoMemory),
        }
    }
}

/// Whether what the plugin makes of the plain bytes is within the limits.
#[tactic(auto, using(crate::proofs::Masks::within, crate::proofs::Masks::within_back))]
fn serves(plugin: &TablePlugin, plain: &[u8]) -> bool
    ensures { IsTrue result ↔ IsWithinLimits (wrapped_by_table plugin.now plain.now) }
{
    is_short(plain) && is_short(plugin.key_id.as_str().as_bytes())
}

/// What the plugin makes of plain bytes.
fn wrap_plain(alloc: Global, plugin: &TablePlugin, plain: &[u8]) -> Result<Wrapped, NoMemory>
    ensures { IfOk result (λ wrapped. wrapped ≡ wrapped_by_table plugin.now plain.now) }
{
    let annotations = salt_pair(alloc, plugin.salt)?;
    let mask = annotations_mask(plugin.key_id.as_str(), &annotations);
    let made = both(
        Text::copy(alloc, plugin.key_id.as_str()),
        xor_all(alloc, plain, mask),
    );
    match made {
        Ok((key_id, cipher)) => Ok(Wrapped {
            cipher,
            key_id,
            annotations,
        }),
        Err(NoMemory) => {
            drop(annotations);
            Err(NoMemory)
        }
    }
}

/// The one annotation with the salt.
fn salt_pair(alloc: Global, salt: u8) -> Result<Annotations, NoMemory>
    ensures { IfOk result (λ annotations. annotations ≡ salt_pair salt) }
{
    let (key, value) = both(Text::copy(alloc, SALT_KEY), Bytes::copy(alloc, &[salt]))?;
    let mut annotations = Annotations::new(alloc);
    match annotations.insert(key, value) {
        Ok(()) => Ok(annotations),
        Err(NoMemory) => {
            drop(annotations);
            Err(NoMemory)
        }
    }
}

/// The value of the annotation with the salt; where there is none, no bytes.
fn annotated_salt(annotations: &Annotations) -> &[u8]
    ensures { result.now ≡ annotated_salt annotations.now }
{
    for pair in annotations.pairs() {
        if SALT_KEY == pair.0.as_str() {
            return pair.1.as_slice();
        }
    }
    &[]
}

/// The sum of the bytes, modulo 256.
fn byte_sum(bytes: &[u8]) -> u8
    ensures { result ≡ sum bytes.now % 256 }
{
    let mut sum: u8 = 0;
    for byte in bytes {
        sum = sum.wrapping_add(*byte);
    }
    sum
}

/// The mask under a key id with these annotations.
fn annotations_mask(key_id: &str, annotations: &Annotations) -> u8
    ensures { result ≡ annotations_mask key_id.now annotations.now }
{
    byte_sum(key_id.as_bytes()).wrapping_add(byte_sum(annotated_salt(annotations)))
}

/// The bytes, each xor the mask.
fn xor_all(alloc: Global, bytes: &[u8], mask: u8) -> Result<Bytes, NoMemory>
    ensures { IfOk result (λ out. out ≡ xor_of mask bytes.now) }
{
    match bytes.iter().map(|byte| *byte ^ mask).collect(alloc) {
        Ok(out) => Ok(Bytes::from_vec(out)),
        Err(_) => Err(NoMemory),
    }
}
