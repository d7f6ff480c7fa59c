//! The prefixes of stored values, written, and told apart.
ghost use Rattle.std.specs.Prelude.{◌≡◌, ◌++◌, ◌==◌, IfOk, OnOk, position};
ghost use Rattle.kr_base.specs.Rules.{IsName};
ghost use Rattle.kr_envelope.specs.Prefixes.{head, prefix, IsSplit, IsOnlyOne};
ghost use Rattle.kr_envelope.specs.inner.Parting.{IsParted};

use kr_base::{Bytes, NoMemory, name_ok};
use std::alloc::{AllocError, Global};
use std::str::from_utf8;

/// What every prefix begins with.
pub const MARK: &[u8] = b"k8s:enc:";

/// The kinds of provider that write a prefix. Identity writes none.
#[derive(Clone, Copy, Debug, PartialEq, Eq)]
pub enum Kind {
    /// AES-CBC under a key.
    Aescbc,
    /// AES-GCM under a key.
    Aesgcm,
    /// A KMS plugin.
    Kms,
}

impl Kind {
    /// What the kind's prefixes have before the name.
    pub fn head(&self) -> &'static [u8]
        ensures { result.now ≡ head self.now }
    {
        match self {
            Kind::Aescbc => b"k8s:enc:aescbc:v1:",
            Kind::Aesgcm => b"k8s:enc:aesgcm:v1:",
            Kind::Kms => b"k8s:enc:kms:v2:",
        }
    }
}

/// A stored value by its prefix.
#[derive(Clone, Copy, Debug)]
pub enum Tagged<'a> {
    /// The value has no prefix: these are the data.
    Plain(&'a [u8]),
    /// The provider of this kind and name wrote the body.
    Known {
        kind: Kind,
        name: &'a str,
        body: &'a [u8],
    },
    /// The value begins as a prefix does, and has none that a provider writes.
    Strange,
}

/// The prefix that the provider of this kind and name writes.
pub fn provider_prefix(alloc: Global, kind: Kind, name: &str) -> Result<Bytes, NoMemory>
    requires { IsName name.now }
    ensures { IfOk result (λ bytes. bytes ≡ prefix kind name.now) }
{
    match make_prefix(alloc, kind, name) {
        Ok(bytes) => Ok(Bytes::from_vec(bytes)),
        Err(_) => Err(NoMemory),
    }
}

fn make_prefix(alloc: Global, kind: Kind, name: &str) -> Result<Vec<u8>, AllocError>
    requires { IsName name.now }
    ensures { IfOk result (λ bytes. bytes.items ≡ prefix kind name.now) }
{
    let mut bytes = Vec::with_capacity(alloc, kind.head().len() + name.len() + 1)?;
    push_prefix(&mut bytes, kind, name)?;
    Ok(bytes)
}

/// Appends the prefix that the provider of this kind and name writes.
#[tactic(auto, unfolding(crate::specs::Prefixes::prefix))]
pub fn push_prefix(out: &mut Vec<u8>, kind: Kind, name: &str) -> Result<(), AllocError>
    ensures { OnOk result (out.new.items ≡ out.old.items ++ prefix kind name.now) }
{
    out.extend_from_slice(kind.head())?;
    out.extend_from_slice(name.as_bytes())?;
    out.push(b':')?;
    Ok(())
}

/// What a stored value says of itself, by its first bytes. At most one prefix is the one that it
/// begins with.
pub fn split<'a>(bytes: &'a [u8]) -> Tagged<'a>
    ensures split { IsSplit bytes.now result }
    ensures only { IsOnlyOne bytes.now result }
{
    if !bytes.starts_with(MARK) {
        return Tagged::Plain(bytes);
    }
    if let Some((name, body)) = parted(Kind::Aescbc, bytes) {
        return Tagged::Known {
            kind: Kind::Aescbc,
            name,
            body,
        };
    }
    if let Some((name, body)) = parted(Kind::Aesgcm, bytes) {
        return Tagged::Known {
            kind: Kind::Aesgcm,
            name,
            body,
        };
    }
    if let Some((name, body)) = parted(Kind::Kms, bytes) {
        return Tagged::Known {
            kind: Kind::Kms,
            name,
            body,
        };
    }
    Tagged::Strange
}

/// The name and the body of a value with a prefix of this kind.
fn parted<'a>(kind: Kind, bytes: &'a [u8]) -> Option<(&'a str, &'a [u8])>
    ensures { IsParted kind bytes.now result }
{
    let Some(rest) = bytes.strip_prefix(kind.head()) else {
        return None;
    };
    let Some(at) = first_colon(rest) else {
        return None;
    };
    let Ok(name) = from_utf8(&rest[..at]) else {
        return None;
    };
    if !name_ok(name) {
        return None;
    }
    Some((name, &rest[at + 1..]))
}

/// Where the first colon stands.
fn first_colon(bytes: &[u8]) -> Option<usize>
    ensures { result ≡ position (λ byte. byte == 0x3A) bytes.now }
{
    bytes.iter().position(|byte| *byte == b':')
}
