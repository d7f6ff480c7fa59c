//! The prefix of a stored value, and encrypted objects read and written.
use crate::tests::making::gives;
use kr_base::name_ok;
use kr_envelope::{EncryptedObject, Kind, provider_prefix};
use std::alloc::Global;

/// Whether the prefix of a plugin's values is that.
fn is_prefix(alloc: Global, name: &str, wanted: &[u8]) -> bool {
    if !name_ok(name) {
        return false;
    }
    gives(provider_prefix(alloc, Kind::Kms, name), wanted)
}

#[test]
fn writes_a_prefix(rt: HostRuntime) {
    assert!(rt; is_prefix(rt.alloc(), "p", b"k8s:enc:kms:v2:p:"));
}

/// An object with all that one may have.
const WHOLE: &[u8] =
    b"\x0a\x02\xaa\xbb\x12\x02k1\x1a\x01\xcc\x22\x09\x0a\x04a.io\x12\x01\x01\x28\x01";

/// The same without annotations, out of order, with another key id before and a field of no
/// meaning.
const STRAY: &[u8] = b"\x28\x01\x12\x01x\x1a\x01\xcc\x30\x07\x0a\x02\xaa\xbb\x12\x02k1";

/// Whether a message is an object that is written as that.
fn rewrites_to_bytes(alloc: Global, bytes: &[u8], wanted: &[u8]) -> bool {
    match EncryptedObject::read(alloc, bytes) {
        Ok(object) => {
            let written = object.write(alloc);
            drop(object);
            gives(written, wanted)
        }
        Err(why) => {
            drop(why);
            false
        }
    }
}

#[test]
fn writes_the_one_form(rt: HostRuntime) {
    assert!(rt; rewrites_to_bytes(rt.alloc(), WHOLE, WHOLE));
    let wanted = b"\x0a\x02\xaa\xbb\x12\x02k1\x1a\x01\xcc\x28\x01";
    assert!(rt; rewrites_to_bytes(rt.alloc(), STRAY, wanted));
}
