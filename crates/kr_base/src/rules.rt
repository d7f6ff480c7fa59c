//! The rules for names, paths and resources.
ghost use Rattle.std.specs.Prelude.{◌≡◌, ◌↔◌, IsTrue};
ghost use Rattle.kr_base.specs.Rules.{IsGraphic, IsPath, IsName, IsLabelByte, AreLabels, IsResource, is_path, is_name, is_resource};

use crate::limits::{NAME_LIMIT, PATH_LIMIT};

/// A path: 1 to 1,024 bytes from `!` to `~`.
pub fn path_ok(path: &str) -> bool
    ensures rule { IsTrue result ↔ IsPath path.now }
    ensures test { result ≡ is_path path.now }
{
    is_path(path)
}

/// The name of a key or a plugin: 1 to 253 bytes from `!` to `~`, none of them `:`.
pub fn name_ok(name: &str) -> bool
    ensures rule { IsTrue result ↔ IsName name.now }
    ensures test { result ≡ is_name name.now }
{
    is_name(name)
}

/// A resource: `name` or `name.group`, at most 253 bytes. A name and each part of a group between
/// dots is one or more of a to z, 0 to 9 and `-`.
pub fn resource_ok(resource: &str) -> bool
    ensures rule { IsTrue result ↔ IsResource resource.now }
    ensures test { result ≡ is_resource resource.now }
{
    is_resource(resource)
}

fn is_path(path: &str) -> bool
    ensures { IsTrue result ↔ IsPath path.now }
{
    !path.is_empty() && path.len() <= PATH_LIMIT && path.bytes().all(|byte| is_graphic(byte))
}

fn is_name(name: &str) -> bool
    ensures { IsTrue result ↔ IsName name.now }
{
    !name.is_empty()
        && name.len() <= NAME_LIMIT
        && name.bytes().all(|byte| is_graphic(byte) && byte != b':')
}

fn is_resource(resource: &str) -> bool
    ensures { IsTrue result ↔ IsResource resource.now }
{
    resource.len() <= NAME_LIMIT && are_labels(resource.as_bytes())
}

/// One or more labels parted by dots.
fn are_labels(bytes: &[u8]) -> bool
    ensures { IsTrue result ↔ AreLabels bytes.now }
{
    let mut begun = false;
    for byte in bytes {
        if begun && *byte == b'.' {
            begun = false;
        } else if is_label_byte(*byte) {
            begun = true;
        } else {
            return false;
        }
    }
    begun
}

fn is_graphic(byte: u8) -> bool
    ensures { IsTrue result ↔ IsGraphic byte }
{
    (b'!'..=b'~').contains(&byte)
}

fn is_label_byte(byte: u8) -> bool
    ensures { IsTrue result ↔ IsLabelByte byte }
{
    byte.is_ascii_lowercase() || byte.is_ascii_digit() || byte == b'-'
}
