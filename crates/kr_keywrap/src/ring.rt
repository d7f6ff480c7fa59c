//! Keys by their ids.
ghost use Rattle.std.specs.Prelude.{◌≡◌, ℕ, List, Option};
ghost use Rattle.kr_keywrap.specs.Keys.{Keys, example_keys};

/// Key-encryption keys by their ids.
pub trait Ring {
    // Which keys there are: one function for all rings of the type.
    ghost keys: { List ℕ → Option (List ℕ) };

    /// The key of this id, if there is one. It takes no memory.
    fn kek(&self, key_id: &str) -> Option<[u8; 32]>
        ensures { result ≡ keys key_id.now };
}

/// A ring for examples and tests. It keeps nothing secret: `k1` has the bytes 00 to 1f, `k2` the
/// bytes 20 to 3f, and no other id has a key.
#[derive(Clone, Copy, Debug)]
pub struct ExampleRing;

const FIRST: [u8; 32] = [
    0x00, 0x01, 0x02, 0x03, 0x04, 0x05, 0x06, 0x07, 0x08, 0x09, 0x0a, 0x0b, 0x0c, 0x0d, 0x0e, 0x0f,
    0x10, 0x11, 0x12, 0x13, 0x14, 0x15, 0x16, 0x17, 0x18, 0x19, 0x1a, 0x1b, 0x1c, 0x1d, 0x1e, 0x1f,
];

const SECOND: [u8; 32] = [
    0x20, 0x21, 0x22, 0x23, 0x24, 0x25, 0x26, 0x27, 0x28, 0x29, 0x2a, 0x2b, 0x2c, 0x2d, 0x2e, 0x2f,
    0x30, 0x31, 0x32, 0x33, 0x34, 0x35, 0x36, 0x37, 0x38, 0x39, 0x3a, 0x3b, 0x3c, 0x3d, 0x3e, 0x3f,
];

impl Ring for ExampleRing {
    ghost keys = { example_keys };

    fn kek(&self, key_id: &str) -> Option<[u8; 32]> {
        match key_id {
            "k1" => Some(FIRST),
            "k2" => Some(SECOND),
            _ => None,
        }
    }
}
