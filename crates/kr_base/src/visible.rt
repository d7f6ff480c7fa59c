//! Foreign texts as they are printed.
ghost use Rattle.std.specs.Prelude.{◌≡◌, ◌++◌, IfOk};
ghost use Rattle.kr_base.specs.Visible.{visible, visible_byte};

use crate::errors::NoMemory;

/// Adds a foreign text to bytes as it is printed: a byte outside 20 to 7E hex is a `?`.
pub fn push_visible(bytes: &mut Vec<u8>, foreign: &str) -> Result<(), NoMemory>
    ensures { IfOk result (λ done. bytes.new.items ≡ bytes.old.items ++ visible foreign.now) }
{
    for byte in foreign.as_bytes() {
        bytes.push(visible_byte(*byte))?;
    }
    Ok(())
}

fn visible_byte(byte: u8) -> u8
    ensures { result ≡ visible_byte byte }
{
    if byte >= 0x20 && byte <= 0x7E {
        byte
    } else {
        b'?'
    }
}
