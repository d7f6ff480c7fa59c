//! What a buffer holds behind opened data.

ghost use Rattle.std.specs.Prelude.{◌≡◌, ◌≤◌, ◌-◌, length, take, drop, replicate};

/// Writes zeros behind the first `size` bytes, so that no reader of the buffer finds padding there,
/// nor anything else that the value or its key gave.
pub(crate) fn wipe_behind(buffer: &mut [u8], size: usize)
    requires { size ≤ length buffer.old }
    ensures front { take size buffer.new ≡ take size buffer.old }
    ensures behind { drop size buffer.new ≡ replicate (length buffer.old - size) 0 }
{
    buffer[size..].fill(0);
}
