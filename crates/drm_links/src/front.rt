//! The front of a buffer.

ghost use Rattle.std.specs.Prelude.{◌≡◌, ◌≤◌, ◌++◌, drop, length};

/// Puts the bytes at the front of the buffer, whose further bytes stay.
pub fn fill_front(buf: &mut [u8], bytes: &[u8])
    requires { length bytes.now ≤ length buf.old }
    ensures { buf.new ≡ bytes.now ++ drop (length bytes.now) buf.old }
{
    buf[..bytes.len()].copy_from_slice(bytes);
}
