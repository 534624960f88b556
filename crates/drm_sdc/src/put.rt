//! Whole bytes behind what is written.

ghost use Rattle.std.specs.Prelude.{◌≡◌, ◌+◌, ◌*◌, ◌≤◌, length, replicate};
ghost use Rattle.drm_bits.specs.Bits.{bits_of};
ghost use Rattle.drm_bits.specs.Sink.{WroteBits, unwritten};

use drm_bits::{BitSink, Octets};

/// Bytes with an owner.
pub fn put_octets(sink: &mut BitSink<'_>, octets: &Octets)
    requires { 8 * length octets.now ≤ length (unwritten sink.old) }
    ensures wrote { WroteBits (bits_of octets.now) sink.old sink.new }
    ensures remaining { length (unwritten sink.new) + 8 * length octets.now ≡ length (unwritten sink.old) }
{
    put_bytes(sink, octets.as_slice());
}

/// Bytes, one behind another.
pub fn put_bytes(sink: &mut BitSink<'_>, bytes: &[u8])
    requires { 8 * length bytes.now ≤ length (unwritten sink.old) }
    ensures wrote { WroteBits (bits_of bytes.now) sink.old sink.new }
    ensures remaining { length (unwritten sink.new) + 8 * length bytes.now ≡ length (unwritten sink.old) }
{
    for byte in bytes {
        sink.put_u8(*byte, 8);
    }
}

/// So many zero bytes.
pub fn put_zeros(sink: &mut BitSink<'_>, count: usize)
    requires { 8 * count ≤ length (unwritten sink.old) }
    ensures wrote { WroteBits (bits_of (replicate count 0)) sink.old sink.new }
    ensures remaining { length (unwritten sink.new) + 8 * count ≡ length (unwritten sink.old) }
{
    for _ in 0..count {
        sink.put_u8(0, 8);
    }
}
