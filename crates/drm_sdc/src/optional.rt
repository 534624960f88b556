//! A byte that may be absent.

ghost use Rattle.std.specs.Prelude.{◌≡◌, true, ◌+◌, ◌*◌, ◌≤◌, length};
ghost use Rattle.std.specs.Int.{from_bool};
ghost use Rattle.drm_bits.specs.Fields.{spelled};
ghost use Rattle.drm_bits.specs.Sink.{WroteBits, unwritten};
ghost use Rattle.drm_sdc.specs.Bodies.{optional as optional_fields, count};
ghost use Rattle.drm_sdc.specs.Reading.{optional_from, behind};

use drm_bits::{BitSink, Bits};

/// Takes a byte, where it is there.
pub fn take_optional(bits: &mut Bits<'_>, there: bool) -> Option<u8>
    requires { there ≡ true → 8 ≤ length bits.old }
    ensures number { result ≡ optional_from there bits.old }
    ensures rest { bits.new ≡ behind there bits.old }
    ensures remaining { length bits.new + 8 * from_bool there ≡ length bits.old }
{
    if there { Some(bits.take_u8(8)) } else { None }
}

/// Puts a byte, where it is there.
pub fn put_optional(sink: &mut BitSink<'_>, byte: Option<u8>)
    requires { 8 * count byte ≤ length (unwritten sink.old) }
    ensures wrote { WroteBits (spelled (optional_fields byte)) sink.old sink.new }
    ensures remaining { length (unwritten sink.new) + 8 * count byte ≡ length (unwritten sink.old) }
{
    if let Some(byte) = byte {
        sink.put_u8(byte, 8);
    }
}
