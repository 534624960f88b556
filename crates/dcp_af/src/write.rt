//! An AF packet, made around its payload.

ghost use Rattle.std.specs.Prelude.{◌≡◌, ◌+◌, ◌^◌, ◌<◌, ◌≤◌, ◌++◌, ◌∷◌, [], length, take, drop, true, slice_range};
ghost use Rattle.std.specs.Int.{w16, w32, to_be_bytes};
ghost use Rattle.dcp_af.specs.Packet.{IsAf, sync, revision, tag_kind};

use crate::head::{CHECK_BYTES, HEAD_BYTES, TAG_KIND};
use drm_bits::{crc16, put_at};

// The check value counts, the major revision is 1 and the minor one 0.
const REVISION: u8 = 0x90;

// The head of a packet with a payload of so many bytes.
fn head(seq: u16, payload: u32) -> [u8; 10]
    ensures { result ≡ sync ++ to_be_bytes w32 payload ++ to_be_bytes w16 seq ++ revision true 1 0 ∷ tag_kind ∷ [] }
{
    let length = payload.to_be_bytes();
    let seq = seq.to_be_bytes();
    [
        b'A', b'F', length[0], length[1], length[2], length[3], seq[0], seq[1], REVISION, TAG_KIND,
    ]
}

/// Makes a packet with this sequence number of the payload that stands from byte 10 on and has `payload` bytes. Writes
/// the head before it and the check value behind it, and answers the length of the packet.
/// Example: with `123456789` in its place, `write_af(0x1234, into, 9)` makes `AF\0\0\0\x09\x124\x90T123456789V?`, and is 21.
pub fn write_af(seq: u16, into: &mut [u8], payload: usize) -> usize
    requires fits { payload < 2 ^ 32 }
    requires room { payload + 12 ≤ length into.old }
    ensures end { result ≡ payload + 12 }
    ensures packet { IsAf (record {
      seq = seq;
      checked = true;
      minor = 0;
      payload = slice_range into.old 10 (payload + 10);
    }) (take result into.new) }
    ensures payload { slice_range into.new 10 (payload + 10) ≡ slice_range into.old 10 (payload + 10) }
    ensures behind { drop result into.new ≡ drop result into.old }
{
    let end = HEAD_BYTES + payload;
    put_at(into, 0, &head(seq, payload as u32));
    let check = crc16(&into[..end]);
    put_at(into, end, &check.to_be_bytes());
    end + CHECK_BYTES
}
