//! An AF packet, read.

ghost use Rattle.std.specs.Prelude.{◌≡◌, List, ℕ, length, IfOk, IfErr, IsOk, IsOkAnd, OnOk};
ghost use Rattle.dcp_af.specs.Packet.{AfPacket, IsAf};
ghost use Rattle.dcp_af.specs.Faults.{IsFault, HasKind, payload};
ghost use Rattle.dcp_af.specs.Reading.{packet_of, IsHeadOf, ComparesCheckValue};

use crate::AfFault;
use crate::head::{AfHead, CHECK_BYTES, HEAD_BYTES, MAJOR, TAG_KIND, head_of};
use drm_bits::compare_crc16;

/// An AF packet.
#[derive(Clone, Copy, Debug, PartialEq, Eq)]
pub struct Af<'a> {
    /// The sequence number.
    pub seq: u16,
    /// Whether the packet has a check value. Where it hasn't, its last two bytes aren't read.
    pub checked: bool,
    /// The minor revision.
    pub minor: u8,
    /// The bytes between head and check value.
    pub payload: &'a [u8],
}

/// The packet that these bytes are, all of them, or the first fault.
/// Example: `read_af(b"AF\0\0\0\x01\xff\xff\x90T\0X'")` has the sequence number 65,535 and the payload `b"\0"`.
pub fn read_af(packet: &[u8]) -> Result<Af<'_>, AfFault>
    // What is read is the packet, and what is a packet is read.
    ensures found { IfOk result (λ af. IsAf (packet_of af) packet.now) }
    ensures only { (af : AfPacket) → IsAf af packet.now → IsOkAnd result (λ given. packet_of given ≡ af) }
    // A fault is the first one, and where there is a fault it is answered.
    ensures fault { IfErr result (λ fault. IsFault fault packet.now) }
    ensures faults { (fault : AfFault) → IsFault fault packet.now → result ≡ Err fault }
    // The bytes that are lent.
    ensures lent { IfOk result (λ af. af.payload.now ≡ payload packet.now) }
{
    let head = read_head(packet)?;
    let (front, check) = packet.split_at(packet.len() - CHECK_BYTES);
    if head.checked {
        compare(front, check)?;
    }
    Ok(Af {
        seq: head.seq,
        checked: head.checked,
        minor: head.minor,
        payload: &front[HEAD_BYTES..],
    })
}

/// The payload of a packet. That the bytes are one is known, so nothing of them is judged again.
pub fn payload_of(packet: &[u8]) -> &[u8]
    requires known { (af : AfPacket) × IsAf af packet.now }
    ensures payload { (af : AfPacket) → IsAf af packet.now → result.now ≡ af.payload }
{
    &packet[HEAD_BYTES..packet.len() - CHECK_BYTES]
}

// The head, where it isn't refused.
fn read_head(packet: &[u8]) -> Result<AfHead, AfFault>
    ensures fault { IfErr result (λ fault. IsFault fault packet.now) }
    ensures whole { OnOk result (HasKind packet.now) }
    ensures head { IfOk result (λ head. IsHeadOf head packet.now) }
{
    if !packet.starts_with(b"AF") {
        return Err(AfFault::Sync);
    }
    let stands = packet.len();
    if stands < HEAD_BYTES + CHECK_BYTES {
        return Err(AfFault::HeadCut { stands });
    }
    let head = head_of(packet);
    let stands = stands as u64;
    let described = u64::from(head.len) + (HEAD_BYTES + CHECK_BYTES) as u64;
    if stands != described {
        return Err(AfFault::Length { stands, described });
    }
    if head.major != MAJOR {
        return Err(AfFault::Version { major: head.major });
    }
    if head.kind != TAG_KIND {
        return Err(AfFault::Kind { kind: head.kind });
    }
    Ok(head)
}

// Whether the check value is that of the bytes before it.
fn compare(front: &[u8], check: &[u8]) -> Result<(), AfFault>
    requires { length check.now ≡ 2 }
    ensures { ComparesCheckValue result front.now check.now }
{
    match compare_crc16(front, check) {
        Ok(()) => Ok(()),
        Err(wrong) => Err(AfFault::Crc {
            stands: wrong.stands,
            computed: wrong.computed,
        }),
    }
}
