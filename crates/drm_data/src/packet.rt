//! A data packet, read.

ghost use Rattle.std.specs.Prelude.{◌≡◌, ◌-◌, ◌≤◌, length, IfOk, IfErr, IsOkAnd, OnOk};
ghost use Rattle.drm_data.specs.PacketFields.{PacketFields, IsPacket};
ghost use Rattle.drm_data.specs.Faults.{IsFault, HasCheck, checked_bytes};
ghost use Rattle.drm_data.specs.Reading.{packet_of, IsHeadOf, FindsUseful};

use crate::DataFault;
use drm_bits::compare_crc16;

/// The bytes of a packet beside its data field: the head and the check value.
pub(crate) const FRAME_BYTES: usize = 3;

const CHECK_BYTES: usize = 2;

/// A packet of data.
#[derive(Clone, Copy, Debug, PartialEq, Eq)]
pub struct DataPacket<'a> {
    /// Whether it is the first packet of its unit.
    pub first: bool,
    /// Whether it is the last one.
    pub last: bool,
    /// The packet id, which tells apart the services of one stream.
    pub id: u8,
    /// The number of the packet among those of its id, modulo 8.
    pub continuity: u8,
    /// The bytes of the unit.
    pub useful: &'a [u8],
}

#[derive(Drop)]
pub(crate) struct DataHead {
    pub first: bool,
    pub last: bool,
    pub id: u8,
    pub padded: bool,
    pub continuity: u8,
}

/// The packet that these bytes are, whose data field has `length` bytes, or the first fault.
/// Example: `read_packet(b"\xe8\x02Hi\0?\x04", 4)` is packet 0 of id 2, first and last of its unit, with `b"Hi"`.
pub fn read_packet(bytes: &[u8], length: u8) -> Result<DataPacket<'_>, DataFault>
    requires { 1 ≤ length }
    // What is read is the packet, and what is a packet is read.
    ensures found { IfOk result (λ packet. IsPacket length (packet_of packet) bytes.now) }
    ensures only { (p : PacketFields) → IsPacket length p bytes.now → IsOkAnd result (λ given. packet_of given ≡ p) }
    // A fault is the first one, and where there is a fault it is answered.
    ensures fault { IfErr result (λ fault. IsFault length fault bytes.now) }
    ensures faults { (fault : DataFault) → IsFault length fault bytes.now → result ≡ Err fault }
{
    let front = checked_front(bytes, length)?;
    let head = head_of(front[0]);
    let useful = useful_of(front, head.padded)?;
    Ok(DataPacket {
        first: head.first,
        last: head.last,
        id: head.id,
        continuity: head.continuity,
        useful,
    })
}

// The bytes before the check value, where their number and the check value are right.
fn checked_front(bytes: &[u8], length: u8) -> Result<&[u8], DataFault>
    ensures fault { IfErr result (λ fault. IsFault length fault bytes.now) }
    ensures whole { OnOk result (HasCheck length bytes.now) }
    ensures front { IfOk result (λ front. front.now ≡ checked_bytes bytes.now) }
{
    let stands = bytes.len();
    if stands != usize::from(length) + FRAME_BYTES {
        return Err(DataFault::Length { stands });
    }
    let (front, check) = bytes.split_at(stands - CHECK_BYTES);
    match compare_crc16(front, check) {
        Ok(()) => Ok(front),
        Err(wrong) => Err(DataFault::Crc {
            stands: wrong.stands,
            computed: wrong.computed,
        }),
    }
}

fn head_of(byte: u8) -> DataHead
    ensures { IsHeadOf result byte }
{
    DataHead {
        first: byte / 0x80 % 2 == 1,
        last: byte / 0x40 % 2 == 1,
        id: byte / 0x10 % 4,
        padded: byte / 8 % 2 == 1,
        continuity: byte % 8,
    }
}

// The useful bytes behind the first byte, where no more are said than fit.
fn useful_of(front: &[u8], padded: bool) -> Result<&[u8], DataFault>
    requires { 2 ≤ length front.now }
    ensures { FindsUseful (length front.now - 1) padded front.now result }
{
    if !padded {
        return Ok(&front[1..]);
    }
    let count = front[1];
    let field = &front[2..];
    if usize::from(count) > field.len() {
        return Err(DataFault::Useful { count });
    }
    Ok(&field[..usize::from(count)])
}
