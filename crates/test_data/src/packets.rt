//! Packets as bytes, read and written. The check values are from Python.

use crate::wrong::has_none;
use drm_data::{DataFault, DataPacket, Packer, read_packet};

// The packets of the units `Hi` and 1 to 5 under packet id 2, with data fields of four bytes.
pub(crate) const HI: &[u8] = b"\xe8\x02Hi\0?\x04";

pub(crate) const ONE_TO_FOUR: &[u8] = b"\xa1\x01\x02\x03\x04c\xc5";

pub(crate) const FIVE: &[u8] = b"j\x01\x05\0\0,\xc5";

const PACKETS: &[(&[u8], DataPacket<'static>)] = &[
    (
        HI,
        DataPacket {
            first: true,
            last: true,
            id: 2,
            continuity: 0,
            useful: b"Hi",
        },
    ),
    (
        ONE_TO_FOUR,
        DataPacket {
            first: true,
            last: false,
            id: 2,
            continuity: 1,
            useful: b"\x01\x02\x03\x04",
        },
    ),
    (
        FIVE,
        DataPacket {
            first: false,
            last: true,
            id: 2,
            continuity: 2,
            useful: b"\x05",
        },
    ),
    // Behind its useful bytes, of which it has none, others stand than zeros.
    (
        b"*\0wwwb\xcf",
        DataPacket {
            first: false,
            last: false,
            id: 2,
            continuity: 2,
            useful: b"",
        },
    ),
];

fn is_read(bytes: &[u8], packet: DataPacket<'_>) -> bool {
    read_packet(bytes, 4) == Ok(packet)
}

fn wrong_packet() -> Option<usize> {
    for (k, row) in PACKETS.iter().enumerate() {
        if !is_read(row.0, row.1) {
            return Some(k);
        }
    }
    None
}

#[test]
fn reads_packets(rt: HostRuntime) {
    has_none(&rt, wrong_packet());
}

const FAULTS: &[(&[u8], DataFault)] = &[
    (b"", DataFault::Length { stands: 0 }),
    (b"\xe8\x02Hi\0?", DataFault::Length { stands: 6 }),
    (b"\xe8\x02Hi\0?\x04\0", DataFault::Length { stands: 8 }),
    (
        b"\xe8\x02Hi\0?\x05",
        DataFault::Crc {
            stands: 0x3f05,
            computed: 0x3f04,
        },
    ),
    (b"\xe8\x04Hi\0\x18\x9d", DataFault::Useful { count: 4 }),
];

fn has_fault(bytes: &[u8], fault: DataFault) -> bool {
    read_packet(bytes, 4).err() == Some(fault)
}

fn wrong_fault() -> Option<usize> {
    FAULTS.iter().position(|row| !has_fault(row.0, row.1))
}

#[test]
fn names_the_first_fault(rt: HostRuntime) {
    has_none(&rt, wrong_fault());
}

// Behind the packet the bytes stay.
fn begins_with(into: &[u8; 258], len: usize, packet: &[u8]) -> bool {
    len == packet.len() && into.starts_with(packet) && into[257] == 0xee
}

#[test]
fn makes_packets(rt: HostRuntime) {
    let mut packer = Packer::new(2, 4);
    let mut into = [0xee; 258];
    let len = packer.unit_packet(b"Hi", 0, &mut into);
    assert!(rt; begins_with(&into, len, HI));
    let len = packer.unit_packet(b"\x01\x02\x03\x04\x05", 0, &mut into);
    assert!(rt; begins_with(&into, len, ONE_TO_FOUR));
    let len = packer.unit_packet(b"\x01\x02\x03\x04\x05", 1, &mut into);
    assert!(rt; begins_with(&into, len, FIVE));
}
