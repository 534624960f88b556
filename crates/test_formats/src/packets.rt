//! AF packets, read and written.

use crate::wrong::has_none;
use dcp_af::{Af, AfFault, read_af, write_af};

// The packet with sequence number 0 and no payload. Its check value is that of a long division in Python.
const EMPTY: [u8; 12] = [0x41, 0x46, 0, 0, 0, 0, 0, 0, 0x90, 0x54, 0x04, 0x52];

// Packets of a writer in Python: sequence number, whether the check value counts, minor revision, payload.
const PACKETS: &[(&[u8], u16, bool, u8, &[u8])] = &[
    (&EMPTY, 0, true, 0, b""),
    (b"AF\0\0\0\0\0\0\x10T\0\0", 0, false, 0, b""),
    (
        b"AF\0\0\0\x09\x124\x90T123456789V?",
        0x1234,
        true,
        0,
        b"123456789",
    ),
    (b"AF\0\0\0\x01\xff\xff\x90T\0X'", 0xffff, true, 0, b"\0"),
    (b"AF\0\0\0\x04\0\x01\x90T*ptr\xb8K", 1, true, 0, b"*ptr"),
    (b"AF\0\0\0\x01\0\x02\x9fTxw\xed", 2, true, 15, b"x"),
    (b"AF\0\0\0\x01\0\x03\x1aTy\xbe\xef", 3, false, 10, b"y"),
];

// The first packet that isn't read so.
fn wrong_packet() -> Option<usize> {
    for (k, row) in PACKETS.iter().enumerate() {
        let af = Af {
            seq: row.1,
            checked: row.2,
            minor: row.3,
            payload: row.4,
        };
        if read_af(row.0) != Ok(af) {
            return Some(k);
        }
    }
    None
}

#[test]
fn reads_packets(rt: HostRuntime) {
    has_none(&rt, wrong_packet());
}

// The last ones have several faults, of which the first is answered. Check values are from Python.
const FAULTS: &[(&[u8], AfFault)] = &[
    (b"", AfFault::Sync),
    (b"A", AfFault::Sync),
    (b"AG\0\0\0\0\0\0\x90T\x04R", AfFault::Sync),
    (b"PF", AfFault::Sync),
    (b"AF", AfFault::HeadCut { stands: 2 }),
    (b"AF\0\0\0\0\0\0\x90T\x04", AfFault::HeadCut { stands: 11 }),
    (
        b"AF\0\0\0\0\0\0\x90T\x04R\0",
        AfFault::Length {
            stands: 13,
            described: 12,
        },
    ),
    (
        b"AF\xff\xff\xff\xff\0\0\x90T\x04R",
        AfFault::Length {
            stands: 12,
            described: 0x1_0000_000b,
        },
    ),
    (
        b"AF\0\0\0\x01\0\x04\xa0Tz\x99\xa2",
        AfFault::Version { major: 2 },
    ),
    (
        b"AF\0\0\0\x01\0\x05\x00TzR\x8a",
        AfFault::Version { major: 0 },
    ),
    (
        b"AF\0\0\0\x01\0\x06\xf0Tz*\x04",
        AfFault::Version { major: 7 },
    ),
    (
        b"AF\0\0\0\x01\0\x07\x90Pz\x0b\x1f",
        AfFault::Kind { kind: 0x50 },
    ),
    (
        b"AF\0\0\0\0\0\0\x90T\x04S",
        AfFault::Crc {
            stands: 0x0453,
            computed: 0x0452,
        },
    ),
    (
        b"AF\0\0\0\x02\0\0\xa0P\0\0",
        AfFault::Length {
            stands: 12,
            described: 14,
        },
    ),
    (b"AF\0\0\0\0\0\0\xa0P\0\0", AfFault::Version { major: 2 }),
    (b"AF\0\0\0\0\0\0\x90P\0\0", AfFault::Kind { kind: 0x50 }),
];

// The first packet that has another fault.
fn wrong_fault() -> Option<usize> {
    for (k, row) in FAULTS.iter().enumerate() {
        if read_af(row.0).err() != Some(row.1) {
            return Some(k);
        }
    }
    None
}

#[test]
fn names_the_first_fault(rt: HostRuntime) {
    has_none(&rt, wrong_fault());
}

const WRITTEN: [u8; 22] = *b"AF\0\0\0\x09\x124\x90T123456789V?\xee";

// The bytes are those of the writer in Python. What stands behind the packet stays.
#[test]
fn writes_packets(rt: HostRuntime) {
    let mut into = [0xee; 22];
    into[10..19].copy_from_slice(b"123456789");
    assert!(rt; write_af(0x1234, &mut into, 9) == 21 && into == WRITTEN);
    let mut into = [0; 12];
    assert!(rt; write_af(0, &mut into, 0) == 12 && into == EMPTY);
}
