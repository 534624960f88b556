//! Check values, computed by a long division of bit lists in Python.

use crate::wrong::has_none;
use drm_bits::{CrcRun, crc8, crc16};

const FAC: [u8; 8] = [0x66, 0x08, 0x01, 0x23, 0x45, 0x60, 0xa1, 0x80];

// The second row is the first eight bytes of a FAC, and the third the head of an AF packet without payload, which ends
// with the bytes 04 52.
const VALUES: &[(&[u8], u8, u16)] = &[
    (b"123456789", 0x4b, 0xd64e),
    (&FAC, 0x6d, 0x05ac),
    (b"AF\0\0\0\0\0\0\x90T", 0x5e, 0x0452),
    (&[0], 0x3b, 0x1e0f),
    (&[], 0x00, 0x0000),
];

// The first list that has another value.
fn wrong_value() -> Option<usize> {
    for (k, row) in VALUES.iter().enumerate() {
        if crc8(row.0) != row.1 || crc16(row.0) != row.2 {
            return Some(k);
        }
    }
    None
}

#[test]
fn lists_have_check_values(rt: HostRuntime) {
    has_none(&rt, wrong_value());
}

// The value after a run over these bytes.
fn run_over(bytes: &[u8]) -> u16 {
    let mut run = CrcRun::start();
    for byte in bytes {
        run = run.byte(*byte);
    }
    run.value()
}

#[test]
fn runs_have_check_values(rt: HostRuntime) {
    assert!(rt;
        run_over(b"") == 0 && run_over(b"\0") == 0x1e0f && run_over(b"123456789") == 0xd64e
    );
}
