//! Shapes of packets, from the formulas in Python.

use crate::wrong::has_none;
use dcp_pft::{Carry, MOST_FRAGMENTS, Rs, Shape, chunks, most_packet, shape_for};

/// The length of the packet, the fragments that may be lost, the longest datagram; the shape, and the number of chunks.
type ShapeCase = (usize, u8, u16, u32, u16, Option<Rs>, u32);

const CASES: &[ShapeCase] = &[
    (12, 5, 1400, 8, 8, Some(Rs { k: 12, z: 0 }), 1),
    (207, 1, 1400, 11, 24, Some(Rs { k: 207, z: 0 }), 1),
    (208, 5, 1400, 19, 16, Some(Rs { k: 104, z: 0 }), 2),
    (209, 5, 1400, 20, 16, Some(Rs { k: 105, z: 1 }), 2),
    (400, 2, 1400, 16, 31, Some(Rs { k: 200, z: 0 }), 2),
    (8192, 5, 128, 91, 112, Some(Rs { k: 205, z: 8 }), 40),
    (110, 2, 1400, 10, 16, Some(Rs { k: 110, z: 0 }), 1),
    (90, 2, 1400, 9, 16, Some(Rs { k: 90, z: 0 }), 1),
    (1, 5, 128, 7, 7, Some(Rs { k: 1, z: 0 }), 1),
    (8192, 1, 1500, 11, 920, Some(Rs { k: 205, z: 8 }), 40),
    (1129, 2, 1400, 15, 95, Some(Rs { k: 189, z: 5 }), 6),
    (1086, 2, 1400, 15, 92, Some(Rs { k: 181, z: 0 }), 6),
    (400, 0, 1400, 1, 400, None, 0),
    (1387, 0, 1400, 2, 694, None, 0),
    (1, 0, 128, 1, 1, None, 0),
    (8192, 0, 128, 72, 114, None, 0),
    (32768, 5, 256, 169, 240, Some(Rs { k: 207, z: 145 }), 159),
    (32768, 1, 1500, 28, 1449, Some(Rs { k: 207, z: 145 }), 159),
    (32768, 0, 1500, 23, 1425, None, 0),
    (32768, 0, 256, 136, 241, None, 0),
    (8193, 5, 256, 43, 236, Some(Rs { k: 205, z: 7 }), 40),
    (8192, 5, 255, 43, 236, Some(Rs { k: 205, z: 8 }), 40),
];

fn is_cut_so(case: &ShapeCase) -> bool {
    let (len, m, mtu, count, piece, rs, made) = *case;
    if len < 1 || len > most_packet(Carry::Pft { m, mtu }) || m > 5 || mtu < 128 || mtu > 1500 {
        return false;
    }
    let shape = shape_for(len, m, mtu);
    shape == Shape { count, piece, rs } && chunks(&shape) == made
}

// The first row of each table that doesn't hold.
fn wrong_cut() -> Option<usize> {
    for (k, row) in CASES.iter().enumerate() {
        if !is_cut_so(row) {
            return Some(k);
        }
    }
    None
}

#[test]
fn cuts_packets(rt: HostRuntime) {
    has_none(&rt, wrong_cut());
}

// Shapes that are no packet's, as a receiver may see them, and the number of their chunks.
const OTHERS: &[(u32, u16, Option<Rs>, u32)] = &[
    (1, 254, Some(Rs { k: 207, z: 0 }), 0),
    (1, 255, Some(Rs { k: 207, z: 0 }), 1),
    (3, 255, Some(Rs { k: 207, z: 206 }), 3),
    (4096, 12, None, 0),
    (4096, 12, Some(Rs { k: 1, z: 0 }), 1003),
];

fn has_chunks(count: u32, piece: u16, rs: Option<Rs>, made: u32) -> bool {
    count <= MOST_FRAGMENTS && chunks(&Shape { count, piece, rs }) == made
}

fn wrong_count() -> Option<usize> {
    for (k, row) in OTHERS.iter().enumerate() {
        if !has_chunks(row.0, row.1, row.2, row.3) {
            return Some(k);
        }
    }
    None
}

#[test]
fn counts_chunks(rt: HostRuntime) {
    has_none(&rt, wrong_count());
}

// The most bytes of a packet.
const LIMITS: &[(Carry, usize)] = &[
    (Carry::Plain, 32768),
    (Carry::Pft { m: 5, mtu: 1500 }, 32768),
    (Carry::Pft { m: 0, mtu: 256 }, 32768),
    (Carry::Pft { m: 0, mtu: 255 }, 8192),
    (Carry::Pft { m: 5, mtu: 128 }, 8192),
];

fn wrong_limit() -> Option<usize> {
    for (k, row) in LIMITS.iter().enumerate() {
        if most_packet(row.0) != row.1 {
            return Some(k);
        }
    }
    None
}

#[test]
fn limits_packets(rt: HostRuntime) {
    has_none(&rt, wrong_limit());
}
