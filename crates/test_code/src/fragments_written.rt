//! Fragments of packets, and their parity, from another program: in Python, by powers of 2 modulo
//! x^8 + x^4 + x^3 + x^2 + 1, a division by the generator with the roots 2^1 to 2^48, the zeros behind a chunk written
//! out, and the formulas of the cut.

ghost use Rattle.std.specs.Prelude.{◌≡◌, ◌≤◌, length};
ghost use Rattle.dcp_pft.specs.Limits.{most_parity};

use crate::wrong::has_none;
use dcp_pft::{MOST_PARITY, chunks, code, shape_for, write_fragment};
use drm_bits::crc16;

/// The longest datagram.
const MTU: u16 = 1400;

/// Bytes that begin with 3 and grow by 7 modulo 256. Each packet has as many of them as it needs.
fn packet() -> [u8; 1400]
    ensures { length result ≡ 1400 }
{
    let mut bytes = [0; 1400];
    let mut next: u8 = 3;
    for byte in &mut bytes {
        *byte = next;
        next = next.wrapping_add(7);
    }
    bytes
}

/// Writes the parity of the packet of so many bytes to the front, and answers its length.
fn parity_of(len: usize, m: u8, parity: &mut [u8; MOST_PARITY]) -> usize
    requires at_least_one { 1 ≤ len }
    requires in_range { len ≤ 1400 }
    requires within_limit { m ≤ 5 }
    ensures { result ≤ most_parity }
{
    let bytes = packet();
    let shape = shape_for(len, m, MTU);
    let end = 48 * chunks(&shape) as usize;
    code(&bytes[..len], &shape, &mut parity[..end]);
    end
}

/// Writes a fragment of the packet of so many bytes, and answers its length, or 0 where there is none of this index.
fn datagram(len: usize, m: u8, seq: u16, index: u32, into: &mut [u8; 1500]) -> usize
    requires at_least_one { 1 ≤ len }
    requires in_range { len ≤ 1400 }
    requires within_limit { m ≤ 5 }
    ensures { result ≤ 1500 }
{
    let bytes = packet();
    let packet = &bytes[..len];
    let shape = shape_for(len, m, MTU);
    let mut room = [0; MOST_PARITY];
    let parity = &mut room[..48 * chunks(&shape) as usize];
    code(packet, &shape, parity);
    if index < shape.count {
        write_fragment(&shape, seq, index, packet, parity, into)
    } else {
        0
    }
}

fn has_parity(len: usize, m: u8, expected: &[u8]) -> bool
    requires at_least_one { 1 ≤ len }
    requires in_range { len ≤ 1400 }
    requires within_limit { m ≤ 5 }
{
    let mut parity = [0xee; MOST_PARITY];
    let end = parity_of(len, m, &mut parity);
    &parity[..end] == expected
}

// The packet of 209 bytes has two chunks, and the second one is filled with one zero.
#[test]
fn writes_parity(rt: HostRuntime) {
    assert!(rt;
        has_parity(12, 5, &PARITY_OF_12)
            && has_parity(209, 5, &PARITY_OF_209)
            && has_parity(1387, 0, &[])
    );
}

fn is_fragment_of_12(row: &(u32, [u8; 24])) -> bool {
    let mut into = [0xee; 1500];
    let end = datagram(12, 5, 0x1234, row.0, &mut into);
    &into[..end] == &row.1[..]
}

// The first fragment that isn't written so.
fn wrong_fragment() -> Option<usize> {
    for (k, row) in FRAGMENTS_OF_12.iter().enumerate() {
        if !is_fragment_of_12(row) {
            return Some(k);
        }
    }
    None
}

// The four places past the coded bytes are zeros, at the ends of the last four fragments.
#[test]
fn writes_fragments(rt: HostRuntime) {
    has_none(&rt, wrong_fragment());
}

/// A fragment: the length of its packet, the fragments that may be lost, the numbers of packet and fragment; its length and
/// the check value of all its bytes.
type WriteCase = (usize, u8, u16, u32, usize, u16);

// Two chunks, and without a code two pieces, of which the last has the rest.
const DATAGRAMS: &[WriteCase] = &[
    (209, 5, 65535, 0, 32, 0xba9f),
    (209, 5, 65535, 1, 32, 0xb431),
    (209, 5, 65535, 2, 32, 0x5ebe),
    (209, 5, 65535, 3, 32, 0x5c4b),
    (209, 5, 65535, 4, 32, 0x8a01),
    (209, 5, 65535, 5, 32, 0xc14d),
    (209, 5, 65535, 6, 32, 0x0d1d),
    (209, 5, 65535, 7, 32, 0x5d69),
    (209, 5, 65535, 8, 32, 0xf6eb),
    (209, 5, 65535, 9, 32, 0x6413),
    (209, 5, 65535, 10, 32, 0xd05d),
    (209, 5, 65535, 11, 32, 0x54c0),
    (209, 5, 65535, 12, 32, 0x4edd),
    (209, 5, 65535, 13, 32, 0x4a5e),
    (209, 5, 65535, 14, 32, 0xbef8),
    (209, 5, 65535, 15, 32, 0x5c78),
    (209, 5, 65535, 16, 32, 0x4107),
    (209, 5, 65535, 17, 32, 0xcce6),
    (209, 5, 65535, 18, 32, 0xe111),
    (209, 5, 65535, 19, 32, 0x252c),
    (1387, 0, 258, 0, 708, 0x116e),
    (1387, 0, 258, 1, 707, 0x4721),
    (400, 2, 7, 15, 47, 0x1155),
];

fn is_written(case: &WriteCase) -> bool {
    let (len, m, seq, index, end, check) = *case;
    if len < 1 || len > 1400 || m > 5 {
        return false;
    }
    let mut into = [0; 1500];
    let written = datagram(len, m, seq, index, &mut into);
    written == end && crc16(&into[..written]) == check
}

// The first datagram that isn't written so.
fn wrong_datagram() -> Option<usize> {
    for (k, row) in DATAGRAMS.iter().enumerate() {
        if !is_written(row) {
            return Some(k);
        }
    }
    None
}

#[test]
fn writes_datagrams(rt: HostRuntime) {
    has_none(&rt, wrong_datagram());
}

/// Whether this fragment of a packet has so many bytes, of which these are the first.
fn begins(len: usize, m: u8, seq: u16, index: u32, end: usize, head: &[u8]) -> bool
    requires at_least_one { 1 ≤ len }
    requires in_range { len ≤ 1400 }
    requires within_limit { m ≤ 5 }
{
    let mut into = [0; 1500];
    datagram(len, m, seq, index, &mut into) == end && into.starts_with(head)
}

#[test]
fn writes_headers(rt: HostRuntime) {
    assert!(rt;
        begins(110, 2, 0, 0, 32, HEAD_OF_110)
            && begins(90, 2, 2, 8, 32, HEAD_OF_90)
            && begins(1387, 0, 258, 1, 707, HEAD_OF_1387)
    );
}

const HEAD_OF_110: &[u8] = b"PF\0\0\0\0\0\0\0\x0a\x80\x10\x6e\0\x9e\xb6";

const HEAD_OF_90: &[u8] = b"\x50\x46\x00\x02\x00\x00\x08\x00\x00\x09\x80\x10\x5a\x00\x07\x5c";

const HEAD_OF_1387: &[u8] = b"\x50\x46\x01\x02\x00\x00\x01\x00\x00\x02\x02\xb5\x37\xc9";

const PARITY_OF_12: [u8; 48] = [
    240, 199, 123, 222, 221, 145, 243, 4, 154, 247, 116, 231, 154, 32, 159, 104, 39, 158, 201, 130,
    71, 96, 13, 43, 8, 151, 152, 210, 193, 46, 94, 63, 197, 126, 8, 162, 70, 146, 179, 187, 151,
    93, 13, 161, 0, 112, 134, 147,
];

const PARITY_OF_209: [u8; 96] = [
    218, 107, 204, 230, 57, 108, 30, 215, 189, 174, 30, 104, 124, 43, 48, 176, 53, 223, 201, 172,
    212, 72, 157, 37, 5, 231, 132, 245, 70, 148, 2, 213, 33, 247, 139, 220, 195, 253, 145, 13, 245,
    13, 245, 241, 102, 85, 148, 80, 17, 3, 53, 69, 197, 72, 58, 54, 232, 28, 89, 249, 86, 79, 215,
    84, 187, 211, 94, 254, 146, 49, 67, 33, 254, 202, 6, 148, 250, 26, 23, 47, 93, 193, 131, 137,
    225, 169, 234, 74, 69, 221, 2, 189, 204, 122, 104, 148,
];

const FRAGMENTS_OF_12: &[(u32, [u8; 24])] = &[
    (
        0,
        [
            80, 70, 18, 52, 0, 0, 0, 0, 0, 8, 128, 8, 12, 0, 194, 5, 3, 59, 221, 154, 71, 193, 70,
            0,
        ],
    ),
    (
        1,
        [
            80, 70, 18, 52, 0, 0, 1, 0, 0, 8, 128, 8, 12, 0, 133, 214, 10, 66, 145, 32, 96, 46,
            146, 112,
        ],
    ),
    (
        2,
        [
            80, 70, 18, 52, 0, 0, 2, 0, 0, 8, 128, 8, 12, 0, 77, 163, 17, 73, 243, 159, 13, 94,
            179, 134,
        ],
    ),
    (
        3,
        [
            80, 70, 18, 52, 0, 0, 3, 0, 0, 8, 128, 8, 12, 0, 10, 112, 24, 80, 4, 104, 43, 63, 187,
            147,
        ],
    ),
    (
        4,
        [
            80, 70, 18, 52, 0, 0, 4, 0, 0, 8, 128, 8, 12, 0, 205, 104, 31, 240, 154, 39, 8, 197,
            151, 0,
        ],
    ),
    (
        5,
        [
            80, 70, 18, 52, 0, 0, 5, 0, 0, 8, 128, 8, 12, 0, 138, 187, 38, 199, 247, 158, 151, 126,
            93, 0,
        ],
    ),
    (
        6,
        [
            80, 70, 18, 52, 0, 0, 6, 0, 0, 8, 128, 8, 12, 0, 66, 206, 45, 123, 116, 201, 152, 8,
            13, 0,
        ],
    ),
    (
        7,
        [
            80, 70, 18, 52, 0, 0, 7, 0, 0, 8, 128, 8, 12, 0, 5, 29, 52, 222, 231, 130, 210, 162,
            161, 0,
        ],
    ),
];
