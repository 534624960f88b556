ghost use Rattle.std.specs.Prelude.{◌≤◌};

use crate::wrong::has_none;
use dcp_pft::{Addr, Fragment, PftFault, Rs, read_fragment};

const MOST: usize = 1300;

// Puts the header before the bytes that stand there, and answers where so many of them end.
fn put(head: &[u8], len: usize, into: &mut [u8; MOST]) -> usize
    ensures { result ≤ 1300 }
{
    let front = head.len().min(MOST);
    into[..front].copy_from_slice(&head[..front]);
    head.len().saturating_add(len).min(MOST)
}

type Numbers = (u16, u32, u32);

// Headers of a writer in Python, the lengths of their payloads, sequence number, index and count.
type FragmentCase = (&'static [u8], usize, Numbers, Option<Rs>, Option<Addr>);

const FRAGMENTS: &[FragmentCase] = &[
    (
        b"PF\0\0\0\0\0\0\0\x0a\x80\x10n\0\x9e\xb6",
        16,
        (0x0, 0, 10),
        Some(Rs { k: 110, z: 0 }),
        None,
    ),
    (
        b"PF\x12\x34\0\0\x01\0\0\x03\0\x05J\x93",
        5,
        (0x1234, 1, 3),
        None,
        None,
    ),
    (
        b"PF\xff\xff\0\0\x02\0\0\x04@\0\x01\x02\xff\xfe\x0fy",
        0,
        (0xffff, 2, 4),
        None,
        Some(Addr {
            source: 0x0102,
            dest: 0xfffe,
        }),
    ),
    (
        b"PF\0\x07\0\0\x03\0\0\x05\xc0 PO\xff\xff\0\0F\xda",
        32,
        (0x7, 3, 5),
        Some(Rs { k: 80, z: 79 }),
        Some(Addr {
            source: 0xffff,
            dest: 0x0000,
        }),
    ),
    (
        b"PF\0\x01\0\x0f\xff\0\x10\0\0\0\x0a\xe5",
        0,
        (0x1, 4095, 4096),
        None,
        None,
    ),
    (
        b"PF\0\x02\0\0/\0\0\x30\x04\0\x1b:",
        1024,
        (0x2, 47, 48),
        None,
        None,
    ),
    (
        b"PF\0\x03\0\0\0\0\0\x01\x80\xff\xcf\xce\x90~",
        255,
        (0x3, 0, 1),
        Some(Rs { k: 207, z: 206 }),
        None,
    ),
    (
        b"PF\0\x04\0\0\x30\0\0\x31\x80\x01\x01\0\x06{",
        1,
        (0x4, 48, 49),
        Some(Rs { k: 1, z: 0 }),
        None,
    ),
    (
        b"PF\0\x05\0\0\0\0\0\x01\0\0d\xcb",
        0,
        (0x5, 0, 1),
        None,
        None,
    ),
    (
        b"PF\0\x06\0\0\0\0\0\x31\x83\xe8\xcf\0p\x33",
        1000,
        (0x6, 0, 49),
        Some(Rs { k: 207, z: 0 }),
        None,
    ),
];

fn is_read(case: &FragmentCase) -> bool {
    let (head, len, numbers, rs, addr) = *case;
    let mut into = [0x5a; MOST];
    let end = put(head, len, &mut into);
    let fragment = Fragment {
        seq: numbers.0,
        index: numbers.1,
        count: numbers.2,
        rs,
        addr,
        payload: &[0x5a; MOST][..len.min(MOST)],
    };
    read_fragment(&into[..end]) == Ok(fragment)
}

// The first fragment that isn't read so.
fn wrong_fragment() -> Option<usize> {
    for (k, row) in FRAGMENTS.iter().enumerate() {
        if !is_read(row) {
            return Some(k);
        }
    }
    None
}

#[test]
fn reads_fragments(rt: HostRuntime) {
    has_none(&rt, wrong_fragment());
}

// A header, the length of its payload, and the fault.
type FaultCase = (&'static [u8], usize, PftFault);

// Check values are from Python.
const FAULTS: &[FaultCase] = &[
    (b"", 0, PftFault::Sync),
    (b"P", 0, PftFault::Sync),
    (
        b"AF\0\0\0\0\0\0\0\x0a\x80\x10n\0\x9e\xb6",
        16,
        PftFault::Sync,
    ),
    (
        b"PG\0\0\0\0\0\0\0\x0a\x80\x10n\0\x9e\xb6",
        16,
        PftFault::Sync,
    ),
    (b"PF", 0, PftFault::HeadCut),
    (b"PF\0\0\0\0\0\0\0\x0a\x80\x10n", 0, PftFault::HeadCut),
    (b"PF\0\0\0\0\0\0\0\x0a\x80\x10n\0", 0, PftFault::HeadCut),
    (b"PF\0\0\0\0\0\0\0\x0a\x80\x10n\0\x9e", 0, PftFault::HeadCut),
    (b"PF\0\0\0\0\0\0\0\x01\0\0\x13", 0, PftFault::HeadCut),
    (
        b"PF\0\0\0\0\0\0\0\x01@\0\0\x01\0\x02\x03",
        0,
        PftFault::HeadCut,
    ),
    (
        b"PF\0\0\0\0\0\0\0\x01\xc0\0\x01\0\0\x01\0\x02\x1b",
        0,
        PftFault::HeadCut,
    ),
    (
        b"PF\0\x01\0\0\0\0\0\x0a\x80\x10n\0\x9e\xb6",
        16,
        PftFault::HeadCrc,
    ),
    (
        b"PF\0\0\0\0\0\0\0\x0a\x80\x10n\0\x9e\xb7",
        16,
        PftFault::HeadCrc,
    ),
    (b"PF\0\0\0\0\0\0\0\x0a\x80\x10n\0aI", 16, PftFault::HeadCrc),
    (
        b"PF\0\0\0\0\0\0\0\0\x80\x10n\0\xd8\x18",
        16,
        PftFault::Count,
    ),
    (
        b"PF\0\0\0\0\x09\0\0\x09\x80\x14n\0\xf5\xad",
        20,
        PftFault::Index,
    ),
    (
        b"PF\0\0\xff\xff\xff\0\0\x0a\x80\x10n\0\xeb\xc0",
        16,
        PftFault::Index,
    ),
    (
        b"PF\0\0\0\0\0\0\0\x0a\x80\x10n\0\x9e\xb6",
        15,
        PftFault::PlenMismatch,
    ),
    (
        b"PF\0\0\0\0\0\0\0\x0a\x80\x10n\0\x9e\xb6",
        17,
        PftFault::PlenMismatch,
    ),
    (
        b"PF\0\0\0\0\0\0\0\x0a\x80\x10n\0\x9e\xb6",
        0,
        PftFault::PlenMismatch,
    ),
    (
        b"PF\0\0\0\0\0\0\0\x0a\x80\x1e\xd0\0\xb8\xb5",
        30,
        PftFault::RsK,
    ),
    (
        b"PF\0\0\0\0\0\0\0\x0a\x80\x1e\xff\0\xaem",
        30,
        PftFault::RsK,
    ),
    (
        b"PF\0\0\0\0\0\0\0\x0a\x80\x1e\0\0\xad\x92",
        30,
        PftFault::RsK,
    ),
    (b"PF\0\0\0\0\0\0\0\x0a\x80\x10nn\x13\xde", 16, PftFault::RsZ),
    (b"PF\0\0\0\0\0\0\0\x0a\x80\x10n\xff\x80F", 16, PftFault::RsZ),
    (b"PF\0\0\0\0\0\0\x10\x01\0\0\x08\xa0", 0, PftFault::TooMany),
    (b"PF\0\0\0\0\0\xff\xff\xff\0\0\xfaX", 0, PftFault::TooMany),
    (
        b"PF\0\0\0\0\0\0\0\x32\x03\xe8\xa6\x87",
        1000,
        PftFault::TooLarge,
    ),
    (
        b"PF\0\0\0\0\x09\0\0(\x04\xcd\x87\x97",
        1229,
        PftFault::TooLarge,
    ),
    (
        b"PF\0\0\0\0\x09\0\0(\x84\xcdn\0f\xbc",
        1229,
        PftFault::TooLarge,
    ),
    (
        b"PF\0\0\0\0\0\0\0\x01\x80d\xc8\0\xc1Y",
        100,
        PftFault::Chunks,
    ),
    (
        b"PF\0\0\0\0\x01\0\0\x02\x80\x7f\xcf\0B]",
        127,
        PftFault::Chunks,
    ),
    (
        b"PF\0\0\0\0\0\0\0\x0a\x80\0\x01\0\xc6\xc1",
        0,
        PftFault::Chunks,
    ),
];

fn has_fault(case: &FaultCase) -> bool {
    let mut into = [0x5a; MOST];
    let end = put(case.0, case.1, &mut into);
    read_fragment(&into[..end]).err() == Some(case.2)
}

// The first fault that isn't named.
fn wrong_fault(cases: &[FaultCase]) -> Option<usize> {
    for (k, case) in cases.iter().enumerate() {
        if !has_fault(case) {
            return Some(k);
        }
    }
    None
}

#[test]
fn names_the_fault(rt: HostRuntime) {
    has_none(&rt, wrong_fault(FAULTS));
}

// Of several faults.
const FIRST_FAULTS: &[FaultCase] = &[
    (b"PF\0\0\0\0\0\0\0\0\x80\x10\0\0\xf0", 0, PftFault::HeadCut),
    (b"PF\0\0\0\0\0\0\0\0\x80\x10\0\0\xf0<", 0, PftFault::HeadCrc),
    (b"PF\0\0\0\0\0\0\0\0\x80\x10\0\0\xf0=", 0, PftFault::Count),
    (
        b"PF\0\0\0\0\x09\0\0\x09\x80\x10\0\0\x01H",
        0,
        PftFault::Index,
    ),
    (
        b"PF\0\0\0\0\x08\0\0\x09\x80\x10\0\0F\x9b",
        0,
        PftFault::PlenMismatch,
    ),
    (
        b"PF\0\0\0\0\x08\0\x10\x01\x80\x10\0\0^\x32",
        16,
        PftFault::RsK,
    ),
    (
        b"PF\0\0\0\0\x08\0\x10\x01\x80\x10\xd0\xd0\x80h",
        16,
        PftFault::RsK,
    ),
    (
        b"PF\0\0\0\0\x08\0\x10\x01\x80\x10nn\xfb\x7f",
        16,
        PftFault::RsZ,
    ),
    (
        b"PF\0\0\0\0\x08\0\x10\x01\x80\x10n\0v\x17",
        16,
        PftFault::TooMany,
    ),
    (
        b"PF\0\0\0\0\x08\0\x10\x01\x80\0n\0\x35t",
        0,
        PftFault::TooMany,
    ),
];

#[test]
fn names_the_first_fault(rt: HostRuntime) {
    has_none(&rt, wrong_fault(FIRST_FAULTS));
}
