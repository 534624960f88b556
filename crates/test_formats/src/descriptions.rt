//! Worked examples. Those of four streams were computed by a program in Python from the definition of the frame.

ghost use Rattle.std.specs.Prelude.{ℕ, ◌<◌, ◌^◌, length};
ghost use Rattle.drm_bits.specs.Description.{IsDescription, FitsWidths};

use crate::wrong::has_none;
use drm_mux::{
    MuxDesc, MuxFault, Part, Spans, assemble, check_streams, frame_len, locate, read_sdci, split,
    write_sdci,
};
use std::process::Abort;

// Protections 0 and 1, and two streams with the parts 2 and 1, and 1 and 2.
const TWO_STREAMS: [u8; 7] = [0x01, 0x00, 0x20, 0x01, 0x00, 0x10, 0x02];

// Protections 2 and 3, and four streams with the parts 1 and 0, 0 and 2, 3 and 1, and 2 and 2.
const FOUR_STREAMS: [u8; 13] = [
    0x0b, 0x00, 0x10, 0x00, 0x00, 0x00, 0x02, 0x00, 0x30, 0x01, 0x00, 0x20, 0x02,
];

fn described(rt: &impl Abort, value: &[u8]) -> MuxDesc
    requires { length value.now < 2 ^ 20 }
    ensures description { IsDescription result }
    ensures fits { FitsWidths result }
{
    read_sdci(value, 8 * value.len() as u32).expect(rt, "a description")
}

const NONE: Part = Part { a: 0, b: 0 };

const DESCRIPTIONS: [(&[u8], MuxDesc); 4] = [
    (
        &TWO_STREAMS,
        MuxDesc {
            prot_a: 0,
            prot_b: 1,
            count: 2,
            parts: [Part { a: 2, b: 1 }, Part { a: 1, b: 2 }, NONE, NONE],
        },
    ),
    (
        &FOUR_STREAMS,
        MuxDesc {
            prot_a: 2,
            prot_b: 3,
            count: 4,
            parts: [
                Part { a: 1, b: 0 },
                Part { a: 0, b: 2 },
                Part { a: 3, b: 1 },
                Part { a: 2, b: 2 },
            ],
        },
    ),
    (
        &[0x0d, 0x12, 0x34, 0x56, 0xff, 0xf0, 0x01],
        MuxDesc {
            prot_a: 3,
            prot_b: 1,
            count: 2,
            parts: [
                Part { a: 0x123, b: 0x456 },
                Part { a: 0xfff, b: 0x001 },
                NONE,
                NONE,
            ],
        },
    ),
    (
        &[0x04],
        MuxDesc {
            prot_a: 1,
            prot_b: 0,
            count: 0,
            parts: [NONE; 4],
        },
    ),
];

fn is_read_as(value: &[u8], desc: MuxDesc) -> bool {
    value.len() < 20 && read_sdci(value, 8 * value.len() as u32) == Ok(desc)
}

// What is read is written as it stood, and what stands behind it stays.
fn is_written_again(rt: &impl Abort, value: &[u8]) -> bool {
    if value.len() >= 20 {
        return false;
    }
    let mut into = [0xaa; 13];
    let len = write_sdci(&described(rt, value), &mut into);
    len <= 13 && &into[..len] == value && &into[len..] == &[0xaa; 13][len..]
}

// The first description that is read otherwise.
fn wrong_description() -> Option<usize> {
    for (k, row) in DESCRIPTIONS.iter().enumerate() {
        if !is_read_as(row.0, row.1) {
            return Some(k);
        }
    }
    None
}

#[test]
fn reads_descriptions(rt: HostRuntime) {
    has_none(&rt, wrong_description());
}

// The first description that is written otherwise.
fn wrong_bytes(rt: &impl Abort) -> Option<usize> {
    for (k, row) in DESCRIPTIONS.iter().enumerate() {
        if !is_written_again(rt, row.0) {
            return Some(k);
        }
    }
    None
}

#[test]
fn writes_descriptions(rt: HostRuntime) {
    has_none(&rt, wrong_bytes(&rt));
}

const NO_DESCRIPTIONS: &[(&[u8], u32, MuxFault)] = &[
    (&[0, 0], 16, MuxFault::SdciLength { bits: 16 }),
    (&[], 0, MuxFault::SdciLength { bits: 0 }),
    (&[0; 4], 31, MuxFault::SdciLength { bits: 31 }),
    (&[0; 16], 128, MuxFault::SdciLength { bits: 128 }),
    (&[0x11], 8, MuxFault::SdciFront),
];

fn is_refused(value: &[u8], bits: u32, fault: MuxFault) -> bool {
    bits < 1000 && value.len() == (bits as usize + 7) / 8 && read_sdci(value, bits) == Err(fault)
}

// The first value that isn't refused so.
fn wrong_refusal() -> Option<usize> {
    for (k, row) in NO_DESCRIPTIONS.iter().enumerate() {
        if !is_refused(row.0, row.1, row.2) {
            return Some(k);
        }
    }
    None
}

#[test]
fn refuses_values(rt: HostRuntime) {
    has_none(&rt, wrong_refusal());
}

const SIDE_BY_SIDE: [u8; 6] = [0x01, 0x02, 0x03, 0x11, 0x12, 0x13];

const ASSEMBLED: [u8; 8] = [0x01, 0x02, 0x11, 0x03, 0x12, 0x13, 0xaa, 0xaa];

#[test]
fn assembles(rt: HostRuntime) {
    let desc = described(&rt, &TWO_STREAMS);
    let spans = Spans {
        at: [0, 3, 0, 0],
        len: [3, 3, 0, 0],
    };
    let mut frame = [0xaa; 8];
    assert!(rt;
        frame_len(&desc) == 6
            && assemble(&desc, &SIDE_BY_SIDE, &spans, &mut frame) == Ok(6)
            && frame == ASSEMBLED
    );
}

#[test]
fn splits(rt: HostRuntime) {
    let desc = described(&rt, &TWO_STREAMS);
    let mut into = [0; 6];
    let spans = Spans {
        at: [0, 3, 6, 6],
        len: [3, 3, 0, 0],
    };
    assert!(rt; split(&desc, &ASSEMBLED[..6], &mut into) == Ok(spans) && into == SIDE_BY_SIDE);
}

const BUFFER: [u8; 11] = [
    0x30, 0x31, 0x32, 0x33, 0x20, 0x21, 0x40, 0x41, 0x42, 0x43, 0x10,
];

const IN_BUFFER: Spans = Spans {
    at: [10, 4, 0, 6],
    len: [1, 2, 4, 4],
};

const OF_BUFFER: [u8; 11] = [
    0x10, 0x30, 0x31, 0x32, 0x40, 0x41, 0x20, 0x21, 0x33, 0x42, 0x43,
];

#[test]
fn assembles_each_byte(rt: HostRuntime) {
    let desc = described(&rt, &FOUR_STREAMS);
    let mut frame = [0; 11];
    assert!(rt;
        frame_len(&desc) == 11
            && assemble(&desc, &BUFFER, &IN_BUFFER, &mut frame) == Ok(11)
            && frame == OF_BUFFER
    );
}

const PLACES: &[usize] = &[10, 0, 1, 2, 6, 7, 4, 5, 3, 8, 9];

// The first byte that is located elsewhere.
fn wrong_place(rt: &impl Abort) -> Option<usize> {
    let desc = described(rt, &FOUR_STREAMS);
    if frame_len(&desc) != 11 || check_streams(&desc, &IN_BUFFER).is_err() {
        return Some(0);
    }
    for (k, place) in PLACES.iter().enumerate() {
        if locate(&desc, &IN_BUFFER, k) != *place {
            return Some(k);
        }
    }
    None
}

#[test]
fn locates_each_byte(rt: HostRuntime) {
    has_none(&rt, wrong_place(&rt));
}

// Lengths of the two streams, which are described as 3 and 3; the first wrong one, and how long it is.
const LENGTHS: &[([usize; 4], Option<(u8, usize)>)] = &[
    ([3, 3, 0, 0], None),
    ([3, 3, 9, 9], None),
    ([2, 4, 0, 0], Some((0, 2))),
    ([4, 3, 0, 0], Some((0, 4))),
    ([3, 4, 0, 0], Some((1, 4))),
];

fn wrong(fault: Option<(u8, usize)>) -> Result<(), MuxFault> {
    match fault {
        Some((stream, stands)) => Err(MuxFault::StreamLength {
            stream,
            stands,
            described: 3,
        }),
        None => Ok(()),
    }
}

fn is_first_wrong(rt: &impl Abort, len: [usize; 4], fault: Option<(u8, usize)>) -> bool {
    let desc = described(rt, &TWO_STREAMS);
    let spans = Spans { at: [0; 4], len };
    check_streams(&desc, &spans) == wrong(fault)
}

// The first lengths that have another fault.
fn wrong_length(rt: &impl Abort) -> Option<usize> {
    for (k, row) in LENGTHS.iter().enumerate() {
        if !is_first_wrong(rt, row.0, row.1) {
            return Some(k);
        }
    }
    None
}

#[test]
fn names_the_first_wrong_length(rt: HostRuntime) {
    has_none(&rt, wrong_length(&rt));
}

#[test]
fn splits_no_shorter_frame(rt: HostRuntime) {
    let desc = described(&rt, &TWO_STREAMS);
    let mut into = [0xaa; 5];
    let answer = Err(MuxFault::FrameLength {
        stands: 5,
        described: 6,
    });
    assert!(rt; split(&desc, &[0; 5], &mut into) == answer && into == [0xaa; 5]);
}
