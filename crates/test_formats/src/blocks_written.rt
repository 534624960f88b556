//! Blocks that are written, and what fits. The bytes were packed, and the check values divided out bit by bit, by a
//! program in Python.

ghost use Rattle.std.specs.Prelude.{◌≤◌, ◌<◌, ◌^◌, ◌+◌, length};

use crate::wrong::has_none;
use drm_sdc::{Block, Body, Entity, MuxDesc, NoRoom, Part, read_entities, write_block};
use std::alloc::Global;

// The entities of a field, written with room for so many bytes.
pub(crate) fn written(
    alloc: Global,
    field: &[u8],
    afs: u8,
    room: usize,
    into: &mut [u8],
) -> Option<Result<u32, NoRoom>>
    requires index { afs < 2 ^ 4 }
    requires room { room ≤ 1023 }
    requires into { room + 3 ≤ length into.old }
{
    match read_entities(alloc, field) {
        Ok((entities, tail)) => {
            let block = Block {
                afs,
                entities,
                tail,
            };
            Some(write_block(&block, room, into))
        }
        Err(_) => None,
    }
}

// A field, the index, the room, and the block.
const BLOCKS: &[(&[u8], u8, usize, &[u8])] = &[
    // A description, a label and two lists of frequencies.
    (
        &[0x0c, 0x06, 0x12, 0x34, 0x56, 0x00, 0x0f, 0xff],
        1,
        8,
        &[
            0x10, 0xc0, 0x61, 0x23, 0x45, 0x60, 0x00, 0xff, 0xff, 0x47, 0xc0,
        ],
    ),
    (
        &[0x0a, 0x10, 0x52, 0x61, 0x64, 0x69, 0x6f],
        5,
        9,
        &[
            0x50, 0xa1, 0x05, 0x26, 0x16, 0x46, 0x96, 0xf0, 0x00, 0x01, 0x37, 0x30,
        ],
    ),
    (
        &[0x0a, 0x39, 0x5a, 0x92, 0x34, 0x7f, 0xff],
        15,
        8,
        &[
            0xf0, 0xa3, 0x95, 0xa9, 0x23, 0x47, 0xff, 0xf0, 0x01, 0x9a, 0x50,
        ],
    ),
    (
        &[0x06, 0x36, 0xc3, 0x0a, 0xbc],
        3,
        5,
        &[0x30, 0x63, 0x6c, 0x30, 0xab, 0xc0, 0xfc, 0x10],
    ),
    // A schedule, and applications in packets and as a stream.
    (
        &[0x08, 0x49, 0xab, 0x68, 0xeb, 0xcd],
        2,
        8,
        &[
            0x20, 0x84, 0x9a, 0xb6, 0x8e, 0xbc, 0xd0, 0x00, 0x00, 0xe3, 0x80,
        ],
    ),
    (
        &[0x09, 0x59, 0xbd, 0x77, 0xab, 0xcd],
        4,
        6,
        &[0x40, 0x95, 0x9b, 0xd7, 0x7a, 0xbc, 0xd6, 0x6f, 0x10],
    ),
    (
        &[0x04, 0x57, 0x5a, 0x99],
        6,
        4,
        &[0x60, 0x45, 0x75, 0xa9, 0x9c, 0x13, 0xd0],
    ),
    // A time, an audio service, the next channel parameters, a language, and a type without a table.
    (
        &[0x08, 0x87, 0x53, 0x05, 0xfb, 0x81],
        7,
        6,
        &[0x70, 0x88, 0x75, 0x30, 0x5f, 0xb8, 0x11, 0x4b, 0x60],
    ),
    (
        &[0x09, 0x9d, 0xad, 0x6b, 0xde, 0xad],
        8,
        6,
        &[0x80, 0x99, 0xda, 0xd6, 0xbd, 0xea, 0xd3, 0x88, 0xb0],
    ),
    (
        &[0x05, 0xad, 0x2e, 0xd3],
        9,
        5,
        &[0x90, 0x5a, 0xd2, 0xed, 0x30, 0x09, 0x41, 0x90],
    ),
    (
        &[0x0a, 0xc9, 0x12, 0x34, 0x56, 0xbe, 0xef],
        10,
        7,
        &[0xa0, 0xac, 0x91, 0x23, 0x45, 0x6b, 0xee, 0xf2, 0x14, 0xd0],
    ),
    (
        &[0x02, 0x73, 0x09],
        11,
        3,
        &[0xb0, 0x27, 0x30, 0x9c, 0x76, 0x30],
    ),
    // No entity, and two with a tail of zeros.
    (&[], 0, 0, &[0x01, 0xe0, 0xf0]),
    (
        &[0x0a, 0x10, 0x52, 0x61, 0x64, 0x69, 0x6f, 0x02, 0x73, 0x09],
        12,
        12,
        &[
            0xc0, 0xa1, 0x05, 0x26, 0x16, 0x46, 0x96, 0xf0, 0x27, 0x30, 0x90, 0x00, 0x03, 0x9d,
            0x80,
        ],
    ),
];

// The field is written as this block, and what stands behind it stays.
fn is_written(alloc: Global, field: &[u8], afs: u8, room: usize, block: &[u8]) -> bool {
    if afs >= 16 || room >= 100 {
        return false;
    }
    let mut into = [0xff; 110];
    written(alloc, field, afs, room, &mut into) == Some(Ok(8 * room as u32 + 20))
        && &into[..room + 3] == block
        && into[room + 3] == 0xff
}

// The first field that isn't written so.
fn wrong_block(alloc: Global) -> Option<usize> {
    for (k, row) in BLOCKS.iter().enumerate() {
        if !is_written(alloc, row.0, row.1, row.2, row.3) {
            return Some(k);
        }
    }
    None
}

#[test]
fn writes_each_body(rt: HostRuntime) {
    has_none(&rt, wrong_block(rt.alloc()));
}

// The tail that was read isn't written.
#[test]
fn writes_zeros_for_the_tail(rt: HostRuntime) {
    assert!(rt; is_written(rt.alloc(), &[0, 0, 5], 0, 0, &[0x01, 0xe0, 0xf0]));
}

#[test]
fn refuses_where_there_is_no_room(rt: HostRuntime) {
    let field = [0x0a, 0x10, 0x52, 0x61, 0x64, 0x69, 0x6f];
    let mut into = [0xff; 9];
    let answer = written(rt.alloc(), &field, 5, 6, &mut into);
    assert!(rt; answer == Some(Err(NoRoom { needed: 7, room: 6 })) && into == [0xff; 9]);
}

fn fits(body: Body) -> bool {
    let entity = Entity {
        version: false,
        body,
    };
    entity.fits()
}

// An entity whose first two bytes would be 0 can't be written.
#[test]
fn fits_unless_empty(rt: HostRuntime) {
    let language = Body::Language {
        short: 3,
        spare: 3,
        language: 0xffffff,
        country: 0xffff,
    };
    assert!(rt;
        fits(language) && !fits(description(0)) && fits(description(1)) && !fits(description(4))
    );
}

fn description(prot_a: u8) -> Body {
    Body::Mux {
        desc: MuxDesc {
            prot_a,
            prot_b: 0,
            count: 0,
            parts: [Part { a: 0, b: 0 }; 4],
        },
    }
}
