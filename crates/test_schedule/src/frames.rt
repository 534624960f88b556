//! The frames of schedules, after the worked rows and by hand. The bytes of blocks and of FACs were packed, and their
//! check values divided out bit by bit, by a program in Python.

ghost use Rattle.std.specs.Prelude.{◌<◌};

use drm_fac::encode;
use drm_schedule::Schedule;
use drm_timeline::{block_into, config_at, fac_at, index_at, packet_len};
use std::alloc::Global;
use test_support::{Edit, SWITCHING, schedule};

// Nine bytes are free in each super frame: the description of the streams and the channel parameters fill the first
// one, and the audio entity goes into the second.
const SPREAD: &[Edit<'static>] = &[(12, "room 18")];

// A clock that starts at 23:58 is told at once, and after each fifty super frames a minute later.
const CLOCK: &[Edit<'static>] = &[
    (4, "length 109"),
    (12, "room 22"),
    (16, "config 7 7"),
    (19, "depth long"),
    (25, "stream 0 4 fill 55\nclock 61372 23 58"),
];

// Two audio services and a data service, with the order counted from the configuration's start.
const TURNS: &[Edit<'static>] = &[
    (4, "length 4"),
    (12, "room 60"),
    (16, "config 1 1"),
    (19, "depth long"),
    (23, "room 60"),
    (
        24,
        "service 123456 0 0 5 audio 3 0\nservice 123456 1 0 5 data 3 0\nservice 123456 2 0 5 audio 3 0",
    ),
    (
        26,
        "audio 0 0 0 1 0 3 0 0 0\napp 1 0 sync 0 1 -\naudio 2 0 0 1 0 3 0 0 0",
    ),
];

fn is_block(plan: &Schedule, sf: u32, block: &[u8]) -> bool {
    if sf >= plan.length() || block.len() >= 100 {
        return false;
    }
    let mut into = [0xff; 1026];
    let bits = block_into(plan, sf, &mut into);
    bits as usize + 4 == 8 * block.len()
        && &into[..block.len()] == block
        && into[block.len()] == 0xff
}

// A super frame, its configuration and its index.
const COUNTED: &[(u32, usize, u8)] = &[
    (0, 0, 0),
    (2, 0, 0),
    (3, 0, 2),
    (4, 0, 1),
    (5, 1, 0),
    (8, 1, 0),
];

fn counts(plan: &Schedule, row: &(u32, usize, u8)) -> bool {
    let (sf, config, index) = *row;
    config_at(plan, sf) == config && index_at(plan, sf) == index
}

// A frame, and the length of its packet.
const LENGTHS: &[(u32, usize)] = &[(0, 125), (1, 90), (2, 90), (15, 125)];

fn has_length(plan: &Schedule, t: u32, len: usize) -> bool {
    packet_len(plan, t) == len
}

fn all_count(plan: &Schedule) -> bool {
    for row in COUNTED {
        if !counts(plan, row) {
            return false;
        }
    }
    true
}

fn all_have_lengths(plan: &Schedule) -> bool {
    for row in LENGTHS {
        if !has_length(plan, row.0, row.1) {
            return false;
        }
    }
    true
}

fn counts_down(alloc: Global) -> bool {
    match schedule(alloc, SWITCHING, &[]) {
        Ok(plan) => all_count(&plan) && all_have_lengths(&plan),
        Err(_) => false,
    }
}

// The next configuration begins in super frame 5, and is announced from super frame 3 on.
#[test]
fn counts_down_to_the_next_configuration(rt: HostRuntime) {
    assert!(rt; counts_down(rt.alloc()));
}

// Super frames of the schedule that is spread, and their blocks.
const SPREAD_BLOCKS: &[(u32, &[u8])] = &[
    (
        3,
        &[
            0x00, 0x60, 0x10, 0x00, 0x00, 0x40, 0x49, 0x02, 0x30, 0x00, 0x70, 0x10, 0x00, 0x00,
            0x40, 0x5a, 0x27, 0x08, 0x06, 0x2f, 0x70,
        ],
    ),
    (
        4,
        &[
            0x00, 0x60, 0x10, 0x00, 0x00, 0x40, 0x49, 0x02, 0x30, 0x00, 0x59, 0x02, 0x30, 0x00,
            0x00, 0x00, 0x00, 0x00, 0x0e, 0xa6, 0xc0,
        ],
    ),
];

// The same of the one with a clock.
const CLOCK_BLOCKS: &[(u32, &[u8])] = &[
    (
        7,
        &[
            0x00, 0x60, 0x10, 0x00, 0x00, 0x40, 0x49, 0x02, 0x30, 0x00, 0x68, 0x77, 0xde, 0x5f,
            0xa0, 0x00, 0x00, 0x00, 0x00, 0x00, 0x00, 0x00, 0x00, 0x00, 0x0d, 0x44, 0x60,
        ],
    ),
    (
        57,
        &[
            0x00, 0x60, 0x10, 0x00, 0x00, 0x40, 0x49, 0x02, 0x30, 0x00, 0x68, 0x77, 0xde, 0x5f,
            0xb0, 0x00, 0x00, 0x00, 0x00, 0x00, 0x00, 0x00, 0x00, 0x00, 0x00, 0xc0, 0xf0,
        ],
    ),
    (
        107,
        &[
            0x00, 0x60, 0x10, 0x00, 0x00, 0x40, 0x49, 0x02, 0x30, 0x00, 0x68, 0x77, 0xde, 0x80,
            0x00, 0x00, 0x00, 0x00, 0x00, 0x00, 0x00, 0x00, 0x00, 0x00, 0x0f, 0x14, 0xa0,
        ],
    ),
];

// How many of these blocks are written before the first that isn't.
fn blocks(alloc: Global, edits: &[Edit<'_>], blocks: &[(u32, &[u8])]) -> usize {
    let Ok(plan) = schedule(alloc, SWITCHING, edits) else {
        return 0;
    };
    for (k, row) in blocks.iter().enumerate() {
        if !is_block(&plan, row.0, row.1) {
            return k;
        }
    }
    blocks.len()
}

#[test]
fn tells_the_next_configuration(rt: HostRuntime) {
    let rows = blocks(rt.alloc(), SPREAD, SPREAD_BLOCKS);
    assert!(rt; rows == 2, "row {rows}");
}

#[test]
fn tells_the_time(rt: HostRuntime) {
    let rows = blocks(rt.alloc(), CLOCK, CLOCK_BLOCKS);
    assert!(rt; rows == 3, "row {rows}");
}

// Frames and their FACs.
const FACS: &[(u32, [u8; 9])] = &[
    (3, [0x66, 0x12, 0x01, 0x23, 0x45, 0x60, 0xa1, 0x80, 0xbc]),
    (4, [0x26, 0x12, 0x01, 0x23, 0x45, 0x68, 0xa1, 0x80, 0xee]),
    (5, [0x46, 0x12, 0x01, 0x23, 0x45, 0x60, 0xa1, 0x80, 0x93]),
    (6, [0x66, 0x12, 0x01, 0x23, 0x45, 0x68, 0xa1, 0x80, 0xb0]),
    (7, [0x26, 0x12, 0x01, 0x23, 0x45, 0x64, 0xb1, 0x80, 0x50]),
    (8, [0x46, 0x12, 0x01, 0x23, 0x45, 0x60, 0xa1, 0x80, 0x93]),
];

fn has_fac(plan: &Schedule, t: u32, bytes: [u8; 9]) -> bool {
    encode(&fac_at(plan, t)) == bytes
}

fn take_turns(alloc: Global) -> usize {
    let Ok(plan) = schedule(alloc, SWITCHING, TURNS) else {
        return 0;
    };
    for (k, row) in FACS.iter().enumerate() {
        if !has_fac(&plan, row.0, row.1) {
            return k;
        }
    }
    FACS.len()
}

#[test]
fn services_take_turns(rt: HostRuntime) {
    let rows = take_turns(rt.alloc());
    assert!(rt; rows == 6, "row {rows}");
}
