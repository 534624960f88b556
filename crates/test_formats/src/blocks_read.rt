//! Blocks of known bytes, read. The check values were divided out bit by bit by a program in Python.

use crate::wrong::has_none;
use drm_sdc::{BlockInfo, SdcFault, check_block, read_block};
use std::alloc::Global;

// One block in both forms.
const FIRST: [u8; 12] = [
    0x50, 0xa1, 0x05, 0x26, 0x16, 0x46, 0x96, 0xf0, 0x00, 0x01, 0x37, 0x30,
];

const SECOND: [u8; 12] = [
    0x05, 0x0a, 0x10, 0x52, 0x61, 0x64, 0x69, 0x6f, 0x00, 0x00, 0x13, 0x73,
];

// The bits are a block of index 5, whose field has so many bytes, with so many entities and this tail.
pub(crate) fn is_block(
    alloc: Global,
    value: &[u8],
    bits: u32,
    room: u16,
    count: usize,
    tail: &[u8],
) -> bool {
    if bits > 8208 || value.len() != (bits as usize + 7) / 8 {
        return false;
    }
    if check_block(value, bits) != Ok(BlockInfo { afs: 5, room }) {
        return false;
    }
    match read_block(alloc, value, bits) {
        Ok(block) => {
            block.afs == 5 && block.entities.len() == count && block.tail.as_slice() == tail
        }
        Err(_) => false,
    }
}

// The bits are no block, for this reason.
pub(crate) fn is_no_block(alloc: Global, value: &[u8], bits: u32, fault: SdcFault) -> bool {
    if bits > 8216 || value.len() != (bits as usize + 7) / 8 {
        return false;
    }
    check_block(value, bits) == Err(fault) && read_block(alloc, value, bits).err() == Some(fault)
}

#[test]
fn reads_blocks_of_both_forms(rt: HostRuntime) {
    let alloc = rt.alloc();
    assert!(rt;
        is_block(alloc, &FIRST, 92, 9, 1, &[0, 0]) && is_block(alloc, &SECOND, 96, 9, 1, &[0, 0])
    );
}

#[test]
fn tells_of_a_block_without_entities(rt: HostRuntime) {
    let info = check_block(&[0x00, 0x1e, 0x0f], 24);
    assert!(rt; info == Ok(BlockInfo { afs: 0, room: 0 }));
}

const NO_BLOCKS: &[(&[u8], u32, SdcFault)] = &[
    (&[0x00, 0x1e], 16, SdcFault::BlockLength { bits: 16 }),
    (&[0x00, 0x1e, 0x0f], 23, SdcFault::BlockLength { bits: 23 }),
    (&[0x10, 0x1e, 0x0f], 24, SdcFault::Front { bits: 1 }),
    (
        &[0x00, 0x1e, 0x0e],
        24,
        SdcFault::Crc {
            stands: 0x1e0e,
            computed: 0x1e0f,
        },
    ),
    (
        &[0x50, 0xa1, 0x05, 0x26, 0x16, 0x46, 0x9f, 0xff, 0x98, 0xb0],
        76,
        SdcFault::LabelText { at: 0 },
    ),
];

// The first bits that aren't refused so.
fn wrong_refusal(alloc: Global) -> Option<usize> {
    for (k, row) in NO_BLOCKS.iter().enumerate() {
        if !is_no_block(alloc, row.0, row.1, row.2) {
            return Some(k);
        }
    }
    None
}

#[test]
fn refuses_what_is_no_block(rt: HostRuntime) {
    has_none(&rt, wrong_refusal(rt.alloc()));
}
