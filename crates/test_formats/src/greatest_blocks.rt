//! Blocks of the greatest size, and one past it. The check value was divided out bit by bit by a program in Python.

use crate::blocks_read::{is_block, is_no_block};
use crate::blocks_written::written;
use crate::entities::is_field;
use drm_sdc::{NoRoom, SdcFault};
use std::alloc::Global;

// Entities of two bytes, as many as there is room for.
fn fill(field: &mut [u8], entity: [u8; 2]) {
    for pair in field.chunks_exact_mut(2) {
        pair.copy_from_slice(&entity);
    }
}

// A block of index 5 with 511 entities and one zero byte.
fn first_form() -> [u8; 1026] {
    let mut value = [0; 1026];
    value[0] = 0x50;
    fill(&mut value[1..1023], [0x03, 0x40]);
    value[1023] = 0x0d;
    value[1024] = 0xc4;
    value[1025] = 0xb0;
    value
}

// The same behind four zero bits.
fn second_form() -> [u8; 1026] {
    let mut value = [0; 1026];
    value[0] = 0x05;
    fill(&mut value[1..1023], [0x00, 0x34]);
    value[1024] = 0xdc;
    value[1025] = 0x4b;
    value
}

#[test]
fn reads_full_blocks_of_both_forms(rt: HostRuntime) {
    let alloc = rt.alloc();
    assert!(rt;
        is_block(alloc, &first_form(), 8204, 1023, 511, &[0])
            && is_block(alloc, &second_form(), 8208, 1023, 511, &[0])
    );
}

// Entities of two bytes each, and one byte more.
fn full_field() -> [u8; 1023] {
    let mut field = [7; 1023];
    fill(&mut field, [0x00, 0x34]);
    field
}

#[test]
fn reads_a_full_field(rt: HostRuntime) {
    assert!(rt; is_field(rt.alloc(), &full_field(), 511, &[7]));
}

// The tail that was read isn't written.
#[test]
fn writes_a_full_field(rt: HostRuntime) {
    let mut into = [0xff; 1026];
    let bits = written(rt.alloc(), &full_field(), 5, 1023, &mut into);
    assert!(rt; bits == Some(Ok(8204)) && into == first_form());
}

fn is_too_long(alloc: Global, bits: u32) -> bool {
    is_no_block(alloc, &[0; 1027], bits, SdcFault::BlockLength { bits })
}

#[test]
fn refuses_one_byte_more(rt: HostRuntime) {
    assert!(rt; is_too_long(rt.alloc(), 8212) && is_too_long(rt.alloc(), 8216));
}

#[test]
fn refuses_one_entity_more(rt: HostRuntime) {
    let mut field = [0; 1024];
    fill(&mut field, [0x00, 0x34]);
    let mut into = [0xff; 1026];
    let refused = NoRoom {
        needed: 1024,
        room: 1023,
    };
    let answer = written(rt.alloc(), &field, 5, 1023, &mut into);
    assert!(rt; answer == Some(Err(refused)) && into == [0xff; 1026]);
}
