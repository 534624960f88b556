//! A schedule's values, the packing of an announcement by itself, and changes of a list.

ghost use Rattle.std.specs.Prelude.{◌≡◌, ◌<◌, length, slice_get, slice_set, Some};
ghost use Rattle.drm_schedule.specs.declared.stream.Stream.{Stream as StreamRecord};
ghost use Rattle.drm_schedule.specs.declared.stream.Content.TheVariants.{Fill};

use crate::wrong::has_none;
use drm_schedule::{
    Carry, Content, Schedule, Spot, Stream, Streams, can_be_packed, entities_can_be_written,
};
use std::alloc::Global;
use test_support::{SWITCHING, schedule};

fn begins_so(plan: &Schedule) -> bool {
    plan.carry() == Carry::Pft { m: 5, mtu: 1400 }
        && plan.seq() == 7
        && plan.dlfc() == 8
        && plan.length() == 9
}

fn announces(plan: &Schedule) -> bool {
    if plan.configs().len() != 2 {
        return false;
    }
    plan.always_valid();
    let config = plan.configs().get(1);
    if config.blocks.len() != 1 {
        return false;
    }
    entities_can_be_written(&config.blocks.get(0).entities);
    config.start == 5 && config.countdown == 2
}

const EDITS: &[(usize, &str)] = &[(2, "carry pft 5 1400"), (3, "first 7 8")];

fn says(alloc: Global) -> bool {
    match schedule(alloc, SWITCHING, EDITS) {
        Ok(plan) => begins_so(&plan) && announces(&plan),
        Err(_) => false,
    }
}

#[test]
fn has_what_its_text_says(rt: HostRuntime) {
    assert!(rt; says(rt.alloc()));
}

// How much is free in each super frame, the sizes of entities, and whether these can be packed.
const PACKED: &[(&[u16], &[u16], bool)] = &[
    (&[], &[], true),
    (&[], &[0], false),
    (&[8, 8], &[5, 4, 4], true),
    (&[7, 7], &[5, 4, 4], false),
    // A super frame before that of an entity takes none behind it, and one that is full takes one of no bytes.
    (&[3, 9], &[4, 3, 2], true),
    (&[3, 9], &[4, 4, 2], false),
    (&[3, 0], &[3, 0, 0], true),
    (&[3, 0, 0], &[3, 0, 1], false),
    (&[65535], &[65535, 1], false),
];

// The first entities whose packing is otherwise.
fn wrong_packing() -> Option<usize> {
    for (k, row) in PACKED.iter().enumerate() {
        if can_be_packed(row.0, row.1) != row.2 {
            return Some(k);
        }
    }
    None
}

#[test]
fn packs_in_order(rt: HostRuntime) {
    has_none(&rt, wrong_packing());
}

#[test]
fn places_behind_the_first_that_has_no_room(rt: HostRuntime) {
    let spot = Spot::front().place(&[3, 9], 4);
    assert!(rt; spot == Some(Spot { frame: 1, taken: 4 }));
}

// Sets the byte of a stream, as a caller of `get_mut` is known to do.
fn fill(streams: &mut Streams, k: usize, byte: u8)
    requires { k < length streams.old }
    ensures length { length streams.new ≡ length streams.old }
    ensures stream { (s : StreamRecord) → slice_get streams.old k ≡ Some s → streams.new ≡ slice_set streams.old k (record s { content = Fill byte }) }
{
    streams.get_mut(k).content = Content::Fill(byte);
}

// A stream with so many bytes in its part A, four in its part B, and this byte in all of them.
fn is_stream(stream: &Stream, a: u16, byte: u8) -> bool {
    match stream.content {
        Content::Fill(found) => found == byte && stream.a == a && stream.b == 4,
        _ => false,
    }
}

fn pushes(streams: &mut Streams, a: u16) -> bool {
    let content = Content::Fill(0x55);
    streams.push(Stream { a, b: 4, content }).is_ok()
}

fn changes(streams: &mut Streams) -> bool {
    if streams.len() != 2 {
        return false;
    }
    fill(streams, 1, 0xab);
    is_stream(streams.get(1), 4, 0xab) && is_stream(streams.get(0), 0, 0x55)
}

#[test]
fn changes_a_value(rt: HostRuntime) {
    let mut streams = Streams::new(rt.alloc());
    assert!(rt; pushes(&mut streams, 0) && pushes(&mut streams, 4) && changes(&mut streams));
}
