//! TAG items, read and written.

use crate::wrong::has_none;
use dcp_tag::{Item, Items, ValueCut, write_item};

// The payload of a logical frame, by hand after TS 102 820: *ptr, dlfc, fac_, sdci, robm and str0.
const FRAME: [u8; 78] = [
    0x2a, 0x70, 0x74, 0x72, 0, 0, 0, 0x40, 0x44, 0x4d, 0x44, 0x49, 0, 0, 0, 0, 0x64, 0x6c, 0x66,
    0x63, 0, 0, 0, 0x20, 0, 0, 0, 1, 0x66, 0x61, 0x63, 0x5f, 0, 0, 0, 0x48, 0x26, 0x08, 0x01, 0x23,
    0x45, 0x60, 0xa1, 0x80, 0x33, 0x73, 0x64, 0x63, 0x69, 0, 0, 0, 0x20, 1, 0, 0, 4, 0x72, 0x6f,
    0x62, 0x6d, 0, 0, 0, 8, 1, 0x73, 0x74, 0x72, 0x30, 0, 0, 0, 0x20, 0x55, 0x55, 0x55, 0x55,
];

const ITEMS: &[Item<'static>] = &[
    Item {
        name: *b"*ptr",
        bits: 64,
        at: 8,
        value: b"DMDI\0\0\0\0",
    },
    Item {
        name: *b"dlfc",
        bits: 32,
        at: 24,
        value: &[0, 0, 0, 1],
    },
    Item {
        name: *b"fac_",
        bits: 72,
        at: 36,
        value: &[0x26, 0x08, 0x01, 0x23, 0x45, 0x60, 0xa1, 0x80, 0x33],
    },
    Item {
        name: *b"sdci",
        bits: 32,
        at: 53,
        value: &[1, 0, 0, 4],
    },
    Item {
        name: *b"robm",
        bits: 8,
        at: 65,
        value: &[1],
    },
    Item {
        name: *b"str0",
        bits: 32,
        at: 74,
        value: b"UUUU",
    },
];

fn next_is(items: &mut Items<'_>, item: Option<Item<'_>>) -> bool {
    items.next_item() == Ok(item)
}

fn next_is_cut(items: &mut Items<'_>, at: usize) -> bool {
    items.next_item() == Err(ValueCut { at })
}

// The first item that isn't so.
fn wrong_item(items: &mut Items<'_>, expected: &[Item<'_>]) -> Option<usize> {
    for (k, item) in expected.iter().enumerate() {
        if !next_is(items, Some(*item)) {
            return Some(k);
        }
    }
    None
}

#[test]
fn reads_the_items_of_a_frame(rt: HostRuntime) {
    let mut items = Items::new(&FRAME);
    has_none(&rt, wrong_item(&mut items, ITEMS));
    assert!(rt; next_is(&mut items, None) && next_is(&mut items, None));
}

// Without the last byte the last item is cut, again and again.
#[test]
fn stays_at_a_cut(rt: HostRuntime) {
    let mut items = Items::new(&FRAME[..77]);
    has_none(&rt, wrong_item(&mut items, &ITEMS[..5]));
    assert!(rt;
        next_is_cut(&mut items, 66) && next_is_cut(&mut items, 66) && next_is_cut(&mut items, 66)
    );
}

// The first answer, as a reader written in Python gives it: the bits and the bytes of an item, None, or a cut.
const FRONTS: &[(&[u8], Option<(u32, &[u8])>)] = &[
    (b"", None),
    (b"A", None),
    (b"ABCD\0\0\0", None),
    (b"ABCD\0\0\0\0", Some((0, b""))),
    (b"ABCD\0\0\0\x01\xff\0\0\0\0", Some((1, b"\xff"))),
    (b"ABCD\0\0\0\x04\xbf\0\0\0\0\0\0\0", Some((4, b"\xbf"))),
    (
        b"ABCD\0\0\0\x09\x01\x80XYZZ\0\0\0\0",
        Some((9, b"\x01\x80")),
    ),
];

fn begins_with(payload: &[u8], expected: Option<(u32, &[u8])>) -> bool {
    let item = match expected {
        Some((bits, value)) => Some(Item {
            name: *b"ABCD",
            bits,
            value,
            at: 8,
        }),
        None => None,
    };
    next_is(&mut Items::new(payload), item)
}

// The first payload that begins otherwise.
fn wrong_front() -> Option<usize> {
    for (k, row) in FRONTS.iter().enumerate() {
        if !begins_with(row.0, row.1) {
            return Some(k);
        }
    }
    None
}

#[test]
fn answers_at_the_front(rt: HostRuntime) {
    has_none(&rt, wrong_front());
}

const CUT: &[&[u8]] = &[
    b"ABCD\0\0\0\x09\xff",
    b"ABCD\0\0\0\x01",
    b"ABCD\xff\xff\xff\xff\0\0\0\0\0\0\0\0\0",
    b"ABCD\xff\xff\xff\xf9\x55\x55\x55\x55",
];

// The first payload that isn't cut.
fn wrong_cut() -> Option<usize> {
    for (k, payload) in CUT.iter().enumerate() {
        if !next_is_cut(&mut Items::new(payload), 0) {
            return Some(k);
        }
    }
    None
}

#[test]
fn names_a_cut_at_the_front(rt: HostRuntime) {
    has_none(&rt, wrong_cut());
}

// The bytes are those of a writer in Python. What stands before and behind stays.
#[test]
fn writes_one_item_after_another(rt: HostRuntime) {
    let mut into = [0xee; 29];
    let place = write_item(&mut into, 1, *b"fac_", 0, b"");
    assert!(rt; place == 9);
    let place = write_item(&mut into, 9, *b"sdci", 12, b"\x01\x50");
    assert!(rt; place == 19);
    let place = write_item(&mut into, 19, *b"bit1", 1, b"\x80");
    let expected = b"\xeefac_\0\0\0\0sdci\0\0\0\x0c\x01\x50bit1\0\0\0\x01\x80\xee";
    assert!(rt; place == 28 && into == *expected);
}
