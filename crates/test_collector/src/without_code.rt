//! Fragments without a code. The check values are from a program in Python.

use crate::runs::{CollectorCall, ExpectedItem, SentDatagram, run};
use dcp_collect::Head;
use dcp_collect::Taken::{Inconsistent, Kept, Late, Repeated};
use std::alloc::Global;
use std::process::Abort;

// A packet with sequence number 1, in two pieces of five bytes and a last one of three.
pub(crate) const FIRST: &[u8] = b"PF\0\x01\0\0\0\0\0\x03\0\x05\xc6\xe1Radio";

pub(crate) const SECOND: &[u8] = b"PF\0\x01\0\0\x01\0\0\x03\0\x05\x83A Nord";

pub(crate) const LAST: &[u8] = b"PF\0\x01\0\0\x02\0\0\x03\0\x03-g 12";

pub(crate) const PACKET: &[u8] = b"Radio Nord 12";

// The same pieces with other lengths, and a piece of four.
const SHORT_FIRST: &[u8] = b"PF\0\x01\0\0\0\0\0\x03\0\x04\xd6\xc0Radi";

const SHORTEST_FIRST: &[u8] = b"PF\0\x01\0\0\0\0\0\x03\0\x02\xb6\x06Ra";

const SHORT_SECOND: &[u8] = b"PF\0\x01\0\0\x01\0\0\x03\0\x04\x93` Nor";

const LONGER_LAST: &[u8] = b"PF\0\x01\0\0\x02\0\0\x03\0\x04]\x80abcd";

const EQUAL_LAST: &[u8] = b"PF\0\x01\0\0\x02\0\0\x03\0\x05M\xa1abcde";

const LONGEST_LAST: &[u8] = b"PF\0\x01\0\0\x02\0\0\x03\0\x06}\xc2abcdef";

const OF_FOUR: &[u8] = b"PF\0\x01\0\0\x03\0\0\x04\0\x03\xedWabc";

const EQUAL: &[CollectorCall<'static>] = &[
    CollectorCall::Takes(SentDatagram::Bytes(EQUAL_LAST), Kept),
    CollectorCall::Takes(SentDatagram::Bytes(FIRST), Kept),
    CollectorCall::Takes(SentDatagram::Bytes(SECOND), Kept),
];

const EQUAL_GIVEN: &[ExpectedItem<'static>] = &[ExpectedItem::Bytes(0, b"Radio Nordabcde")];

// The pieces come in this order.
fn join<'a>(first: &'a [u8], second: &'a [u8], third: &'a [u8]) -> [CollectorCall<'a>; 9] {
    [
        CollectorCall::Takes(SentDatagram::Bytes(first), Kept),
        CollectorCall::GivesNone,
        CollectorCall::Takes(SentDatagram::Bytes(second), Kept),
        CollectorCall::Takes(SentDatagram::Bytes(first), Repeated),
        CollectorCall::GivesNone,
        CollectorCall::Takes(SentDatagram::Bytes(third), Kept),
        CollectorCall::Holds(13, Some(1), Some(0)),
        CollectorCall::Gives(ExpectedItem::Bytes(0, PACKET)),
        CollectorCall::Holds(0, Some(1), Some(0)),
    ]
}

fn run_joined(rt: &impl Abort, alloc: Global, first: &[u8], second: &[u8], third: &[u8]) {
    let steps = join(first, second, third);
    run(rt, alloc, (1, None), &steps, None, &[]);
}

#[test]
fn joins_pieces(rt: HostRuntime) {
    run_joined(&rt, rt.alloc(), FIRST, SECOND, LAST);
    run_joined(&rt, rt.alloc(), LAST, SECOND, FIRST);
    run_joined(&rt, rt.alloc(), SECOND, LAST, FIRST);
}

#[test]
fn joins_pieces_of_one_length(rt: HostRuntime) {
    run(&rt, rt.alloc(), (1, None), EQUAL, None, EQUAL_GIVEN);
}

// A fragment of the packet of three, by its index and its length.
fn head(index: u32, len: u16) -> Head {
    Head {
        whole: false,
        count: 3,
        index,
        len,
        rs: None,
    }
}

// A fragment that is kept, and one that came: index and length of each.
const DISAGREEING: &[(&[u8], (u32, u16), &[u8], (u32, u16))] = &[
    (FIRST, (0, 5), SHORT_FIRST, (0, 4)),
    (FIRST, (0, 5), SHORT_SECOND, (1, 4)),
    (FIRST, (0, 5), LONGEST_LAST, (2, 6)),
    (LAST, (2, 3), LONGER_LAST, (2, 4)),
    (LAST, (2, 3), SHORTEST_FIRST, (0, 2)),
    (LONGEST_LAST, (2, 6), FIRST, (0, 5)),
];

fn disagree<'a>(
    before: &'a [u8],
    kept: (u32, u16),
    datagram: &'a [u8],
    came: (u32, u16),
) -> [CollectorCall<'a>; 3] {
    let odd = Inconsistent {
        kept: head(kept.0, kept.1),
        came: head(came.0, came.1),
    };
    [
        CollectorCall::Takes(SentDatagram::Bytes(before), Kept),
        CollectorCall::Takes(SentDatagram::Bytes(datagram), odd),
        CollectorCall::Holds(usize::from(kept.1), Some(1), Some(0)),
    ]
}

#[test]
fn names_lengths_that_disagree(rt: HostRuntime) {
    for row in DISAGREEING {
        let steps = disagree(row.0, row.1, row.2, row.3);
        run(
            &rt,
            rt.alloc(),
            (1, None),
            &steps,
            None,
            &[ExpectedItem::Lost(0, 1, 3)],
        );
    }
}

const KEPT_FIRST: Head = Head {
    whole: false,
    count: 3,
    index: 0,
    len: 5,
    rs: None,
};

const CAME_LONGEST: Head = Head {
    whole: false,
    count: 3,
    index: 2,
    len: 6,
    rs: None,
};

const CAME_OF_FOUR: Head = Head {
    whole: false,
    count: 4,
    index: 3,
    len: 3,
    rs: None,
};

// Of several fragments that are kept the one with the lowest index is told, and none once the packet is whole.
const LOWEST: &[CollectorCall<'static>] = &[
    CollectorCall::Takes(SentDatagram::Bytes(SECOND), Kept),
    CollectorCall::Takes(SentDatagram::Bytes(FIRST), Kept),
    CollectorCall::Takes(
        SentDatagram::Bytes(LONGEST_LAST),
        Inconsistent {
            kept: KEPT_FIRST,
            came: CAME_LONGEST,
        },
    ),
    CollectorCall::Takes(
        SentDatagram::Bytes(OF_FOUR),
        Inconsistent {
            kept: KEPT_FIRST,
            came: CAME_OF_FOUR,
        },
    ),
    CollectorCall::Takes(SentDatagram::Bytes(LAST), Kept),
    CollectorCall::Takes(SentDatagram::Bytes(LONGEST_LAST), Repeated),
    CollectorCall::Takes(SentDatagram::Bytes(OF_FOUR), Repeated),
    CollectorCall::Holds(13, Some(0), Some(1)),
];

const LOWEST_REST: &[ExpectedItem<'static>] = &[
    ExpectedItem::Nothing(0, 1),
    ExpectedItem::Bytes(1, PACKET),
];

#[test]
fn names_the_first_that_disagrees(rt: HostRuntime) {
    run(&rt, rt.alloc(), (4, Some(0)), LOWEST, None, LOWEST_REST);
}

const SINGLE: &[u8] = b"PF\0\x05\0\0\0\0\0\x01\0\0d\xcb";

const EMPTY: &[CollectorCall<'static>] = &[
    CollectorCall::Takes(SentDatagram::Bytes(SINGLE), Kept),
    CollectorCall::Holds(0, Some(5), Some(0)),
    CollectorCall::Gives(ExpectedItem::Bytes(0, b"")),
    CollectorCall::GivesNone,
    CollectorCall::Takes(SentDatagram::Bytes(SINGLE), Late),
];

#[test]
fn gives_no_bytes(rt: HostRuntime) {
    run(&rt, rt.alloc(), (1, None), EMPTY, None, &[]);
}

// Four fragments without bytes.
const EMPTY_0: &[u8] = b"PF\0\0\0\0\0\0\0\x04\0\0\xf8\xf7";

const EMPTY_1: &[u8] = b"PF\0\0\0\0\x01\0\0\x04\0\0\xbdW";

const EMPTY_2: &[u8] = b"PF\0\0\0\0\x02\0\0\x04\0\0s\xb7";

const EMPTY_3: &[u8] = b"PF\0\0\0\0\x03\0\0\x04\0\x006\x17";

const FOUR_EMPTY: &[CollectorCall<'static>] = &[
    CollectorCall::Takes(SentDatagram::Bytes(EMPTY_3), Kept),
    CollectorCall::Takes(SentDatagram::Bytes(EMPTY_1), Kept),
    CollectorCall::Takes(SentDatagram::Bytes(EMPTY_1), Repeated),
    CollectorCall::Takes(SentDatagram::Bytes(EMPTY_0), Kept),
    CollectorCall::GivesNone,
    CollectorCall::Takes(SentDatagram::Bytes(EMPTY_2), Kept),
    CollectorCall::Holds(0, Some(0), Some(0)),
    CollectorCall::Gives(ExpectedItem::Bytes(0, b"")),
];

#[test]
fn gives_no_bytes_of_four_fragments(rt: HostRuntime) {
    run(&rt, rt.alloc(), (1, None), FOUR_EMPTY, None, &[]);
}
