//! Datagrams that nobody would send so, for the narrowest window and for the widest.

use crate::runs::{CollectorCall, ExpectedItem, SentDatagram, run};
use crate::without_code::{FIRST, LAST, PACKET, SECOND};
use dcp_collect::Taken::{Kept, Late, Repeated};

// One that is ahead by more than the window, where each packet before the window's end has a fragment already.
const AHEAD: &[CollectorCall<'static>] = &[
    CollectorCall::Takes(SentDatagram::Cut(0, 0), Kept),
    CollectorCall::Takes(SentDatagram::Whole(200, 500), Kept),
    CollectorCall::Gives(ExpectedItem::Lost(0, 1, 10)),
    CollectorCall::Gives(ExpectedItem::Nothing(1, 200)),
    CollectorCall::Gives(ExpectedItem::Whole(200, 200, 500)),
    CollectorCall::GivesNone,
];

#[test]
fn what_runs_ahead_is_kept(rt: HostRuntime) {
    run(&rt, rt.alloc(), (1, Some(0)), AHEAD, None, &[]);
}

const FAR_AHEAD_REST: &[ExpectedItem<'static>] = &[
    ExpectedItem::Lost(137, 1, 9),
    ExpectedItem::Nothing(138, 200),
    ExpectedItem::Whole(200, 200, 500),
];

// A fragment of each packet of the widest window, one far ahead, and what is given before it.
fn far_ahead() -> [CollectorCall<'static>; 133] {
    let mut steps = [CollectorCall::GivesNone; 133];
    for number in 0..64u16 {
        let place = usize::from(number);
        let count = if number == 0 { 10 } else { 9 };
        steps[place] = CollectorCall::Takes(SentDatagram::Cut(number, 0), Kept);
        steps[65 + place] = CollectorCall::Gives(ExpectedItem::Lost(u64::from(number), 1, count));
    }
    steps[64] = CollectorCall::Takes(SentDatagram::Whole(200, 500), Kept);
    steps[129] = CollectorCall::Gives(ExpectedItem::Nothing(64, 137));
    steps[130] = CollectorCall::Takes(SentDatagram::Cut(136, 0), Late);
    steps[131] = CollectorCall::Takes(SentDatagram::Cut(137, 1), Kept);
    steps
}

#[test]
fn what_runs_far_ahead_is_kept(rt: HostRuntime) {
    let steps = far_ahead();
    run(&rt, rt.alloc(), (64, Some(0)), &steps, None, FAR_AHEAD_REST);
}

// What is kept of a packet stands where another one stood: nothing of that one is seen.
const GIVEN_BEFORE: &[CollectorCall<'static>] = &[
    CollectorCall::Takes(SentDatagram::Bytes(LAST), Kept),
    CollectorCall::Takes(SentDatagram::Bytes(FIRST), Kept),
    CollectorCall::Takes(SentDatagram::Bytes(SECOND), Kept),
    CollectorCall::Gives(ExpectedItem::Bytes(0, PACKET)),
    CollectorCall::Takes(SentDatagram::Cut(2, 8), Kept),
    CollectorCall::Takes(SentDatagram::Cut(2, 7), Kept),
    CollectorCall::Takes(SentDatagram::Cut(2, 6), Kept),
    CollectorCall::Takes(SentDatagram::Cut(2, 5), Kept),
    CollectorCall::Takes(SentDatagram::Cut(2, 4), Kept),
    CollectorCall::Takes(SentDatagram::Cut(2, 3), Kept),
    CollectorCall::Gives(ExpectedItem::Packet(1, 2, 90)),
    CollectorCall::Takes(SentDatagram::Whole(3, 49152), Kept),
    CollectorCall::Gives(ExpectedItem::Whole(2, 3, 49152)),
    CollectorCall::Takes(SentDatagram::Cut(4, 8), Kept),
    CollectorCall::Takes(SentDatagram::Cut(4, 0), Kept),
    CollectorCall::Takes(SentDatagram::Cut(4, 8), Repeated),
    CollectorCall::Takes(SentDatagram::Cut(4, 1), Kept),
    CollectorCall::Takes(SentDatagram::Cut(4, 2), Kept),
    CollectorCall::Takes(SentDatagram::Cut(4, 3), Kept),
    CollectorCall::GivesNone,
    CollectorCall::Holds(80, Some(1), Some(3)),
    CollectorCall::Takes(SentDatagram::Cut(4, 4), Kept),
    CollectorCall::Gives(ExpectedItem::Packet(3, 4, 90)),
    CollectorCall::Holds(0, Some(1), Some(3)),
];

#[test]
fn nothing_is_left_of_what_was_given(rt: HostRuntime) {
    let steps = GIVEN_BEFORE;
    run(&rt, rt.alloc(), (1, Some(1)), steps, None, &[]);
    run(&rt, rt.alloc(), (64, Some(1)), steps, None, &[]);
}
