//! What scripts deliver of a schedule of one super frame. With a code for the loss of two fragments its first packet has
//! ten fragments, and the others have nine.

use drm_schedule::Schedule;
use plan_script::{Delivery, read_script};
use std::alloc::Global;
use test_support::{Edit, SMALL, schedule};

// The deliveries of one feed.
type FeedDeliveries<'a> = &'a [(u32, u32)];

fn are(deliveries: &[Delivery], expected: &[(u32, u32)]) -> bool {
    for (k, delivery) in deliveries.iter().enumerate() {
        if expected.get(k) != Some(&(delivery.packet, delivery.fragment)) {
            return false;
        }
    }
    deliveries.len() == expected.len()
}

// The script has two feeds, with these deliveries.
fn is_script(
    alloc: Global,
    plan: &Schedule,
    text: &[u8],
    first: FeedDeliveries<'_>,
    second: FeedDeliveries<'_>,
) -> bool {
    match read_script(alloc, text, plan) {
        Ok(script) => {
            script.feeds() == 2
                && are(script.deliveries(0), first)
                && are(script.deliveries(1), second)
        }
        Err(_) => false,
    }
}

const OF_PACKET_2: &[(u32, u32)] = &[
    (1, 8),
    (2, 8),
    (2, 7),
    (2, 6),
    (2, 5),
    (2, 4),
    (2, 3),
    (2, 2),
    (2, 1),
    (2, 0),
];

const OF_PACKET_1: &[(u32, u32)] = &[
    (1, 0),
    (1, 1),
    (1, 2),
    (1, 3),
    (1, 4),
    (1, 5),
    (1, 6),
    (1, 7),
    (1, 8),
];

// The schedule with these edits, and a script of it.
fn delivers(
    alloc: Global,
    edits: &[Edit<'_>],
    text: &[u8],
    first: FeedDeliveries<'_>,
    second: FeedDeliveries<'_>,
) -> bool {
    match schedule(alloc, SMALL, edits) {
        Ok(plan) => is_script(alloc, &plan, text, first, second),
        Err(_) => false,
    }
}

const BY_LINES: &[u8] = b"# two\n\nfeed\n take  1 008 \nback 2\nfeed\npacket 1";

#[test]
fn delivers_in_the_order_of_the_lines(rt: HostRuntime) {
    assert!(rt; delivers(rt.alloc(), &[], BY_LINES, OF_PACKET_2, OF_PACKET_1));
}

const WHOLE: &[(u32, u32)] = &[(0, 0), (1, 0), (2, 0), (1, 0), (2, 0)];

const PLAIN: &[Edit<'static>] = &[(2, "carry plain")];

const OF_WHOLE: &[u8] = b"feed\npackets 0 2\nback 1\ntake 2 0\nfeed";

#[test]
fn a_packet_that_is_carried_whole_is_one_fragment(rt: HostRuntime) {
    assert!(rt; delivers(rt.alloc(), PLAIN, OF_WHOLE, WHOLE, &[]));
}
