//! A receiver whose link or sink fails in the middle.

use crate::wrong::has_none;
use dcp_collect::Collector;
use drm_bits::{NoMemory, zeros};
use drm_links::{LONGEST_DATAGRAM, MemLink, MemSink};
use drm_top::{Ended, Options, receive_one};
use mod_feed::Feed;
use std::alloc::Global;

// An AF packet with no payload.
const EMPTY: [u8; 12] = [
    0x41, 0x46, 0x00, 0x00, 0x00, 0x00, 0x00, 0x00, 0x90, 0x54, 0x04, 0x52,
];

// The calls of link and sink that fail, how the receiver ends, and what it has written.
#[derive(Clone, Copy)]
struct ReceiverCase<'a> {
    link: &'a [u64],
    sink: &'a [u64],
    ended: Ended,
    text: &'a str,
}

// How the receiver ends. Want of memory is a wrong end too.
fn ends(alloc: Global, link: &mut MemLink, out: &mut MemSink) -> Option<Ended> {
    let Ok(mut collector) = Collector::make(alloc, 8, 32_767, None) else {
        return None;
    };
    let Ok(mut buffer) = zeros(alloc, LONGEST_DATAGRAM) else {
        return None;
    };
    let mut feed = Feed::new();
    let options = Options {
        feed: 1,
        frames: None,
        idle: 1,
        limit: 1000,
    };
    Some(receive_one(
        alloc,
        &mut collector,
        &mut feed,
        link,
        &options,
        buffer.as_mut_slice(),
        out,
    ))
}

fn receives(alloc: Global, link: &mut MemLink, case: &ReceiverCase<'_>) -> bool {
    match MemSink::make(alloc, 2000, case.sink, 100) {
        Ok(mut out) => {
            ends(alloc, link, &mut out) == Some(case.ended) && out.bytes() == case.text.as_bytes()
        }
        Err(NoMemory) => false,
    }
}

fn does(alloc: Global, case: &ReceiverCase<'_>) -> bool {
    match MemLink::make(alloc, case.link, &[], 0) {
        Ok(mut link) => link.bring(alloc, &EMPTY).is_ok() && receives(alloc, &mut link, case),
        Err(NoMemory) => false,
    }
}

const CASES: &[ReceiverCase<'static>] = &[
    ReceiverCase {
        link: &[],
        sink: &[],
        ended: Ended::Done { clean: false },
        text: "feed 1\nbad 0 mdi absent:*ptr\nend idle given 0 missing 0 bad 1 refused 0\n",
    },
    ReceiverCase {
        link: &[0],
        sink: &[],
        ended: Ended::LinkFailed,
        text: "feed 1\n",
    },
    ReceiverCase {
        link: &[1],
        sink: &[],
        ended: Ended::LinkFailed,
        text: "feed 1\nbad 0 mdi absent:*ptr\n",
    },
    ReceiverCase {
        link: &[],
        sink: &[0],
        ended: Ended::WriteFailed,
        text: "",
    },
    // The first line goes out in three calls, and each item in one.
    ReceiverCase {
        link: &[],
        sink: &[4],
        ended: Ended::WriteFailed,
        text: "feed 1\nbad 0 mdi absent:*ptr\n",
    },
];

// The first receiver that does something else.
fn wrong_receiver(alloc: Global) -> Option<usize> {
    for (k, case) in CASES.iter().enumerate() {
        if !does(alloc, case) {
            return Some(k);
        }
    }
    None
}

#[test]
fn stops_where_the_outside_fails(rt: HostRuntime) {
    has_none(&rt, wrong_receiver(rt.alloc()));
}
