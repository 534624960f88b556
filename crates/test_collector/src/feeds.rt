//! Items and switches. The packets were made by a program in Python after TS 102 820 and TS 102 821.

ghost use Rattle.std.specs.Prelude.{◌≡◌};
ghost use Rattle.dcp_collect.specs.View.{item_of as given_of};
ghost use Rattle.dcp_collect.specs.WholePackets.{IsAfIfWhole};
ghost use Rattle.mod_feed.specs.Items.{number_of};

use dcp_af::AfFault;
use dcp_collect::Out;
use drm_fac::{Channel, Fac, Mode, Service};
use drm_mux::{MuxDesc, Part, Spans};
use drm_reconfiguration::Before;
use drm_sdc::{BlockInfo, SdcFault};
use mdi_items::{MdiFault, MdiView, SdcSpan};
use mod_feed::{BadFault, Feed, FeedItem, Step};

// The last frame of a super frame, with the reconfiguration index 1: it names the next frame.
const NAMING: &[u8] = &[
    0x41, 0x46, 0, 0, 0, 0x4e, 0, 1, 0x90, 0x54, 0x2a, 0x70, 0x74, 0x72, 0, 0, 0, 0x40, 0x44, 0x4d,
    0x44, 0x49, 0, 0, 0, 0, 0x64, 0x6c, 0x66, 0x63, 0, 0, 0, 0x20, 0, 0, 0, 1, 0x66, 0x61, 0x63,
    0x5f, 0, 0, 0, 0x48, 0x46, 8, 0x41, 0x23, 0x45, 0x60, 0xa1, 0x80, 0x12, 0x73, 0x64, 0x63, 0x69,
    0, 0, 0, 0x20, 1, 0, 0, 4, 0x72, 0x6f, 0x62, 0x6d, 0, 0, 0, 8, 1, 0x73, 0x74, 0x72, 0x30, 0, 0,
    0, 0x20, 0x55, 0x55, 0x55, 0x55, 0x48, 0x81,
];

// The second frame of a super frame, which names none, in mode B. In mode C its byte 75 is 2, and the last two are 48 20.
const SECOND: [u8; 90] = [
    0x41, 0x46, 0, 0, 0, 0x4e, 0, 1, 0x90, 0x54, 0x2a, 0x70, 0x74, 0x72, 0, 0, 0, 0x40, 0x44, 0x4d,
    0x44, 0x49, 0, 0, 0, 0, 0x64, 0x6c, 0x66, 0x63, 0, 0, 0, 0x20, 0, 0, 0, 1, 0x66, 0x61, 0x63,
    0x5f, 0, 0, 0, 0x48, 0x26, 8, 1, 0x23, 0x45, 0x60, 0xa1, 0x80, 0x33, 0x73, 0x64, 0x63, 0x69, 0,
    0, 0, 0x20, 1, 0, 0, 4, 0x72, 0x6f, 0x62, 0x6d, 0, 0, 0, 8, 1, 0x73, 0x74, 0x72, 0x30, 0, 0, 0,
    0x20, 0x55, 0x55, 0x55, 0x55, 0x87, 0x85,
];

const SECOND_BYTES: &[u8] = &SECOND;

// The first frame, with a block of 92 bits.
const FIRST: [u8; 110] = [
    0x41, 0x46, 0, 0, 0, 0x62, 0, 0, 0x90, 0x54, 0x2a, 0x70, 0x74, 0x72, 0, 0, 0, 0x40, 0x44, 0x4d,
    0x44, 0x49, 0, 0, 0, 0, 0x64, 0x6c, 0x66, 0x63, 0, 0, 0, 0x20, 0, 0, 0, 0, 0x66, 0x61, 0x63,
    0x5f, 0, 0, 0, 0x48, 0x66, 8, 1, 0x23, 0x45, 0x60, 0xa1, 0x80, 0x6d, 0x73, 0x64, 0x63, 0x69, 0,
    0, 0, 0x20, 1, 0, 0, 4, 0x72, 0x6f, 0x62, 0x6d, 0, 0, 0, 8, 1, 0x73, 0x64, 0x63, 0x5f, 0, 0, 0,
    0x5c, 0, 0x60, 0x10, 0, 0, 0x40, 0x49, 2, 0x30, 6, 0xbe, 0x60, 0x73, 0x74, 0x72, 0x30, 0, 0, 0,
    0x20, 0x55, 0x55, 0x55, 0x55, 0xf9, 0x59,
];

const FIRST_BYTES: &[u8] = &FIRST;

// Of a frame with one stream of four bytes.
#[derive(Clone, Copy)]
struct Shown {
    dlfc: u32,
    fac_bytes: [u8; 9],
    identity: u8,
    index: u8,
    mode: Mode,
    sdc: Option<SdcSpan>,
    // Where the stream stands.
    at: usize,
}

const SHOWN_NAMING: &Shown = &Shown {
    dlfc: 1,
    fac_bytes: [0x46, 8, 0x41, 0x23, 0x45, 0x60, 0xa1, 0x80, 0x12],
    identity: 2,
    index: 1,
    mode: Mode::B,
    sdc: None,
    at: 74,
};

const SHOWN_SECOND: &Shown = &Shown {
    dlfc: 1,
    fac_bytes: [0x26, 8, 1, 0x23, 0x45, 0x60, 0xa1, 0x80, 0x33],
    identity: 1,
    index: 0,
    mode: Mode::B,
    sdc: None,
    at: 74,
};

const SHOWN_FIRST: &Shown = &Shown {
    dlfc: 0,
    fac_bytes: [0x66, 8, 1, 0x23, 0x45, 0x60, 0xa1, 0x80, 0x6d],
    identity: 3,
    index: 0,
    mode: Mode::B,
    sdc: Some(SdcSpan {
        at: 74,
        bits: 92,
        info: BlockInfo { afs: 0, room: 9 },
    }),
    at: 94,
};

fn view<'a>(shown: &Shown, payload: &'a [u8]) -> MdiView<'a> {
    let none = Part { a: 0, b: 0 };
    MdiView {
        major: 0,
        minor: 0,
        dlfc: shown.dlfc,
        fac_bytes: shown.fac_bytes,
        fac: fac(shown.identity, shown.index),
        mux: MuxDesc {
            prot_a: 0,
            prot_b: 1,
            count: 1,
            parts: [Part { a: 0, b: 4 }, none, none, none],
        },
        mode: shown.mode,
        sdc: shown.sdc,
        streams: Spans {
            at: [shown.at, 0, 0, 0],
            len: [4, 0, 0, 0],
        },
        payload,
    }
}

fn fac(identity: u8, index: u8) -> Fac {
    Fac {
        channel: Channel {
            enhancement: false,
            identity,
            occupancy: 3,
            short_depth: false,
            msc: 0,
            qam4: false,
            services: 4,
            index,
            last: 0,
        },
        service: Service {
            id: 0x123456,
            short: 0,
            ca: false,
            language: 5,
            is_data: false,
            descriptor: 3,
            data_ca: false,
            last: 0,
        },
    }
}

// A frame of this packet, with nothing before it.
fn frame<'a>(index: u64, shown: &Shown, packet: &'a [u8]) -> Step<'a> {
    let payload = packet
        .get(10..packet.len().saturating_sub(2))
        .unwrap_or(&[]);
    Step {
        before: None,
        item: FeedItem::Frame {
            index,
            view: view(shown, payload),
        },
    }
}

// The packet is bad, with nothing before it.
fn bad(index: u64, fault: BadFault) -> Step<'static> {
    Step {
        before: None,
        item: FeedItem::Bad { index, fault },
    }
}

const NO_ITEMS: &[u8] = b"AF\0\0\0\0\0\0\x90T\x04R";

const ABSENT: BadFault = BadFault::Mdi(MdiFault::Absent { name: *b"*ptr" });

const BROKEN: &[u8] = b"AF\0\0\0\0\0\0\x90T\x04S";

const BROKEN_CHECK: BadFault = BadFault::Af(AfFault::Crc {
    stands: 0x0453,
    computed: 0x0452,
});

// The next frame is named, and then this comes.
fn switches(out: Out<'_>, item: FeedItem<'_>) -> bool
    requires number { number_of (given_of out) ≡ 1 }
    requires whole { IsAfIfWhole out }
{
    let mut feed = Feed::new();
    let naming = Out::Packet {
        index: 0,
        bytes: NAMING,
        whole: false,
    };
    let before = Some(Before::Switch(1));
    feed.step(naming) == frame(0, SHOWN_NAMING, NAMING) && feed.step(out) == Step { before, item }
}

// The same with a packet in its place.
fn switches_at(bytes: &[u8], item: FeedItem<'_>) -> bool {
    let packet = Out::Packet {
        index: 1,
        bytes,
        whole: false,
    };
    switches(packet, item)
}

// The frame that is named comes, or something else in its place.
#[test]
fn tells_the_switch_that_a_frame_names(rt: HostRuntime) {
    let (index, had, of) = (1, 2, 7);
    let lost = Out::Lost { index: 1, had, of };
    assert!(rt;
        switches(lost, FeedItem::Missing { index, had, of })
            && switches(Out::Damaged { index: 1 }, bad(1, BadFault::Code).item)
            && switches_at(BROKEN, bad(1, BROKEN_CHECK).item)
            && switches_at(NO_ITEMS, bad(1, ABSENT).item)
            && switches_at(SECOND_BYTES, frame(1, SHOWN_SECOND, SECOND_BYTES).item)
    );
}

// A frame of mode C after one of mode B, and one that is lost. The second frame of mode C is no news.
fn resumes(changed: &[u8], shown: &Shown) -> bool {
    let mut feed = Feed::new();
    let first = Out::Packet {
        index: 0,
        bytes: SECOND_BYTES,
        whole: false,
    };
    let other = Out::Packet {
        index: 2,
        bytes: changed,
        whole: false,
    };
    let again = Out::Packet {
        index: 3,
        bytes: changed,
        whole: false,
    };
    let resumed = Step {
        before: Some(Before::Resumed(2)),
        ..frame(2, shown, changed)
    };
    feed.step(first) == frame(0, SHOWN_SECOND, SECOND_BYTES)
        && feed.step(Out::Damaged { index: 1 }) == bad(1, BadFault::Code)
        && feed.step(other) == resumed
        && feed.step(again) == frame(3, shown, changed)
}

#[test]
fn tells_a_resumption(rt: HostRuntime) {
    let mut changed = SECOND;
    changed[75] = 2;
    changed[88] = 0x48;
    changed[89] = 0x20;
    let shown = Shown {
        mode: Mode::C,
        ..*SHOWN_SECOND
    };
    assert!(rt; resumes(&changed, &shown));
}

const BROKEN_BLOCK: BadFault = BadFault::Mdi(MdiFault::Sdc(SdcFault::Crc {
    stands: 0x6bf6,
    computed: 0x6be6,
}));

// A frame with a block, and then one with a broken block.
fn gives_blocks(broken: &[u8]) -> bool {
    let mut feed = Feed::new();
    let first = Out::Packet {
        index: 0,
        bytes: FIRST_BYTES,
        whole: false,
    };
    let second = Out::Packet {
        index: 1,
        bytes: broken,
        whole: false,
    };
    feed.step(first) == frame(0, SHOWN_FIRST, FIRST_BYTES)
        && feed.step(second) == bad(1, BROKEN_BLOCK)
}

// In the second packet a bit of the block's check value is another.
#[test]
fn gives_a_block(rt: HostRuntime) {
    let mut broken = FIRST;
    broken[94] = 0xbf;
    broken[108] = 0x82;
    broken[109] = 0x38;
    assert!(rt; gives_blocks(&broken));
}

#[test]
fn names_a_damaged_packet(rt: HostRuntime) {
    let mut feed = Feed::new();
    assert!(rt; feed.step(Out::Damaged { index: 0 }) == bad(0, BadFault::Code));
}

// The first packet has these bytes, and is bad.
fn is_bad(bytes: &[u8], fault: BadFault) -> bool {
    let mut feed = Feed::new();
    let packet = Out::Packet {
        index: 0,
        bytes,
        whole: false,
    };
    feed.step(packet) == bad(0, fault)
}

#[test]
fn names_the_fault_of_a_packet(rt: HostRuntime) {
    assert!(rt; is_bad(NO_ITEMS, ABSENT) && is_bad(BROKEN, BROKEN_CHECK));
}
