//! Switches and resumptions, after the worked rows and by hand.

ghost use Rattle.std.specs.Prelude.{◌≡◌, ◌<◌, ◌+◌, ◌^◌};

use Before::{Resumed, Switch};
use SeenItem::{Gap, X, Y};
use drm_bits::{MuxDesc, Part};
use drm_fac::{Channel, Mode};
use drm_timeline::{Before, Seen, Signature, Tracker};
use std::process::Abort;

// What a receiver sees at an item: a frame with one of two signatures, its position and its index.
#[derive(Clone, Copy)]
enum SeenItem {
    Gap,
    X(u8, u8),
    Y(u8, u8),
}

const CHANNEL: Channel = Channel {
    enhancement: false,
    identity: 0,
    occupancy: 3,
    short_depth: false,
    msc: 0,
    qam4: false,
    services: 4,
    index: 0,
    last: 0,
};

// The description of one stream with all its bytes in part B.
fn mux(bytes: u16) -> MuxDesc {
    let none = Part { a: 0, b: 0 };
    MuxDesc {
        prot_a: 0,
        prot_b: 1,
        count: 1,
        parts: [Part { a: 0, b: bytes }, none, none, none],
    }
}

fn frame(
    rt: &impl Abort,
    tracker: &mut Tracker,
    position: u8,
    index: u8,
    bytes: u16,
) -> Option<Before>
    requires { tracker.old.calls < 2 ^ 62 }
    ensures { tracker.new.calls ≡ tracker.old.calls + 1 }
{
    assert!(rt; position < 3 && index < 8);
    tracker.step(Some(Seen {
        position,
        index,
        signature: Signature::new(Mode::B, CHANNEL, mux(bytes)),
    }))
}

fn answer(rt: &impl Abort, tracker: &mut Tracker, item: SeenItem) -> Option<Before>
    requires { tracker.old.calls < 2 ^ 62 }
    ensures { tracker.new.calls ≡ tracker.old.calls + 1 }
{
    match item {
        Gap => tracker.step(None),
        X(position, index) => frame(rt, tracker, position, index, 4),
        Y(position, index) => frame(rt, tracker, position, index, 5),
    }
}

// Each item stands with what is answered before it.
#[derive(Clone, Copy)]
struct SwitchCase<'a> {
    name: &'a str,
    items: &'a [(SeenItem, Option<Before>)],
}

const CASES: &[SwitchCase<'static>] = &[
    SwitchCase {
        name: "a missing frame was named",
        items: &[
            (X(0, 1), None),
            (Gap, None),
            (Gap, None),
            (Gap, Some(Switch(3))),
            (Y(1, 0), None),
        ],
    },
    // 6 is named, and then 1 - 1 + 3.
    SwitchCase {
        name: "a later name replaces a name",
        items: &[
            (X(0, 2), None),
            (X(1, 1), None),
            (Gap, None),
            (Gap, Some(Switch(3))),
            (Gap, None),
            (Gap, None),
            (Gap, None),
        ],
    },
    // 3 is named, and then 1 - 1 + 6.
    SwitchCase {
        name: "a later name puts the switch off",
        items: &[
            (X(0, 1), None),
            (X(1, 2), None),
            (Gap, None),
            (X(0, 0), None),
            (Gap, None),
            (Gap, None),
            (Gap, Some(Switch(6))),
        ],
    },
    SwitchCase {
        name: "a frame with a new signature was named by each of the last three",
        items: &[
            (X(0, 1), None),
            (X(1, 1), None),
            (X(2, 1), None),
            (Y(0, 0), Some(Switch(3))),
            (Y(1, 0), None),
        ],
    },
    // The super frame began before the first item: 0 - 2 + 3.
    SwitchCase {
        name: "the first frame is the last of its super frame",
        items: &[(X(2, 1), None), (Y(0, 0), Some(Switch(1)))],
    },
    // 3 names 3 - 0 + 3.
    SwitchCase {
        name: "a frame that was named names another",
        items: &[
            (X(0, 1), None),
            (Gap, None),
            (Gap, None),
            (Y(0, 1), Some(Switch(3))),
            (Gap, None),
            (Gap, None),
            (X(0, 0), Some(Switch(6))),
            (X(1, 0), None),
        ],
    },
    SwitchCase {
        name: "another signature after a gap",
        items: &[(X(0, 0), None), (Gap, None), (Y(2, 0), Some(Resumed(2)))],
    },
    SwitchCase {
        name: "no frame before the first one",
        items: &[
            (Gap, None),
            (Gap, None),
            (Y(0, 0), None),
            (X(1, 0), Some(Resumed(3))),
        ],
    },
    SwitchCase {
        name: "the same signature after a gap",
        items: &[(X(0, 0), None), (Gap, None), (Gap, None), (X(0, 0), None)],
    },
    // The switch stands before the frame that was seen last, and so not between.
    SwitchCase {
        name: "another signature after a switch and a frame",
        items: &[
            (X(2, 1), None),
            (Y(0, 0), Some(Switch(1))),
            (Gap, None),
            (X(2, 0), Some(Resumed(3))),
        ],
    },
    SwitchCase {
        name: "a switch before a missing frame stands between",
        items: &[
            (X(2, 1), None),
            (Gap, Some(Switch(1))),
            (Gap, None),
            (Y(0, 0), None),
            (X(1, 0), Some(Resumed(4))),
        ],
    },
];

fn follow(rt: &impl Abort, case: &SwitchCase<'_>) {
    assert!(rt; case.items.len() < 100);
    let mut tracker = Tracker::new();
    for (k, row) in case.items.iter().enumerate() {
        let answer = answer(rt, &mut tracker, row.0);
        assert!(rt; answer == row.1, "{}, item {k}", case.name);
    }
}

#[test]
fn tells_what_stands_before(rt: HostRuntime) {
    for case in CASES {
        follow(&rt, case);
    }
}

#[test]
fn signatures_leave_out_place_and_index(rt: HostRuntime) {
    let first = Signature::new(Mode::B, CHANNEL, mux(4));
    let later = Channel {
        identity: 2,
        index: 3,
        last: 1,
        ..CHANNEL
    };
    let narrow = Channel {
        occupancy: 2,
        ..CHANNEL
    };
    assert!(rt;
        Signature::new(Mode::B, later, mux(4)) == first
            && Signature::new(Mode::C, CHANNEL, mux(4)) != first
            && Signature::new(Mode::B, narrow, mux(4)) != first
            && Signature::new(Mode::B, CHANNEL, mux(5)) != first
    );
}
