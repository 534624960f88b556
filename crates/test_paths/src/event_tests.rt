//! A datagram that comes over two paths is entered for each of them.

ghost use Rattle.std.specs.Prelude.{◌≡◌, Some};

use dcp_collect::Taken;
use drm_paths::{Given, Road, open_paths};
use recv_reading::PacketRange;
use report_journal::{Event, Journal};
use std::alloc::Global;
use std::marker::Brand;
use std::sync::Wait;
use std::sync::ledger::Blank;

/// The first fragment of the first packet of the small trial schedule.
const FRAGMENT: &[u8] =
    b"PF\x00\x00\x00\x00\x00\x00\x00\x0a\x80\x10\x6e\x00\x9e\xb6\x41\x2a\x44\x00\x63\x45\x00\x6d\x00\x49\x00\xc4\xfc\x40\xa9\x26";

const SETTINGS: PacketRange = PacketRange {
    window: 8,
    reach: 32767,
    first: Some(0),
    frame_limit: Some(3),
};

fn is_entered_twice(alloc: Global) -> bool {
    let Ok(mut journal) = Journal::make(alloc, SETTINGS) else {
        return false;
    };
    let first = journal.enter(alloc, 0, FRAGMENT);
    let second = journal.enter(alloc, 1, FRAGMENT);
    if first != Event::Took(Taken::Kept) || second != Event::Took(Taken::Repeated) {
        return false;
    }
    match journal.entries() {
        [a, b] => {
            a.path == 0
                && b.path == 1
                && a.datagram.as_slice() == FRAGMENT
                && b.datagram.as_slice() == FRAGMENT
        }
        _ => false,
    }
}

#[test]
fn a_datagram_of_two_paths_is_kept_and_then_repeated(rt: HostRuntime) {
    assert!(rt; is_entered_twice(rt.alloc()));
}

// Whether each of two paths has taken the datagram.
fn both_take_it<G: Road, R: Wait>(rt: &R, alloc: Global, blank: Blank) -> bool
    requires blank { (blank.name ≡ G.name) × (blank.parts ≡ G.parts) × (G.parts ≡ 2) }
    requires options { (G.window ≡ 8) × (G.reach ≡ 32767) × (G.first ≡ Some 0) × (G.frames ≡ Some 3) }
{
    let Ok((shared, paths)) = open_paths::<G>(alloc, blank, SETTINGS, 2) else {
        return false;
    };
    let mut paths = paths.into_vec();
    let Some(mut second) = paths.pop() else {
        return false;
    };
    let Some(mut first) = paths.pop() else {
        return false;
    };
    if first.bytes() != 0 || second.bytes() != 0 {
        return false;
    }
    first.give(rt, alloc, &shared, FRAGMENT) == Given::Took
        && second.give(rt, alloc, &shared, FRAGMENT) == Given::Took
        && first.taken() == 1
        && second.taken() == 1
}

#[test]
fn each_path_has_its_own(rt: HostRuntime) {
    assert!(rt; both_take_it::<Brand, HostRuntime>(&rt, rt.alloc(), Blank::new(2)));
}
