//! Schedules over UDP, on the loopback.

use crate::small::is_done;
use cli_notices::Edge;
use drm_adapt::UdpDock;
use drm_bits::zeros;
use drm_links::{Address, Came, Dock, LONGEST_DATAGRAM, Link, Opened};
use std::alloc::Global;
use std::io::Eprint;
use std::net::Net;
use std::thread::{Threads, join, sleep};
use std::time::{Clock, Duration};
use test_gated_links::reports;

// The headers of the first fragments of the three packets, but for their check values.
const FIRST: &[(usize, [u8; 14])] = &[
    (
        0,
        [0x50, 0x46, 0, 0, 0, 0, 0, 0, 0, 0x0a, 0x80, 0x10, 0x6e, 0],
    ),
    (
        10,
        [0x50, 0x46, 0, 1, 0, 0, 0, 0, 0, 0x09, 0x80, 0x10, 0x5a, 0],
    ),
    (
        19,
        [0x50, 0x46, 0, 2, 0, 0, 0, 0, 0, 0x09, 0x80, 0x10, 0x5a, 0],
    ),
];

const PORTS: &[(u16, &str)] = &[
    (47_801, "127.0.0.1:47801"),
    (47_802, "127.0.0.1:47802"),
    (47_803, "127.0.0.1:47803"),
];

// A link at the first of these ports that is free, with its address as a word.
fn bind<D: Dock>(dock: &mut D) -> Option<(D::L, &'static str)> {
    for row in PORTS {
        let at = Address {
            ip: [127, 0, 0, 1],
            port: row.0,
        };
        if let Opened::Link(link) = dock.bind(at) {
            return Some((link, row.1));
        }
    }
    None
}

// Whether this datagram is the first fragment of a packet, if it should be.
fn is_in_its_place(k: usize, datagram: &[u8]) -> bool {
    for row in FIRST {
        if row.0 == k && !datagram.starts_with(&row.1) {
            return false;
        }
    }
    datagram.len() == 32
}

// Whether the next one comes, and is in its place.
fn comes<L: Link>(link: &mut L, buf: &mut [u8], k: usize) -> bool {
    if buf.len() < LONGEST_DATAGRAM {
        return false;
    }
    match link.recv(buf) {
        Came::Datagram(len) => is_in_its_place(k, &buf[..len.min(LONGEST_DATAGRAM)]),
        Came::Idle | Came::Failed => false,
    }
}

// How many come before the first that doesn't.
fn come<L: Link>(alloc: Global, link: &mut L) -> usize {
    let Ok(mut buf) = zeros(alloc, LONGEST_DATAGRAM) else {
        return 0;
    };
    for k in 0..29usize {
        if !comes(link, &mut buf, k) {
            return k;
        }
    }
    29
}

// A command line over the sockets of the system.
fn is_done_over_udp<R: AllocGlobal + Threads + Sync + Net + Clock + Eprint>(
    rt: &R,
    line: &[&str],
    written: &[u8],
) -> bool {
    let edge = Edge::new(rt, rt.alloc(), "test_top");
    let mut dock = UdpDock::new(&edge);
    is_done(rt, rt.alloc(), line, &mut dock, written)
}

fn is_sent<R: AllocGlobal + Threads + Sync + Net + Clock + Eprint>(rt: &R) -> usize {
    let edge = Edge::new(rt, rt.alloc(), "test_top");
    let mut dock = UdpDock::new(&edge);
    let Some((mut link, to)) = bind(&mut dock) else {
        return 0;
    };
    if is_done_over_udp(rt, &["serve", "schedule.txt", "--to", to], b"") {
        come(rt.alloc(), &mut link)
    } else {
        0
    }
}

#[test]
fn what_is_sent_is_received(rt: HostRuntime) {
    let datagrams = is_sent(&rt);
    assert!(rt; datagrams == 28, "{datagrams}");
}

const IDLE: &[u8] = b"feed 1\nend idle given 0 missing 0 bad 0 refused 0\n";

#[test]
fn where_nobody_sends_the_report_ends_idle(rt: HostRuntime) {
    assert!(rt; is_done_over_udp(&rt, &["receive", "127.0.0.1:47811", "--idle", "1"], IDLE));
}

const BOTH: &str = "127.0.0.1:47812,127.0.0.1:47813";

// Whether two receivers get all of it.
fn both_hear_it<R: AllocGlobal + Threads + Sync + Net + Clock + Eprint>(rt: &R) -> bool {
    let line = ["receive", BOTH, "--frames", "3", "--idle", "100"];
    match reports(rt.alloc(), 2) {
        Ok(reports) => is_done_over_udp(rt, &line, &reports),
        Err(_) => false,
    }
}

#[test]
fn two_modulators_give_what_is_served(rt: HostRuntime) {
    let (heard, served) = join(
        &rt,
        || both_hear_it(&rt),
        || {
            // So long the receivers have to open their links.
            sleep(&rt, Duration::from_millis(500));
            let first = ["serve", "schedule.txt", "--to", "127.0.0.1:47812"];
            let second = ["serve", "schedule.txt", "--to", "127.0.0.1:47813"];
            is_done_over_udp(&rt, &first, b"") && is_done_over_udp(&rt, &second, b"")
        },
    );
    assert!(rt; heard && served);
}
