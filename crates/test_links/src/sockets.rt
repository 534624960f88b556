//! Datagrams over sockets of the loopback.

use cli_notices::Edge;
use drm_adapt::UdpDock;
use drm_links::{Address, Came, Dock, LONGEST_DATAGRAM, Link, Opened, Sent};
use std::alloc::Global;
use std::time::{Clock, Duration, Instant};

const HOME: [u8; 4] = [127, 0, 0, 1];

/// The most bytes of a datagram over IPv4: 65,535 without the heads of IP and UDP.
const GREATEST: usize = 65_507;

fn link_of<L>(opened: Opened<L>) -> Option<L> {
    match opened {
        Opened::Link(link) => Some(link),
        Opened::Failed => None,
    }
}

// A link of the loopback at the first free port from this one on.
fn bind_from<D: Dock>(dock: &mut D, first: u16) -> Option<(D::L, Address)> {
    for port in first..48_000 {
        let at = Address { ip: HOME, port };
        if let Opened::Link(link) = dock.bind(at) {
            return Some((link, at));
        }
    }
    None
}

// The same, and one that sends to it.
fn pair_from<D: Dock>(dock: &mut D, first: u16) -> Option<(D::L, D::L, Address)> {
    let Some((to, at)) = bind_from(dock, first) else {
        return None;
    };
    match dock.reach(at) {
        Opened::Link(from) => Some((from, to, at)),
        Opened::Failed => None,
    }
}

// Whether these bytes are the next that come.
fn comes<L: Link>(alloc: Global, link: &mut L, bytes: &[u8]) -> bool {
    match vec![in alloc; 0u8; LONGEST_DATAGRAM] {
        Ok(mut buf) => {
            link.recv(&mut buf) == Came::Datagram(bytes.len()) && buf.starts_with(bytes)
        }
        Err(_) => false,
    }
}

// Whether nothing comes.
fn is_idle<L: Link>(alloc: Global, link: &mut L) -> bool {
    match vec![in alloc; 0u8; LONGEST_DATAGRAM] {
        Ok(mut buf) => link.recv(&mut buf) == Came::Idle,
        Err(_) => false,
    }
}

// These bytes go from one link to the other.
fn cross<L: Link>(alloc: Global, from: &mut L, to: &mut L, bytes: &[u8]) -> bool {
    from.send(bytes) == Sent::Sent && comes(alloc, to, bytes)
}

// So many bytes, of which the last is another, go from one link to the other.
fn so_many_cross<L: Link>(alloc: Global, from: &mut L, to: &mut L, length: usize) -> bool {
    match vec![in alloc; 0x5a_u8; length] {
        Ok(mut bytes) => {
            if let Some(last) = bytes.last_mut() {
                *last = b'!';
            }
            cross(alloc, from, to, &bytes)
        }
        Err(_) => false,
    }
}

const LENGTHS: &[usize] = &[5, 0, 1500, 8192, GREATEST];

// How many of the lengths cross before the first that doesn't.
fn lengths_cross<L: Link>(alloc: Global, from: &mut L, to: &mut L) -> usize {
    for (k, length) in LENGTHS.iter().enumerate() {
        if !so_many_cross(alloc, from, to, *length) {
            return k;
        }
    }
    LENGTHS.len()
}

fn cross_from<D: Dock>(alloc: Global, dock: &mut D, first: u16) -> usize {
    let Some((mut from, mut to, at)) = pair_from(dock, first) else {
        return 0;
    };
    let crossed = lengths_cross(alloc, &mut from, &mut to);
    dock.close(at, from);
    dock.close(at, to);
    crossed
}

#[test]
fn datagrams_cross_the_loopback(rt: HostRuntime) {
    let edge = Edge::new(&rt, rt.alloc(), "test_links");
    let mut dock = UdpDock::new(&edge);
    let lengths = cross_from(rt.alloc(), &mut dock, 47_000);
    assert!(rt; lengths == 5, "length {lengths}");
}

// Whether nothing comes for about a tenth of a second.
fn is_idle_so_long<R: Clock, L: Link>(rt: &R, alloc: Global, link: &mut L) -> bool {
    let Ok(start) = Instant::now(rt) else {
        return false;
    };
    if !is_idle(alloc, link) {
        return false;
    }
    match start.elapsed(rt) {
        Ok(passed) => passed >= Duration::from_millis(95),
        Err(_) => false,
    }
}

fn is_quiet<R: Clock, D: Dock>(rt: &R, alloc: Global, dock: &mut D, first: u16) -> bool {
    match bind_from(dock, first) {
        Some((mut link, _)) => is_idle_so_long(rt, alloc, &mut link),
        None => false,
    }
}

#[test]
fn a_quiet_link_is_idle(rt: HostRuntime) {
    let edge = Edge::new(&rt, rt.alloc(), "test_links");
    let mut dock = UdpDock::new(&edge);
    assert!(rt; is_quiet(&rt, rt.alloc(), &mut dock, 47_100));
}

// What is sent to one address isn't received at another one with the same port.
fn go_there<D: Dock>(alloc: Global, dock: &mut D, home: &mut D::L, there: Address) -> bool {
    let Some(mut to) = link_of(dock.bind(there)) else {
        return false;
    };
    let Some(mut from) = link_of(dock.reach(there)) else {
        return false;
    };
    cross(alloc, &mut from, &mut to, b"hello") && is_idle(alloc, home)
}

fn go_to_their_address<D: Dock>(alloc: Global, dock: &mut D, first: u16) -> bool {
    let Some((mut home, at)) = bind_from(dock, first) else {
        return false;
    };
    let there = Address {
        ip: [127, 1, 2, 3],
        port: at.port,
    };
    go_there(alloc, dock, &mut home, there)
}

// The numbers of an address stand in their order.
#[test]
fn datagrams_go_to_their_address(rt: HostRuntime) {
    let edge = Edge::new(&rt, rt.alloc(), "test_links");
    let mut dock = UdpDock::new(&edge);
    assert!(rt; go_to_their_address(rt.alloc(), &mut dock, 47_300));
}

fn cannot_bind<D: Dock>(dock: &mut D, ip: [u8; 4], port: u16) -> bool {
    matches!(dock.bind(Address { ip, port }), Opened::Failed)
}

fn fails_in_use<D: Dock>(dock: &mut D, first: u16) -> bool {
    let Some((mut link, at)) = bind_from(dock, first) else {
        return false;
    };
    // The second address is none of this system, and a bound link has nowhere to send to.
    let fails = cannot_bind(dock, at.ip, at.port)
        && cannot_bind(dock, [203, 0, 113, 1], at.port)
        && link.send(b"hello") == Sent::Failed;
    // Its address is free again once it is closed.
    dock.close(at, link);
    fails && !cannot_bind(dock, at.ip, at.port)
}

#[test]
fn an_address_in_use_is_failed(rt: HostRuntime) {
    let edge = Edge::new(&rt, rt.alloc(), "test_links");
    let mut dock = UdpDock::new(&edge);
    assert!(rt; fails_in_use(&mut dock, 47_200));
}

fn sends_twice<L: Link>(link: &mut L) -> bool {
    link.send(b"hello") == Sent::Sent && link.send(b"hello") == Sent::Sent
}

// Whether so many zeros can't be sent.
fn sends_no<L: Link>(alloc: Global, link: &mut L, length: usize) -> bool {
    match vec![in alloc; 0u8; length] {
        Ok(bytes) => link.send(&bytes) == Sent::Failed,
        Err(_) => false,
    }
}

fn sends_to_nobody<D: Dock>(alloc: Global, dock: &mut D, first: u16) -> bool {
    let Some((link, at)) = bind_from(dock, first) else {
        return false;
    };
    dock.close(at, link);
    let Some(mut from) = link_of(dock.reach(at)) else {
        return false;
    };
    // The last two are too long for the network.
    sends_twice(&mut from)
        && sends_twice(&mut from)
        && sends_no(alloc, &mut from, GREATEST + 1)
        && sends_no(alloc, &mut from, 65_536)
}

#[test]
fn a_send_to_nobody_is_no_fault(rt: HostRuntime) {
    let edge = Edge::new(&rt, rt.alloc(), "test_links");
    let mut dock = UdpDock::new(&edge);
    assert!(rt; sends_to_nobody(rt.alloc(), &mut dock, 47_400));
}

// Whether a rest ends when so much time has passed, or later.
fn rests<R: Clock, L: Link>(
    rt: &R,
    link: &mut L,
    millis: u32,
    begun: Instant,
    least: Duration,
) -> bool {
    link.rest(millis);
    match begun.elapsed(rt) {
        Ok(passed) => passed >= least && passed < Duration::from_secs(5),
        Err(_) => false,
    }
}

const RESTS: &[u32] = &[0, 1, 5, 50];

// How many of the rests take their time, together with those before, before the first that doesn't. What comes in this time
// doesn't end them.
fn so_many_rest<R: Clock, L: Link>(rt: &R, from: &mut L, to: &mut L) -> usize {
    let Ok(begun) = Instant::now(rt) else {
        return 0;
    };
    let mut least = Duration::from_millis(0);
    for (k, millis) in RESTS.iter().enumerate() {
        least = least.saturating_add(Duration::from_millis(u64::from(*millis)));
        if !(sends_twice(from) && rests(rt, to, *millis, begun, least)) {
            return k;
        }
    }
    RESTS.len()
}

fn rest_so_long<R: Clock, D: Dock>(rt: &R, alloc: Global, dock: &mut D, first: u16) -> bool {
    let Some((mut from, mut to, _)) = pair_from(dock, first) else {
        return false;
    };
    // What came isn't received later, and the link is idle as before.
    so_many_rest(rt, &mut from, &mut to) == 4 && is_idle_so_long(rt, alloc, &mut to)
}

#[test]
fn a_rest_takes_its_time(rt: HostRuntime) {
    let edge = Edge::new(&rt, rt.alloc(), "test_links");
    let mut dock = UdpDock::new(&edge);
    assert!(rt; rest_so_long(&rt, rt.alloc(), &mut dock, 47_600));
}
