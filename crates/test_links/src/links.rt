//! Links in memory through their trait. The expected answers follow from the arguments by hand.

use crate::calls::{bytes_of, recv, was_sent};
use drm_bits::NoMemory;
use drm_links::{Came, LONGEST_DATAGRAM, Link, MemLink, Sent};
use std::alloc::Global;

fn send<L: Link>(link: &mut L, bytes: &[u8]) -> Sent {
    link.rest(1);
    link.send(bytes)
}

// Puts this datagram behind all others.
fn brings(link: &mut MemLink, alloc: Global, datagram: &[u8]) -> bool {
    datagram.len() <= LONGEST_DATAGRAM && link.bring(alloc, datagram).is_ok()
}

// A recv answers so, and what came stands in front of dots.
fn receives(alloc: Global, link: &mut MemLink, answer: Came, front: &[u8]) -> bool {
    match bytes_of(alloc, b'.', LONGEST_DATAGRAM) {
        Ok(mut buf) => recv(link, &mut buf) == Some(answer) && buf.starts_with(front),
        Err(NoMemory) => false,
    }
}

fn sends(link: &mut MemLink, bytes: &[u8], answer: Sent) -> bool {
    send(link, bytes) == answer
}

// What is sent, and whether it is.
type SendRow<'a> = (&'a [u8], Sent);

// Whether each of these is answered so.
fn sends_rows(link: &mut MemLink, rows: &[SendRow<'_>]) -> bool {
    for row in rows {
        if !sends(link, row.0, row.1) {
            return false;
        }
    }
    true
}

fn fails(alloc: Global, link: &mut MemLink) -> bool {
    brings(link, alloc, b"AF")
        && receives(alloc, link, Came::Failed, b"..")
        && sends(link, b"AF", Sent::Failed)
        && link.sent(0).is_none()
        && receives(alloc, link, Came::Datagram(2), b"AF.")
        && sends(link, b"AF", Sent::Sent)
}

fn fails_where_listed(alloc: Global) -> bool {
    match MemLink::make(alloc, &[0], &[], 1) {
        Ok(mut link) => fails(alloc, &mut link),
        Err(NoMemory) => false,
    }
}

#[test]
fn each_listed_call_of_a_link_fails(rt: HostRuntime) {
    assert!(rt; fails_where_listed(rt.alloc()));
}

// What recvs answer, and what stands at the front. At 6 nothing is left, and before 7 more is brought. The number 8 stands
// in both lists.
const RECVS: &[(Came, &[u8])] = &[
    (Came::Idle, b"..."),
    (Came::Failed, b"..."),
    (Came::Datagram(2), b"ab."),
    (Came::Idle, b"..."),
    (Came::Datagram(1), b"c.."),
    (Came::Datagram(0), b"..."),
    (Came::Idle, b"..."),
    (Came::Datagram(2), b"de."),
    (Came::Failed, b"..."),
    (Came::Datagram(1), b"f.."),
    (Came::Idle, b"..."),
];

// How many rows hold before the first that doesn't.
fn received(alloc: Global, link: &mut MemLink) -> usize {
    for (k, row) in RECVS.iter().enumerate() {
        if k == 7 && !(brings(link, alloc, b"de") && brings(link, alloc, b"f")) {
            return k;
        }
        if !receives(alloc, link, row.0, row.1) {
            return k;
        }
    }
    RECVS.len()
}

fn gives_what_was_brought(alloc: Global) -> usize {
    let Ok(mut link) = MemLink::make(alloc, &[1, 8], &[0, 3, 8], 0) else {
        return 0;
    };
    if brings(&mut link, alloc, b"ab")
        && brings(&mut link, alloc, b"c")
        && brings(&mut link, alloc, b"")
    {
        received(alloc, &mut link)
    } else {
        0
    }
}

#[test]
fn a_link_gives_what_was_brought(rt: HostRuntime) {
    let rows = gives_what_was_brought(rt.alloc());
    assert!(rt; rows == 11, "row {rows}");
}

// Of these the second fails, and for the last two there is no room.
const SENDS: &[SendRow<'static>] = &[
    (b"ab", Sent::Sent),
    (b"x", Sent::Failed),
    (b"cde", Sent::Sent),
    (b"f", Sent::Failed),
    (b"", Sent::Failed),
];

fn keeps(alloc: Global) -> bool {
    let Ok(mut link) = MemLink::make(alloc, &[1], &[0], 2) else {
        return false;
    };
    sends_rows(&mut link, SENDS) && has_kept(&link)
}

fn has_kept(link: &MemLink) -> bool {
    was_sent(link, 0, b"ab") && was_sent(link, 1, b"cde") && link.sent(2).is_none()
}

#[test]
fn a_link_keeps_what_it_has_room_for(rt: HostRuntime) {
    assert!(rt; keeps(rt.alloc()));
}

// So many of these bytes are sent, or not.
fn sends_so_many(alloc: Global, link: &mut MemLink, byte: u8, length: usize, answer: Sent) -> bool {
    match bytes_of(alloc, byte, length) {
        Ok(bytes) => {
            sends(link, &bytes, answer) && (answer == Sent::Failed || was_sent(link, 0, &bytes))
        }
        Err(NoMemory) => false,
    }
}

fn sends_the_greatest(alloc: Global) -> bool {
    match MemLink::make(alloc, &[], &[], 2) {
        Ok(mut link) => {
            sends_so_many(alloc, &mut link, 7, 32781, Sent::Failed)
                && sends_so_many(alloc, &mut link, 8, 32780, Sent::Sent)
        }
        Err(NoMemory) => false,
    }
}

fn gives_the_greatest(alloc: Global) -> bool {
    let Ok(mut link) = MemLink::make(alloc, &[], &[], 2) else {
        return false;
    };
    match bytes_of(alloc, 9, LONGEST_DATAGRAM) {
        Ok(bytes) => {
            brings(&mut link, alloc, &bytes)
                && receives(alloc, &mut link, Came::Datagram(65536), &bytes)
        }
        Err(NoMemory) => false,
    }
}

#[test]
fn a_datagram_of_the_greatest_length_fits(rt: HostRuntime) {
    assert!(rt; sends_the_greatest(rt.alloc()) && gives_the_greatest(rt.alloc()));
}

fn rest<L: Link>(link: &mut L, millis: u32) {
    link.rest(millis);
}

// A send that comes after a rest of so long, and one of one millisecond, is answered so.
fn sends_later(link: &mut MemLink, millis: u32, bytes: &[u8], answer: Sent) -> bool {
    rest(link, millis);
    send(link, bytes) == answer
}

// A rest before a send, what is sent, and whether it is.
const LATER: &[(u32, &[u8], Sent)] = &[
    (6, b"a", Sent::Sent),
    (0, b"b", Sent::Sent),
    (4, b"x", Sent::Failed),
    (2, b"c", Sent::Sent),
];

fn rests_and_sends(link: &mut MemLink) -> bool {
    rest(link, u32::MAX);
    for row in LATER {
        if !sends_later(link, row.0, row.1, row.2) {
            return false;
        }
    }
    rest(link, 9);
    true
}

fn has_rested(link: &MemLink) -> bool {
    link.waited(0) == Some(4_294_967_302)
        && link.waited(1) == Some(1)
        && link.waited(2) == Some(8)
        && link.waited(3).is_none()
}

fn keeps_how_long(alloc: Global) -> bool {
    let Ok(mut link) = MemLink::make(alloc, &[2], &[], 3) else {
        return false;
    };
    rests_and_sends(&mut link) && has_rested(&link)
}

#[test]
fn a_link_keeps_how_long_it_rested_before_each_send(rt: HostRuntime) {
    assert!(rt; keeps_how_long(rt.alloc()));
}
