//! Docks in memory through their trait. The expected answers follow from the arguments by hand.

ghost use Rattle.drm_links.specs.MemoryLink.{IsUntouchedLink};

use crate::calls::{bytes_of, recv, was_sent};
use drm_bits::NoMemory;
use drm_links::{Address, Came, Dock, LONGEST_DATAGRAM, Link, MemDock, MemLink, Opened, Sent};
use std::alloc::Global;

const HERE: Address = Address {
    ip: [127, 0, 0, 1],
    port: 5000,
};

const NEXT: Address = Address {
    ip: [127, 0, 0, 1],
    port: 5001,
};

const THERE: Address = Address {
    ip: [1, 0, 0, 127],
    port: 5000,
};

fn send<L: Link>(link: &mut L, bytes: &[u8]) -> Sent {
    link.send(bytes)
}

fn bind<D: Dock>(dock: &mut D, at: Address) -> Opened<D::L> {
    dock.bind(at)
}

fn reach<D: Dock>(dock: &mut D, at: Address) -> Opened<D::L> {
    dock.reach(at)
}

fn close<D: Dock>(dock: &mut D, at: Address, link: D::L) {
    dock.close(at, link)
}

// Puts a link there, where none stands.
fn puts(dock: &mut MemDock, alloc: Global, at: Address, link: MemLink) -> bool
    requires { IsUntouchedLink link }
{
    !dock.has(at) && dock.put(alloc, at, link).is_ok()
}

// The same with a link to which nothing comes, and that takes so many datagrams.
fn puts_quiet(dock: &mut MemDock, alloc: Global, at: Address, room: usize) -> bool {
    match MemLink::make(alloc, &[], &[], room) {
        Ok(link) => puts(dock, alloc, at, link),
        Err(NoMemory) => false,
    }
}

fn is_failed<L>(opened: &Opened<L>) -> bool {
    matches!(opened, Opened::Failed)
}

fn cannot_bind(dock: &mut MemDock, at: Address) -> bool {
    is_failed(&bind(dock, at))
}

fn cannot_reach(dock: &mut MemDock, at: Address) -> bool {
    is_failed(&reach(dock, at))
}

// The last link that was closed there has sent these bytes alone.
fn was_closed(dock: &MemDock, at: Address, bytes: &[u8]) -> bool {
    match dock.closed(at) {
        Some(closed) => was_sent(closed, 0, bytes) && closed.sent(1).is_none(),
        None => false,
    }
}

// Binds the link that stands here, which then stands here no more, and sends over it before it is closed.
fn gives_once(dock: &mut MemDock) -> bool {
    let Opened::Link(mut link) = bind(dock, HERE) else {
        return false;
    };
    let is_gone = !dock.has(HERE) && cannot_reach(dock, HERE);
    let is_sent = send(&mut link, b"ab") == Sent::Sent;
    let is_open = dock.closed(HERE).is_none();
    close(dock, HERE, link);
    is_gone && is_sent && is_open
}

fn holds_one(dock: &mut MemDock, alloc: Global) -> bool {
    puts_quiet(dock, alloc, HERE, 2)
        && dock.has(HERE)
        && !dock.has(NEXT)
        && cannot_bind(dock, NEXT)
        && cannot_bind(dock, THERE)
}

fn has_given_one(dock: &mut MemDock) -> bool {
    gives_once(dock)
        && cannot_bind(dock, HERE)
        && dock.closed(NEXT).is_none()
        && was_closed(dock, HERE, b"ab")
}

fn gives_a_link_once(alloc: Global) -> bool {
    match MemDock::make(alloc, &[]) {
        Ok(mut dock) => holds_one(&mut dock, alloc) && has_given_one(&mut dock),
        Err(NoMemory) => false,
    }
}

#[test]
fn a_dock_gives_a_link_once(rt: HostRuntime) {
    assert!(rt; gives_a_link_once(rt.alloc()));
}

// Where a link is bound, and whether that fails.
const OPENINGS: &[(Address, bool)] = &[
    (HERE, true),
    (HERE, false),
    (NEXT, true),
    (NEXT, false),
    (NEXT, true),
];

// How many rows hold before the first that doesn't.
fn openings(dock: &mut MemDock) -> usize {
    for (k, row) in OPENINGS.iter().enumerate() {
        if cannot_bind(dock, row.0) != row.1 {
            return k;
        }
    }
    OPENINGS.len()
}

fn fails_openings(alloc: Global) -> usize {
    let Ok(mut dock) = MemDock::make(alloc, &[0, 2]) else {
        return 0;
    };
    if !puts_quiet(&mut dock, alloc, HERE, 0) || !puts_quiet(&mut dock, alloc, NEXT, 0) {
        return 0;
    }
    openings(&mut dock)
}

#[test]
fn a_dock_fails_the_openings_that_are_listed(rt: HostRuntime) {
    let rows = fails_openings(rt.alloc());
    assert!(rt; rows == 5, "row {rows}");
}

// Puts a link there, sends these bytes over it, and closes it.
fn sends_and_closes(dock: &mut MemDock, alloc: Global, at: Address, bytes: &[u8]) -> bool {
    if !puts_quiet(dock, alloc, at, 1) {
        return false;
    }
    let Opened::Link(mut link) = reach(dock, at) else {
        return false;
    };
    let sent = send(&mut link, bytes);
    close(dock, at, link);
    sent == Sent::Sent
}

fn closes_three(dock: &mut MemDock, alloc: Global) -> bool {
    sends_and_closes(dock, alloc, HERE, b"ab")
        && sends_and_closes(dock, alloc, THERE, b"c")
        && sends_and_closes(dock, alloc, HERE, b"de")
}

fn keeps_the_last(alloc: Global) -> bool {
    let Ok(mut dock) = MemDock::make(alloc, &[]) else {
        return false;
    };
    closes_three(&mut dock, alloc)
        && was_closed(&dock, HERE, b"de")
        && was_closed(&dock, THERE, b"c")
}

#[test]
fn a_dock_keeps_the_last_link_that_was_closed(rt: HostRuntime) {
    assert!(rt; keeps_the_last(rt.alloc()));
}

// Puts a link there to which two bytes come, once it failed and was idle.
fn puts_bringing(dock: &mut MemDock, alloc: Global, at: Address) -> bool {
    let Ok(mut link) = MemLink::make(alloc, &[0], &[1], 0) else {
        return false;
    };
    link.bring(alloc, b"ab").is_ok() && puts(dock, alloc, at, link)
}

fn gives_what_was_brought(dock: &mut MemDock, buf: &mut [u8]) -> bool {
    let Opened::Link(mut link) = bind(dock, HERE) else {
        return false;
    };
    recv(&mut link, buf) == Some(Came::Failed)
        && recv(&mut link, buf) == Some(Came::Idle)
        && recv(&mut link, buf) == Some(Came::Datagram(2))
        && recv(&mut link, buf) == Some(Came::Idle)
        && buf.starts_with(b"ab.")
}

fn brings(alloc: Global) -> bool {
    let Ok(mut dock) = MemDock::make(alloc, &[]) else {
        return false;
    };
    let Ok(mut buf) = bytes_of(alloc, b'.', LONGEST_DATAGRAM) else {
        return false;
    };
    puts_bringing(&mut dock, alloc, HERE) && gives_what_was_brought(&mut dock, &mut buf)
}

#[test]
fn a_link_of_a_dock_gives_what_was_brought(rt: HostRuntime) {
    assert!(rt; brings(rt.alloc()));
}
