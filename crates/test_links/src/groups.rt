//! Groups of a dock in memory. The expected answers follow from the calls by hand.

ghost use Rattle.std.specs.Prelude.{◌≡◌, ◌∷◌, [], IfSome};

use crate::calls::{bytes_of, was_sent};
use drm_bits::NoMemory;
use drm_links::{
    Address, Addresses, Came, Dock, GatheredGroup, Group, LONGEST_DATAGRAM, MemDock, MemGroup,
    MemLink, Sent, none_up,
};
use std::alloc::Global;

const SOURCE: Address = Address {
    ip: [127, 0, 0, 1],
    port: 4999,
};

const TO: Address = Address {
    ip: [127, 0, 0, 1],
    port: 5000,
};

// Puts a link there that brings this and takes two datagrams.
fn puts(dock: &mut MemDock, alloc: Global, at: Address, brings: &[u8]) -> bool {
    let Ok(mut link) = MemLink::make(alloc, &[], &[], 2) else {
        return false;
    };
    if brings.len() > LONGEST_DATAGRAM || link.bring(alloc, brings).is_err() {
        return false;
    }
    !dock.has(at) && dock.put(alloc, at, link).is_ok()
}

fn one_address(alloc: Global) -> Option<Addresses>
    ensures { IfSome result (λ to. to ≡ TO ∷ []) }
{
    let mut to = Addresses::new(alloc);
    match to.push(TO) {
        Ok(()) => Some(to),
        Err(NoMemory) => None,
    }
}

fn gather(dock: &mut MemDock, alloc: Global, to: &Addresses) -> Option<MemGroup>
    requires { to.now ≡ TO ∷ [] }
{
    match dock.gather(alloc, Some(SOURCE), to) {
        GatheredGroup::Group(group) => Some(group),
        GatheredGroup::Failed | GatheredGroup::NoMemory => None,
    }
}

fn disband(dock: &mut MemDock, to: &Addresses, group: MemGroup) -> bool {
    let fits = group.len() == to.len();
    if fits {
        dock.disband(Some(SOURCE), to, group);
    }
    fits
}

fn send<G: Group>(group: &mut G, bytes: &[u8]) -> Option<Sent> {
    if bytes.len() > 100 || !group.is_up(0) {
        return None;
    }
    Some(group.send(0, bytes))
}

fn rest<G: Group>(group: &mut G, millis: u32) -> bool {
    let is_up = group.is_up(0);
    if is_up {
        group.rest(0, millis);
    }
    is_up
}

fn recv<G: Group>(group: &mut G, buf: &mut [u8]) -> Option<Came> {
    if buf.len() < LONGEST_DATAGRAM {
        return None;
    }
    Some(group.recv(buf))
}

// One datagram comes and two go; the third is refused, and then no link is left.
fn goes_on(group: &mut MemGroup, buf: &mut [u8]) -> bool {
    recv(group, buf) == Some(Came::Datagram(1))
        && buf.starts_with(b"x")
        && send(group, b"ab") == Some(Sent::Sent)
        && rest(group, 40)
        && recv(group, buf) == Some(Came::Idle)
        && send(group, b"cd") == Some(Sent::Sent)
        && !none_up(group)
        && send(group, b"ef") == Some(Sent::Failed)
        && send(group, b"gh").is_none()
        && none_up(group)
}

// What went over the links is told once they are closed.
fn is_told(dock: &MemDock) -> bool {
    match (dock.closed(TO), dock.closed(SOURCE)) {
        (Some(to), Some(source)) => {
            was_sent(to, 0, b"ab")
                && was_sent(to, 1, b"cd")
                && to.sent(2).is_none()
                && to.waited(0) == Some(0)
                && to.waited(1) == Some(40)
                && source.sent(0).is_none()
        }
        _ => false,
    }
}

fn keeps_what_went(alloc: Global) -> bool {
    let Ok(mut dock) = MemDock::make(alloc, &[]) else {
        return false;
    };
    let Ok(mut buf) = bytes_of(alloc, b'.', LONGEST_DATAGRAM) else {
        return false;
    };
    let Some(to) = one_address(alloc) else {
        return false;
    };
    if !puts(&mut dock, alloc, SOURCE, b"x") || !puts(&mut dock, alloc, TO, b"y") {
        return false;
    }
    let Some(mut group) = gather(&mut dock, alloc, &to) else {
        return false;
    };
    goes_on(&mut group, &mut buf) && disband(&mut dock, &to, group) && is_told(&dock)
}

#[test]
fn a_group_keeps_what_went(rt: HostRuntime) {
    assert!(rt; keeps_what_went(rt.alloc()));
}

// Where one opening fails, the link that was opened before it is closed, and no further one is opened.
fn opens_none(alloc: Global, fails: &[u64]) -> Option<(bool, bool)> {
    let Ok(mut dock) = MemDock::make(alloc, fails) else {
        return None;
    };
    let Some(to) = one_address(alloc) else {
        return None;
    };
    if !puts(&mut dock, alloc, SOURCE, b"x") || !puts(&mut dock, alloc, TO, b"y") {
        return None;
    }
    match gather(&mut dock, alloc, &to) {
        Some(_) => None,
        None => Some((dock.closed(SOURCE).is_some(), dock.has(TO))),
    }
}

#[test]
fn a_group_that_cannot_be_opened_leaves_no_link_open(rt: HostRuntime) {
    assert!(rt; opens_none(rt.alloc(), &[0]) == Some((false, true)));
    assert!(rt; opens_none(rt.alloc(), &[1]) == Some((true, true)));
}
