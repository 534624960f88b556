//! A gateway over links that are lent apart. What goes over them follows by hand: each packet over each link that takes it, before the
//! next one is heard.

ghost use Rattle.std.specs.Prelude.{◌≡◌, ◌+◌, length, OnOk};
ghost use Rattle.drm_links.specs.Members.{AreUp};

use dcp_pft::Carry;
use drm_bits::{NoMemory, zeros};
use drm_gate::{Gate, GateEnded, GateOptions, Tally, gate_one};
use drm_links::{LONGEST_DATAGRAM, MemLink, Member};
use std::alloc::Global;

// AF packets without a payload and without a check value.
const PACKETS: [&[u8]; 3] = [
    b"AF\0\0\0\0\0\0\x10T\0\0",
    b"AF\0\0\0\0\0\x01\x10T\0\0",
    b"AF\0\0\0\0\0\x02\x10T\0\0",
];

const ALL: GateOptions = GateOptions {
    frames: Some(3),
    idle: 2,
    limit: 100,
};

// How many packets each of two links took, and how the gateway ended.
type Passed = (usize, usize, GateEnded);

// A link that brings the packets, and of which these calls fail.
fn brings_all(alloc: Global, fail: &[u64]) -> Result<MemLink, NoMemory> {
    let mut link = MemLink::make(alloc, fail, &[], 0)?;
    for packet in PACKETS {
        if packet.len() <= LONGEST_DATAGRAM {
            link.bring(alloc, packet)?;
        }
    }
    Ok(link)
}

// One link more, which takes so many datagrams.
fn add_link(alloc: Global, to: &mut Vec<Member<MemLink>>, sends: usize) -> Result<(), NoMemory>
    ensures one_longer { OnOk result (length to.new.items ≡ length to.old.items + 1) }
    ensures up { OnOk result (AreUp to.old.items → AreUp to.new.items) }
{
    let link = MemLink::make(alloc, &[], &[], sends)?;
    match to.push(Member { link, up: true }) {
        Ok(()) => Ok(()),
        Err(_) => Err(NoMemory),
    }
}

// How many of the packets went over a link, in their order and with nothing behind them.
fn taken(link: &MemLink) -> Option<usize> {
    for (k, packet) in PACKETS.iter().enumerate() {
        match link.sent(k) {
            Some(bytes) if bytes == *packet => {}
            Some(_) => return None,
            None => return Some(k),
        }
    }
    match link.sent(PACKETS.len()) {
        Some(_) => None,
        None => Some(PACKETS.len()),
    }
}

fn passes(
    alloc: Global,
    fail: &[u64],
    first: usize,
    second: usize,
) -> Result<Option<Passed>, NoMemory> {
    let mut gate = Gate::make(alloc, 8, 32_767, None, Carry::Plain)?;
    let mut from = brings_all(alloc, fail)?;
    let mut to = Vec::new(alloc);
    add_link(alloc, &mut to, first)?;
    add_link(alloc, &mut to, second)?;
    let mut buffer = zeros(alloc, LONGEST_DATAGRAM)?;
    let ended = gate_one(&mut gate, &mut from, &mut to, &ALL, &mut buffer);
    Ok(match (taken(&to[0].link), taken(&to[1].link)) {
        (Some(a), Some(b)) => Some((a, b, ended)),
        _ => None,
    })
}

fn passed(alloc: Global, fail: &[u64], first: usize, second: usize) -> Option<Passed> {
    match passes(alloc, fail, first, second) {
        Ok(passed) => passed,
        Err(NoMemory) => None,
    }
}

#[test]
fn a_gateway_sends_over_links_that_are_lent_apart(rt: HostRuntime) {
    let all = GateEnded::Done(Tally {
        given: 3,
        missing: 0,
        bad: 0,
        large: 0,
        sent: 6,
    });
    assert!(rt; passed(rt.alloc(), &[], 3, 3) == Some((3, 3, all)));
    assert!(rt; passed(rt.alloc(), &[], 3, 2) == Some((3, 2, GateEnded::SomeFailed)));
    assert!(rt; passed(rt.alloc(), &[], 1, 2) == Some((1, 2, GateEnded::ToFailed)));
    assert!(rt; passed(rt.alloc(), &[1], 3, 3) == Some((1, 1, GateEnded::FromFailed)));
}
