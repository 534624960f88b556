//! Live streams over links: before a frame is sent its piece is read, and no more.

use crate::wrong::has_none;
use drm_bits::NoMemory;
use drm_links::{
    Address, Addresses, Came, Dock, DockedLink, GatheredGroup, Group, MemDock, MemGroup, MemLink,
    MemShelf, MemSink, MemSource, Opened, ReadOut, Sent, Source,
};
use drm_top::run;
use std::alloc::Global;
use std::sync::atomic::AtomicU64;
use std::sync::atomic::Ordering::SeqCst;
use std::thread::Threads;
use test_gated_links::words_of;
use test_support::SMALL;

/// A dock in memory whose groups count the datagrams that go.
#[derive(Drop)]
struct CountingDock<'a> {
    inner: MemDock,
    gone: &'a AtomicU64,
}

#[derive(Drop)]
struct CountingGroup<'a> {
    inner: MemGroup,
    gone: &'a AtomicU64,
}

impl<'a> Group for CountingGroup<'a> {
    ghost known = { λ group. ⟦<MemGroup as Group>⟧.known group.inner };

    ghost up = { λ group. ⟦<MemGroup as Group>⟧.up group.inner };

    fn len(&self) -> usize {
        self.inner.len()
    }

    fn is_up(&self, k: usize) -> bool {
        self.inner.is_up(k)
    }

    fn recv(&mut self, buf: &mut [u8]) -> Came {
        self.inner.recv(buf)
    }

    fn send(&mut self, k: usize, bytes: &[u8]) -> Sent {
        let sent = self.inner.send(k, bytes);
        if sent == Sent::Sent {
            self.gone.fetch_add(1, SeqCst);
        }
        sent
    }

    fn rest(&mut self, k: usize, millis: u32) {
        self.inner.rest(k, millis);
    }
}

impl<'a> Dock for CountingDock<'a> {
    type L = DockedLink;

    type G = CountingGroup<'a>;

    ghost known = { λ dock. ⟦<MemDock as Dock>⟧.known dock.inner };

    fn bind(&mut self, at: Address) -> Opened<DockedLink> {
        self.inner.bind(at)
    }

    fn reach(&mut self, at: Address) -> Opened<DockedLink> {
        self.inner.reach(at)
    }

    fn close(&mut self, at: Address, link: DockedLink) {
        self.inner.close(at, link);
    }

    fn gather(
        &mut self,
        alloc: Global,
        from: Option<Address>,
        to: &Addresses,
    ) -> GatheredGroup<CountingGroup<'a>> {
        match self.inner.gather(alloc, from, to) {
            GatheredGroup::Group(inner) => GatheredGroup::Group(CountingGroup {
                inner,
                gone: self.gone,
            }),
            GatheredGroup::Failed => GatheredGroup::Failed,
            GatheredGroup::NoMemory => GatheredGroup::NoMemory,
        }
    }

    fn disband(&mut self, from: Option<Address>, to: &Addresses, group: CountingGroup<'a>) {
        let CountingGroup { inner, gone: _ } = group;
        self.inner.disband(from, to, inner);
    }
}

/// Input that notes how many datagrams had gone at each of its reads.
#[derive(Drop)]
struct NotingSource<'a> {
    inner: MemSource,
    gone: &'a AtomicU64,
    notes: [u64; 4],
    reads: usize,
}

impl<'a> Source for NotingSource<'a> {
    ghost known = { λ source. ⟦<MemSource as Source>⟧.known source.inner };

    fn read(&mut self, buf: &mut [u8]) -> ReadOut {
        if self.reads < 4 {
            self.notes[self.reads] = self.gone.load(SeqCst);
        }
        self.reads = self.reads.saturating_add(1);
        self.inner.read(buf)
    }
}

// Links at 10.0.0.1 and on, each of which refuses the sends of these numbers.
fn links(alloc: Global, refused: &[&[u64]]) -> Result<MemDock, NoMemory> {
    let mut dock = MemDock::make(alloc, &[])?;
    for (k, fail) in refused.iter().enumerate() {
        let at = Address {
            ip: [10, 0, 0, (k % 200) as u8 + 1],
            port: 5001,
        };
        let link = MemLink::make(alloc, fail, &[], 100)?;
        if dock.has(at) || dock.put(alloc, at, link).is_err() {
            return Err(NoMemory);
        }
    }
    Ok(dock)
}

/// A command line, the sends that each link refuses, the status, and how many datagrams had gone at each of the three reads.
type Turns = (
    &'static [&'static str],
    &'static [&'static [u64]],
    u8,
    [u64; 4],
);

// The frames have ten, nine and nine datagrams, and each asks for one read. The second of the three links refuses its thirteenth.
const TURNS: &[Turns] = &[
    (
        &["serve", "schedule.txt", "--live=0", "--to=10.0.0.1:5001"],
        &[&[]],
        0,
        [0, 10, 19, 0],
    ),
    (
        &[
            "serve",
            "schedule.txt",
            "--live=0",
            "--to=10.0.0.1:5001,10.0.0.2:5001,10.0.0.3:5001",
        ],
        &[&[], &[12], &[]],
        6,
        [0, 30, 50, 0],
    ),
];

// Runs a command line over a dock, and answers its status; none for want of memory.
fn status_of<R: Threads + Sync>(
    rt: &R,
    alloc: Global,
    line: &[&str],
    input: &mut NotingSource<'_>,
    dock: &mut CountingDock<'_>,
) -> Option<u8> {
    let Ok(words) = words_of(alloc, line) else {
        return None;
    };
    let Ok(mut shelf) = MemShelf::make(alloc, &[]) else {
        return None;
    };
    if shelf.add(alloc, "schedule.txt", SMALL.as_bytes()).is_err() {
        return None;
    }
    let Ok(mut out) = MemSink::make(alloc, 100, &[], 100) else {
        return None;
    };
    let Ok(mut err) = MemSink::make(alloc, 100, &[], 100) else {
        return None;
    };
    let status = run(
        rt, alloc, &words, &mut shelf, input, &mut out, &mut err, dock,
    );
    Some(status.code)
}

fn is_in_turn<R: Threads + Sync>(rt: &R, alloc: Global, turns: &Turns) -> bool {
    let gone = AtomicU64::new(0);
    let Ok(inner) = links(alloc, turns.1) else {
        return false;
    };
    let mut dock = CountingDock { inner, gone: &gone };
    let Ok(inner) = MemSource::make(alloc, b"twelve bytes", &[], 4) else {
        return false;
    };
    let mut input = NotingSource {
        inner,
        gone: &gone,
        notes: [0; 4],
        reads: 0,
    };
    let status = status_of(rt, alloc, turns.0, &mut input, &mut dock);
    status == Some(turns.2) && input.reads == 3 && input.notes == turns.3
}

// The first run whose reads and sends come in another order.
fn wrong_turns<R: Threads + Sync>(rt: &R, alloc: Global) -> Option<usize> {
    for (k, turns) in TURNS.iter().enumerate() {
        if !is_in_turn(rt, alloc, turns) {
            return Some(k);
        }
    }
    None
}

#[test]
fn a_frame_is_sent_before_the_next_piece_is_read(rt: HostRuntime) {
    has_none(&rt, wrong_turns(&rt, rt.alloc()));
}
