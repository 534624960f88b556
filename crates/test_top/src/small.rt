//! Command lines beside the small trial schedule. Its packets, cut, have 10, 9 and 9 fragments of 16 bytes behind their headers.

use drm_bits::NoMemory;
use drm_links::{Dock, Link, MemShelf, MemSink, MemSource};
use drm_top::run;
use std::alloc::Global;
use std::thread::Threads;
use test_gated_links::words_of;
use test_support::SMALL;

/// What a command line reads and writes: the schedule on the shelf, and an empty input.
#[derive(Drop)]
struct Surroundings {
    shelf: MemShelf,
    input: MemSource,
    out: MemSink,
    err: MemSink,
}

fn with_the_schedule(alloc: Global) -> Result<Surroundings, NoMemory> {
    let mut shelf = MemShelf::make(alloc, &[])?;
    shelf.add(alloc, "schedule.txt", SMALL.as_bytes())?;
    Ok(Surroundings {
        shelf,
        input: MemSource::make(alloc, &[], &[], 1)?,
        out: MemSink::make(alloc, 8000, &[], 100)?,
        err: MemSink::make(alloc, 100, &[], 100)?,
    })
}

/// Whether a command line is done, with this on the standard output and nothing on the other.
pub fn is_done<R: Threads + Sync, D: Dock>(
    rt: &R,
    alloc: Global,
    line: &[&str],
    dock: &mut D,
    written: &[u8],
) -> bool
where
    D::L: Link + Send,
{
    let Ok(words) = words_of(alloc, line) else {
        return false;
    };
    let Ok(mut around) = with_the_schedule(alloc) else {
        return false;
    };
    let status = run(
        rt,
        alloc,
        &words,
        &mut around.shelf,
        &mut around.input,
        &mut around.out,
        &mut around.err,
        dock,
    );
    status.code == 0 && around.out.bytes() == written && around.err.bytes().is_empty()
}
