//! The outside of a case, in memory.

ghost use Rattle.std.specs.Prelude.{IfOk};
ghost use Rattle.drm_links.specs.MemoryLink.{IsUntouchedLink};

use drm_bits::NoMemory;
use drm_links::{LONGEST_DATAGRAM, MemDock, MemLink, MemShelf, MemSink, MemSource};
use std::alloc::Global;
use test_case_files::{Case, LinkCase, OutputCase};

/// What a run reads, writes and opens.
#[derive(Drop)]
pub struct MemOutside {
    pub shelf: MemShelf,
    pub input: MemSource,
    pub out: MemSink,
    pub err: MemSink,
    pub dock: MemDock,
}

impl MemOutside {
    pub fn make(alloc: Global, case: &Case) -> Result<MemOutside, NoMemory> {
        let input = &case.input;
        Ok(MemOutside {
            shelf: shelf_of(alloc, case)?,
            input: MemSource::make(alloc, &input.bytes, &input.fails, input.piece.get())?,
            out: sink_of(alloc, &case.out)?,
            err: sink_of(alloc, &case.err)?,
            dock: dock_of(alloc, case)?,
        })
    }
}

fn shelf_of(alloc: Global, case: &Case) -> Result<MemShelf, NoMemory> {
    let mut shelf = MemShelf::make(alloc, &case.failing_loads)?;
    for file in &case.files {
        shelf.add(alloc, &file.name, &file.bytes)?;
    }
    Ok(shelf)
}

fn sink_of(alloc: Global, output: &OutputCase) -> Result<MemSink, NoMemory> {
    MemSink::make(alloc, output.room, &output.fails, output.piece.get())
}

// A case has one link at an address, and no longer datagrams.
fn dock_of(alloc: Global, case: &Case) -> Result<MemDock, NoMemory> {
    let mut dock = MemDock::make(alloc, &case.failing_openings)?;
    for link in &case.links {
        let made = link_of(alloc, link)?;
        if !dock.has(link.at) && dock.put(alloc, link.at, made).is_err() {
            return Err(NoMemory);
        }
    }
    Ok(dock)
}

fn link_of(alloc: Global, case: &LinkCase) -> Result<MemLink, NoMemory>
    ensures { IfOk result IsUntouchedLink }
{
    let mut failing = case.fails.to_vec(alloc)?;
    failing.extend_from_slice(&case.failing_sends)?;
    let mut link = MemLink::make(alloc, &failing, &case.idles, case.sends)?;
    for datagram in &case.datagrams {
        if datagram.len() <= LONGEST_DATAGRAM {
            link.bring(alloc, datagram)?;
        }
    }
    Ok(link)
}
