//! What is said of want of memory.

use drm_bits::NoMemory;
use drm_links::MemSink;
use drm_top::no_memory;
use std::alloc::Global;

fn says(alloc: Global, text: &[u8]) -> bool {
    match MemSink::make(alloc, 100, &[], 7) {
        Ok(mut err) => no_memory(&mut err).code == 1 && err.bytes() == text,
        Err(NoMemory) => false,
    }
}

#[test]
fn names_want_of_memory(rt: HostRuntime) {
    assert!(rt; says(rt.alloc(), b"drmcast: no memory\n"));
}
