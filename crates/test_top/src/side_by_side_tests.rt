//! Receivers work side by side: the first fifteen of sixteen links bring nothing before the last one was asked.

use crate::small::is_done;
use std::alloc::Global;
use std::sync::atomic::AtomicU64;
use std::thread::Threads;
use test_gated_links::{GatedDock, Share, reports};

/// Each link brings all three packets.
const SHARES: [Share; 16] = [Share { from: 0, to: 3 }; 16];

const LINE: &[&str] = &[
    "receive",
    "127.0.0.1:5001,127.0.0.1:5002,127.0.0.1:5003,127.0.0.1:5004,127.0.0.1:5005,127.0.0.1:5006,127.0.0.1:5007,127.0.0.1:5008,127.0.0.1:5009,127.0.0.1:5010,127.0.0.1:5011,127.0.0.1:5012,127.0.0.1:5013,127.0.0.1:5014,127.0.0.1:5015,127.0.0.1:5016",
    "--frames=3",
    "--idle=1000000",
];

// Whether all sixteen get all of it.
fn all_get_it<R: Threads + Sync>(rt: &R, alloc: Global) -> bool {
    let asked = AtomicU64::new(0);
    let mut dock = GatedDock::make(alloc, &SHARES, &asked);
    match reports(alloc, SHARES.len()) {
        Ok(reports) => is_done(rt, alloc, LINE, &mut dock, &reports),
        Err(_) => false,
    }
}

#[test]
fn receivers_work_side_by_side(rt: HostRuntime) {
    assert!(rt; all_get_it(&rt, rt.alloc()));
}
