//! Paths work side by side: the first three of four links bring nothing before the fourth one was asked.

use cmd_paths::run_paths;
use drm_links::MemSink;
use std::alloc::Global;
use std::sync::Wait;
use std::sync::atomic::AtomicU64;
use std::thread::Threads;
use test_gated_links::{GatedDock, Share, reports, words_of};

/// Which packets each link brings.
const SHARES: [Share; 4] = [
    Share { from: 0, to: 1 },
    Share { from: 1, to: 2 },
    Share { from: 0, to: 2 },
    Share { from: 2, to: 3 },
];

const ADDRESSES: &str = "127.0.0.1:5001,127.0.0.1:5002,127.0.0.1:5003,127.0.0.1:5004";

/// A path waits for the last link, whose thread may begin late.
const LINE_THAT_WAITS: [&str; 4] = [ADDRESSES, "--first=0", "--frames=3", "--idle=1000000"];

/// A path ends with its last datagram.
const LINE_THAT_ENDS: [&str; 4] = [ADDRESSES, "--first=0", "--frames=3", "--idle=1"];

// Whether all links' datagrams are in the report, which is all that is written.
fn has_all<R: Threads + Wait + Sync>(
    rt: &R,
    alloc: Global,
    asked: AtomicU64,
    line: &[&str],
) -> bool {
    let mut dock = GatedDock::make(alloc, &SHARES, &asked);
    let Ok(words) = words_of(alloc, line) else {
        return false;
    };
    let Ok(report) = reports(alloc, 1) else {
        return false;
    };
    let Ok(mut out) = MemSink::make(alloc, 2000, &[], 100) else {
        return false;
    };
    let Ok(mut err) = MemSink::make(alloc, 100, &[], 100) else {
        return false;
    };
    let status = run_paths(rt, alloc, &words, &mut out, &mut err, &mut dock);
    status.code == 0 && out.bytes() == &report[..] && err.bytes().is_empty()
}

#[test]
fn paths_work_side_by_side(rt: HostRuntime) {
    assert!(rt; has_all(&rt, rt.alloc(), AtomicU64::new(0), &LINE_THAT_WAITS));
}

/// How often a book is closed that agrees with its paths.
const ROUNDS: usize = 10_000;

// The first of these runs that ends otherwise. No path waits: what counts is that they cross.
fn wrong_run<R: Threads + Wait + Sync>(rt: &R, alloc: Global) -> Option<usize> {
    for round in 0..ROUNDS {
        if !has_all(rt, alloc, AtomicU64::new(1), &LINE_THAT_ENDS) {
            return Some(round);
        }
    }
    None
}

#[test]
fn no_run_of_ten_thousand_finds_a_difference(rt: HostRuntime) {
    assert!(rt; wrong_run(&rt, rt.alloc()).is_none());
}
