//! The lines of a report that no command prints yet, and a sink that fails in the middle of one.

use drm_bits::NoMemory;
use drm_links::MemSink;
use report_text::{EndWord, Sums, write_end, write_feed};
use std::alloc::Global;

const SUMS: Sums = Sums {
    given: 1,
    missing: 5,
    bad: 0,
    refused: 18_446_744_073_709_551_615,
};

const TEXT: &str = "feed 16
end input given 1 missing 5 bad 0 refused 18446744073709551615
end paths given 1 missing 5 bad 0 refused 18446744073709551615
";

fn prints(alloc: Global) -> bool {
    let Ok(mut out) = MemSink::make(alloc, 1000, &[], 7) else {
        return false;
    };
    write_feed(&mut out, 16).is_ok()
        && write_end(&mut out, EndWord::Input, &SUMS).is_ok()
        && write_end(&mut out, EndWord::Paths, &SUMS).is_ok()
        && out.bytes() == TEXT.as_bytes()
}

#[test]
fn prints_the_first_and_the_last_line(rt: HostRuntime) {
    assert!(rt; prints(rt.alloc()));
}

fn stops(alloc: Global) -> bool {
    let Ok(mut out) = MemSink::make(alloc, 100, &[4], 7) else {
        return false;
    };
    write_feed(&mut out, 1).is_ok()
        && write_feed(&mut out, 2).is_err()
        && out.bytes() == b"feed 1\nfeed ".as_slice()
}

#[test]
fn stops_at_a_fault(rt: HostRuntime) {
    assert!(rt; stops(rt.alloc()));
}
