//! Bytes with an owner.

use crate::wrong::has_none;
use drm_bits::{NoMemory, Octets};
use std::alloc::Global;

fn keeps(alloc: Global, bytes: &[u8]) -> bool {
    match Octets::from_slice(alloc, bytes) {
        Ok(octets) => octets.as_slice() == bytes,
        Err(NoMemory) => false,
    }
}

// The bytes are this text, or none.
fn is_text(alloc: Global, bytes: &[u8], text: Option<&str>) -> bool {
    match Octets::from_slice(alloc, bytes) {
        Ok(octets) => octets.as_text() == text,
        Err(NoMemory) => false,
    }
}

#[test]
fn keeps_the_bytes(rt: HostRuntime) {
    let alloc = rt.alloc();
    assert!(rt; keeps(alloc, &[]) && keeps(alloc, &[0]) && keeps(alloc, &[0x52, 0xff, 0x00, 0x6f]));
}

// A byte that begins no character, one that continues none, a character that is cut, one that is spelled too
// long, and half of a pair of UTF-16.
const NO_TEXTS: &[&[u8]] = &[
    b"Radi\xff",
    b"\x80",
    b"Radio \xc3",
    b"\xc0\xaf",
    b"\xed\xa0\x80",
];

// The first of these that is a text.
fn wrong_text(alloc: Global) -> Option<usize> {
    for (k, bytes) in NO_TEXTS.iter().enumerate() {
        if !is_text(alloc, bytes, None) {
            return Some(k);
        }
    }
    None
}

#[test]
fn is_text_where_it_is_utf8(rt: HostRuntime) {
    let alloc = rt.alloc();
    assert!(rt;
        is_text(alloc, b"Radio \xc3\x85s", Some("Radio Ås")) && is_text(alloc, &[], Some(""))
    );
    has_none(&rt, wrong_text(alloc));
}
