//! Calls of links and shelves, and what they answer.

use drm_bits::NoMemory;
use drm_links::{Came, LONGEST_DATAGRAM, Link, Loaded, MemLink};
use std::alloc::Global;

// What a recv answers, in a buffer that is long enough.
pub(crate) fn recv<L: Link>(link: &mut L, buf: &mut [u8]) -> Option<Came> {
    if buf.len() < LONGEST_DATAGRAM {
        return None;
    }
    Some(link.recv(buf))
}

pub(crate) fn was_sent(link: &MemLink, k: usize, bytes: &[u8]) -> bool {
    match link.sent(k) {
        Some(sent) => sent == bytes,
        None => false,
    }
}

pub(crate) fn bytes_of(alloc: Global, byte: u8, length: usize) -> Result<Vec<u8>, NoMemory> {
    Ok(vec![in alloc; byte; length]?)
}

// What a load gave: a file, or why it gave none.
#[derive(Clone, Copy, PartialEq, Eq)]
pub(crate) enum Gave<'a> {
    File(&'a [u8]),
    TooLong,
    Failed,
    NoMemory,
}

pub(crate) fn what_it_gave(loaded: &Loaded) -> Gave<'_> {
    match loaded {
        Loaded::Bytes(bytes) => Gave::File(bytes.as_slice()),
        Loaded::TooLong => Gave::TooLong,
        Loaded::Failed => Gave::Failed,
        Loaded::NoMemory => Gave::NoMemory,
    }
}
