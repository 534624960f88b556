//! A path over its link.

ghost use Rattle.std.specs.Prelude.{◌≡◌, ◌+◌, ◌<◌, ◌≤◌, ◌⊎◌, ◌↔◌, IsTrue, [], length};
ghost use Rattle.drm_links.specs.Known.{HasCause};
ghost use Rattle.drm_links.specs.Hearing.{LinkHeard};
ghost use Rattle.drm_paths.specs.State.{most_bytes};
ghost use Rattle.drm_paths.specs.Reading.{AreReasonable, ReadsPath};

use crate::shared::{Given, Shared};
use crate::{Path, Road};
use drm_links::{Came, LONGEST_DATAGRAM, Link};
use std::alloc::Global;
use std::sync::Wait;

/// When a path has read enough.
#[derive(Clone, Copy, Debug, PartialEq, Eq)]
pub struct PathOptions {
    /// How many idle answers of its link in a row end it, at least 1.
    pub idle: u32,
    /// How many datagrams end it, from 1 to 1,000,000.
    pub limit: u32,
}

/// Why a path ended.
#[derive(Clone, Copy, Debug, PartialEq, Eq)]
pub enum PathEnded {
    /// Nothing came for long.
    Idle,
    /// So many datagrams came as it may take; or it may have no room for the next one.
    Limit,
    /// The link failed.
    LinkFailed,
    /// There was no room for a datagram.
    NoMemory,
}

/// The most bytes that a path takes.
const MOST_BYTES: u64 = 67_108_864;

// Whether a path that took so many datagrams, of so many bytes, takes no more.
fn is_full(taken: u32, limit: u32, bytes: u64) -> bool
    requires { bytes ≤ most_bytes }
    ensures { IsTrue result ↔ ((taken ≡ limit) ⊎ (most_bytes < bytes + 65536)) }
{
    taken == limit || MOST_BYTES < bytes + LONGEST_DATAGRAM as u64
}

/// Reads a link, and hands each datagram to the book, until it has read enough. The buffer holds one datagram.
pub fn run_path<R: Wait, G: Road, L: Link>(
    rt: &R,
    alloc: Global,
    path: &mut Path<G>,
    shared: &Shared<G>,
    link: &mut L,
    options: &PathOptions,
    buffer: &mut [u8],
) -> PathEnded
    requires new { path.old.taken ≡ [] }
    requires options { AreReasonable options.now }
    requires buffer { length buffer.old ≡ 65536 }
    ensures read { ReadsPath options.now (LinkHeard (L.known link.old) (L.known link.new)) path.new.taken result }
    ensures number { path.new.number ≡ path.old.number }
    ensures parts { path.new.parts ≡ path.old.parts }
    ensures cause { HasCause (L.known link.old) (L.known link.new) (result ≡ PathEnded.LinkFailed) }
{
    let mut taken = 0u32;
    let mut idles = 0u32;
    'answers: loop {
        match link.recv(buffer) {
            Came::Datagram(len) => {
                match path.give(rt, alloc, shared, &buffer[..len]) {
                    Given::Took => {}
                    Given::NoMemory => return PathEnded::NoMemory,
                }
                taken += 1;
                idles = 0;
                if is_full(taken, options.limit, path.bytes()) {
                    return PathEnded::Limit;
                }
            }
            Came::Idle => {
                idles += 1;
                if idles == options.idle {
                    return PathEnded::Idle;
                }
            }
            Came::Failed => return PathEnded::LinkFailed,
        }
    }
}
