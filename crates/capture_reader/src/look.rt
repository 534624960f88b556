//! What stands at the front of bytes of a capture.

ghost use Rattle.std.specs.Prelude.{ℕ, List, ◌≡◌, ◌≢◌, length, take};
ghost use Rattle.dcp_af.specs.Packet as af;
ghost use Rattle.dcp_pft.specs.Head as pft;
ghost use Rattle.capture_reader.specs.Front.{BytesBegin, AfFront, PftFront, OtherFront};
ghost use Rattle.capture_reader.specs.Looking.{front_of, front_within, IsFrontPart, found_by};

use crate::CaptureField;
use dcp_af::described_len;
use dcp_pft::{PftFault, size_by_head};
use drm_links::LONGEST_DATAGRAM;

/// The bytes of the longest head.
pub(crate) const MOST_HEAD: usize = 20;

/// The bytes of the head of an AF packet, up to the payload.
const AF_HEAD: usize = 10;

/// What some bytes begin with.
#[derive(Clone, Copy, Debug, PartialEq, Eq)]
pub(crate) enum BytesFront {
    /// A packet of so many bytes.
    Packet(usize),
    /// No packet, whatever comes behind.
    Wrong(CaptureField),
    /// The bytes end before a packet does. Where no more come, this is their fault.
    Cut(CaptureField),
}

/// What `count` bytes begin with, of which the first ones are in `head`.
pub(crate) fn look(head: &[u8], count: usize) -> BytesFront
    ensures { (bytes : List ℕ) → IsFrontPart head.now count bytes → BytesBegin bytes (front_of result) }
{
    if head.starts_with(b"AF") {
        look_at_af(head, count)
    } else if head.starts_with(b"PF") {
        look_at_fragment(head, count)
    } else {
        look_at_other(head)
    }
}

fn look_at_af(head: &[u8], count: usize) -> BytesFront
    ensures { (bytes : List ℕ) → IsFrontPart head.now count bytes → AfFront bytes (front_of result) }
{
    if head.len() < AF_HEAD {
        return BytesFront::Cut(CaptureField::HeadCut);
    }
    let size = described_len(head);
    if size > LONGEST_DATAGRAM as u64 {
        return BytesFront::Wrong(CaptureField::TooLarge);
    }
    within(size as usize, count)
}

fn look_at_fragment(head: &[u8], count: usize) -> BytesFront
    requires sync { take 2 head.now ≡ pft.sync }
    ensures { (bytes : List ℕ) → IsFrontPart head.now count bytes → PftFront bytes (front_of result) }
{
    match size_by_head(head) {
        Ok(size) => within(size, count),
        Err(fault) => found_for(fault),
    }
}

fn look_at_other(head: &[u8]) -> BytesFront
    requires af { take 2 head.now ≢ af.sync }
    requires pft { take 2 head.now ≢ pft.sync }
    ensures { (bytes : List ℕ) (count : ℕ) → IsFrontPart head.now count bytes → OtherFront bytes (front_of result) }
{
    match head {
        [] | [b'A'] | [b'P'] => BytesFront::Cut(CaptureField::HeadCut),
        [_] => BytesFront::Cut(CaptureField::Sync),
        _ => BytesFront::Wrong(CaptureField::Sync),
    }
}

// A packet of so many bytes, where they stand there.
fn within(size: usize, count: usize) -> BytesFront
    ensures { front_of result ≡ front_within size count }
{
    if count < size {
        BytesFront::Cut(CaptureField::BodyCut)
    } else {
        BytesFront::Packet(size)
    }
}

// What stands there where a header of a fragment is refused.
fn found_for(fault: PftFault) -> BytesFront
    ensures { result ≡ found_by fault }
{
    match fault {
        PftFault::HeadCrc => BytesFront::Wrong(CaptureField::HeadCrc),
        _ => BytesFront::Cut(CaptureField::HeadCut),
    }
}
