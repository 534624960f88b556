//! A segment of a message, read.

ghost use Rattle.std.specs.Prelude.{◌≡◌, ◌↔◌, ◌+◌, ◌≤◌, ℕ, IsTrue, EachIndex, slice_index, length, IfSome, IsSomeAnd};
ghost use Rattle.drm_text.specs.Segment.{Segment, IsSegment};
ghost use Rattle.drm_text.specs.Writing.{segment_of};
ghost use Rattle.drm_text.specs.Reading.{BeginsWell, EndsWithCheck};

use crate::segment::SegmentView;
use drm_bits::compare_crc16;

/// The least bytes of a segment.
const LEAST_SEGMENT: usize = 8;

/// The segment that these bytes are, if they are one.
pub(crate) fn read_segment(bytes: &[u8]) -> Option<SegmentView<'_>>
    ensures found { IfSome result (λ part. IsSegment (segment_of part) bytes.now) }
    ensures only { (s : Segment) → IsSegment s bytes.now → IsSomeAnd result (λ part. segment_of part ≡ s) }
{
    if !begins_well(bytes) {
        return None;
    }
    let len = usize::from(bytes[0] % 16) + 1;
    if !ends_well(bytes, len + 2) {
        return None;
    }
    Some(SegmentView {
        toggle: bytes[0] / 0x80 % 2 == 1,
        first: bytes[0] / 0x40 % 2 == 1,
        last: bytes[0] / 0x20 % 2 == 1,
        number: bytes[1] / 16,
        body: &bytes[2..len + 2],
    })
}

// Whether the head is one of a segment of so many bytes: the command is 0, and so are four bits.
fn begins_well(bytes: &[u8]) -> bool
    ensures { IsTrue result ↔ BeginsWell bytes.now }
{
    if bytes.len() < LEAST_SEGMENT {
        return false;
    }
    let len = usize::from(bytes[0] % 16) + 1;
    bytes.len() == (len + 3) / 4 * 4 + 4 && bytes[0] / 0x10 % 2 == 0 && bytes[1] % 16 == 0
}

// Whether the check value behind the first bytes is theirs, and zeros stand behind it.
fn ends_well(bytes: &[u8], end: usize) -> bool
    requires { end + 2 ≤ length bytes.now }
    ensures { IsTrue result ↔ EndsWithCheck bytes.now end }
{
    let (front, rest) = bytes.split_at(end);
    let (check, zeros) = rest.split_at(2);
    compare_crc16(front, check).is_ok() && are_zeros(zeros)
}

fn are_zeros(bytes: &[u8]) -> bool
    ensures { IsTrue result ↔ EachIndex bytes.now (λ k. slice_index bytes.now k ≡ 0) }
{
    bytes.iter().all(|byte| *byte == 0)
}
