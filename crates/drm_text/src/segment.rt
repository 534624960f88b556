//! A segment of a message, written.

ghost use Rattle.std.specs.Prelude.{◌≡◌, ℕ, ◌+◌, ◌-◌, ◌≤◌, ◌++◌, length, take, replicate};
ghost use Rattle.drm_text.specs.Segment.{head as head_byte, round_up, IsSegment};
ghost use Rattle.drm_text.specs.Writing.{segment_of, FitsSegment};

use drm_bits::{crc16, put_at};

/// The most bytes of a body.
pub(crate) const MOST_BODY: usize = 16;

/// The most bytes of a segment.
pub(crate) const MOST_SEGMENT: usize = 20;

/// A segment of a message.
#[derive(Clone, Copy, Drop)]
pub(crate) struct SegmentView<'a> {
    pub toggle: bool,
    pub first: bool,
    pub last: bool,
    pub number: u8,
    pub body: &'a [u8],
}

/// Writes a segment, and answers how many bytes it has.
pub(crate) fn write_segment(part: &SegmentView<'_>, into: &mut [u8]) -> usize
    requires fits { FitsSegment (segment_of part.now) }
    requires room { 20 ≤ length into.old }
    ensures end { result ≡ round_up (length part.now.body.now) + 4 }
    ensures segment { IsSegment (segment_of part.now) (take result into.new) }
{
    let head = head_of(part);
    append(into, 0, &[head, part.number * 16]);
    let end = append(into, 2, part.body);
    let check = crc16(&into[..end]);
    append(into, end, &check.to_be_bytes());
    let size = (part.body.len() + 3) / 4 * 4 + 4;
    clear(into, end + 2, size);
    size
}

fn head_of(part: &SegmentView<'_>) -> u8
    requires { FitsSegment (segment_of part.now) }
    ensures { result ≡ head_byte (segment_of part.now) }
{
    0x80 * u8::from(part.toggle)
        + 0x40 * u8::from(part.first)
        + 0x20 * u8::from(part.last)
        + (part.body.len() - 1) as u8
}

// Writes bytes from a place on, and answers the place behind them.
fn append(into: &mut [u8], at: usize, bytes: &[u8]) -> usize
    requires { at + length bytes.now ≤ length into.old }
    ensures end { result ≡ at + length bytes.now }
    ensures front { take result into.new ≡ take at into.old ++ bytes.now }
{
    put_at(into, at, bytes);
    at + bytes.len()
}

// Writes zeros from a place up to another one.
fn clear(into: &mut [u8], from: usize, to: usize)
    requires order { from ≤ to }
    requires room { to ≤ length into.old }
    ensures { take to into.new ≡ take from into.old ++ replicate (to - from) 0 }
{
    into[from..to].fill(0);
}
