//! The pieces of a message.

ghost use Rattle.std.specs.Prelude.{◌≡◌, ◌+◌, ◌*◌, ◌<◌, ◌≤◌, ◌∷◌, [], length, take, drop};
ghost use Rattle.drm_text.specs.Message.{most_message, segment_at, IsPieceOf};
ghost use Rattle.drm_text.specs.Writing.{segment_of};

use crate::segment::{MOST_BODY, MOST_SEGMENT, SegmentView, write_segment};

/// The piece that stands before each segment.
pub(crate) const START: [u8; 4] = [0xff; 4];

/// The pieces of a segment that isn't the last one.
const SEGMENT_PIECES: usize = 6;

/// Piece `k` of a message, from 0 on: none exactly past the last one. The toggle changes with each message.
/// Example: `text_piece("Hi", false, 1)` is `Some(*b"a\0Hi")`, behind the start of four bytes FF.
pub fn text_piece(message: &str, toggle: bool, k: usize) -> Option<[u8; 4]>
    requires at_least_one { 1 ≤ length message.now }
    requires within_limit { length message.now ≤ most_message }
    ensures { IsPieceOf toggle message.now k result }
{
    let bytes = message.as_bytes();
    let number = k / SEGMENT_PIECES;
    if number > (bytes.len() - 1) / MOST_BODY {
        return None;
    }
    let mut written = [0; MOST_SEGMENT];
    let len = write_segment(&part_at(bytes, toggle, number), &mut written);
    let place = k % SEGMENT_PIECES;
    if place == 0 {
        return Some(START);
    }
    let at = (place - 1) * 4;
    if at < len {
        Some(four(&written, at))
    } else {
        None
    }
}

// A segment of a message.
fn part_at(message: &[u8], toggle: bool, number: usize) -> SegmentView<'_>
    requires within_limit { length message.now ≤ most_message }
    requires within { number * 16 < length message.now }
    ensures { segment_of result ≡ segment_at toggle message.now number }
{
    let rest = &message[number * MOST_BODY..];
    SegmentView {
        toggle,
        first: number == 0,
        last: rest.len() <= MOST_BODY,
        number: number as u8,
        body: &rest[..rest.len().min(MOST_BODY)],
    }
}

// Four bytes from a place on.
fn four(bytes: &[u8; 20], at: usize) -> [u8; 4]
    requires { at + 4 ≤ 20 }
    ensures { result ≡ take 4 (drop at bytes.now) }
{
    [bytes[at], bytes[at + 1], bytes[at + 2], bytes[at + 3]]
}
