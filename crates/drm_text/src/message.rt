//! The segments of a message, one behind another.

ghost use Rattle.std.specs.Prelude.{◌≡◌, ◌+◌, ◌≤◌, ◌<◌, ◌++◌, List, ℕ, length, take, None, IfSome};
ghost use Rattle.drm_text.specs.Message.{most_message};
ghost use Rattle.drm_text.specs.Writing.{segment_of, FitsSegment};
ghost use Rattle.drm_text.specs.Joining.{bytes_with, going_on, whole};
ghost use Rattle.drm_text.specs.Buffers.{begun_in, begun_of, body_from, front_of, IsMessageBuffer};

use crate::segment::{MOST_BODY, SegmentView};
use drm_bits::put_at;

/// The most bytes of a message.
const MOST_MESSAGE: usize = 128;

/// What is known of a message that was begun: its toggle, the number of its next segment, and how many bytes have come.
#[derive(Clone, Copy, Drop)]
pub(crate) struct OpenMessage {
    pub toggle: bool,
    pub number: u8,
    pub len: usize,
}

#[derive(Drop)]
pub(crate) struct MessageBuffer {
    pub text: [u8; 128],
    pub begun: Option<OpenMessage>,
}

impl MessageBuffer {
    pub(crate) fn new() -> MessageBuffer
        ensures room { IsMessageBuffer result }
        ensures none { begun_in result ≡ None }
    {
        MessageBuffer {
            text: [0; MOST_MESSAGE],
            begun: None,
        }
    }

    /// Takes a segment, and answers how many bytes the message has that is whole with it, if one is.
    pub(crate) fn join(&mut self, part: &SegmentView<'_>) -> Option<usize>
        requires room { IsMessageBuffer self.old }
        requires fits { FitsSegment (segment_of part.now) }
        ensures begun { begun_in self.new ≡ going_on (segment_of part.now) (bytes_with (begun_in self.old) (segment_of part.now)) }
        ensures whole { front_of self.new.text result ≡ whole (segment_of part.now) (bytes_with (begun_in self.old) (segment_of part.now)) }
        ensures within { IfSome result (λ len. len ≤ most_message) }
        ensures room { IsMessageBuffer self.new }
    {
        let begun = self.begun;
        self.begun = None;
        let Some(at) = place_of(begun, part) else {
            return None;
        };
        put_at(&mut self.text, at, part.body);
        let len = at + part.body.len();
        if part.last {
            return Some(len);
        }
        if part.body.len() == MOST_BODY {
            self.begun = Some(OpenMessage {
                toggle: part.toggle,
                number: part.number + 1,
                len,
            });
        }
        None
    }

    /// The message is broken off.
    pub(crate) fn clear(&mut self)
        requires { IsMessageBuffer self.old }
        ensures none { begun_in self.new ≡ None }
        ensures room { IsMessageBuffer self.new }
    {
        self.begun = None;
    }

    /// The first bytes.
    pub(crate) fn front(&self, len: usize) -> &[u8]
        requires { len ≤ length self.now.text }
        ensures { result.now ≡ take len self.now.text }
    {
        &self.text[..len]
    }
}

// Where the bytes of a segment belong, if it is the next one of the message or begins one.
fn place_of(begun: Option<OpenMessage>, part: &SegmentView<'_>) -> Option<usize>
    requires within { IfSome begun (λ b. b.len ≤ most_message) }
    requires fits { FitsSegment (segment_of part.now) }
    ensures place { (text : List ℕ) → length text ≡ most_message
        → body_from text part.now.body.now result ≡ bytes_with (begun_of text begun) (segment_of part.now) }
    ensures fits { IfSome result (λ at. at + length part.now.body.now ≤ most_message) }
{
    if part.first {
        return if part.number == 0 { Some(0) } else { None };
    }
    let Some(begun) = begun else {
        return None;
    };
    if part.toggle == begun.toggle
        && part.number == begun.number
        && begun.len + part.body.len() <= MOST_MESSAGE
    {
        Some(begun.len)
    } else {
        None
    }
}
