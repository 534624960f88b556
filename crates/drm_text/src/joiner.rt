//! Pieces become messages again.

ghost use Rattle.std.specs.Prelude.{◌≡◌, ◌↔◌, IsSome, IfSome};
ghost use Rattle.std.specs.Str.{IsUtf8};
ghost use Rattle.std.specs.Borrow.{sem};
ghost use Rattle.drm_text.specs.Joining.{made};
ghost use Rattle.drm_text.specs.Buffers.{IsMessageBuffer};
ghost use Rattle.drm_text.specs.Taking.{GivesOfPiece, TookSegment};
ghost use Rattle.drm_text.specs.Lending.{JoinerAfterPiece};

use crate::gather::{PieceRole, SegmentBuffer};
use crate::message::MessageBuffer;
use crate::read::read_segment;
use std::marker::Model;

/// Joins pieces to messages.
#[derive(Drop)]
pub struct TextJoiner {
    segment: SegmentBuffer,
    message: MessageBuffer,
}

impl Model for TextJoiner {
    ghost use Rattle.drm_text.specs.Joining.{TextState};
    ghost use Rattle.drm_text.specs.Taking.{state, TextJoinerInvariant};

    ghost Value = { TextState };

    ghost view = { state };

    ghost invariant = { TextJoinerInvariant };
}

impl TextJoiner {
    /// Before any piece.
    pub fn new() -> TextJoiner
        ensures { result ≡ made }
    {
        TextJoiner {
            segment: SegmentBuffer::new(),
            message: MessageBuffer::new(),
        }
    }

    /// Takes a piece, and gives the message that is whole with it, if one is.
    pub fn piece(&mut self, piece: [u8; 4]) -> Option<&str>
        ensures tells { GivesOfPiece self.old piece result }
        ensures* after { sem 𝓛 (JoinerAfterPiece piece self.entry) }
    {
        match self.segment.take(piece) {
            PieceRole::Start { breaks } => {
                if breaks {
                    self.message.clear();
                }
                None
            }
            PieceRole::Stray => {
                self.message.clear();
                None
            }
            PieceRole::More => None,
            PieceRole::Full(len) => {
                match take_segment(&mut self.message, &self.segment.bytes[..len]) {
                    Some(len) => as_text(self.message.front(len)),
                    None => None,
                }
            }
        }
    }

    /// Something is missing here.
    pub fn gap(&mut self)
        ensures { self.new ≡ made }
    {
        self.segment.clear();
        self.message.clear();
    }
}

// Takes the bytes of a segment, and answers how many bytes the message has that is whole with it, if one is.
fn take_segment(message: &mut MessageBuffer, bytes: &[u8]) -> Option<usize>
    requires { IsMessageBuffer message.old }
    ensures { TookSegment bytes.now message.old result message.new }
{
    match read_segment(bytes) {
        Some(part) => message.join(&part),
        None => {
            message.clear();
            None
        }
    }
}

// The text that these bytes are, if they are UTF-8.
fn as_text(bytes: &[u8]) -> Option<&str>
    ensures utf8 { IsSome result ↔ IsUtf8 bytes.now }
    ensures text { IfSome result (λ t. t.now ≡ bytes.now) }
{
    std::str::from_utf8(bytes).ok()
}
