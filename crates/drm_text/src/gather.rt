//! The pieces of a segment, one behind another.

ghost use Rattle.std.specs.Prelude.{◌≡◌, ◌+◌, ◌≤◌, ◌++◌, ◌∷◌, [], length, take, Some, None};
ghost use Rattle.drm_text.specs.Joining.{gather, segment_after, is_complete as all_there, is_start as starts};
ghost use Rattle.drm_text.specs.Buffers.{segment_in, IsSegmentBuffer, IsGathered};

use crate::segment::MOST_SEGMENT;
use drm_bits::put_at;

/// What a piece is to the segment whose pieces came before it.
#[derive(Drop)]
pub(crate) enum PieceRole {
    /// A start. Where `breaks` is true, a segment wasn't whole.
    Start { breaks: bool },
    /// No start came before it.
    Stray,
    /// More of the segment is to come.
    More,
    /// The last piece of a segment with so many bytes.
    Full(usize),
}

/// The bytes of a segment so far, or none where no start came.
#[derive(Drop)]
pub(crate) struct SegmentBuffer {
    pub bytes: [u8; 20],
    pub len: Option<usize>,
}

impl SegmentBuffer {
    pub(crate) fn new() -> SegmentBuffer
        ensures room { IsSegmentBuffer result }
        ensures none { segment_in result ≡ None }
    {
        SegmentBuffer {
            bytes: [0; MOST_SEGMENT],
            len: None,
        }
    }

    /// Takes a piece.
    pub(crate) fn take(&mut self, piece: [u8; 4]) -> PieceRole
        requires { IsSegmentBuffer self.old }
        ensures gathered { IsGathered result self.new (gather (segment_in self.old) piece) }
        ensures after { segment_in self.new ≡ segment_after (gather (segment_in self.old) piece) }
        ensures room { IsSegmentBuffer self.new }
    {
        if is_start(piece) {
            let breaks = self.len.is_some();
            self.len = Some(0);
            return PieceRole::Start { breaks };
        }
        let Some(len) = self.len else {
            return PieceRole::Stray;
        };
        put_at(&mut self.bytes, len, &piece);
        let end = len + 4;
        if is_complete(&self.bytes, end) {
            self.len = None;
            PieceRole::Full(end)
        } else {
            self.len = Some(end);
            PieceRole::More
        }
    }

    /// Something is missing: no start came.
    pub(crate) fn clear(&mut self)
        requires { IsSegmentBuffer self.old }
        ensures none { segment_in self.new ≡ None }
        ensures room { IsSegmentBuffer self.new }
    {
        self.len = None;
    }
}

fn is_start(piece: [u8; 4]) -> bool
    ensures { result ≡ starts piece }
{
    let [a, b, c, d] = piece;
    a == 0xff && b == 0xff && c == 0xff && d == 0xff
}

// Whether the first so many bytes are as many as the first of them says.
fn is_complete(bytes: &[u8; 20], len: usize) -> bool
    requires at_least_one { 4 ≤ len }
    requires within_limit { len ≤ 20 }
    ensures { result ≡ all_there (take len bytes.now) }
{
    let body = usize::from(bytes[0] % 16) + 1;
    (body + 3) / 4 * 4 + 4 <= len
}
