//! The multiplex frame's length, and the pieces of a buffer that are its streams.

ghost use Rattle.std.specs.Prelude.{◌≡◌, sum_by};
ghost use Rattle.drm_mux.specs.Frame.{frame_length, part_length};

use drm_bits::{MuxDesc, Part};

/// Four pieces of one buffer, one for each stream.
#[derive(Clone, Copy, Debug, PartialEq, Eq)]
pub struct Spans {
    /// Where each piece begins.
    pub at: [usize; 4],
    /// How many bytes each piece has.
    pub len: [usize; 4],
}

/// How many bytes the multiplex frame has.
/// Example: two streams with the parts 2 and 1, and 1 and 2, make a frame of 6 bytes.
pub fn frame_len(desc: &MuxDesc) -> usize
    ensures { result ≡ frame_length desc.now }
{
    parts_len(&desc.parts)
}

fn parts_len(parts: &[Part; 4]) -> usize
    ensures { result ≡ sum_by part_length parts.now }
{
    let mut sum = 0;
    for part in parts {
        sum += usize::from(part.a) + usize::from(part.b);
    }
    sum
}
