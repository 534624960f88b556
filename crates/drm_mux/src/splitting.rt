//! The streams of a multiplex frame.

ghost use Rattle.std.specs.Prelude.{◌≡◌, ◌≢◌, ◌<◌, ◌^◌, length, IsOk, OnOk, OnErr, IfOk, IfErr};
ghost use Rattle.drm_bits.specs.Description.{IsDescription};
ghost use Rattle.drm_mux.specs.Frame.{multiplex_frame, streams_in, frame_length, part_length, AreSideBySide, HaveTheirLengths, EndBy};
ghost use Rattle.drm_mux.specs.Streams.{parts_a_length};

use crate::{MuxFault, Spans, frame_len};
use drm_bits::{MuxDesc, Part, put_at};

/// Writes the streams of a multiplex frame one after another, each as part A and then part B, and gives where they
/// stand.
pub fn split(desc: &MuxDesc, frame: &[u8], into: &mut [u8]) -> Result<Spans, MuxFault>
    requires description { IsDescription desc.now }
    requires room { length into.old ≡ length frame.now }
    ensures frame { IfOk result (λ spans.
        multiplex_frame desc.now (streams_in into.new spans) ≡ frame.now) }
    ensures spans { IfOk result (AreSideBySide desc.now.parts) }
    ensures lengths { IfOk result (HaveTheirLengths desc.now) }
    ensures inside { IfOk result (EndBy (length into.new)) }

    // Each answer comes exactly where it is due.
    ensures whole { length frame.now ≡ frame_length desc.now → IsOk result }
    ensures other { length frame.now ≢ frame_length desc.now
        → result ≡ Err (MuxFault.FrameLength (length frame.now) (frame_length desc.now)) }
    ensures fault { OnErr result (length frame.now ≢ frame_length desc.now) }
    ensures unchanged { OnErr result (into.new ≡ into.old) }
{
    let described = frame_len(desc);
    if frame.len() != described {
        return Err(MuxFault::FrameLength {
            stands: frame.len(),
            described,
        });
    }
    let mut from_a = 0;
    let mut from_b = parts_a_len(&desc.parts);
    let mut at = 0;
    for part in &desc.parts {
        let a = usize::from(part.a);
        let b = usize::from(part.b);
        put_at(into, at, &frame[from_a..from_a + a]);
        put_at(into, at + a, &frame[from_b..from_b + b]);
        from_a += a;
        from_b += b;
        at += a + b;
    }
    Ok(side_by_side(&desc.parts))
}

// How many bytes all parts A have.
fn parts_a_len(parts: &[Part; 4]) -> usize
    ensures { result ≡ parts_a_length parts.now }
{
    let mut sum = 0;
    for part in parts {
        sum += usize::from(part.a);
    }
    sum
}

fn side_by_side(parts: &[Part; 4]) -> Spans
    ensures { AreSideBySide parts.now result }
{
    let len = [
        stream_len(&parts[0]),
        stream_len(&parts[1]),
        stream_len(&parts[2]),
        stream_len(&parts[3]),
    ];
    let at = [0, len[0], len[0] + len[1], len[0] + len[1] + len[2]];
    Spans { at, len }
}

fn stream_len(part: &Part) -> usize
    ensures length { result ≡ part_length part.now }
    ensures in_range { result < 2 ^ 17 }
{
    usize::from(part.a) + usize::from(part.b)
}
