//! The multiplex frame, read from the streams of a buffer.

ghost use Rattle.std.specs.Prelude.{◌≡◌, ◌≢◌, ℕ, ◌+◌, ◌*◌, ◌<◌, ◌≤◌, ◌++◌, ◌∷◌, [], ◌↔◌, List, length, take, drop, slice_index, slice_index_or, IsOk, OnOk, OnErr, IfOk, IfErr};
ghost use Rattle.drm_bits.specs.Description.{IsDescription};
ghost use Rattle.drm_mux.specs.Frame.{multiplex_frame, streams_in, frame_length, stream_length, HasSpans, HasStreams, HaveTheirLengths, EndBy};
ghost use Rattle.drm_mux.specs.Faults.{IsFirstWrong, NamesFirstWrong, wrong_length};
ghost use Rattle.drm_mux.specs.Ranges.{ranges};

use crate::{MuxFault, Spans};
use drm_bits::{MuxDesc, put_at};

/// Whether each described stream has the length of its two parts together.
pub fn check_streams(desc: &MuxDesc, spans: &Spans) -> Result<(), MuxFault>
    requires { IsDescription desc.now }
    ensures right { IsOk result ↔ HaveTheirLengths desc.now spans.now }
    // The first wrong stream is named, and no other fault.
    ensures wrong { (k : ℕ) → IsFirstWrong desc.now spans.now k
        → result ≡ Err (wrong_length desc.now spans.now k) }
    ensures fault { IfErr result (NamesFirstWrong desc.now spans.now) }
{
    for stream in 0..desc.count {
        let k = usize::from(stream);
        let stands = spans.len[k];
        let described = usize::from(desc.parts[k].a) + usize::from(desc.parts[k].b);
        if stands != described {
            return Err(MuxFault::StreamLength {
                stream,
                stands,
                described,
            });
        }
    }
    Ok(())
}

/// Writes the multiplex frame of the streams at the front of `into`, and gives its length in bytes. The spans lie in the
/// buffer.
pub fn assemble(
    desc: &MuxDesc,
    buffer: &[u8],
    spans: &Spans,
    into: &mut [u8],
) -> Result<usize, MuxFault>
    requires spans { HasSpans desc.now spans.now (length buffer.now) }
    requires room { frame_length desc.now ≤ length into.old }
    ensures length { IfOk result (λ n. n ≡ frame_length desc.now) }
    ensures frame { OnOk result (take (frame_length desc.now) into.new
        ≡ multiplex_frame desc.now (streams_in buffer.now spans.now)) }
    ensures rest { drop (frame_length desc.now) into.new ≡ drop (frame_length desc.now) into.old }

    // It is refused as `check_streams` refuses, and then nothing is written.
    ensures right { IsOk result ↔ HaveTheirLengths desc.now spans.now }
    ensures wrong { (k : ℕ) → IsFirstWrong desc.now spans.now k
        → result ≡ Err (wrong_length desc.now spans.now k) }
    ensures fault { IfErr result (NamesFirstWrong desc.now spans.now) }
    ensures unchanged { OnErr result (into.new ≡ into.old) }
{
    if let Err(fault) = check_streams(desc, spans) {
        return Err(fault);
    }
    let mut at = 0;
    for index in 0..8 {
        let (from, len) = range(desc, spans, index);
        put_at(into, at, &buffer[from..from + len]);
        at += len;
    }
    Ok(at)
}

/// Where a byte of the multiplex frame stands in the buffer of the streams, whose spans have the lengths that are described
/// and end at or below the greatest `usize`.
pub fn locate(desc: &MuxDesc, spans: &Spans, place: usize) -> usize
    requires streams { HasStreams desc.now spans.now usize.MAX }
    requires within { place < frame_length desc.now }
    ensures inside { (end : ℕ) → EndBy end spans.now → result < end }
    // Whatever the buffer has, this byte of it is that byte of the frame.
    ensures byte { (buffer : List ℕ) → EndBy (length buffer) spans.now → slice_index buffer result
        ≡ slice_index (multiplex_frame desc.now (streams_in buffer spans.now)) place }
{
    let mut rest = place;
    for index in 0..8 {
        let (from, len) = range(desc, spans, index);
        if rest < len {
            return from + rest;
        }
        rest -= len;
    }
    unreachable!()
}

/// Where one of the eight parts of the multiplex frame begins in the buffer of the streams, and its length in bytes: the four
/// parts A, and then the four parts B. The spans are as for `locate`.
pub fn range(desc: &MuxDesc, spans: &Spans, index: usize) -> (usize, usize)
    requires index { index < 8 }
    requires streams { HasStreams desc.now spans.now usize.MAX }
    ensures range { result ≡ slice_index_or (ranges desc.now spans.now) index (0, 0) }
    ensures inside { (end : ℕ) → EndBy end spans.now → result.0 + result.1 ≤ end }
{
    let k = index % 4;
    let a = usize::from(desc.parts[k].a);
    if index < 4 {
        (spans.at[k], a)
    } else {
        (spans.at[k] + a, usize::from(desc.parts[k].b))
    }
}
