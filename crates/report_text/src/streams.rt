//! The multiplex frame, written part by part out of the streams in the payload.

ghost use Rattle.std.specs.Prelude.{length};
ghost use Rattle.drm_bits.specs.Description.{IsDescription};
ghost use Rattle.drm_links.specs.Sink.{WritesWhole};
ghost use Rattle.drm_mux.specs.Frame.{multiplex_frame, streams_in, EndBy, HaveTheirLengths};
ghost use Rattle.report_text.specs.FrameLine.{bytes_text};

use drm_links::{Sink, WriteFault, write_all};
use drm_mux::{MuxDesc, Spans, frame_len, range};
use text_output::write_hex;

/// Writes the digits of the multiplex frame.
pub(crate) fn write_streams<O: Sink>(
    out: &mut O,
    mux: &MuxDesc,
    streams: &Spans,
    payload: &[u8],
) -> Result<(), WriteFault>
    requires description { IsDescription mux.now }
    requires lengths { HaveTheirLengths mux.now streams.now }
    requires inside { EndBy (length payload.now) streams.now }
    ensures { WritesWhole result (O.known out.old) (O.known out.new)
        (bytes_text (multiplex_frame mux.now (streams_in payload.now streams.now))) }
{
    // What is read of the streams tells how many there are.
    let _places = streams.at;
    if frame_len(mux) == 0 {
        return write_all(out, b"-");
    }
    for index in 0..8 {
        let (from, len) = range(mux, streams, index);
        write_hex(out, &payload[from..from + len])?;
    }
    Ok(())
}
