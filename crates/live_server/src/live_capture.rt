//! A schedule to a sink, with live streams or without.

ghost use Rattle.std.specs.Prelude.{◌≡◌, ◌≤◌, length, Err};
ghost use Rattle.drm_links.specs.Known.{HasCause};
ghost use Rattle.live_server.specs.Capture.{WroteLive};
ghost use Rattle.live_server.specs.Loading.{IsFed};

use crate::feeding::{load, none_is_live};
use cmd_faults::Fault;
use drm_links::{Sink, Source};
use drm_schedule::Live;
use drm_server::{Server, Stretch, serve_sink, write_frame};

/// Writes the datagrams of the frames of this stretch, in order, where the live streams take their bytes from input by way of
/// this room: the datagrams of a frame are written before anything is read for the next one. Once input has ended the frames have
/// their own content. Answers whether each frame had its piece. Where no stream is live many datagrams are written at once.
pub fn serve_live_sink<I: Source, O: Sink>(
    server: &mut Server<'_>,
    stretch: Stretch,
    live: &Live,
    input: &mut I,
    scratch: &mut [u8],
    out: &mut O,
) -> Result<bool, Fault>
    requires { 32760 ≤ length scratch.old }
    ensures wrote { WroteLive live.now server.old.base stretch result (I.known input.old) (I.known input.new)
        (O.known out.old) (O.known out.new) }
    ensures nothing { IsFed live.now input.old input.new result }
    ensures read { HasCause (I.known input.old) (I.known input.new) (result ≡ Err Fault.Read) }
    ensures write { HasCause (O.known out.old) (O.known out.new) (result ≡ Err Fault.Write) }
    ensures base { server.new.base ≡ server.old.base }
{
    if live.any() {
        return write_frames(server, stretch, live, input, scratch, out);
    }
    // For its clause alone.
    none_is_live(live);
    serve_sink(server, stretch, out)?;
    Ok(true)
}

// Each frame before anything is read for the next one.
fn write_frames<I: Source, O: Sink>(
    server: &mut Server<'_>,
    stretch: Stretch,
    live: &Live,
    input: &mut I,
    scratch: &mut [u8],
    out: &mut O,
) -> Result<bool, Fault>
    requires { 32760 ≤ length scratch.old }
    ensures wrote { WroteLive live.now server.old.base stretch result (I.known input.old) (I.known input.new)
        (O.known out.old) (O.known out.new) }
    ensures read { HasCause (I.known input.old) (I.known input.new) (result ≡ Err Fault.Read) }
    ensures write { HasCause (O.known out.old) (O.known out.new) (result ≡ Err Fault.Write) }
    ensures base { server.new.base ≡ server.old.base }
{
    let mut ended = false;
    for n in 0..server.frames_in(stretch) {
        load(server, stretch.frame(n), live, input, scratch, &mut ended)?;
        write_frame(server, out)?;
    }
    Ok(!ended)
}
