//! A schedule to a sink, which is called once for some KiB.

ghost use Rattle.std.specs.Prelude.{◌≡◌, ◌+◌, ◌<◌, ◌≤◌, ◌++◌, length, take, IfOk, OnOk, OnErr, IsErr};
ghost use Rattle.drm_links.specs.Known.{HasCause};
ghost use Rattle.drm_links.specs.Sink.{OutputsText, IsPrefix};
ghost use Rattle.dcp_pft.specs.Limits.{most_fragments};
ghost use Rattle.dcp_sender.specs.CarriesText.{most_room};
ghost use Rattle.drm_server.specs.Stretch.{frames_in};
ghost use Rattle.drm_server.specs.Capture.{IsCapture, IsPrefixOfCapture, IsCount};
ghost use Rattle.drm_server.specs.Gathering.{BytesWait, GathersDatagrams, IsPrefixOfFrame, WroteFrame};

use crate::loaded::EncodedFrame;
use crate::{Server, Stretch};
use drm_bits::put_at;
use drm_links::{Sink, WriteFault, write_all};

/// Writes the datagrams of the frames of this stretch, in order, and gives their number.
pub fn serve_sink<O: Sink>(
    server: &mut Server<'_>,
    stretch: Stretch,
    out: &mut O,
) -> Result<u64, WriteFault>
    ensures whole { OnOk result (OutputsText (O.known out.old) (O.known out.new) (IsCapture server.old.base stretch)) }
    ensures count { IfOk result (IsCount server.old.base stretch) }
    ensures front { OnErr result (OutputsText (O.known out.old) (O.known out.new) (IsPrefixOfCapture server.old.base stretch)) }
    ensures begun { OnErr result (0 < frames_in stretch server.old.base) }
    ensures cause { HasCause (O.known out.old) (O.known out.new) (IsErr result) }
    ensures schedule { server.new.base ≡ server.old.base }
{
    serve(&mut server.loaded, stretch, &mut server.waiting, out)
}

/// Writes all datagrams of the frame that is loaded, and gives their number.
pub fn write_frame<O: Sink>(server: &Server<'_>, out: &mut O) -> Result<u64, WriteFault>
    ensures whole { IfOk result (λ n. WroteFrame server.now.plan server.now.frame n (O.known out.old) (O.known out.new)) }
    ensures front { OnErr result (OutputsText (O.known out.old) (O.known out.new)
        (IsPrefixOfFrame server.now.plan server.now.frame)) }
    ensures within_limit { IfOk result (λ n. n ≤ most_fragments) }
    ensures cause { HasCause (O.known out.old) (O.known out.new) (IsErr result) }
{
    let datagrams = server.loaded.datagrams();
    write_all(out, datagrams.bytes())?;
    Ok(u64::from(datagrams.count()))
}

// Writes the datagrams of all frames of this stretch, by way of this room.
fn serve<O: Sink>(
    loaded: &mut EncodedFrame<'_>,
    stretch: Stretch,
    scratch: &mut [u8],
    out: &mut O,
) -> Result<u64, WriteFault>
    requires { length scratch.old ≡ most_room }
    ensures whole { OnOk result (OutputsText (O.known out.old) (O.known out.new) (IsCapture loaded.old.base stretch)) }
    ensures count { IfOk result (IsCount loaded.old.base stretch) }
    ensures front { OnErr result (OutputsText (O.known out.old) (O.known out.new) (IsPrefixOfCapture loaded.old.base stretch)) }
    ensures begun { OnErr result (0 < frames_in stretch loaded.old.base) }
    ensures cause { HasCause (O.known out.old) (O.known out.new) (IsErr result) }
    ensures schedule { loaded.new.base ≡ loaded.old.base }
    ensures same_length { length scratch.new ≡ length scratch.old }
{
    let mut waiting = 0;
    let mut written = 0;
    for n in 0..loaded.frames_in(stretch) {
        loaded.load(stretch.frame(n));
        let datagrams = loaded.datagrams();
        waiting = gather(datagrams.bytes(), scratch, waiting, out)?;
        written += u64::from(datagrams.count());
    }
    if waiting == 0 {
        return Ok(written);
    }
    write_all(out, &scratch[..waiting])?;
    Ok(written)
}

// Puts bytes behind those that wait in the room, which are written first where there is no place for all, and gives how many
// wait then.
fn gather<O: Sink>(
    bytes: &[u8],
    scratch: &mut [u8],
    waiting: usize,
    out: &mut O,
) -> Result<usize, WriteFault>
    requires { BytesWait waiting (length bytes.now) scratch.old }
    ensures gathered { IfOk result (λ n. GathersDatagrams (take waiting scratch.old) bytes.now (take n scratch.new)
        (O.known out.old) (O.known out.new)) }
    ensures front { OnErr result (OutputsText (O.known out.old) (O.known out.new) (IsPrefix (take waiting scratch.old))) }
    ensures at_least_one { OnErr result (0 < waiting) }
    ensures within { IfOk result (λ n. n ≤ length scratch.new) }
    ensures same_length { length scratch.new ≡ length scratch.old }
    ensures cause { HasCause (O.known out.old) (O.known out.new) (IsErr result) }
{
    let waiting = pass_on(scratch, waiting, bytes.len(), out)?;
    put_at(scratch, waiting, bytes);
    Ok(waiting + bytes.len())
}

// Writes what waits where so many bytes more have no place, and gives how many wait then.
fn pass_on<O: Sink>(
    scratch: &[u8],
    waiting: usize,
    more: usize,
    out: &mut O,
) -> Result<usize, WriteFault>
    requires { BytesWait waiting more scratch.now }
    ensures whole { IfOk result (λ n. OutputsText (O.known out.old) (O.known out.new)
        (λ text. take waiting scratch.now ≡ text ++ take n scratch.now)) }
    ensures front { OnErr result (OutputsText (O.known out.old) (O.known out.new) (IsPrefix (take waiting scratch.now))) }
    ensures at_least_one { OnErr result (0 < waiting) }
    ensures remaining { IfOk result (λ n. n + more ≤ length scratch.now) }
    ensures cause { HasCause (O.known out.old) (O.known out.new) (IsErr result) }
{
    if scratch.len() - waiting >= more {
        return Ok(waiting);
    }
    write_all(out, &scratch[..waiting])?;
    Ok(0)
}
