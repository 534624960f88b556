//! The streams of a frame.

ghost use Rattle.std.specs.Prelude.{◌≡◌, ◌<◌, ◌/◌, ◌%◌, ◌⊎◌, ◌↔◌, false, IsTrue, OnOk, IfErr};
ghost use Rattle.drm_bits.specs.Description.{IsDescription};
ghost use Rattle.drm_mux.specs.Frame.{part_length};
ghost use Rattle.mdi_items.specs.Frame.{spans_of, place_there, bits_there};
ghost use Rattle.mdi_items.specs.Streams.{IsStreamWellFormed, IsStreamFault, AreRight, IsStreamsFault};

use crate::MdiFault;
use crate::known::{ItemSpan, KnownItems};
use crate::names::{STREAMS, name_at};
use drm_mux::{MuxDesc, MuxFault, Part, Spans};

/// Whether each stream has what is described, and none has more.
pub(crate) fn check_streams(known: &KnownItems, mux: &MuxDesc) -> Result<(), MdiFault>
    requires { IsDescription mux.now }
    ensures right { OnOk result (AreRight known.now mux.now) }
    ensures fault { IfErr result (IsStreamsFault known.now mux.now) }
{
    check_stream(known, mux, 0)?;
    check_stream(known, mux, 1)?;
    check_stream(known, mux, 2)?;
    check_stream(known, mux, 3)
}

fn check_stream(known: &KnownItems, mux: &MuxDesc, stream: u8) -> Result<(), MdiFault>
    requires stream { stream < 4 }
    requires description { IsDescription mux.now }
    ensures right { OnOk result (IsStreamWellFormed known.now mux.now stream) }
    ensures fault { IfErr result (IsStreamFault known.now mux.now stream) }
{
    let k = usize::from(stream);
    let described = part_length(mux.parts[k]);
    let Some(found) = known[STREAMS + k] else {
        if stream < mux.count && described > 0 {
            let name = name_at(STREAMS + k);
            return Err(MdiFault::Absent { name });
        }
        return Ok(());
    };
    let bits = found.bits;
    if !may_have(stream < mux.count, bits) {
        let name = name_at(STREAMS + k);
        return Err(MdiFault::ItemLength { name, bits });
    }
    let stands = whole_bytes(bits);
    if stream < mux.count && stands != described {
        return Err(MdiFault::Mux(MuxFault::StreamLength {
            stream,
            stands,
            described,
        }));
    }
    Ok(())
}

fn part_length(part: Part) -> usize
    ensures { result ≡ part_length part }
{
    usize::from(part.a) + usize::from(part.b)
}

// Where the streams stand.
pub(crate) fn spans(known: &KnownItems) -> Spans
    ensures { result ≡ spans_of known.now }
{
    Spans {
        at: [
            place_there(known[STREAMS]),
            place_there(known[STREAMS + 1]),
            place_there(known[STREAMS + 2]),
            place_there(known[STREAMS + 3]),
        ],
        len: [
            bytes_there(known[STREAMS]),
            bytes_there(known[STREAMS + 1]),
            bytes_there(known[STREAMS + 2]),
            bytes_there(known[STREAMS + 3]),
        ],
    }
}

// Whether a stream may have so many bits: whole bytes, or none where it isn't described.
fn may_have(described: bool, bits: u32) -> bool
    ensures { IsTrue result ↔ ((IsTrue described × (bits % 8 ≡ 0)) ⊎ ((described ≡ false) × (bits ≡ 0))) }
{
    if described {
        bits % u8::BITS == 0
    } else {
        bits == 0
    }
}

fn place_there(there: Option<ItemSpan>) -> usize
    ensures { result ≡ place_there there }
{
    match there {
        Some(found) => found.at,
        None => 0,
    }
}

fn bytes_there(there: Option<ItemSpan>) -> usize
    ensures { result ≡ bits_there there / 8 }
{
    match there {
        Some(found) => whole_bytes(found.bits),
        None => 0,
    }
}

fn whole_bytes(bits: u32) -> usize
    ensures { result ≡ bits / 8 }
{
    (bits / u8::BITS) as usize
}
