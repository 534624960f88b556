//! A frame that is read, and where its pieces stand.

ghost use Rattle.std.specs.Prelude.{◌≡◌, IfOk, IfErr, IsOkAnd};
ghost use Rattle.mdi_items.specs.Frame.{Frame, frame_of};
ghost use Rattle.mdi_items.specs.Mdi.{IsMdi, IsMdiFault};
ghost use Rattle.mdi_items.specs.View.{IsWholeView};

use crate::MdiFault;
use crate::block::read_block_span;
use crate::known::gather;
use crate::needed::{read_count, read_description, read_fac, read_mode, read_revision};
use crate::streams::{check_streams, spans};
use drm_fac::{Fac, Mode};
use drm_mux::{MuxDesc, Spans};
use drm_sdc::BlockInfo;

/// One logical frame. Its pieces are lent out of the payload, by their places there.
#[derive(Clone, Copy, Debug, PartialEq, Eq)]
pub struct MdiView<'a> {
    /// The revision of the protocol.
    pub major: u16,
    pub minor: u16,
    /// The count of the logical frame.
    pub dlfc: u32,
    pub fac_bytes: [u8; 9],
    pub fac: Fac,
    pub mux: MuxDesc,
    pub mode: Mode,
    /// The SDC block, in the first frame of a super frame.
    pub sdc: Option<SdcSpan>,
    /// Where the streams stand in the payload. One that isn't there has no bytes, at 0.
    pub streams: Spans,
    pub payload: &'a [u8],
}

/// Where the SDC block stands in the payload.
#[derive(Clone, Copy, Debug, PartialEq, Eq)]
pub struct SdcSpan {
    /// Its first byte.
    pub at: usize,
    /// Its length in bits; the last byte may end in padding.
    pub bits: u32,
    pub info: BlockInfo,
}

/// Reads the frame of a payload, or names its first fault.
/// Example: `read_mdi(&[])` is `Err(MdiFault::Absent { name: *b"*ptr" })`.
pub fn read_mdi(payload: &[u8]) -> Result<MdiView<'_>, MdiFault>
    // What is read is the frame that the payload is, with the places in it, and there is no other.
    ensures read { IfOk result (λ v. IsMdi (frame_of v) payload.now) }
    ensures only { (frame : Frame) → IsMdi frame payload.now → IsOkAnd result (λ v. frame_of v ≡ frame) }
    ensures payload { IfOk result (λ v. v.payload.now ≡ payload.now) }
    // Its pieces can be lent out of the payload.
    ensures whole { IfOk result IsWholeView }

    // Else the fault is the first one, and each first fault is named.
    ensures fault { IfErr result (IsMdiFault payload.now) }
    ensures named { (fault : MdiFault) → IsMdiFault payload.now fault → result ≡ Err fault }
{
    read_whole(payload)
}

fn read_whole(payload: &[u8]) -> Result<MdiView<'_>, MdiFault>
    ensures read { IfOk result (λ v. IsMdi (frame_of v) payload.now) }
    ensures payload { IfOk result (λ v. v.payload.now ≡ payload.now) }
    ensures whole { IfOk result IsWholeView }
    ensures fault { IfErr result (IsMdiFault payload.now) }
{
    let known = gather(payload)?;
    let (major, minor) = read_revision(payload, &known)?;
    let dlfc = read_count(payload, &known)?;
    let (fac_bytes, fac) = read_fac(payload, &known)?;
    let mux = read_description(payload, &known)?;
    let mode = read_mode(payload, &known)?;
    let sdc = read_block_span(payload, &known, &fac)?;
    check_streams(&known, &mux)?;
    Ok(MdiView {
        major,
        minor,
        dlfc,
        fac_bytes,
        fac,
        mux,
        mode,
        sdc,
        streams: spans(&known),
        payload,
    })
}
