//! Why a payload is no MDI frame.

use dcp_tag::ValueCut;
use drm_fac::FacFault;
use drm_mux::MuxFault;
use drm_sdc::SdcFault;

/// The first fault of a payload. A cut item and a second item of a known name are found where they stand; all others
/// are looked for by name, in the order in which the items are written.
#[derive(Clone, Copy, Debug, PartialEq, Eq)]
pub enum MdiFault {
    /// An item goes past the end of the payload.
    Tag(ValueCut),
    /// A second item has this known name.
    Twice { name: [u8; 4] },
    /// An item that the frame needs isn't there, or the first frame of a super frame has an `sdc_` of no bits.
    Absent { name: [u8; 4] },
    /// The protocol that `*ptr` points to isn't `DMDI`.
    Protocol,
    /// An item has another number of bits than it always has, than whole bytes, or than none where none are due.
    ItemLength { name: [u8; 4], bits: u32 },
    /// The value of `fac_` is no FAC.
    Fac(FacFault),
    /// The main service channel is hierarchical, by this code of the FAC.
    Hierarchical { msc: u8 },
    /// The value of `sdci` is no description, or a stream has another length than the described one.
    Mux(MuxFault),
    /// The value of `robm` is no robustness mode.
    Mode { value: u8 },
    /// The value of `sdc_` is no block. Memory never runs out.
    Sdc(SdcFault),
}
