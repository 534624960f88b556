//! What becomes of a packet.

use crate::DataFault;

/// What a joiner says of the bytes of a packet.
#[derive(Clone, Copy, Debug, PartialEq, Eq)]
pub enum Joined<'a> {
    /// No unit ends here, and none is cut: the packet is of another id, or of a unit that goes on or that wasn't open.
    Nothing,
    /// The packet ends a unit: these are its bytes.
    Unit(&'a [u8]),
    /// The packet cuts the unit that was open.
    Cut,
    /// The packet cuts the unit that was open, and is a unit by itself: these are its bytes.
    CutUnit(&'a [u8]),
    /// The bytes are no packet. Where `cut` is true, a unit was open, and is cut.
    Refused { fault: DataFault, cut: bool },
}
