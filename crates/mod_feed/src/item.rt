//! What a feed gives of each packet.

use dcp_af::AfFault;
use mdi_items::{MdiFault, MdiView};

/// A logical frame, by the number of its packet, or what is said in its place.
#[derive(Clone, Copy, Debug, PartialEq, Eq)]
pub enum FeedItem<'a> {
    Frame { index: u64, view: MdiView<'a> },
    /// Too few fragments of the packet came: so many of so many, or none of an unknown number, which is given as 0.
    Missing { index: u64, had: u32, of: u32 },
    Bad { index: u64, fault: BadFault },
}

/// Why a packet is no logical frame.
#[derive(Clone, Copy, Debug, PartialEq, Eq)]
pub enum BadFault {
    /// Enough fragments came, and no code word agrees with them.
    Code,
    /// The bytes are no AF packet.
    Af(AfFault),
    /// The payload of the AF packet is no frame.
    Mdi(MdiFault),
}
