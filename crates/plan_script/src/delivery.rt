//! Deliveries.

/// One fragment of one packet, which reaches a feed.
#[derive(Clone, Copy, Debug, PartialEq, Eq)]
pub struct Delivery {
    /// The number of the packet, from 0 at the schedule's start.
    pub packet: u32,
    /// The number of the fragment, from 0; 0 for a packet that is carried whole.
    pub fragment: u32,
}
