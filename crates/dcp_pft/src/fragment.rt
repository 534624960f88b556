//! Fragments.

use crate::Rs;

/// The addresses of a fragment, of which nothing is made.
#[derive(Clone, Copy, Debug, PartialEq, Eq)]
pub struct Addr {
    pub source: u16,
    pub dest: u16,
}

/// A fragment of a packet.
#[derive(Clone, Copy, Debug, PartialEq, Eq)]
pub struct Fragment<'a> {
    /// The sequence number of the packet.
    pub seq: u16,
    /// The fragment's place among those of the packet, from 0 on.
    pub index: u32,
    /// The number of the packet's fragments.
    pub count: u32,
    /// How the packet is coded, where it is.
    pub rs: Option<Rs>,
    pub addr: Option<Addr>,
    pub payload: &'a [u8],
}
