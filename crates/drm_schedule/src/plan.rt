//! A plan: what a text and its files give.

use crate::{Carry, Configs};

/// The most frames of a schedule: three of each super frame.
pub const MOST_FRAMES: u64 = 3_000_000;

/// What a text and its files give: a schedule, where it is valid.
#[derive(Drop)]
pub struct Plan {
    pub carry: Carry,
    /// The sequence number of the first packet.
    pub seq: u16,
    /// The counter of the first frame.
    pub dlfc: u32,
    /// How many super frames there are.
    pub length: u32,
    pub configs: Configs,
}
