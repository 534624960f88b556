//! What a configuration asks of a channel.

use crate::coding::{Constellation, Protection};
use crate::sdc::SdcMode;
use crate::signal::Signal;

/// A part of the multiplex frame, over all streams.
#[derive(Clone, Copy, Debug, PartialEq, Eq)]
pub struct PartSetup {
    pub protection: Protection,
    /// In each frame.
    pub bytes: u16,
}

/// How the signal of a configuration is built, and what it is to carry.
#[derive(Clone, Copy, Debug, PartialEq, Eq)]
pub struct Setup {
    pub signal: Signal,
    pub constellation: Constellation,
    pub part_a: PartSetup,
    pub part_b: PartSetup,
    pub sdc_mode: SdcMode,
    /// The bytes of the data field of an SDC block.
    pub sdc: u16,
}
