//! A packet of a capture.

/// A packet, and its place in bytes from the start of the capture.
#[derive(Clone, Copy, Debug, PartialEq, Eq)]
pub struct Packet<'a> {
    pub at: u64,
    pub bytes: &'a [u8],
}
