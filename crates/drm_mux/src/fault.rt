//! Why a description doesn't fit what it describes.

/// A refusal of this crate. Lengths are in bytes, but for the bits of a value.
#[derive(Clone, Copy, Debug, PartialEq, Eq)]
pub enum MuxFault {
    /// An `sdci` value that isn't one byte and three bytes for each of at most four streams.
    SdciLength {
        bits: u32,
    },
    /// An `sdci` value whose first four bits aren't 0.
    SdciFront,
    /// The first described stream that has another length than its two parts together.
    StreamLength {
        stream: u8,
        stands: usize,
        described: usize,
    },
    /// A multiplex frame that has another length than all parts together.
    FrameLength {
        stands: usize,
        described: usize,
    },
}
