//! Why bytes are no fragment.

/// The first thing in a fragment that is refused.
#[derive(Clone, Copy, Debug, PartialEq, Eq)]
pub enum PftFault {
    /// The first two bytes aren't `PF`.
    Sync,
    /// Fewer bytes stand there than the header has.
    HeadCut,
    /// The check value is another than that of the header before it.
    HeadCrc,
    /// The packet has no fragments.
    Count,
    /// The packet has no fragment with this index.
    Index,
    /// The payload has another length than the header says.
    PlenMismatch,
    /// The chunks of the code have no bytes, or more than 207.
    RsK,
    /// The fill of the last chunk is as long as a chunk, or longer.
    RsZ,
    /// The packet has more than 4,096 fragments.
    TooMany,
    /// The fragments have more than 49,152 bytes together.
    TooLarge,
    /// The fragments have too few bytes for one chunk with its parity.
    Chunks,
}
