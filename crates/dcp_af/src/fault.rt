//! Why bytes are no AF packet.

/// The first thing in a packet that is refused.
#[derive(Clone, Copy, Debug, PartialEq, Eq)]
pub enum AfFault {
    /// The first two bytes aren't `AF`.
    Sync,
    /// Fewer bytes stand there than head and check value take.
    HeadCut { stands: usize },
    /// So many bytes stand there, and by its length field the packet has another number.
    Length { stands: u64, described: u64 },
    /// The major revision isn't 1.
    Version { major: u8 },
    /// The payload type isn't `T`.
    Kind { kind: u8 },
    /// The check value is another than that of the bytes before it.
    Crc { stands: u16, computed: u16 },
}
