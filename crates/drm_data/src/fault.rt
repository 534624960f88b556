//! Why bytes are no data packet.

/// The first thing in a packet that is refused.
#[derive(Clone, Copy, Debug, PartialEq, Eq)]
pub enum DataFault {
    /// So many bytes stand there, and the packets of this stream have another number.
    Length { stands: usize },
    /// The check value is another than that of the bytes before it.
    Crc { stands: u16, computed: u16 },
    /// The packet is padded, and says that so many bytes are useful, which is more than fit.
    Useful { count: u8 },
}
