//! Why bytes are no capture.

/// What is wrong where a packet should stand.
#[derive(Clone, Copy, Debug, PartialEq, Eq)]
pub enum CaptureField {
    /// It begins with neither `AF` nor `PF`.
    Sync,
    /// The check value of the header of a fragment is another than that of the bytes before it.
    HeadCrc,
    /// An AF packet has more than 65,536 bytes by its head.
    TooLarge,
    /// The bytes end before the head does.
    HeadCut,
    /// The bytes end behind the head, before the packet does.
    BodyCut,
}

/// The place of the packet, in bytes from the start of the capture, and what is wrong there.
#[derive(Clone, Copy, Debug, PartialEq, Eq)]
pub struct CaptureFault {
    pub at: u64,
    pub field: CaptureField,
}
