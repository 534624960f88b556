//! What a line says.

/// What a line of a script says.
#[derive(Clone, Copy, Debug, PartialEq, Eq)]
pub enum ScriptLine {
    /// A feed begins.
    Feed,
    Deliver(Delivers),
}

/// What a line delivers.
#[derive(Clone, Copy, Debug, PartialEq, Eq)]
pub enum Delivers {
    /// One fragment of a packet.
    Take { packet: u32, fragment: u32 },
    /// All fragments of a packet, in their order.
    Packet(u32),
    /// All fragments of these packets and those between.
    Packets { first: u32, last: u32 },
    /// All fragments of a packet, the last one first.
    Back(u32),
}
