//! What a command line asks for.

use drm_bits::Octets;
use drm_links::{Address, Addresses};
use drm_schedule::{Carry, Live};

/// What a command line asks for, a variant for each command. Names are UTF-8; where an option isn't told and has a
/// default, the default stands here.
#[derive(Drop)]
pub enum Request {
    /// Print a FAC.
    Fac,
    /// Print a schedule as its canonical text.
    Check {
        name: Octets,
    },
    /// Print what a schedule uses of its channels, and what doesn't fit.
    Capacity {
        name: Octets,
    },
    /// Print how far two schedules have the same datagrams.
    Agree {
        name: Octets,
        other: Octets,
    },
    /// Send a schedule's datagrams to addresses, or write them out as a capture where there is none.
    Serve {
        name: Octets,
        to: Addresses,
        /// Milliseconds between packets.
        pace: u32,
        /// The first super frame that is sent or written.
        from: u32,
        /// The super frame from which on none is sent or written.
        until: Option<u32>,
        /// The streams that take their bytes from input.
        live: Live,
    },
    /// Report what links bring, or a capture.
    Receive {
        addresses: Option<Addresses>,
        /// In packets.
        window: u8,
        /// How far one may be ahead of the newest packet.
        reach: u16,
        /// The first sequence number.
        first: Option<u16>,
        frames: Option<u64>,
        /// How many idle answers of a link in a row end its report.
        idle: u32,
        /// The most datagrams of a link.
        limit: u32,
    },
    /// Count what a link brings, or a capture.
    Count {
        address: Option<Address>,
        /// In packets.
        window: u8,
        /// In packets.
        reach: u16,
        /// The first sequence number.
        first: Option<u16>,
        frames: Option<u64>,
        /// How many idle answers of a link in a row end it.
        idle: u32,
        /// The most datagrams of a link.
        limit: u32,
    },
    /// Report what a script delivers of a schedule.
    Air {
        name: Octets,
        script: Octets,
        /// In packets.
        window: u8,
    },
    /// Print the layers of a capture.
    Show,
    /// Carry the packets of a capture in another way.
    Convert {
        carry: Carry,
        /// In packets.
        window: u8,
        /// How far one may be ahead of the newest packet.
        reach: u16,
        /// The first sequence number.
        first: Option<u16>,
        frames: Option<u64>,
    },
    /// Run the generated schedule and script of this size.
    Exercise {
        n: u32,
    },
    /// Pass the packets of a link on over others, carried in this way.
    Gate {
        from: Address,
        to: Addresses,
        carry: Carry,
        /// In packets.
        window: u8,
        /// How far one may be ahead of the newest packet.
        reach: u16,
        /// The first sequence number.
        first: Option<u16>,
        frames: Option<u64>,
        /// How many idle answers in a row end it.
        idle: u32,
        /// The most datagrams that it takes.
        limit: u32,
    },
    /// Write units as packets of data.
    Pack {
        /// The packet id, below 4.
        pid: u8,
        /// The data length of a packet, in bytes.
        length: u8,
    },
    /// Print the units of a capture's stream.
    Unpack {
        /// The stream id, below 4.
        stream: u8,
        /// The packet id, below 4.
        pid: u8,
        /// The data length of a packet, in bytes.
        length: u8,
        /// In packets of the capture.
        window: u8,
        /// How far one may be ahead of the newest packet.
        reach: u16,
        /// The first sequence number.
        first: Option<u16>,
        frames: Option<u64>,
    },
    /// Print the text messages of a capture's stream.
    Texts {
        /// The stream id, below 4.
        stream: u8,
        /// In packets.
        window: u8,
        /// How far one may be ahead of the newest packet.
        reach: u16,
        /// The first sequence number.
        first: Option<u16>,
        frames: Option<u64>,
    },
}
