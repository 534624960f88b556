//! By what packets are received.

ghost use Rattle.std.specs.Prelude.{◌≡◌};
ghost use Rattle.recv_reading.specs.Options.{bounds_of, capture_options};

/// Which packets a reading takes and counts, and when it ends.
#[derive(Clone, Copy, Debug, PartialEq, Eq)]
pub struct ReceiveOptions {
    /// In packets, from 1 to 64.
    pub window: u8,
    /// How far one may be ahead of the newest packet, from 1 to 32,767.
    pub reach: u16,
    /// The first sequence number, where it is given.
    pub first: Option<u16>,
    /// The number of frames, where it is given, from 1 to 3,000,000.
    pub frames: Option<u64>,
    /// How many idle answers in a row end it, from 1 to 1,000,000.
    pub idle: u32,
    /// How many datagrams end it, at least 1.
    pub limit: u32,
}

/// Which packets of a capture are received.
#[derive(Clone, Copy, Debug, PartialEq, Eq)]
pub struct PacketRange {
    /// In packets, from 1 to 64.
    pub window: u8,
    /// How far one may be ahead of the newest packet, from 1 to 32,767.
    pub reach: u16,
    /// The first sequence number, where it is given.
    pub first: Option<u16>,
    /// The number of frames, where it is given, from 1 to 3,000,000.
    pub frame_limit: Option<u64>,
}

/// When a reading ends, unless its input does.
#[derive(Clone, Copy, Debug, PartialEq, Eq)]
pub struct Bounds {
    /// After so many frames, where it is given.
    pub frames: Option<u64>,
    /// After so many idle answers in a row.
    pub idle: u32,
    /// After so many datagrams.
    pub limit: u64,
}

/// More datagrams than a capture has.
const FAR: u64 = 1 << 61;

impl PacketRange {
    /// When a reading of these ends, unless the capture does before: after so many frames.
    pub fn bounds(&self) -> Bounds
        ensures { result ≡ bounds_of (capture_options self.now) }
    {
        Bounds {
            frames: self.frame_limit,
            idle: 1,
            limit: FAR,
        }
    }
}

impl ReceiveOptions {
    /// When a reading by these options ends.
    pub fn bounds(&self) -> Bounds
        ensures { result ≡ bounds_of self.now }
    {
        Bounds {
            frames: self.frames,
            idle: self.idle,
            limit: u64::from(self.limit),
        }
    }
}
