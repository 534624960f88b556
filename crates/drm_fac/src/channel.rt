//! The channel parameters.

ghost use Rattle.std.specs.Prelude.{◌≡◌, ◌+◌, ◌≤◌, ◌↔◌, length, IsTrue};
ghost use Rattle.drm_bits.specs.Fields.{BeginsWith, AllFit, spelled};
ghost use Rattle.drm_bits.specs.Sink.{WroteBits, unwritten};

use drm_bits::{BitSink, Bits};

/// The channel parameters of a FAC, 20 bits (ES 201 980, "Channel parameters"). Codes are kept as they stand, also
/// the reserved ones.
#[derive(Clone, Copy, Debug, PartialEq, Eq)]
pub struct Channel {
    /// Whether this is the enhancement layer: `false` for the base layer.
    pub enhancement: bool,
    /// The place of the frame in its super frame: 0 first with a valid AFS index, 1 intermediate, 2 last, 3 first
    /// with no valid AFS index.
    pub identity: u8,
    /// The spectrum occupancy: 0 to 5 for 4.5, 5, 9, 10, 18 and 20 kHz.
    pub occupancy: u8,
    /// Whether the cell interleaver is the short one.
    pub short_depth: bool,
    /// The mode of the main service channel: 0 64-QAM, 1 and 2 hierarchical, 3 16-QAM.
    pub msc: u8,
    /// Whether the service description channel is 4-QAM: `false` for 16-QAM.
    pub qam4: bool,
    /// The code of the numbers of services, as `counts` reads it.
    pub services: u8,
    /// The reconfiguration index: 0 where none is ahead.
    pub index: u8,
    /// The last two bits, which have no use yet.
    pub last: u8,
}

impl Channel {
    ghost use Rattle.drm_fac.specs.Fac.{channel_fields};

    /// Reads the channel parameters from the front.
    pub(crate) fn read(bits: &mut Bits<'_>) -> Channel
        requires { 20 ≤ length bits.old }
        ensures fields { BeginsWith (channel_fields result) bits.old bits.new }
        ensures remaining { length bits.new + 20 ≡ length bits.old }
    {
        Channel {
            enhancement: bits.take_flag(),
            identity: bits.take_u8(2),
            occupancy: bits.take_u8(4),
            short_depth: bits.take_flag(),
            msc: bits.take_u8(2),
            qam4: bits.take_flag(),
            services: bits.take_u8(4),
            index: bits.take_u8(3),
            last: bits.take_u8(2),
        }
    }

    /// Writes the channel parameters behind what is written.
    pub(crate) fn write(self, sink: &mut BitSink<'_>)
        requires fits { AllFit (channel_fields self) }
        requires room { 20 ≤ length (unwritten sink.old) }
        ensures wrote { WroteBits (spelled (channel_fields self)) sink.old sink.new }
        ensures remaining { length (unwritten sink.new) + 20 ≡ length (unwritten sink.old) }
    {
        sink.put_flag(self.enhancement);
        sink.put_u8(self.identity, 2);
        sink.put_u8(self.occupancy, 4);
        sink.put_flag(self.short_depth);
        sink.put_u8(self.msc, 2);
        sink.put_flag(self.qam4);
        sink.put_u8(self.services, 4);
        sink.put_u8(self.index, 3);
        sink.put_u8(self.last, 2);
    }

    /// Whether each field fits its width.
    pub(crate) fn fits(self) -> bool
        ensures { IsTrue result ↔ AllFit (channel_fields self) }
    {
        self.identity < 4
            && self.occupancy < 16
            && self.msc < 4
            && self.services < 16
            && self.index < 8
            && self.last < 4
    }
}
