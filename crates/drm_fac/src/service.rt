//! The service parameters.

ghost use Rattle.std.specs.Prelude.{◌≡◌, ◌+◌, ◌≤◌, ◌↔◌, length, IsTrue};
ghost use Rattle.drm_bits.specs.Fields.{BeginsWith, AllFit, spelled};
ghost use Rattle.drm_bits.specs.Sink.{WroteBits, unwritten};

use drm_bits::{BitSink, Bits};

/// The parameters of one service in a FAC, 44 bits (ES 201 980, "Service parameters"). Codes are kept as they stand,
/// also the reserved ones.
#[derive(Clone, Copy, Debug, PartialEq, Eq)]
pub struct Service {
    /// The service identifier, 24 bits.
    pub id: u32,
    /// The short identifier, by which the service description channel names the service.
    pub short: u8,
    /// Whether the audio stream is under conditional access.
    pub ca: bool,
    /// The code of the language.
    pub language: u8,
    /// Whether this is a data service: `false` for audio.
    pub is_data: bool,
    /// The programme type of an audio service, the application of a data service.
    pub descriptor: u8,
    /// Whether the data stream is under conditional access.
    pub data_ca: bool,
    /// The last six bits, which have no use yet.
    pub last: u8,
}

impl Service {
    ghost use Rattle.drm_fac.specs.Fac.{service_fields};

    /// Reads the service parameters from the front.
    pub(crate) fn read(bits: &mut Bits<'_>) -> Service
        requires { 44 ≤ length bits.old }
        ensures fields { BeginsWith (service_fields result) bits.old bits.new }
        ensures remaining { length bits.new + 44 ≡ length bits.old }
    {
        Service {
            id: bits.take_u32(24),
            short: bits.take_u8(2),
            ca: bits.take_flag(),
            language: bits.take_u8(4),
            is_data: bits.take_flag(),
            descriptor: bits.take_u8(5),
            data_ca: bits.take_flag(),
            last: bits.take_u8(6),
        }
    }

    /// Writes the service parameters behind what is written.
    pub(crate) fn write(self, sink: &mut BitSink<'_>)
        requires fits { AllFit (service_fields self) }
        requires room { 44 ≤ length (unwritten sink.old) }
        ensures wrote { WroteBits (spelled (service_fields self)) sink.old sink.new }
        ensures remaining { length (unwritten sink.new) + 44 ≡ length (unwritten sink.old) }
    {
        sink.put_u32(self.id, 24);
        sink.put_u8(self.short, 2);
        sink.put_flag(self.ca);
        sink.put_u8(self.language, 4);
        sink.put_flag(self.is_data);
        sink.put_u8(self.descriptor, 5);
        sink.put_flag(self.data_ca);
        sink.put_u8(self.last, 6);
    }

    /// Whether each field fits its width.
    pub(crate) fn fits(self) -> bool
        ensures { IsTrue result ↔ AllFit (service_fields self) }
    {
        self.id < 1 << 24
            && self.short < 4
            && self.language < 16
            && self.descriptor < 32
            && self.last < 64
    }
}
