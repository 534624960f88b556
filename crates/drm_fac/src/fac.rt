//! The FAC as nine bytes.

ghost use Rattle.std.specs.Prelude.{◌≡◌, ◌↔◌, ℕ, List, length, take, IfOk, IfErr, IsTrue};
ghost use Rattle.drm_bits.specs.Bits.{bits_of, IsBytes};
ghost use Rattle.drm_bits.specs.Fields.{AreFields, spelled};

use crate::{Channel, Service};
use drm_bits::{BitSink, Bits, crc8};

/// A FAC: the channel parameters, and those of one service. Where there are several services, their parameters take
/// turns from frame to frame.
#[derive(Clone, Copy, Debug, PartialEq, Eq)]
pub struct Fac {
    pub channel: Channel,
    pub service: Service,
}

impl Fac {
    ghost use Rattle.drm_fac.specs.Fac.{FacFits};

    /// Whether each field fits its width, so that the FAC can be written.
    pub fn fits(&self) -> bool
        ensures { IsTrue result ↔ FacFits self.now }
    {
        self.channel.fits() && self.service.fits()
    }
}

/// Why nine bytes are no FAC.
#[derive(Clone, Copy, Debug, PartialEq, Eq)]
pub enum FacFault {
    /// The last byte isn't the check value of the eight before it.
    Crc {
        /// The byte that stands there.
        stands: u8,
        /// The check value of the first eight bytes.
        computed: u8,
    },
}

ghost use Rattle.drm_fac.specs.Fac.{fac_fields, IsFac, FacFits};
ghost use Rattle.drm_fac.specs.Fault.{IsFault};

/// Reads the 72 bits of a FAC: 20 of the channel, 44 of the service, and the check value of these 64 in 8.
/// Example: `66 08 01 23 45 60 a1 80 6d` is the FAC of the service 123456, with the services code 4 (one audio service).
pub fn decode(bytes: &[u8; 9]) -> Result<Fac, FacFault>
    // What is read is the FAC that these bytes are, and each FAC is read.
    ensures read { IfOk result (λ fac. IsFac fac bytes.now) }
    ensures only { (fac : Fac) → IsFac fac bytes.now → result ≡ Ok fac }
    ensures fits { IfOk result FacFits }

    // The fault is the one that these bytes have, and each fault is named.
    ensures fault { IfErr result (IsFault bytes.now) }
    ensures named { (fault : FacFault) → IsFault bytes.now fault → result ≡ Err fault }
{
    let (parameter_bytes, stands) = (&bytes[..8], bytes[8]);
    let computed = crc8(parameter_bytes);
    if stands != computed {
        return Err(FacFault::Crc { stands, computed });
    }
    Ok(parameters(parameter_bytes))
}

/// The nine bytes of a FAC.
pub fn encode(fac: &Fac) -> [u8; 9]
    requires { FacFits fac.now }
    ensures bytes { IsFac fac.now result }
    ensures only { (bytes : List ℕ) → IsFac fac.now bytes → bytes ≡ result }
{
    let mut bytes = [0; 9];
    write_parameters(fac, &mut bytes);
    bytes[8] = crc8(&bytes[..8]);
    bytes
}

/// Writes the 64 bits before the check value.
fn write_parameters(fac: &Fac, into: &mut [u8; 9])
    requires { FacFits fac.now }
    ensures bits { bits_of (take 8 into.new) ≡ spelled (fac_fields fac.now) }
    ensures bytes { IsBytes into.new }
{
    let mut sink = BitSink::new(into);
    fac.channel.write(&mut sink);
    fac.service.write(&mut sink);
}

/// Reads the 64 bits before the check value.
fn parameters(bytes: &[u8]) -> Fac
    requires { length bytes.now ≡ 8 }
    ensures { AreFields (fac_fields result) (bits_of bytes.now) }
{
    let mut bits = Bits::new(bytes, 64);
    let channel = Channel::read(&mut bits);
    let service = Service::read(&mut bits);
    Fac { channel, service }
}
