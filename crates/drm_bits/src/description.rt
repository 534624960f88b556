//! The multiplex description, as a value and in its bits.

ghost use Rattle.std.specs.Prelude.{◌≡◌, ◌↔◌, ◌+◌, ◌*◌, ◌≤◌, ◌<◌, ◌^◌, IsTrue, length, drop, replicate};
ghost use Rattle.drm_bits.specs.Bits.{front};
ghost use Rattle.drm_bits.specs.Fields.{AllFit, AreFields, spelled};
ghost use Rattle.drm_bits.specs.Description.{part_fields};
ghost use Rattle.drm_bits.specs.Sink.{WroteBits, unwritten};

use crate::{BitSink, Bits};

/// The two protection parts of a stream, in bytes of each logical frame.
#[derive(Clone, Copy, Debug, PartialEq, Eq)]
pub struct Part {
    /// The length of part A, whose protection is the higher one.
    pub a: u16,
    /// The length of part B.
    pub b: u16,
}

/// The multiplex description (ES 201 980): how the multiplex frame is made of up to four streams.
#[derive(Clone, Copy, Debug, PartialEq, Eq)]
pub struct MuxDesc {
    /// The protection level of the parts A.
    pub prot_a: u8,
    /// The protection level of the parts B.
    pub prot_b: u8,
    /// How many streams there are.
    pub count: u8,
    /// The parts of the streams, then zeros.
    pub parts: [Part; 4],
}

impl MuxDesc {
    ghost use Rattle.drm_bits.specs.Description.{IsDescription, FitsWidths, description_fields, description_from};

    /// Reads the description of so many streams from the front.
    pub fn read(bits: &mut Bits<'_>, count: u8) -> MuxDesc
        requires within_limit { count ≤ 4 }
        requires enough { 4 + 24 * count ≤ length bits.old }
        ensures is { result ≡ description_from count bits.old }
        ensures description { IsDescription result }
        ensures fits { FitsWidths result }
        ensures fields { length bits.old ≡ 4 + 24 * count → AreFields (description_fields result) bits.old }
    {
        let prot_a = bits.take_u8(2);
        let prot_b = bits.take_u8(2);
        let mut parts = [Part { a: 0, b: 0 }; 4];
        for k in 0..usize::from(count) {
            parts[k] = read_part(bits);
        }
        MuxDesc {
            prot_a,
            prot_b,
            count,
            parts,
        }
    }

    /// Writes the description behind what is written.
    pub fn write(&self, sink: &mut BitSink<'_>)
        requires description { IsDescription self.now }
        requires fits { AllFit (description_fields self.now) }
        requires room { 4 + 24 * self.now.count ≤ length (unwritten sink.old) }
        ensures wrote { WroteBits (spelled (description_fields self.now)) sink.old sink.new }
        ensures remaining { length (unwritten sink.new) + (4 + 24 * self.now.count) ≡ length (unwritten sink.old) }
    {
        sink.put_u8(self.prot_a, 2);
        sink.put_u8(self.prot_b, 2);
        write_parts(sink, &self.parts[..usize::from(self.count)]);
    }

    /// Whether at most four streams are described, and the parts past them are 0.
    pub fn is_description(&self) -> bool
        ensures { IsTrue result ↔ IsDescription self.now }
    {
        self.count <= 4 && all_zero(&self.parts[usize::from(self.count)..])
    }

    /// Whether each field fits its width.
    pub fn fits(&self) -> bool
        requires { IsDescription self.now }
        ensures { IsTrue result ↔ AllFit (description_fields self.now) }
    {
        self.prot_a < 4 && self.prot_b < 4 && all_narrow(&self.parts[..usize::from(self.count)])
    }
}

fn read_part(bits: &mut Bits<'_>) -> Part
    requires { 24 ≤ length bits.old }
    ensures part { result ≡ record { a = front 12 bits.old; b = front 12 (drop 12 bits.old) } }
    ensures fits { (result.a < 2 ^ 12) × (result.b < 2 ^ 12) }
    ensures rest { bits.new ≡ drop 12 (drop 12 bits.old) }
    ensures remaining { length bits.new + 24 ≡ length bits.old }
{
    Part {
        a: bits.take_u16(12),
        b: bits.take_u16(12),
    }
}

fn write_parts(sink: &mut BitSink<'_>, parts: &[Part])
    requires fits { AllFit (part_fields parts.now) }
    requires room { 24 * length parts.now ≤ length (unwritten sink.old) }
    ensures wrote { WroteBits (spelled (part_fields parts.now)) sink.old sink.new }
    ensures remaining { length (unwritten sink.new) + 24 * length parts.now ≡ length (unwritten sink.old) }
{
    for part in parts {
        sink.put_u16(part.a, 12);
        sink.put_u16(part.b, 12);
    }
}

fn all_zero(parts: &[Part]) -> bool
    ensures { IsTrue result ↔ (parts.now ≡ replicate (length parts.now) (record { a = 0; b = 0 })) }
{
    for part in parts {
        if !is_zero(*part) {
            return false;
        }
    }
    true
}

fn is_zero(part: Part) -> bool
    ensures { IsTrue result ↔ ((part.a ≡ 0) × (part.b ≡ 0)) }
{
    part.a == 0 && part.b == 0
}

fn all_narrow(parts: &[Part]) -> bool
    ensures { IsTrue result ↔ AllFit (part_fields parts.now) }
{
    for part in parts {
        if !is_narrow(*part) {
            return false;
        }
    }
    true
}

fn is_narrow(part: Part) -> bool
    ensures { IsTrue result ↔ ((part.a < 2 ^ 12) × (part.b < 2 ^ 12)) }
{
    part.a < 1 << 12 && part.b < 1 << 12
}
