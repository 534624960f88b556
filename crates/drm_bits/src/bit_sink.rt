//! Numbers of up to 64 bits, written into a byte list.

ghost use Rattle.std.specs.Prelude.{◌≡◌, ℕ, ◌*◌, ◌^◌, ◌<◌, ◌≤◌, ◌++◌, [], length, drop, slice_index, slice_set, IsOk, OnOk, OnErr};
ghost use Rattle.drm_bits.specs.Bits.{digits, bits_of};

use crate::Short;

/// Writes numbers bit by bit from the front of a byte list, the greatest bit of each first.
#[derive(Drop)]
pub struct BitSink<'a> {
    bytes: &'a mut [u8],
    at: usize,
    ghost within: { at ≤ 8 * length bytes.now },
    ghost fits: { 8 * length bytes.now < 2 ^ 64 },
    ghost octets: { (i : ℕ) → slice_index bytes.now i < 2 ^ 8 },
}

impl<'a> BitSink<'a> {
    ghost use Rattle.drm_bits.specs.Sink.{written, unwritten, lender};

    /// A sink into these bytes, in which no bit is written.
    pub fn new(into: &'a mut [u8]) -> BitSink<'a>
        requires { 8 * length into.old ≤ usize.MAX }
        ensures empty { written result ≡ [] }
        ensures unwritten { unwritten result ≡ bits_of into.old }
        ensures same_reference { lender result ≡ into.entry.ghost_name }
    {
        BitSink { bytes: into, at: 0 }
    }

    /// How many bits are written.
    pub fn len(&self) -> usize
        ensures { result ≡ length (written self.now) }
    {
        self.at
    }

    /// Writes a number in exactly `n` bits. The bits behind them keep what they were.
    pub fn put(&mut self, value: u64, n: u32) -> Result<(), Short>
        requires narrow { n ≤ 64 }
        requires fits { value < 2 ^ n }
        // Each answer comes exactly where it is due.
        ensures enough { n ≤ length (unwritten self.old) → IsOk result }
        ensures refused { length (unwritten self.old) < n
            → result ≡ Err (record { left = length (unwritten self.old) }) }

        ensures written { OnOk result (written self.new ≡ written self.old ++ digits n value) }
        ensures unwritten { OnOk result (unwritten self.new ≡ drop n (unwritten self.old)) }
        ensures unchanged { OnErr result ((written self.new ≡ written self.old)
            × (unwritten self.new ≡ unwritten self.old)) }
        ensures same_reference { lender self.new ≡ lender self.old }
    {
        let left = 8 * self.bytes.len() - self.at;
        if left < n as usize {
            return Err(Short { left });
        }
        for place in (0..n).rev() {
            set_bit(self.bytes, self.at, value >> place & 1 == 1);
            self.at += 1;
        }
        Ok(())
    }
}

fn set_bit(bytes: &mut [u8], at: usize, bit: bool)
    requires { at < 8 * length bytes.old }
    ensures bits { bits_of bytes.new ≡ slice_set (bits_of bytes.old) at bit }
    ensures octets { (i : ℕ) → slice_index bytes.new i < 2 ^ 8 }
{
    let mask = 1u8 << (7 - at % 8);
    let byte = &mut bytes[at / 8];
    *byte = if bit { *byte | mask } else { *byte & !mask };
}
