//! Numbers of up to 64 bits, taken from the front of a byte list.

ghost use Rattle.std.specs.Prelude.{◌≡◌, ℕ, ◌*◌, ◌^◌, ◌<◌, ◌≤◌, ◌∷◌, length, take, drop, OnOk, OnErr, IfOk, IfErr};
ghost use Rattle.drm_bits.specs.Bits.{value, digits, bits_of};

use std::marker::Model;

/// Fewer bits are left than were asked for.
#[derive(Clone, Copy, Debug, PartialEq, Eq)]
pub struct Short {
    /// How many bits are left.
    pub left: usize,
}

/// The bits of a byte list that are still to be taken, the greatest bit of each byte first.
#[derive(Drop)]
pub struct Bits<'a> {
    bytes: &'a [u8],
    at: usize,
    end: usize,
}

impl<'a> Model for Bits<'a> {
    ghost use Rattle.std.specs.Prelude.{List, Bool, ◌*◌, ◌≤◌, take, drop, length};
    ghost use Rattle.drm_bits.specs.Bits.{bits_of};

    ghost Value = { List Bool };

    ghost view = { λ b. drop b.at (take b.end (bits_of b.bytes.now)) };

    ghost invariant = { λ b. (b.at ≤ b.end) × (b.end ≤ 8 * length b.bytes.now) };
}

impl<'a> Bits<'a> {
    /// The first `bits` bits of these bytes.
    pub fn new(bytes: &'a [u8], bits: usize) -> Bits<'a>
        requires { bits ≤ 8 * length bytes.now }
        ensures bits { result ≡ take bits (bits_of bytes.now) }
        ensures remaining { length result ≡ bits }
        ensures whole { bits ≡ 8 * length bytes.now → result ≡ bits_of bytes.now }
    {
        Bits {
            bytes,
            at: 0,
            end: bits,
        }
    }

    /// How many bits are left.
    pub fn left(&self) -> usize
        ensures { result ≡ length self.now }
    {
        self.end - self.at
    }

    /// Takes the next `n` bits, and gives the number that they stand for, its greatest bit first.
    pub fn take(&mut self, n: u32) -> Result<u64, Short>
        requires { n ≤ 64 }
        // Each answer comes exactly where it is due.
        ensures enough { n ≤ length self.old → result ≡ Ok (value (take n self.old)) }
        ensures refused { length self.old < n
            → result ≡ Err (record { left = length self.old }) }

        ensures taken { OnOk result (n ≤ length self.old) }
        ensures number { IfOk result (λ v. v ≡ value (take n self.old)) }
        ensures fits { IfOk result (λ v. v < 2 ^ n) }
        ensures rest { OnOk result (self.new ≡ drop n self.old) }
        // What a bit sink writes for a number is what is taken for it.
        ensures spelled { IfOk result (λ v. take n self.old ≡ digits n v) }

        ensures short { IfErr result (λ e. (e.left ≡ length self.old) × (length self.old < n)) }
        ensures unchanged { OnErr result (self.new ≡ self.old) }
    {
        let left = self.left();
        if left < n as usize {
            return Err(Short { left });
        }
        let mut number = 0u64;
        for _ in 0..n {
            number = 2 * number + u64::from(self.next_bit());
        }
        Ok(number)
    }

    fn next_bit(&mut self) -> bool
        requires { 0 < length self.old }
        ensures { self.old ≡ result ∷ self.new }
    {
        let byte = self.bytes[self.at / 8];
        let bit = byte >> (7 - self.at % 8) & 1 == 1;
        self.at += 1;
        bit
    }
}
