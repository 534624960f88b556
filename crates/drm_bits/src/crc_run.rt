//! The check value of sixteen bits, byte by byte.

ghost use Rattle.std.specs.Prelude.{◌≡◌, ℕ, ◌<◌, ◌^◌, ◌∷◌, ◌++◌, [], List};
ghost use Rattle.drm_bits.specs.Bits.{digits, bits_of};
ghost use Rattle.drm_bits.specs.Crc.{IsCheck, crc16_polynomial};

use crate::crc::crc16_after;
use std::marker::Model;

/// The check value of the bytes so far, as `crc16` has it for a list.
#[derive(Clone, Copy, Debug, PartialEq, Eq)]
pub struct CrcRun {
    check: u16,
}

impl Model for CrcRun {
    ghost use Rattle.std.specs.Prelude.{ℕ, ◌<◌, ◌^◌};

    ghost Value = { ℕ };

    ghost view = { λ run. run.check };

    ghost invariant = { λ run. run.check < 2 ^ 16 };

    ghost inverse = { λ n. record { check = n } };
}

impl CrcRun {
    /// Before any byte.
    pub fn start() -> CrcRun
        ensures { IsCheck crc16_polynomial (bits_of []) (digits 16 result) }
    {
        CrcRun { check: 0 }
    }

    /// After one byte more.
    pub fn byte(self, b: u8) -> CrcRun
        ensures { (bytes : List ℕ) → IsCheck crc16_polynomial (bits_of bytes) (digits 16 self)
            → IsCheck crc16_polynomial (bits_of (bytes ++ b ∷ [])) (digits 16 result) }
    {
        CrcRun {
            check: crc16_after(self.check, b),
        }
    }

    /// The check value.
    pub fn value(self) -> u16
        ensures value { result ≡ self }
        // Bytes have no other.
        ensures only { (bytes : List ℕ) → IsCheck crc16_polynomial (bits_of bytes) (digits 16 self)
            → (n : ℕ) → n < 2 ^ 16
            → IsCheck crc16_polynomial (bits_of bytes) (digits 16 n) → n ≡ result }
    {
        self.check
    }
}
