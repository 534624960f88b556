//! Check values, by a register that is shifted.

ghost use Rattle.std.specs.Prelude.{◌≡◌, ℕ, ◌<◌, ◌≤◌, ◌+◌, ◌*◌, ◌^◌, ◌++◌, List, Bool, length, take, drop, slice_index};
ghost use Rattle.drm_bits.specs.Bits.{digits, bits_of};
ghost use Rattle.drm_bits.specs.Crc.{IsCheck, complement, crc8_polynomial, crc16_polynomial};

use crate::remainders::REMAINDERS;

// The polynomial's coefficients below the greatest power.
const CRC8_LOW: u8 = 0x1d;

/// The check value of the Fast Access Channel (ES 201 980): a register of ones takes the bytes, the greatest bit
/// first, and is complemented.
/// Example: `crc8(b"123456789")` is `0x4b`.
pub fn crc8(bytes: &[u8]) -> u8
    ensures check { IsCheck crc8_polynomial (bits_of bytes.now) (digits 8 result) }
    // There is no other.
    ensures only { (n : ℕ) → n < 2 ^ 8
        → IsCheck crc8_polynomial (bits_of bytes.now) (digits 8 n) → n ≡ result }
{
    let mut check = 0;
    for byte in bytes {
        check = crc8_after(check, *byte);
    }
    check
}

/// The check value of AF packets, PFT headers (TS 102 821) and the Service Description Channel (ES 201 980), by the
/// same rules.
/// Example: `crc16(b"123456789")` is `0xd64e`.
pub fn crc16(bytes: &[u8]) -> u16
    ensures check { IsCheck crc16_polynomial (bits_of bytes.now) (digits 16 result) }
    // There is no other.
    ensures only { (n : ℕ) → n < 2 ^ 16
        → IsCheck crc16_polynomial (bits_of bytes.now) (digits 16 n) → n ≡ result }
{
    // Eight bytes at once leave a chain of one table entry for eight bytes in place of one for each.
    let eights = bytes.len() / 8;
    let mut check = !register_after(bytes, eights);
    for i in 8 * eights..bytes.len() {
        check = crc16_after(check, bytes[i]);
    }
    check
}

// The check value after one byte more. The register is its complement.
fn crc8_after(check: u8, byte: u8) -> u8
    ensures { (bits : List Bool) → IsCheck crc8_polynomial bits (digits 8 check)
        → IsCheck crc8_polynomial (bits ++ digits 8 byte) (digits 8 result) }
{
    let mut register = !check ^ byte;
    for _ in 0..u8::BITS {
        register = if register & 0x80 == 0 {
            register << 1
        } else {
            register << 1 ^ CRC8_LOW
        };
    }
    !register
}

// The same for the wider register, whose first eight bits are shifted out at once.
pub(crate) fn crc16_after(check: u16, byte: u8) -> u16
    ensures { (bits : List Bool) → IsCheck crc16_polynomial bits (digits 16 check)
        → IsCheck crc16_polynomial (bits ++ digits 8 byte) (digits 16 result) }
{
    let register = !check ^ u16::from(byte) << 8;
    let front = (register >> 8) as u8;
    !(register << 8 ^ remainder_at(0, front))
}

// The register of ones after so many groups of eight bytes.
fn register_after(bytes: &[u8], eights: usize) -> u16
    requires { 8 * eights ≤ length bytes.now }
    ensures { IsCheck crc16_polynomial (bits_of (take (8 * eights) bytes.now)) (complement (digits 16 result)) }
{
    let mut register = u16::MAX;
    for i in 0..eights {
        register = eight_bytes_after(register, bytes, 8 * i);
    }
    register
}

// The register after eight bytes more. Each of them leaves its own remainder, the first two with the register added.
fn eight_bytes_after(register: u16, bytes: &[u8], at: usize) -> u16
    requires { at + 8 ≤ length bytes.now }
    ensures { (bits : List Bool) → IsCheck crc16_polynomial bits (complement (digits 16 register))
        → IsCheck crc16_polynomial (bits ++ bits_of (take 8 (drop at bytes.now))) (complement (digits 16 result)) }
{
    let front = register ^ (256 * u16::from(bytes[at]) + u16::from(bytes[at + 1]));
    // What hangs on the register comes last, so that the rest is ready before it.
    remainder_at(0, bytes[at + 7])
        ^ remainder_at(1, bytes[at + 6])
        ^ remainder_at(2, bytes[at + 5])
        ^ remainder_at(3, bytes[at + 4])
        ^ remainder_at(4, bytes[at + 3])
        ^ remainder_at(5, bytes[at + 2])
        ^ remainder_at(6, (front % 256) as u8)
        ^ remainder_at(7, (front / 256) as u8)
}

// The remainder that a byte leaves with so many bytes behind it.
fn remainder_at(behind: usize, byte: u8) -> u16
    requires { behind < 8 }
    ensures { result ≡ slice_index REMAINDERS (256 * behind + byte) }
{
    REMAINDERS[256 * behind + usize::from(byte)]
}
