//! Bits in hex.

ghost use Rattle.std.specs.Prelude.{◌≡◌, ◌*◌, ◌<◌, ◌≤◌, length, take, drop, slice_index, OnOk};
ghost use Rattle.hex.specs.Hex.{lower_digits};
ghost use Rattle.drm_links.specs.Sink.{WritesWhole};
ghost use Rattle.report_text.specs.HexBits.{hex_of_bits};

use drm_bits::Bits;
use drm_links::{Sink, WriteFault, write_all};

// So many digits are written at once.
const AT_ONCE: usize = 64;

/// Writes a digit for each four bits that are left.
pub(crate) fn write_bits<O: Sink>(out: &mut O, mut bits: Bits<'_>) -> Result<(), WriteFault>
    ensures { WritesWhole result (O.known out.old) (O.known out.new) (hex_of_bits bits.entry) }
{
    let count = bits.left() / 4;
    write_digits(out, &mut bits, count)
}

/// Takes four bits for each of so many digits, and writes these.
pub fn write_digits<O: Sink>(
    out: &mut O,
    bits: &mut Bits<'_>,
    count: usize,
) -> Result<(), WriteFault>
    requires { 4 * count ≤ length bits.old }
    ensures written { WritesWhole result (O.known out.old) (O.known out.new) (hex_of_bits (take (4 * count) bits.old)) }
    ensures rest { OnOk result (bits.new ≡ drop (4 * count) bits.old) }
{
    let mut digits = [0; AT_ONCE];
    let mut left = count;
    while left > 0 {
        let some = left.min(AT_ONCE);
        fill(&mut digits, some, bits);
        write_all(out, &digits[..some])?;
        left -= some;
    }
    Ok(())
}

// Takes four bits for each of so many digits, and puts these to the front.
fn fill(digits: &mut [u8; AT_ONCE], count: usize, bits: &mut Bits<'_>)
    requires at_once { count ≤ 64 }
    requires enough { 4 * count ≤ length bits.old }
    ensures digits { take count digits.new ≡ hex_of_bits (take (4 * count) bits.old) }
    ensures rest { bits.new ≡ drop (4 * count) bits.old }
{
    for i in 0..count {
        digits[i] = digit(u64::from(bits.take_u8(4)));
    }
}

const DIGITS: [u8; 16] = *b"0123456789abcdef";

/// The digit of a number below 16.
/// Example: `digit(11)` is `b'b'`.
pub fn digit(n: u64) -> u8
    requires { n < 16 }
    ensures { result ≡ slice_index lower_digits n }
{
    DIGITS[n as usize]
}
