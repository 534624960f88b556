//! Forty-eight elements, as many as a word has parity bytes, in lanes.

ghost use Rattle.std.specs.Prelude.{◌≡◌, ◌<◌, ◌≤◌, ◌^◌, ◌+◌, ◌++◌, [], ◌∷◌, bit_xor, drop, length, map, replicate, slice_index, take};
ghost use Rattle.std.specs.Simd.Lanes.{chunk, put_chunk, zip2};
ghost use Rattle.gf_field.specs.Field.{times};
ghost use Rattle.rs_erase.specs.Code.{AreElements};
ghost use Rattle.rs_erase.specs.Polynomial.{add, scale};
ghost use Rattle.rs_erase.specs.Rows.{listed};

use gf_field::scaled;
use std::simd::prelude::*;

/// Forty-eight elements in three vectors.
#[derive(Clone, Copy)]
pub struct Row {
    pub first: u8x16,
    pub second: u8x16,
    pub third: u8x16,
}

impl Row {
    /// Zeros.
    pub fn zeros() -> Row
        ensures { listed result ≡ replicate 48 0 }
    {
        let zeros = u8x16::splat(0);
        Row {
            first: zeros,
            second: zeros,
            third: zeros,
        }
    }

    /// The elements from this place on.
    pub fn from_place(bytes: &[u8], place: usize) -> Row
        requires { place + 48 ≤ length bytes.now }
        ensures { listed result ≡ chunk place 48 bytes.now }
    {
        Row {
            first: lanes_from(bytes, place),
            second: lanes_from(bytes, place + 16),
            third: lanes_from(bytes, place + 32),
        }
    }

    /// The sums of the elements of both.
    pub fn plus(self, other: Row) -> Row
        ensures { listed result ≡ add (listed self) (listed other) }
    {
        Row {
            first: self.first ^ other.first,
            second: self.second ^ other.second,
            third: self.third ^ other.third,
        }
    }

    /// The elements with this multiple of the others added.
    pub fn plus_multiple(self, factor: u8, other: Row) -> Row
        ensures { listed result ≡ add (listed self) (scale factor (listed other)) }
    {
        self.plus(Row {
            first: scaled(other.first, factor),
            second: scaled(other.second, factor),
            third: scaled(other.third, factor),
        })
    }

    /// The elements from the second on, and a zero.
    pub fn from_second(self) -> Row
        ensures { listed result ≡ drop 1 (listed self) ++ 0 ∷ [] }
    {
        Row {
            first: one_on(self.first, self.second),
            second: one_on(self.second, self.third),
            third: one_on(self.third, u8x16::splat(0)),
        }
    }

    /// The first element.
    pub fn front(self) -> u8
        ensures value { result ≡ slice_index (listed self) 0 }
        ensures element { result < 2 ^ 8 }
    {
        let lanes = self.first.to_array();
        lanes[0]
    }

    /// The elements, one after another.
    pub fn to_bytes(self) -> [u8; 48]
        ensures value { result ≡ listed self }
        ensures elements { AreElements result }
    {
        one_after_another(self.first, self.second, self.third)
    }
}

/// Sixteen elements from this place on.
pub fn lanes_from(bytes: &[u8], place: usize) -> u8x16
    requires { place + 16 ≤ length bytes.now }
    ensures { result ≡ chunk place 16 bytes.now }
{
    u8x16::from_slice(&bytes[place..])
}

/// The lanes with this multiple of the others added. A multiple by 0 costs nothing.
pub fn plus_multiple(lanes: u8x16, factor: u8, others: u8x16) -> u8x16
    ensures { result ≡ zip2 bit_xor lanes (map (times factor) others) }
{
    if factor == 0 {
        return lanes;
    }
    lanes ^ scaled(others, factor)
}

/// The lanes of three vectors.
fn one_after_another(first: u8x16, second: u8x16, third: u8x16) -> [u8; 48]
    ensures value { result ≡ first ++ (second ++ third) }
    ensures elements { AreElements result }
{
    let mut bytes = [0; 48];
    write_lanes(&mut bytes, 0, first);
    write_lanes(&mut bytes, 16, second);
    write_lanes(&mut bytes, 32, third);
    bytes
}

/// Writes the lanes from this place on.
pub fn write_lanes(bytes: &mut [u8], place: usize, lanes: u8x16)
    requires { place + 16 ≤ length bytes.old }
    ensures { bytes.new ≡ put_chunk place bytes.old lanes }
{
    lanes.copy_to_slice(&mut bytes[place..]);
}

/// The lanes from the second on, and the first of the next ones.
fn one_on(lanes: u8x16, next: u8x16) -> u8x16
    ensures { result ≡ chunk 1 16 (lanes ++ next) }
{
    lanes.shuffle(
        next,
        [1, 2, 3, 4, 5, 6, 7, 8, 9, 10, 11, 12, 13, 14, 15, 16],
    )
}
