//! Products, inverses and powers of single elements by tables.

ghost use Rattle.std.specs.Prelude.{◌≡◌, ◌<◌, ◌^◌, slice_index};
ghost use Rattle.gf_field.specs.Field.{power, times, IsProduct};

use crate::inverses::INVERSES;
use crate::logarithms::POWERS;
use crate::nibbles::NIBBLES;
use crate::quotients::QUOTIENTS;

/// The product of two elements.
pub fn product_of(x: u8, y: u8) -> u8
    ensures product { IsProduct x y result }
    ensures value { result ≡ times x y }
{
    // y is the sum of its four low bits and its four high bits.
    let row = 32 * usize::from(x);
    nibble_product(row + usize::from(y % 16)) ^ nibble_product(row + 16 + usize::from(y / 16))
}

/// What the table of products by four bits holds at this place.
fn nibble_product(place: usize) -> u8
    requires { place < 8192 }
    ensures { result ≡ slice_index NIBBLES place }
{
    NIBBLES[place]
}

/// The element whose product with y is x.
pub fn quotient_of(x: u8, y: u8) -> u8
    requires { 0 < y }
    ensures product { IsProduct result y x }
    ensures value { times result y ≡ x }
    ensures element { result < 2 ^ 8 }
{
    let row = 32 * usize::from(y);
    nibble_quotient(row + usize::from(x % 16)) ^ nibble_quotient(row + 16 + usize::from(x / 16))
}

/// What the table of quotients by four bits holds at this place.
fn nibble_quotient(place: usize) -> u8
    requires { place < 8192 }
    ensures value { result ≡ slice_index QUOTIENTS place }
    ensures element { result < 2 ^ 8 }
{
    QUOTIENTS[place]
}

/// The inverse of an element other than 0.
pub fn inverse_of(x: u8) -> u8
    requires { 0 < x }
    ensures product { IsProduct x result 1 }
    ensures value { times x result ≡ 1 }
{
    inverse_at(x)
}

/// What the table of inverses holds at this element.
fn inverse_at(x: u8) -> u8
    ensures value { result ≡ slice_index INVERSES x }
    ensures element { result < 2 ^ 8 }
{
    INVERSES[usize::from(x)]
}

/// 2 to the n.
pub fn power_of(n: u8) -> u8
    requires { n < 255 }
    ensures { result ≡ power n }
{
    power_at(n)
}

/// What the table of powers holds at this place.
fn power_at(n: u8) -> u8
    requires { n < 255 }
    ensures { result ≡ slice_index POWERS n }
{
    POWERS[usize::from(n)]
}
