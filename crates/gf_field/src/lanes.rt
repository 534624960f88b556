//! Products of sixteen elements at once.

ghost use Rattle.std.specs.Prelude.{◌≡◌, ◌<◌, ◌≤◌, ◌+◌, ℕ, List, map, slice_index};
ghost use Rattle.std.specs.Simd.Lanes.{chunk, zip2};
ghost use Rattle.gf_field.specs.Field.{times, IsProduct};
ghost use Rattle.gf_field.specs.Lanes.{chosen_by, of_nibbles};

use crate::nibbles::NIBBLES;
use std::simd::prelude::*;

/// Each lane times the factor, by the tables of the factor's products with four bits.
pub fn scaled(lanes: u8x16, factor: u8) -> u8x16
    ensures { result ≡ map (times factor) lanes }
{
    let row = 32 * usize::from(factor);
    by_nibbles(lanes, nibble_products(row), nibble_products(row + 16))
}

/// Sixteen entries of the table of products by four bits.
fn nibble_products(place: usize) -> u8x16
    requires { place + 16 ≤ 8192 }
    ensures { result ≡ chunk place 16 NIBBLES }
{
    u8x16::from_slice(&NIBBLES[place..])
}

/// For each lane the entry of its four low bits and the entry of its four high bits, added.
fn by_nibbles(lanes: u8x16, low: u8x16, high: u8x16) -> u8x16
    ensures { result ≡ of_nibbles low high lanes }
{
    low.swizzle_dyn(lanes & u8x16::splat(15)) ^ high.swizzle_dyn(lanes >> u8x16::splat(4))
}

/// Each lane is the product of the two lanes.
pub fn mul_lanes(a: u8x16, b: u8x16) -> u8x16
    ensures product { (lane : ℕ) → lane < 16 → IsProduct (slice_index a lane) (slice_index b lane) (slice_index result lane) }
    ensures value { result ≡ zip2 times a b }
{
    products(a, b)
}

/// The same by shifts and sums, from the highest bit of a on.
fn products(a: u8x16, b: u8x16) -> u8x16
    ensures { result ≡ zip2 times a b }
{
    let mut product = u8x16::splat(0);
    for bit in 0..u8::BITS as u8 {
        product = doubled(product) ^ chosen(a, b, 7 - bit);
    }
    product
}

/// Each lane times 2.
fn doubled(lanes: u8x16) -> u8x16
    ensures { result ≡ map (times 2) lanes }
{
    // Where the term x^8 comes up, the rest of the modulus is added in its place.
    let high = lanes.simd_ge(u8x16::splat(0x80));
    (lanes << u8x16::splat(1)) ^ high.select(u8x16::splat(0x1d), u8x16::splat(0))
}

/// The lanes of b where this bit of a is set, and 0 elsewhere.
fn chosen(a: u8x16, b: u8x16, bit: u8) -> u8x16
    requires { bit < 8 }
    ensures { result ≡ zip2 (chosen_by bit) a b }
{
    let bits = (a >> u8x16::splat(bit)) & u8x16::splat(1);
    bits.simd_eq(u8x16::splat(0)).select(u8x16::splat(0), b)
}
