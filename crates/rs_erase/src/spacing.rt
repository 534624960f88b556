//! What sums of locators come to for places at the same distance from one another.
//!
//! The sum of the locators of two places, divided by one of them, depends only on how far they stand apart. So for places at
//! the same distance one row of a table has what sixteen of them need, wherever they begin.

ghost use Rattle.std.specs.Prelude.{◌≡◌, ◌<◌, ◌+◌, ◌*◌, ◌-◌, ◌++◌, ℕ, bit_xor, slice_index};
ghost use Rattle.std.specs.Simd.Lanes.{chunk};
ghost use Rattle.gf_field.specs.Field.{power, times};
ghost use Rattle.rs_erase.specs.Spaced.{HasRows};

use crate::row::{lanes_from, write_lanes};
use crate::zech_sums::running_sums;
use gf_field::Gf;
use std::marker::Model;
use std::simd::prelude::*;

/// A distance between places, prepared for all patterns in which it is that of places of the message.
#[derive(Drop)]
pub struct Spacing {
    distance: u8,
    pub(crate) table: [u8; 4096],
    pub(crate) running: [u32; 768],
}

impl Model for Spacing {
    ghost use Rattle.std.specs.Prelude.{ℕ};
    ghost use Rattle.rs_erase.specs.Spaced.{IsPreparedSpacing};

    ghost Value = { ℕ };

    ghost view = { λ s. s.distance };

    ghost invariant = { λ s. IsPreparedSpacing s.distance s.table s.running };
}

impl Spacing {
    /// Prepares for this distance.
    pub fn prepare(distance: u8) -> Spacing
        ensures { result ≡ distance }
    {
        let quotients = quotients_of_one();
        let mut table = [0; 4096];
        for row in 0..255usize {
            write_row(&mut table, row, usize::from(distance), &quotients);
        }
        Spacing {
            distance,
            table,
            running: running_sums(usize::from(distance)),
        }
    }

    /// The distance.
    pub fn distance(&self) -> u8
        ensures { result ≡ self.now }
    {
        self.distance
    }
}

/// Place m above 0 has 1 divided by the sum of 2 to the m and 1.
fn quotients_of_one() -> [u8; 255]
    ensures { (m : ℕ) → 0 < m → m < 255 → times (slice_index result m) (bit_xor (power m) 1) ≡ 1 }
{
    let mut quotients = [0; 255];
    for m in 1..255usize {
        quotients[m] = Gf(1).div(Gf::power(m as u32).add(Gf(1))).0;
    }
    quotients
}

/// Writes a row: from its own place on each one that stands a distance before the last.
fn write_row(table: &mut [u8; 4096], row: usize, distance: usize, quotients: &[u8; 255])
    requires row { row < 255 }
    requires earlier { HasRows distance quotients.now table.old row }
    ensures { HasRows distance quotients.now table.new (row + 1) }
{
    let lanes = row_of(table, row, distance, quotients);
    write_lanes(table, 16 * row, lanes);
}

/// The row: what is first, and what the row a distance before it has, one lane further on.
fn row_of(table: &[u8; 4096], row: usize, distance: usize, quotients: &[u8; 255]) -> u8x16
    requires row { row < 255 }
    requires earlier { HasRows distance quotients.now table.now row }
    ensures { (i : ℕ) → i < 16 → distance * i < row → slice_index result i ≡ slice_index quotients.now (row - distance * i) }
{
    let first = u8x16::splat(quotients[row]);
    if distance == 0 || row <= distance {
        return first;
    }
    one_back(first, lanes_from(table, 16 * (row - distance)))
}

/// The last of the first lanes, and the others behind it but for their last.
fn one_back(first: u8x16, others: u8x16) -> u8x16
    ensures { result ≡ chunk 15 16 (first ++ others) }
{
    first.shuffle(
        others,
        [
            15, 16, 17, 18, 19, 20, 21, 22, 23, 24, 25, 26, 27, 28, 29, 30,
        ],
    )
}
