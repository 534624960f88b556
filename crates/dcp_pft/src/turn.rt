//! Bytes in rows of sixteen, turned into sixteen columns by four times putting those at even places before those at odd ones.

ghost use Rattle.std.specs.Prelude.{◌≡◌, ◌+◌, ◌*◌, ◌-◌, ◌%◌, ◌^◌, ◌<◌, ◌≤◌, ◌++◌, ℕ, length};
ghost use Rattle.dcp_pft.specs.Coding.{byte_or_zero};
ghost use Rattle.dcp_pft.specs.Turning.{TakesRows, HalvesBytes, TurnsRows, HoldsColumns};

use drm_bits::put_at;
use std::simd::prelude::*;

/// How many columns are made at once.
pub(crate) const COLUMNS: usize = 16;

/// Makes columns of every count-th byte: sixteen, the first from `first` on. Each begins with `piece` of these bytes, and is one byte longer
/// where that is an odd number.
pub(crate) fn take_columns(
    coded: &[u8],
    first: usize,
    count: usize,
    piece: usize,
    columns: &mut [u8],
    other: &mut [u8],
)
    requires at_least_one { 0 < piece }
    requires piece_in_range { piece ≤ 1484 }
    requires rows { first + (piece - 1) * count + 16 ≤ length coded.now }
    requires within_limit { length coded.now < 2 ^ 32 }
    requires columns { length columns.old ≡ 23744 }
    requires other { length other.old ≡ 23744 }
    ensures columns { HoldsColumns count first piece (piece + piece % 2) coded.now columns.new }
    ensures same_length { length columns.new ≡ 23744 }
    ensures same_other { length other.new ≡ 23744 }
{
    let height = piece + piece % 2;
    take_rows(coded, first, count, piece, columns);
    turn(
        &mut columns[..COLUMNS * height],
        &mut other[..COLUMNS * height],
        height,
    );
}

// Takes sixteen bytes of each of so many rows of `count` bytes.
fn take_rows(coded: &[u8], first: usize, count: usize, rows: usize, into: &mut [u8])
    requires at_least_one { 0 < rows }
    requires rows { first + (rows - 1) * count + 16 ≤ length coded.now }
    requires within_limit { length coded.now < 2 ^ 32 }
    requires room { 16 * rows ≤ length into.old }
    ensures rows { TakesRows count first rows coded.now into.new }
    ensures same_length { length into.new ≡ length into.old }
{
    for p in 0..rows {
        take_row(coded, first + p * count, into, COLUMNS * p);
    }
}

// Takes sixteen bytes to a place.
fn take_row(coded: &[u8], from: usize, into: &mut [u8], at: usize)
    requires bytes { from + 16 ≤ length coded.now }
    requires room { at + 16 ≤ length into.old }
    ensures taken { (f : ℕ) → f < 16 → byte_or_zero into.new (at + f) ≡ byte_or_zero coded.now (from + f) }
    ensures before { (n : ℕ) → n < at → byte_or_zero into.new n ≡ byte_or_zero into.old n }
    ensures same_length { length into.new ≡ length into.old }
{
    put_at(into, at, &coded[from..from + COLUMNS]);
}

// Turns so many rows of sixteen bytes.
fn turn(rows: &mut [u8], other: &mut [u8], height: usize)
    requires even { height % 2 ≡ 0 }
    requires height_in_range { height ≤ 1484 }
    requires rows { length rows.old ≡ 16 * height }
    requires other { length other.old ≡ 16 * height }
    ensures turned { TurnsRows height rows.old rows.new }
    ensures same_length { length rows.new ≡ length rows.old }
    ensures same_other { length other.new ≡ length other.old }
{
    let half = COLUMNS / 2 * height;
    halve(rows, other, half);
    halve(other, rows, half);
    halve(rows, other, half);
    halve(other, rows, half);
}

// Writes the bytes at even places, and behind them those at odd ones.
fn halve(from: &[u8], into: &mut [u8], half: usize)
    requires even { half % 16 ≡ 0 }
    requires half_in_range { half < 2 ^ 32 }
    requires from { length from.now ≡ 2 * half }
    requires into { length into.old ≡ 2 * half }
    ensures halved { HalvesBytes half from.now into.new }
    ensures same_length { length into.new ≡ length into.old }
{
    for i in 0..half / COLUMNS {
        halve_part(from, into, half, COLUMNS * i);
    }
}

// Goes on with thirty-two bytes.
fn halve_part(from: &[u8], into: &mut [u8], half: usize, at: usize)
    requires half_in_range { half < 2 ^ 32 }
    requires within { at + 16 ≤ half }
    requires from { length from.now ≡ 2 * half }
    requires into { length into.old ≡ 2 * half }
    ensures here { (l : ℕ) → l < 16 → (byte_or_zero into.new (at + l) ≡ byte_or_zero from.now (2 * (at + l)))
        × (byte_or_zero into.new (half + (at + l)) ≡ byte_or_zero from.now (2 * (at + l) + 1)) }
    ensures before { (n : ℕ) → n < at → (byte_or_zero into.new n ≡ byte_or_zero into.old n)
        × (byte_or_zero into.new (half + n) ≡ byte_or_zero into.old (half + n)) }
    ensures same_length { length into.new ≡ length into.old }
{
    let first = u8x16::from_slice(&from[2 * at..]);
    let second = u8x16::from_slice(&from[2 * at + 16..]);
    evens(first, second).copy_to_slice(&mut into[at..]);
    odds(first, second).copy_to_slice(&mut into[half + at..]);
}

// The lanes at even places of both vectors.
fn evens(first: u8x16, second: u8x16) -> u8x16
    ensures { (l : ℕ) → l < 16 → byte_or_zero result l ≡ byte_or_zero (first ++ second) (2 * l) }
{
    first.shuffle(
        second,
        [0, 2, 4, 6, 8, 10, 12, 14, 16, 18, 20, 22, 24, 26, 28, 30],
    )
}

// The lanes at odd places.
fn odds(first: u8x16, second: u8x16) -> u8x16
    ensures { (l : ℕ) → l < 16 → byte_or_zero result l ≡ byte_or_zero (first ++ second) (2 * l + 1) }
{
    first.shuffle(
        second,
        [1, 3, 5, 7, 9, 11, 13, 15, 17, 19, 21, 23, 25, 27, 29, 31],
    )
}
