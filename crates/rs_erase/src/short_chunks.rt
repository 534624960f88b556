//! Chunks of few bytes, each found by as many known bytes of its code word as it has.
//!
//! Each symbol of the parity is a sum of multiples of the chunk's bytes. So these come by elimination from equations, one for
//! each. What comes of it is tried: every known byte is compared with that of the code word.

ghost use Rattle.std.specs.Prelude.{◌≡◌, ◌<◌, ◌≤◌, ◌+◌, ◌-◌, ◌*◌, true, length, slice_index, take, IfSome};
ghost use Rattle.rs_erase.specs.Short.{coded_byte, symbol_sum, AreShortPlaces, HasBytes};
ghost use Rattle.rs_erase.specs.declared.first_remainders.TheConstants.{FIRST_REMAINDERS};

use crate::first_remainders::FIRST_REMAINDERS;
use crate::row::{lanes_from, write_lanes};
use gf_field::{Gf, scaled};
use std::simd::prelude::*;

/// So far apart the rows of the equations begin. A row has what each byte of the chunk is multiplied by, and what these come to.
const ROW: usize = 16;

/// The symbols of a parity.
const PARITY: usize = 48;

/// The chunk of k bytes whose code word has these bytes at the known places, if it is found. Places and bytes are those of the
/// chunk with its parity behind it, and there may be more bytes.
/// Example: `find_chunk(&[3, 9], &[7; 49], 1)` is a chunk of one 7, if its parity has a 7 at both places.
pub fn find_chunk(known: &[u8], bytes: &[u8], k: usize) -> Option<[u8; 16]>
    requires places { AreShortPlaces k known.now }
    requires room { k + 48 ≤ length bytes.now }
    ensures { IfSome result (λ chunk. HasBytes (take k chunk) known.now bytes.now) }
{
    let chunk = solution(known, bytes, k)?;
    if has_bytes(&chunk, known, bytes, k) {
        Some(chunk)
    } else {
        None
    }
}

/// The bytes that solve the equations of the first known places, if there are enough.
fn solution(known: &[u8], bytes: &[u8], k: usize) -> Option<[u8; 16]>
    requires places { AreShortPlaces k known.now }
    requires room { k + 48 ≤ length bytes.now }
{
    let mut rows = [0; 256];
    if !write_rows(&mut rows, known, bytes, k) || !eliminate(&mut rows, k) {
        return None;
    }
    let mut chunk = [0; 16];
    solve_from_last(&rows, k, &mut chunk);
    Some(chunk)
}

/// Writes an equation for each byte of the chunk: that of the byte itself if it is known, and else that of the next known symbol
/// of the parity. Answers whether there are enough.
fn write_rows(rows: &mut [u8; 256], known: &[u8], bytes: &[u8], k: usize) -> bool
    requires places { AreShortPlaces k known.now }
    requires room { k + 48 ≤ length bytes.now }
{
    let mut next = 0;
    let mut symbol = known_before(known, k);
    for row in 0..k {
        if is_at(known, next, row) {
            rows[ROW * row + row] = 1;
            rows[ROW * row + k] = bytes[row];
            next += 1;
        } else {
            if symbol >= known.len() || usize::from(known[symbol]) < k {
                return false;
            }
            let place = usize::from(known[symbol]);
            write_symbol(rows, row, place - k, k);
            rows[ROW * row + k] = bytes[place];
            symbol += 1;
        }
    }
    true
}

/// How many of the known places are before this one.
fn known_before(known: &[u8], end: usize) -> usize
    ensures { result ≤ length known.now }
{
    for (i, place) in known.iter().enumerate() {
        if usize::from(*place) >= end {
            return i;
        }
    }
    known.len()
}

/// Whether the next known place is this one.
fn is_at(known: &[u8], next: usize, place: usize) -> bool
    ensures { result ≡ true → next < length known.now }
{
    next < known.len() && usize::from(known[next]) == place
}

/// Writes by what each byte of the chunk is multiplied in this symbol of the parity.
fn write_symbol(rows: &mut [u8; 256], row: usize, symbol: usize, k: usize)
    requires short { k ≤ 15 }
    requires row { row < k }
    requires symbol { symbol < 48 }
{
    for j in 0..k {
        rows[ROW * row + j] = remainder_at(PARITY * j + symbol);
    }
}

/// What the table of remainders holds at this place.
fn remainder_at(place: usize) -> u8
    requires { place < 768 }
    ensures { result ≡ slice_index FIRST_REMAINDERS place }
{
    FIRST_REMAINDERS[place]
}

/// Makes each row begin with a 1 at its own byte, and takes that byte out of the rows behind it.
fn eliminate(rows: &mut [u8; 256], k: usize) -> bool
    requires { k ≤ 15 }
{
    for i in 0..k {
        let first = rows[ROW * i + i];
        if first == 0 {
            return false;
        }
        let row = scaled(lanes_from(rows, ROW * i), Gf(first).inverse().0);
        write_lanes(rows, ROW * i, row);
        clear_behind(rows, i, k, row);
    }
    true
}

/// Takes the i-th byte out of the rows behind the i-th, by so many times this row.
fn clear_behind(rows: &mut [u8; 256], i: usize, k: usize, row: u8x16)
    requires short { k ≤ 15 }
    requires row { i < k }
{
    for other in i + 1..k {
        let place = ROW * other;
        let lanes = lanes_from(rows, place) ^ scaled(row, rows[place + i]);
        write_lanes(rows, place, lanes);
    }
}

/// Finds the bytes, from the last one back.
fn solve_from_last(rows: &[u8; 256], k: usize, chunk: &mut [u8; 16])
    requires { k ≤ 15 }
{
    for n in 0..k {
        let i = k - 1 - n;
        chunk[i] = rows[ROW * i + k] ^ sum_behind(rows, i, k, chunk);
    }
}

/// What the bytes behind the i-th come to in its row.
fn sum_behind(rows: &[u8; 256], i: usize, k: usize, chunk: &[u8; 16]) -> u8
    requires short { k ≤ 15 }
    requires row { i < k }
{
    let mut sum = 0;
    for j in i + 1..k {
        sum ^= Gf(rows[ROW * i + j]).mul(Gf(chunk[j])).0;
    }
    sum
}

/// Whether the chunk with its parity has these bytes at the known places.
fn has_bytes(chunk: &[u8; 16], known: &[u8], bytes: &[u8], k: usize) -> bool
    requires places { AreShortPlaces k known.now }
    requires room { k + 48 ≤ length bytes.now }
    ensures { result ≡ true → HasBytes (take k chunk.now) known.now bytes.now }
{
    for i in 0..known.len() {
        let place = usize::from(known[i]);
        if byte_at(chunk, place, k) != bytes[place] {
            return false;
        }
    }
    true
}

/// The byte at a place of the chunk with its parity.
fn byte_at(chunk: &[u8; 16], place: usize, k: usize) -> u8
    requires short { k ≤ 15 }
    requires within { place < k + 48 }
    ensures { result ≡ coded_byte FIRST_REMAINDERS chunk.now k place }
{
    if place < k {
        chunk[place]
    } else {
        symbol_of(chunk, place - k, k)
    }
}

/// A symbol of the parity.
fn symbol_of(chunk: &[u8; 16], symbol: usize, k: usize) -> u8
    requires short { k ≤ 15 }
    requires symbol { symbol < 48 }
    ensures { result ≡ symbol_sum FIRST_REMAINDERS chunk.now symbol k }
{
    let mut sum = 0;
    for j in 0..k {
        sum ^= Gf(chunk[j]).mul(Gf(remainder_at(PARITY * j + symbol))).0;
    }
    sum
}
