//! The parity, by a shift register that takes sixteen symbols of the message at a time.

ghost use Rattle.std.specs.Prelude.{◌≡◌, ◌<◌, ◌≤◌, ◌-◌, ◌+◌, ◌*◌, ℕ, List, ◌∷◌, ◌++◌, replicate, length, drop, slice_index};
ghost use Rattle.rs_erase.specs.Code.{IsCodeWord, word_of};
ghost use Rattle.rs_erase.specs.Register.{AreMultiples, HasTaken, IsRemainder, TakesIn};
ghost use Rattle.rs_erase.specs.Rows.{listed};

use crate::multiples_51::MULTIPLES_51;
use crate::multiples_55::MULTIPLES_55;
use crate::multiples_59::MULTIPLES_59;
use crate::multiples_63::MULTIPLES_63;
use crate::row::{Row, lanes_from};
use std::simd::prelude::*;

/// Writes the 48 bytes that make the chunk, zeros behind it up to 207 bytes, and these 48 a code word.
/// Example: of a chunk of 207 bytes `0xff` it writes 48 bytes `0xff`.
pub fn encode(chunk: &[u8], parity: &mut [u8; 48])
    requires { length chunk.now ≤ 207 }
    ensures code_word { IsCodeWord (word_of chunk.now parity.new) }
    ensures only { (other : List ℕ) → IsCodeWord (word_of chunk.now other) → other ≡ parity.new }
{
    *parity = remainder_of(chunk).to_bytes();
}

/// What remains of the chunk and zeros behind it.
pub fn remainder_of(chunk: &[u8]) -> Row
    requires { length chunk.now ≤ 207 }
    ensures { IsRemainder (chunk.now ++ replicate (207 - length chunk.now) 0) (listed result) }
{
    let message = filled(chunk);
    remainder(&message)
}

/// The chunk with zeros behind it, and one before it, which changes no remainder: thirteen times sixteen symbols.
fn filled(chunk: &[u8]) -> [u8; 208]
    requires { length chunk.now ≤ 207 }
    ensures { result ≡ 0 ∷ (chunk.now ++ replicate (207 - length chunk.now) 0) }
{
    let mut message = [0; 208];
    copy_to_front(&mut message[1..], chunk);
    message
}

/// Writes the part over the first bytes.
fn copy_to_front(bytes: &mut [u8], part: &[u8])
    requires { length part.now ≤ length bytes.old }
    ensures { bytes.new ≡ part.now ++ drop (length part.now) bytes.old }
{
    bytes[..part.len()].copy_from_slice(part);
}

/// What remains of the message.
fn remainder(message: &[u8; 208]) -> Row
    ensures { IsRemainder message.now (listed result) }
{
    let mut register = Row::zeros();
    for i in 0..13usize {
        register = take_in(register, lanes_from(message, 16 * i));
    }
    register
}

/// Takes sixteen more symbols of the message into the register.
fn take_in(register: Row, symbols: u8x16) -> Row
    ensures { TakesIn symbols (listed register) (listed result) }
{
    // The sixteen highest coefficients leave the register; each of them comes back as what remains of its power.
    let leaving = (register.first ^ symbols).to_array();
    let mut next = Row {
        first: register.second,
        second: register.third,
        third: u8x16::splat(0),
    };
    for four in 0..4usize {
        next = with_four_multiples(next, four, &leaving);
    }
    next
}

/// Adds what remains of four of the coefficients that left the register. They stand one by one, so that each finds its rows at a
/// known place.
fn with_four_multiples(register: Row, four: usize, leaving: &[u8; 16]) -> Row
    requires { four < 4 }
    ensures { (moved : List ℕ) → HasTaken leaving.now moved (listed register) (4 * four)
        → HasTaken leaving.now moved (listed result) (4 * four + 4) }
{
    let k = 4 * four;
    let one = with_multiple(register, k, leaving[k]);
    let two = with_multiple(one, k + 1, leaving[k + 1]);
    let three = with_multiple(two, k + 2, leaving[k + 2]);
    with_multiple(three, k + 3, leaving[k + 3])
}

/// Adds what remains of the k-th coefficient that left the register, as the multiple by its low four bits and by its high ones.
fn with_multiple(register: Row, k: usize, coefficient: u8) -> Row
    requires { k < 16 }
    ensures { (leaving moved : List ℕ) → length leaving ≡ 16 → coefficient ≡ slice_index leaving k
        → HasTaken leaving moved (listed register) k → HasTaken leaving moved (listed result) (k + 1) }
{
    let multiples = multiples_of(k / 4);
    let row = 32 * (k % 4);
    let low = row + usize::from(coefficient % 16);
    let high = row + 16 + usize::from(coefficient / 16);
    register
        .plus(Row::from_place(multiples, 48 * low))
        .plus(Row::from_place(multiples, 48 * high))
}

/// The multiples of four powers: of x to the 63 - 4 four, and on down.
fn multiples_of(four: usize) -> &'static [u8; 6144]
    requires { four < 4 }
    ensures { AreMultiples (63 - 4 * four) result.now }
{
    match four {
        0 => &MULTIPLES_63.bytes,
        1 => &MULTIPLES_59.bytes,
        2 => &MULTIPLES_55.bytes,
        _ => &MULTIPLES_51.bytes,
    }
}
