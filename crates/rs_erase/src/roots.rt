//! The values of a word at the roots of the generator.

ghost use Rattle.std.specs.Prelude.{◌≡◌, ◌<◌, ◌≤◌, ◌+◌, ◌-◌, ◌*◌, ◌↔◌, ℕ, List, true, drop, length, replicate, slice_index, take};
ghost use Rattle.std.specs.List.{All};
ghost use Rattle.std.specs.Simd.Lanes.{chunk as elements_from};
ghost use Rattle.gf_field.specs.Field.{power};
ghost use Rattle.rs_erase.specs.Code.{AreElements, AreSyndromes, IsCodeWord};
ghost use Rattle.rs_erase.specs.Equations.{word_value};
ghost use Rattle.rs_erase.specs.Register.{HasFirstRemainder, IsMultipleRemainder, IsRemainder};
ghost use Rattle.rs_erase.specs.Rows.{listed};

use crate::first_remainders::FIRST_REMAINDERS;
use crate::parity::remainder_of;
use crate::root_powers::ROOT_POWERS;
use crate::row::{Row, lanes_from};
use gf_field::{Gf, scaled};
use std::simd::prelude::*;

/// A message with so many elements and zeros is summed by what remains of each.
const FEW: usize = 16;

/// The others of such a message.
const ZEROS: [u8; 191] = [0; 191];

/// The values of the word at the roots 2, 2 to the 2 and on to 2 to the 48 of the generator, in this order.
/// Example: `syndromes(&[0xff; 255])` is `[Gf(0); 48]`.
pub fn syndromes(word: &[u8; 255]) -> [Gf; 48]
    ensures values { AreSyndromes word.now result }
    ensures elements { AreElements result }
    ensures code_word { IsCodeWord word.now ↔ All (λ syndrome. syndrome ≡ 0) result }
{
    let bytes = values_at_roots(word).to_bytes();
    let mut values = [Gf(0); 48];
    for (j, value) in values.iter_mut().enumerate() {
        *value = Gf(bytes[j]);
    }
    values
}

/// The same in a row.
pub fn values_at_roots(word: &[u8; 255]) -> Row
    ensures { AreSyndromes word.now (listed result) }
{
    let remainder = word_remainder(word).to_bytes();
    values_of(&remainder)
}

/// What remains of the word: at the roots it has the values of the word.
pub fn word_remainder(word: &[u8; 255]) -> Row
    ensures { (j : ℕ) → 0 < j → j ≤ 48 → word_value (power j) (listed result) ≡ word_value (power j) word.now }
{
    message_remainder(word).plus(Row::from_place(word, 207))
}

/// What remains of the message of the word.
fn message_remainder(word: &[u8; 255]) -> Row
    ensures { IsRemainder (take 207 word.now) (listed result) }
{
    if has_few(word) {
        return first_remainder(word);
    }
    remainder_of(&word[..207])
}

/// Whether the message has zeros behind its first sixteen elements, as that of a chunk of few bytes.
fn has_few(word: &[u8; 255]) -> bool
    ensures { result ≡ true → take 191 (drop 16 word.now) ≡ replicate 191 0 }
{
    word[FEW..207] == ZEROS[..]
}

/// What remains of the first elements of the word, with zeros behind them.
fn first_remainder(word: &[u8; 255]) -> Row
    ensures { HasFirstRemainder word.now (listed result) 16 }
{
    let mut remainder = Row::zeros();
    for j in 0..FEW {
        remainder = with_element(remainder, word[j], j);
    }
    remainder
}

/// Adds what remains of this element at the place j of a message.
fn with_element(remainder: Row, element: u8, j: usize) -> Row
    requires { j < 16 }
    ensures { (word : List ℕ) → length word ≡ 255 → element ≡ slice_index word j
        → HasFirstRemainder word (listed remainder) j → HasFirstRemainder word (listed result) (j + 1) }
{
    // Most are 0, where a chunk has few bytes.
    if element == 0 {
        return remainder;
    }
    remainder.plus_multiple(element, power_remainder(j))
}

/// What remains of x to the 254 - j.
fn power_remainder(j: usize) -> Row
    requires { j < 16 }
    ensures { IsMultipleRemainder 1 (254 - j) (listed result) }
{
    Row::from_place(&FIRST_REMAINDERS, 48 * j)
}

/// The values at the roots of 48 symbols.
pub fn values_of(symbols: &[u8; 48]) -> Row
    ensures { (j : ℕ) → j < 48 → slice_index (listed result) j ≡ word_value (power (j + 1)) symbols.now }
{
    let mut values = Row::zeros();
    for p in 0..48usize {
        values = values.plus_multiple(symbols[p], powers_of_roots(p));
    }
    values
}

/// The values at the first sixteen roots.
pub fn first_values_of(symbols: &[u8; 48]) -> u8x16
    ensures { (j : ℕ) → j < 16 → slice_index result j ≡ word_value (power (j + 1)) symbols.now }
{
    let mut values = u8x16::splat(0);
    for p in 0..48usize {
        values = values ^ scaled(lanes_from(&ROOT_POWERS, 16 * (3 * p)), symbols[p]);
    }
    values
}

/// Each root to the power 47 - p.
fn powers_of_roots(p: usize) -> Row
    requires { p < 48 }
    ensures { listed result ≡ elements_from (48 * p) 48 ROOT_POWERS }
{
    Row::from_place(&ROOT_POWERS, 48 * p)
}
