//! Patterns of erased places that stand at the same distance from one another, and what is found by them.

ghost use Rattle.std.specs.Prelude.{◌≡◌, ◌<◌, ◌≤◌, ◌↔◌, ◌+◌, ◌-◌, ◌*◌, ◌^◌, ℕ, List, length, slice_index, IfSome, IsErrOf, IsOk, IsTrue, OnOk, OnErr};
ghost use Rattle.gf_field.specs.Field.{power, times};
ghost use Rattle.rs_erase.specs.Code.{ArePlaces, HasCodeWord};
ghost use Rattle.rs_erase.specs.Equations.{word_value, word_with};
ghost use Rattle.rs_erase.specs.Spaced.{spaced_sum, AreInMessage, HasMessage};

use crate::equations::are_zero;
use crate::fault::SolveFault;
use crate::roots::{first_values_of, values_of, word_remainder};
use crate::row::{lanes_from, plus_multiple, write_lanes};
use crate::runs::{RUNS, runs_of};
use crate::spacing::Spacing;
use crate::zech_sums::{factors_by, sums_at, write_weights_by};
use gf_field::{Gf, scaled};
use std::marker::Model;
use std::simd::prelude::*;

/// At most 48 erased places, of which those of the message stand in runs at one distance, prepared for many words. By
/// it the message alone is filled.
#[derive(Drop)]
pub struct SpacedPattern {
    distance: u8,
    count: usize,
    places: [u8; 48],
    // How many of them are in the message.
    message: usize,
    // Whether few symbols of the parity are known, as where a chunk has few bytes.
    few: bool,
    // For each symbol of a parity the product of the sums of its locator and those of the places.
    factors: [u8; 48],
    // For each place what makes the value of what its lane comes to.
    weights: [Gf; 48],
    // Where each run starts, and for each place of the message its lane.
    starts: [u8; 13],
    used: usize,
    lanes: [u8; 48],
}

impl Model for SpacedPattern {
    ghost use Rattle.std.specs.Prelude.{take};
    ghost use Rattle.rs_erase.specs.Spaced.{SpacedPlaces, IsSpaced};

    ghost Value = { SpacedPlaces };

    ghost view = { λ p. record { places = take p.count p.places; distance = p.distance } };

    ghost invariant = { λ p. IsSpaced p.distance p.count p.message (take p.count p.places) p.factors (take p.count p.weights) p.starts p.used p.lanes };
}

impl SpacedPattern {
    /// Prepares for these erased places, where those of the message make at most thirteen runs of sixteen at this distance.
    pub fn prepare(erased: &[u8], spacing: &Spacing) -> Option<SpacedPattern>
        requires places { ArePlaces erased.now }
        requires enough { length erased.now ≤ 48 }
        ensures { IfSome result (λ pattern. pattern ≡ record { places = erased.now; distance = spacing.now }) }
    {
        let distance = spacing.distance();
        if distance == 0 {
            return None;
        }
        let count = erased.len();
        let message = in_message(erased);
        let mut lanes = [0; 48];
        let runs = runs_of(distance, &erased[..message], &mut lanes);
        if !runs.have(distance, &erased[..message], &lanes) {
            return None;
        }
        let mut places = [0; 48];
        places[..count].copy_from_slice(erased);
        let sums = sums_at(erased, usize::from(distance), &spacing.running);
        let mut weights = [Gf(0); 48];
        write_weights_by(&mut weights[..count], erased, &sums);
        let factors = factors_by(erased, &sums);
        Some(SpacedPattern {
            distance,
            count,
            places,
            message,
            few: count - message > 32,
            factors,
            weights,
            starts: runs.starts,
            used: runs.used,
            lanes,
        })
    }
}

/// How many of the places are in the message.
fn in_message(places: &[u8]) -> usize
    requires { ArePlaces places.now }
    ensures { AreInMessage places.now result }
{
    for (j, place) in places.iter().enumerate() {
        if *place >= 207 {
            return j;
        }
    }
    places.len()
}

/// Fills those of the erased places that are in the message, if there is a code word that agrees with the word at all
/// others. What stood at the erased places does not matter, and the parity stays as it is.
pub fn solve_spaced(
    pattern: &SpacedPattern,
    spacing: &Spacing,
    word: &mut [u8; 255],
) -> Result<(), SolveFault>
    requires { pattern.now.distance ≡ spacing.now }
    ensures solved { IsOk result ↔ HasCodeWord pattern.now.places word.old }
    ensures message { OnOk result (HasMessage pattern.now.places word.old word.new) }
    ensures parity { OnOk result ((q : ℕ) → 207 ≤ q → slice_index word.new q ≡ slice_index word.old q) }

    ensures no_code_word { IsErrOf result SolveFault.NoCodeWord ↔ ¬ (HasCodeWord pattern.now.places word.old) }
    ensures unchanged { OnErr result (word.new ≡ word.old) }
{
    let remainder = word_remainder(word).to_bytes();
    let symbols = multiplied(&pattern.factors, &remainder, pattern.few);
    if !leaves_nothing(&symbols, pattern.count) {
        return Err(SolveFault::NoCodeWord);
    }
    let mut sums = [0; 208];
    write_sums(
        &mut sums,
        &spacing.table,
        &pattern.starts,
        pattern.used,
        &symbols,
        pattern.few,
    );
    let places = &pattern.places[..pattern.message];
    add_found(word, places, &sums, &pattern.lanes, &pattern.weights);
    Ok(())
}

/// Each symbol times its factor.
fn multiplied(factors: &[u8; 48], symbols: &[u8; 48], few: bool) -> [u8; 48]
    ensures { (p : ℕ) → p < 48 → slice_index result p ≡ times (slice_index factors.now p) (slice_index symbols.now p) }
{
    let mut products = [0; 48];
    for p in 0..48usize {
        products[p] = product(factors[p], symbols[p], few);
    }
    products
}

/// The factor times the symbol. Where few symbols are known, most factors are 0.
fn product(factor: u8, symbol: u8, few: bool) -> u8
    ensures { result ≡ times factor symbol }
{
    if few && factor == 0 {
        return 0;
    }
    Gf(factor).mul(Gf(symbol)).0
}

/// Whether the first of the values of these symbols at the roots are 0: as many as fewer places than 48 are erased.
fn leaves_nothing(symbols: &[u8; 48], count: usize) -> bool
    requires { count ≤ 48 }
    ensures { IsTrue result ↔ ((i : ℕ) → i < 48 - count → word_value (power (i + 1)) symbols.now ≡ 0) }
{
    if count < 32 {
        return begin_with_zeros(symbols, 48 - count);
    }
    count == 48 || begin_with_few_zeros(symbols, 48 - count)
}

/// Whether so many of the values of these symbols at the roots are 0.
fn begin_with_zeros(symbols: &[u8; 48], count: usize) -> bool
    requires { count ≤ 48 }
    ensures { IsTrue result ↔ ((i : ℕ) → i < count → word_value (power (i + 1)) symbols.now ≡ 0) }
{
    are_zero(&values_of(symbols).to_bytes()[..count])
}

/// The same of at most sixteen.
fn begin_with_few_zeros(symbols: &[u8; 48], count: usize) -> bool
    requires { count ≤ 16 }
    ensures { IsTrue result ↔ ((i : ℕ) → i < count → word_value (power (i + 1)) symbols.now ≡ 0) }
{
    are_zero(&first_values_of(symbols).to_array()[..count])
}

/// Writes what the lanes of each run come to, sixteen after sixteen.
fn write_sums(
    sums: &mut [u8; 208],
    table: &[u8; 4096],
    starts: &[u8; RUNS],
    used: usize,
    symbols: &[u8; 48],
    few: bool,
)
    ensures { (run i : ℕ) → run < used → run < 13 → i < 16 → slice_index starts.now run < 207
        → slice_index sums.new (16 * run + i) ≡ spaced_sum table.now symbols.now (207 - slice_index starts.now run) i 48 }
{
    for run in 0..used.min(RUNS) {
        write_lanes(sums, 16 * run, run_sums(table, starts[run], symbols, few));
    }
}

/// What the lanes of the run with this start come to, where few symbols are known or many.
fn run_sums(table: &[u8; 4096], start: u8, symbols: &[u8; 48], few: bool) -> u8x16
    ensures { start < 207 → (i : ℕ) → i < 16 → slice_index result i ≡ spaced_sum table.now symbols.now (207 - start) i 48 }
{
    if few {
        sums_of_known(table, start, symbols)
    } else {
        sums_of_run(table, start, symbols)
    }
}

/// What the lanes of the run with this start come to.
fn sums_of_run(table: &[u8; 4096], start: u8, symbols: &[u8; 48]) -> u8x16
    ensures { start < 207 → (i : ℕ) → i < 16 → slice_index result i ≡ spaced_sum table.now symbols.now (207 - start) i 48 }
{
    let mut sums = u8x16::splat(0);
    if start >= 207 {
        return sums;
    }
    let first = 207 - usize::from(start);
    for p in 0..48usize {
        sums = sums ^ scaled(lanes_from(table, 16 * (first + p)), symbols[p]);
    }
    sums
}

/// The same where few symbols are known, and most are 0. Elsewhere that branch costs more than it saves.
fn sums_of_known(table: &[u8; 4096], start: u8, symbols: &[u8; 48]) -> u8x16
    ensures { start < 207 → (i : ℕ) → i < 16 → slice_index result i ≡ spaced_sum table.now symbols.now (207 - start) i 48 }
{
    let mut sums = u8x16::splat(0);
    if start >= 207 {
        return sums;
    }
    let first = 207 - usize::from(start);
    for p in 0..48usize {
        sums = plus_multiple(sums, symbols[p], lanes_from(table, 16 * (first + p)));
    }
    sums
}

/// Adds at each place what its lane comes to, times its weight.
fn add_found(word: &mut [u8], places: &[u8], sums: &[u8; 208], lanes: &[u8; 48], weights: &[Gf; 48])
    requires length { length word.old ≡ 255 }
    requires places { ArePlaces places.now }
    requires within_limit { length places.now ≤ 48 }
    requires lanes { (j : ℕ) → j < length places.now → slice_index lanes.now j < 208 }
    ensures { (vs : List ℕ) → length vs ≡ length places.now
        → ((j : ℕ) → j < length places.now
        → slice_index vs j ≡ times (slice_index weights.now j) (slice_index sums.now (slice_index lanes.now j)))
        → word.new ≡ word_with places.now vs word.old }
{
    for (j, place) in places.iter().enumerate() {
        let sum = Gf(sums[usize::from(lanes[j])]);
        word[usize::from(*place)] ^= weights[j].mul(sum).0;
    }
}
